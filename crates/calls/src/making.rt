// The seven calls: each takes its parts from the input, makes the call, and gives it a line. Where a part is at fault,
// the call is not made and there is no line.
ghost use Rattle.std.specs.Prelude.{◌≤◌, length};

use crate::input::{Call, Fault, Input, MEMORY_LIMIT, WORD_LIMIT};
use crate::lines::{
    Lines, put_count, put_made, put_played, put_pulled, put_ran, put_shown, put_written,
};
use model::Card;

// One event.
fn play_on(out: &mut Lines, c: Card, area: &mut [u8], answer: &mut [u8], record: &[u8])
    requires { (length area.old ≤ 12480) × (length answer.old ≤ 12480) }
    ensures { length out.old ≤ length out.new }
{
    let x = face::play(c, area, answer, record);
    put_played(out, &x, area, answer);
}

// Card, area, answer buffer, record.
fn make_play(out: &mut Lines, input: &mut Input) -> Result<(), Fault> {
    let c = input.take_card()?;
    let mut area = [0u8; MEMORY_LIMIT];
    let n = input.take_memory(&mut area)?;
    let mut answer = [0u8; MEMORY_LIMIT];
    let m = input.take_memory(&mut answer)?;
    let mut record = [0u8; MEMORY_LIMIT];
    let k = input.take_memory(&mut record)?;
    play_on(out, c, &mut area[..n], &mut answer[..m], &record[..k]);
    Ok(())
}

// A session.
fn run_on(out: &mut Lines, c: Card, area: &mut [u8], session: &[u8], words: &mut [u16])
    requires { (length area.old ≤ 12480) × (length words.old ≤ 64) }
    ensures { length out.old ≤ length out.new }
{
    let x = face::run(c, area, session, words);
    put_ran(out, &x, area, words);
}

// Card, area, session, words.
fn make_run(out: &mut Lines, input: &mut Input) -> Result<(), Fault> {
    let c = input.take_card()?;
    let mut area = [0u8; MEMORY_LIMIT];
    let n = input.take_memory(&mut area)?;
    let mut session = [0u8; MEMORY_LIMIT];
    let m = input.take_memory(&mut session)?;
    let mut words = [0u16; WORD_LIMIT];
    let k = input.take_words(&mut words)?;
    run_on(out, c, &mut area[..n], &session[..m], &mut words[..k]);
    Ok(())
}

// A file's record.
fn shown_on(out: &mut Lines, c: Card, area: &[u8], sfi: u8, nn: u8)
    requires { length area.now ≤ 12480 }
    ensures { length out.old ≤ length out.new }
{
    let x = face::shown(c, area, sfi, nn);
    put_shown(out, &x, face::part_shown(area, x));
}

// Card, area, SFI, nn.
fn make_shown(out: &mut Lines, input: &mut Input) -> Result<(), Fault> {
    let c = input.take_card()?;
    let mut area = [0u8; MEMORY_LIMIT];
    let n = input.take_memory(&mut area)?;
    let asked = input.take_array::<2>()?;
    shown_on(out, c, &area[..n], asked[0], asked[1]);
    Ok(())
}

// The rows of a set.
fn make_count(out: &mut Lines, input: &mut Input) -> Result<(), Fault> {
    let rows = u16::from_be_bytes(input.take_array()?);
    put_count(out, face::count(rows));
    Ok(())
}

// The fresh card of a chip record.
fn make_fresh(out: &mut Lines, input: &mut Input) -> Result<(), Fault> {
    let mut chip = [0u8; MEMORY_LIMIT];
    let n = input.take_memory(&mut chip)?;
    let x = face::fresh(&chip[..n]);
    put_made(out, &x);
    Ok(())
}

// The writer's records.
fn write_on(out: &mut Lines, chip: &[u8], order: &[u8], room: &mut [u8])
    requires { length room.old ≤ 12480 }
    ensures { length out.old ≤ length out.new }
{
    let x = face::write(chip, order, room);
    put_written(out, &x, room);
}

// Chip record, order, room.
fn make_write(out: &mut Lines, input: &mut Input) -> Result<(), Fault> {
    let mut chip = [0u8; MEMORY_LIMIT];
    let n = input.take_memory(&mut chip)?;
    let mut order = [0u8; MEMORY_LIMIT];
    let m = input.take_memory(&mut order)?;
    let mut room = [0u8; MEMORY_LIMIT];
    let k = input.take_memory(&mut room)?;
    write_on(out, &chip[..n], &order[..m], &mut room[..k]);
    Ok(())
}

// A pull of the reader at a place: what it finds, and the value that it hands back.
fn pull_on(out: &mut Lines, order: &[u8], place: usize)
    requires { length order.now ≤ 12480 }
    ensures { length out.old ≤ length out.new }
{
    let x = face::pulled_at(order, place);
    put_pulled(out, &x, face::value_pulled(order, place));
}

// Order, place.
fn make_pull(out: &mut Lines, input: &mut Input) -> Result<(), Fault> {
    let mut order = [0u8; MEMORY_LIMIT];
    let n = input.take_memory(&mut order)?;
    let place = u64::from_be_bytes(input.take_array()?) as usize;
    pull_on(out, &order[..n], place);
    Ok(())
}

// A call and its line.
pub fn make(call: Call, out: &mut Lines, input: &mut Input) -> Result<(), Fault> {
    match call {
        Call::Play => make_play(out, input),
        Call::Run => make_run(out, input),
        Call::Shown => make_shown(out, input),
        Call::Count => make_count(out, input),
        Call::Fresh => make_fresh(out, input),
        Call::Write => make_write(out, input),
        Call::Pull => make_pull(out, input),
    }
}
