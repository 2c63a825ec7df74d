// A session, played block by block: any number of events, in the memory of one block. What `replay` and `show` share,
// and how `trace` begins.
#![tactic(auto)]

ghost use Rattle.std.specs.Prelude.{◌≡◌, ◌+◌, ◌*◌, ◌/◌, ◌≤◌, ◌<◌, length, IfOk};
ghost use Rattle.lists.specs.Bytes.{zeros};
ghost use Rattle.model.specs.Stored.{area_size};
ghost use Rattle.theorem_sound.specs.Keeps.{Good};
ghost use Rattle.register_entries.specs.Entries.{entered_of};
ghost use Rattle.io_playing.specs.Blocks.{Plays, PlaysBlock};
ghost use Rattle.io_playing.specs.Endings.{status_after};

use io_edge::{Failure, Page, Source, Status, Voice};
use io_remarks::Noted;
use model::{AREA_SIZE, CHIP_SIZE, Card, LINE_SIZE, RECORD_SIZE};
use register_entries::Entered;

// 126 records.
const BLOCK_SIZE: usize = 32760;

// Lines are gathered over ten blocks: so many bytes, and so many of one block.
const LINES_SIZE: usize = 32760;

const BLOCK_LINES: usize = 3276;

pub fn clear_area() -> [u8; AREA_SIZE]
    ensures { (result ≡ zeros area_size) × (4096 ≡ length result) }
{
    [0; AREA_SIZE]
}

// The fresh card of a session, and whether there is a session to play: Done, or Refused, or why none could be read.
#[derive(Clone, Copy)]
pub struct Begun {
    pub card: Card,
    pub status: Result<Status, Failure>,
}

// A chip record that was read. What is wrong with it is said.
fn begin_with(voice: Voice, chip: &[u8]) -> Begun
    ensures { Good area_size result.card (zeros area_size) }
{
    let made = card_fresh::fresh(chip);
    let refused = made.number != 0;
    if refused {
        io_remarks::note_chip(voice, chip);
    }
    Begun {
        card: made.card,
        status: Ok(Status::of(refused)),
    }
}

pub fn begin(source: &mut Source) -> Begun
    ensures good { Good area_size result.card (zeros area_size) }
    ensures stays { (source.new.voice ≡ source.old.voice) × (source.new.is_text ≡ source.old.is_text) }
{
    let mut chip = [0u8; CHIP_SIZE];
    match source.read(&mut chip) {
        Ok(n) => begin_with(source.voice, &chip[..n]),
        Err(e) => Begun {
            card: card_fresh::fresh(&chip[..e.count]).card,
            status: Err(e.into()),
        },
    }
}

// How far a session is played: the card, the number of events by its last five digits, what was noted of them, how
// many bytes of lines are gathered (a `Line` lends no slice for `enter_all` to write into), and how many of the session
// are behind the last whole record.
#[derive(Clone, Copy)]
struct Stand {
    card: Card,
    count: u64,
    noted: Noted,
    gathered: usize,
    left: usize,
}

// The lines so far go out behind the last block, and where another block's might not fit; not at all where there is
// no page. How many bytes of them stay.
fn gathered(page: Option<Page>, lines: &[u8], is_last: bool) -> Result<usize, Failure>
    ensures { IfOk result (λ n. n + BLOCK_LINES ≤ LINES_SIZE) }
{
    if let Some(page) = page {
        if !is_last && lines.len() <= LINES_SIZE - BLOCK_LINES {
            return Ok(lines.len());
        }
        page.print(lines)?;
    }
    Ok(0)
}

// Whole records are played, and their lines written from `at` on.
fn enter_at(
    c: Card,
    area: &mut [u8],
    records: &[u8],
    count: u64,
    lines: &mut [u8],
    at: usize,
) -> Entered
    requires { Good area_size c area.old × (count < 100000)
        × (at + length records.now / 260 * 26 ≤ length lines.old) }
    ensures good { Good area_size result.card area.new × (result.count < 100000) }
    ensures plays { Plays (entered_of (length records.now / 260) count c area.old records.now)
        result.card area.new result.count }
{
    register_entries::enter_all(c, area, records, count, &mut lines[at..])
}

// The whole records of the next block, and how many bytes it has. A torn last record is not an event.
fn play_block(
    s: &mut Stand,
    source: &mut Source,
    page: Option<Page>,
    area: &mut [u8],
    block: &mut [u8],
    lines: &mut [u8],
) -> Result<usize, Failure>
    requires { Good area_size s.old.card area.old × (s.old.count < 100000) × (length block.old ≡ BLOCK_SIZE)
        × (length lines.old ≡ LINES_SIZE) × (s.old.gathered + BLOCK_LINES ≤ LINES_SIZE) }
    ensures good { Good area_size s.new.card area.new × (s.new.count < 100000)
        × (s.new.gathered + BLOCK_LINES ≤ LINES_SIZE) }
    ensures plays { PlaysBlock s.old.count s.old.card area.old block.new s.new.card area.new s.new.count }
    ensures stays { (source.new.voice ≡ source.old.voice) × (source.new.is_text ≡ source.old.is_text) }
{
    let n = source.read(block)?;
    let records = &block[..n];
    let at = s.gathered;
    let entered = enter_at(s.card, area, records, s.count, lines, at);
    s.card = entered.card;
    s.count = entered.count;
    s.left = n % RECORD_SIZE;
    s.noted.note_all(source.voice, records, &lines[at..]);
    let end = at + n / RECORD_SIZE * LINE_SIZE;
    s.gathered = gathered(page, &lines[..end], n < BLOCK_SIZE)?;
    Ok(n)
}

// Block after block. The loop has more turns than a run uses up, since nothing says that an input ends.
fn play_all(
    s: &mut Stand,
    source: &mut Source,
    page: Option<Page>,
    area: &mut [u8],
) -> Result<(), Failure>
    requires { Good area_size s.old.card area.old × (s.old.count < 100000)
        × (s.old.gathered + BLOCK_LINES ≤ LINES_SIZE) }
    ensures good { Good area_size s.new.card area.new }
    ensures stays { (source.new.voice ≡ source.old.voice) × (source.new.is_text ≡ source.old.is_text) }
{
    let mut block = [0u8; BLOCK_SIZE];
    let mut lines = [0u8; LINES_SIZE];
    for _ in 0..u64::MAX {
        if play_block(s, source, page, area, &mut block, &mut lines)? < BLOCK_SIZE {
            return Ok(());
        }
    }
    Err(Failure::NotDone)
}

// How a session that could be read ended: its chip record is refused, and nothing was played; or all of it was.
#[derive(Clone, Copy, Debug, PartialEq, Eq)]
pub enum Ending {
    NoSession,
    Played(Status),
}

impl From<Ending> for Status {
    ghost from_gives = { λ ending status. status ≡ status_after ending };

    fn from(ending: Ending) -> Status {
        match ending {
            Ending::NoSession => Status::Refused,
            Ending::Played(status) => status,
        }
    }
}

// The card that playing a session left, how many events there were, their number by its last five digits, and how it
// ended.
#[derive(Clone, Copy)]
pub struct Outcome {
    pub card: Card,
    pub events: u64,
    pub count: u64,
    pub ending: Result<Ending, Failure>,
}

// A session that begins is played, and its end is told.
fn play_on(
    s: &mut Stand,
    begun: Result<Status, Failure>,
    source: &mut Source,
    page: Option<Page>,
    area: &mut [u8],
) -> Result<Ending, Failure>
    requires { Good area_size s.old.card area.old × (s.old.count < 100000)
        × (s.old.gathered + BLOCK_LINES ≤ LINES_SIZE) }
    ensures good { Good area_size s.new.card area.new }
    ensures stays { (source.new.voice ≡ source.old.voice) × (source.new.is_text ≡ source.old.is_text) }
{
    if begun? == Status::Refused {
        return Ok(Ending::NoSession);
    }
    play_all(s, source, page, area)?;
    Ok(Ending::Played(s.noted.end(source.voice, s.left)))
}

// Plays a session in a clear area. Its lines are printed as they come, where there is a page for them.
pub fn play(source: &mut Source, page: Option<Page>, area: &mut [u8]) -> Outcome
    requires { area.old ≡ zeros area_size }
    ensures good { Good area_size result.card area.new }
    ensures stays { (source.new.voice ≡ source.old.voice) × (source.new.is_text ≡ source.old.is_text) }
{
    let begun = begin(source);
    let mut s = Stand {
        card: begun.card,
        count: 0,
        noted: Noted::default(),
        gathered: 0,
        left: 0,
    };
    let ending = play_on(&mut s, begun.status, source, page, area);
    Outcome {
        card: s.card,
        events: s.noted.events,
        count: s.count,
        ending,
    }
}

// A byte of the area times its place, counted from 1.
fn weight(i: usize, b: u8) -> usize
    requires { i < 4096 }
    ensures { result ≤ 1044480 }
{
    (i + 1) * b as usize
}

// The area's place sum. It stays under 2^32.
pub fn place_sum(area: &[u8]) -> usize
    requires { length area.now ≡ 4096 }
    ensures { result ≤ 4096 * 1044480 }
{
    let mut sum: usize = 0;
    for (i, b) in area.iter().enumerate() {
        sum += weight(i, *b);
    }
    sum
}
