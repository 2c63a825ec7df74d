// The register of a job: its order cut, played on a fresh card of its chip, and a line for each event.
#![tactic(auto)]

ghost use Rattle.std.specs.Prelude.{◌≡◌, ◌≤◌, length};
ghost use Rattle.job_register.specs.Jobs.{refused_as, record_room, job_writing, Registers, Session, Plays};

use model::AREA_SIZE;

// No complete order is cut into more than 45 records: INSTALL and SELECT, and those.
pub const RECORD_ROOM: usize = 12220;

// 47 lines, and END.
pub const LINE_ROOM: usize = 1232;

// How a job ended: its refusal's number, or 0 and how many events there were, and what the card then is.
#[derive(Clone, Copy)]
pub struct Entry {
    pub number: u8,
    pub events: usize,
    pub gp: u8,
    pub internal: u8,
    pub serial: [u8; 8],
}

fn refused_by(number: u8) -> Entry
    ensures { result ≡ refused_as number }
{
    Entry {
        number: number,
        events: 0,
        gp: 0x00,
        internal: 0x00,
        serial: [0; 8],
    }
}

// A laid session of so many events, played on the chip's fresh card: its lines, and END.
fn play(chip: &[u8], records: &[u8], area: &mut [u8], out: &mut [u8]) -> Entry
    requires { Session chip.now records.now (length area.old) (length out.old) }
    ensures { Plays chip.now records.now out.old result area.new
        out.new }
{
    let made = card_fresh::fresh(chip);
    let card = made.card;
    memory::clear(area);
    let last = register_entries::enter_all(card, area, records, 0, out);
    let events = records.len() / model::RECORD_SIZE;
    register_lines::put_end(out, events * model::LINE_SIZE, last.count);
    let serial = last.card.loading.serial;
    Entry {
        number: 0,
        events: events,
        gp: last.card.life.gp,
        internal: last.card.loading.running.internal,
        serial: serial,
    }
}

// How much of the room the records may take: none where the lines lack room, so that nothing is changed then.
fn room_for(records: usize, lines: usize) -> usize
    ensures { result ≡ record_room records lines }
{
    if lines < LINE_ROOM {
        return 0;
    }
    records
}

// The register of a job of this chip, from the front of the lent lines; or the number that refuses it: 1, 7, 9, 10, 11.
pub fn enter_job(
    chip: &[u8],
    order: &[u8],
    room: &mut [u8],
    area: &mut [u8],
    out: &mut [u8],
) -> Entry
    ensures { Registers chip.now
        (job_writing chip.now order.now (length area.old) (length room.old)
        (length out.old)) room.old area.old out.old result room.new
        area.new out.new × (result.events ≤ 47) }
{
    if area.len() != AREA_SIZE {
        return refused_by(1);
    }
    let n = room_for(room.len(), out.len());
    let written = job_session::lay_session(chip, order, &mut room[..n]);
    if written.number != 0 {
        return refused_by(written.number);
    }
    let end = (written.count + 2) * model::RECORD_SIZE;
    play(chip, &room[..end], area, out)
}
