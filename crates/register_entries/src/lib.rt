// The register: records played one after the other, and a line for each. It owns the card's parts, and changes them
// in place: what is judged elsewhere is small.
#![tactic(auto)]

ghost use Rattle.std.specs.Prelude.{◌≡◌, ◌+◌, ◌*◌, ◌/◌, ◌≤◌, ◌<◌, length};
ghost use Rattle.model.specs.Stored.{area_size};
ghost use Rattle.theorem_sound.specs.Keeps.{Good};
ghost use Rattle.register_entries.specs.Entries.{entered_of, Enters};
ghost use Rattle.register_entries.specs.Owned.{span_of, held_as, shut_as, locked_as};

use model::{Card, DATA_PLACE, LINE_SIZE, Life, Open, RECORD_SIZE, Running, Spot, Verdict};
use walk_command::End;
use walk_course::Course;

// Event numbers are printed by their last five digits.
pub const NUMBERS: u64 = 100_000;

// The card after some records, and the last five digits of the number of events so far.
#[derive(Clone, Copy)]
pub struct Entered {
    pub card: Card,
    pub count: u64,
}

// How many bytes a record has for the walk: none where it is no command, or refused by a number.
fn span(number: u8, life: Life, internal: u8, kind: u8, n: usize) -> usize
    ensures { result ≡ span_of number life.gp internal life.selected kind n }
{
    if number != 0 {
        return 0;
    }
    if event_replies::commands(life, internal, kind, n) {
        return n;
    }
    0
}

// Where the card locks: an open value is dropped with the held bytes, and it is at '87', not selected.
fn held_as(held: [u8; 18], p: Running, locks: bool) -> [u8; 18]
    ensures { result ≡ held_as held p locks }
{
    if locks {
        return walk_course::held_dropped(p, held);
    }
    held
}

fn shut_as(p: Running, locks: bool) -> Running
    ensures { result ≡ shut_as p locks }
{
    if locks {
        return walk_course::with_open(p, Open::Shut);
    }
    p
}

fn locked_as(life: Life, locks: bool) -> Life
    ensures { result ≡ locked_as life locks }
{
    if locks {
        let mut next = life;
        next.gp = 0x87;
        next.selected = false;
        return next;
    }
    life
}

// Whole records end to end: each is played, and its line written behind the others.
pub fn enter_all(
    c: Card,
    area: &mut [u8],
    records: &[u8],
    mut count: u64,
    out: &mut [u8],
) -> Entered
    requires { Good area_size c area.old × (count < 100000)
        × (length records.now / 260 * 26 ≤ length out.old) }
    ensures { Good area_size result.card area.new × (result.count < 100000)
        × Enters (entered_of (length records.now / 260) count c area.old records.now)
        result.card area.new result.count out.old out.new }
{
    let mut answer = [0u8; 64];
    let chip = c.chip;
    let capacity = chip.capacity;
    let mut life = c.life;
    let mut load = c.loading;
    let mut i: usize = 0;
    let k = records.len() / RECORD_SIZE;
    while i < k {
        let from = i * RECORD_SIZE;
        let r = &records[from..from + RECORD_SIZE];
        let number = event_kinds::fault_in(r);
        let p1 = r[1];
        let stop = DATA_PLACE + memory::wide(r[3]);
        let d = &r[DATA_PLACE..stop];
        let n = span(number, life, load.running.internal, r[0], d.len());
        let mut at: usize = 0;
        let mut end = End::Done;
        while at < n {
            let p = load.running;
            let tag = walk_step::wanted(p, d, at);
            let sfi = (tag / 256) as u8;
            let nn = (tag % 256) as u8;
            let mut spot = Spot::Nowhere;
            let mut base: usize = 0;
            let mut j = table_places::scan_from(sfi, load.count);
            while j < load.count {
                let f = load.files[j];
                if f.sfi == sfi {
                    spot = table_places::spot_in(f, base, nn);
                    j = load.count;
                } else {
                    base += table_fields::size_of(f);
                    j += 1;
                }
            }
            let s = walk_step::step_at(spot, p, capacity, p1, d, at);
            let next = s.running;
            load.running = next;
            let course = s.course;
            match course {
                Course::Lays {
                    to,
                    start,
                    end: stop,
                } => {
                    memory::lay(&mut area[to..to + (stop - start)], &d[start..stop]);
                    at = stop;
                }
                Course::Keeps {
                    row,
                    start,
                    end: stop,
                } => {
                    load = rule_content::kept_as(load, capacity, row, &d[start..stop]);
                    at = stop;
                }
                Course::Feeds(start) => {
                    let t = walk_table::table_fed(load, d, start);
                    load = t.load;
                    let verdict = t.verdict;
                    match verdict {
                        Verdict::Passes(to) => {
                            at = to;
                        }
                        Verdict::Refuses(w) => {
                            end = End::Failed(w);
                            at = n;
                        }
                    }
                }
                Course::Asked(t) => {
                    end = End::Asked(t);
                    at = n;
                }
                Course::Failed(w) => {
                    end = End::Failed(w);
                    at = n;
                }
            }
        }
        let mut word: u16 = 0x0000;
        if n != 0 {
            let x = walk_command::settled(end, load.running, p1);
            word = x.word;
            let held = held_as(load.held, load.running, x.locks);
            load.held = held;
            let next = x.running;
            load.running = next;
            life = locked_as(life, x.locks);
        } else if number == 0 {
            let card = Card {
                chip: chip,
                life: life,
                loading: load,
            };
            let x = event_replies::lived(card, area, &mut answer, r[0], p1, d);
            word = x.word;
            life = x.life;
            let held = held_as(load.held, load.running, x.locks);
            load.held = held;
            let shut = shut_as(load.running, x.locks);
            load.running = shut;
        }
        count = (count + 1) % NUMBERS;
        register_lines::put_line(
            out,
            i * LINE_SIZE,
            count,
            r[0],
            number,
            word,
            life.gp,
            load.running.internal,
            load.running.rows,
        );
        i += 1;
    }
    Entered {
        card: Card {
            chip: chip,
            life: life,
            loading: load,
        },
        count: count,
    }
}
