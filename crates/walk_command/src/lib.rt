// One STORE DATA command: an open value's bytes, the groupings by rules a to h, the end. What is judged is small; the
// loading part is changed here, in place.
#![tactic(auto)]

ghost use Rattle.std.specs.Prelude.{◌≡◌, List, ℕ, ◌≤◌, length, drop, false};
ghost use Rattle.model.specs.Stored.{area_size};
ghost use Rattle.model.specs.Loads.{with_running};
ghost use Rattle.model.specs.Rules.{thence};
ghost use Rattle.model.specs.declared.Card.{Card};
ghost use Rattle.model.specs.Command.{the_end};
ghost use Rattle.model.specs.Events.{commanded};
ghost use Rattle.theorem_sound.proofs.Inside.{Steady};
ghost use Rattle.walk_course.specs.Steps.{state_of, on};
ghost use Rattle.walk_step.specs.Paces.{onward};
ghost use Rattle.walk_command.specs.Ends.{end_of, Walked, end_word, erred_as, Settles};

use model::{Loading, Open, Running, Spot, Verdict};
use walk_course::Course;

// How the walk over a command's data ended: all of it was taken, a query was asked, or it failed by a word.
#[derive(Clone, Copy)]
pub enum End {
    Done,
    Asked(u16),
    Failed(u16),
}

// The end, where the last step began, and the loading part then.
#[derive(Clone, Copy)]
pub struct Ended {
    pub end: End,
    pub place: usize,
    pub load: Loading,
}

// From `at` on: what an open value misses, and then the groupings.
pub fn walked(
    mut load: Loading,
    area: &mut [u8],
    capacity: u8,
    p1: u8,
    d: &[u8],
    at: usize,
) -> Ended
    requires { (at ≤ length d.now) × Steady area_size (state_of load area.old) }
    ensures { Walked result.end result.place result.load area.new
        (onward capacity (length d.now) p1 at (drop at d.now)
        (state_of load area.old)) }
{
    let mut i = at;
    let mut place = at;
    while i < d.len() {
        let p = load.running;
        let tag = walk_step::wanted(p, d, i);
        let sfi = (tag / 256) as u8;
        let nn = (tag % 256) as u8;
        let mut spot = Spot::Nowhere;
        let mut base: usize = 0;
        let mut j = table_places::scan_from(sfi, load.count);
        while j < load.count {
            let f = load.files[j];
            if f.sfi == sfi {
                spot = table_places::spot_in(f, base, nn);
                j = load.count;
            } else {
                base += table_fields::size_of(f);
                j += 1;
            }
        }
        place = i;
        let s = walk_step::step_at(spot, p, capacity, p1, d, i);
        let next = s.running;
        load.running = next;
        let course = s.course;
        match course {
            Course::Lays { to, start, end } => {
                memory::lay(&mut area[to..to + (end - start)], &d[start..end]);
                i = end;
            }
            Course::Keeps { row, start, end } => {
                load = rule_content::kept_as(load, capacity, row, &d[start..end]);
                i = end;
            }
            Course::Feeds(from) => {
                let t = walk_table::table_fed(load, d, from);
                load = t.load;
                let verdict = t.verdict;
                match verdict {
                    Verdict::Passes(to) => {
                        i = to;
                    }
                    Verdict::Refuses(w) => {
                        return Ended {
                            end: End::Failed(w),
                            place: place,
                            load: load,
                        };
                    }
                }
            }
            Course::Asked(t) => {
                return Ended {
                    end: End::Asked(t),
                    place: place,
                    load: load,
                };
            }
            Course::Failed(w) => {
                return Ended {
                    end: End::Failed(w),
                    place: place,
                    load: load,
                };
            }
        }
    }
    Ended {
        end: End::Done,
        place: place,
        load: load,
    }
}

// The word of the end, where it is asked for: no mandatory row is missing, and no value open.
pub fn end_word(p: Running) -> u16
    ensures { result ≡ end_word p }
{
    if row_table::mandatory_missing(p.rows) {
        return 0x6985;
    }
    let pending = p.pending;
    match pending {
        Open::Shut => 0x9000,
        Open::Table {
            held: _,
            missing: _,
        } => 0x6985,
        Open::Record {
            tag: _,
            written: _,
            missing: _,
        } => 0x6985,
    }
}

// What a command comes to: its word, how far the loading is then, and whether the card locks by it, which drops an
// open value.
#[derive(Clone, Copy)]
pub struct Said {
    pub word: u16,
    pub running: Running,
    pub locks: bool,
}

// Without an error.
fn passed(p: Running) -> Said
    ensures { result ≡ record { word = 0x9000; running = p; locks = false } }
{
    Said {
        word: 0x9000,
        running: p,
        locks: false,
    }
}

// An error: in '5A' it locks.
fn erred(w: u16, p: Running) -> Said
    ensures { result ≡ erred_as w p }
{
    if p.internal == 0x5A {
        return Said {
            word: w,
            running: walk_course::with_open(p, Open::Shut),
            locks: true,
        };
    }
    Said {
        word: w,
        running: p,
        locks: false,
    }
}

// The end of a command whose walk ended so: P1 bit 8 asks for it.
pub fn settled(end: End, p: Running, p1: u8) -> Said
    ensures { (c : Card) (l : Loading) (a : List ℕ)
        → Settles result c (with_running p l) a (commanded c (thence (end_of end (on p l a)) (λ k. the_end p1))) }
{
    match end {
        End::Done => {
            if p1 < 0x80 {
                return passed(p);
            }
            let w = end_word(p);
            if w == 0x9000 {
                let mut next = p;
                next.internal = 0xA5;
                return passed(next);
            }
            erred(w, p)
        }
        End::Asked(_) => passed(p),
        End::Failed(w) => erred(w, p),
    }
}
