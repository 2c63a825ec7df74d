// What a step of a command's walk comes to: small, whatever it judged. The owner of the loading part and of the file
// area makes the change.
#![tactic(auto)]

ghost use Rattle.std.specs.Prelude.{◌≡◌, ◌≤◌};
ghost use Rattle.model.specs.Loads.{running_taken, running_open, held_dropped};
ghost use Rattle.walk_course.specs.declared.Course.TheVariants.{Failed};

use model::{Open, Running};

// How a step ends: a value is to be kept, bytes are to be laid in the file area, bytes of '3100' are to be taken, all
// of them named by places of the data; a query was asked; or it failed by a word.
#[derive(Clone, Copy)]
pub enum Course {
    Keeps {
        row: usize,
        start: usize,
        end: usize,
    },
    Lays {
        to: usize,
        start: usize,
        end: usize,
    },
    Feeds(usize),
    Asked(u16),
    Failed(u16),
}

#[derive(Clone, Copy)]
pub struct Step {
    pub course: Course,
    pub running: Running,
}

// A step that failed.
pub fn failed_by(w: u16, p: Running) -> Step
    ensures { result ≡ record { course = Failed w; running = p } }
{
    Step {
        course: Course::Failed(w),
        running: p,
    }
}

// As far, with another open value.
pub fn with_open(p: Running, o: Open) -> Running
    ensures { result ≡ running_open o p }
{
    Running {
        internal: p.internal,
        rows: p.rows,
        last: p.last,
        pending: o,
    }
}

// The held bytes where an open value is dropped: they go with it, and with nothing open they stay.
pub fn held_dropped(p: Running, held: [u8; 18]) -> [u8; 18]
    ensures { result ≡ held_dropped p.pending held }
{
    let pending = p.pending;
    match pending {
        Open::Shut => held,
        Open::Table {
            held: _,
            missing: _,
        } => [0; 18],
        Open::Record {
            tag: _,
            written: _,
            missing: _,
        } => [0; 18],
    }
}

pub fn with_taken(mut p: Running, r: usize) -> Running
    requires { (1 ≤ r) × (r ≤ 11) }
    ensures { result ≡ running_taken r p }
{
    p.rows = row_sets::with_row(p.rows, r);
    p
}
