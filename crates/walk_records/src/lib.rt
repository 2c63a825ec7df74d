// The bytes of a record, laid in the file area as they come.
#![tactic(auto)]

ghost use Rattle.std.specs.Prelude.{◌≡◌, ◌+◌, ◌≤◌};
ghost use Rattle.model.specs.Stored.{area_size};
ghost use Rattle.walk_records.specs.Records.{record_run, record_step};

use model::{Open, RECORD_ROW, Running};
use walk_course::{Course, Step};

// A record's value that misses so much: taken whole, or still open.
fn record_run(p: Running, tag: u16, written: usize, missing: usize) -> Running
    ensures { result ≡ record_run tag written missing p }
{
    if missing == 0 {
        return Running {
            internal: p.internal,
            rows: row_sets::with_row(p.rows, RECORD_ROW),
            last: tag,
            pending: Open::Shut,
        };
    }
    walk_course::with_open(
        p,
        Open::Record {
            tag: tag,
            written: written,
            missing: missing,
        },
    )
}

// The bytes from `at` on of a record that begins at `base` and misses so many: as far as data of `len` bytes goes.
pub fn record_step(
    p: Running,
    base: usize,
    tag: u16,
    written: usize,
    missing: usize,
    len: usize,
    at: usize,
) -> Step
    requires { (at ≤ len) × (base + written + missing ≤ area_size) }
    ensures { result ≡ record_step p base tag written missing len at }
{
    let n = memory::least(missing, len - at);
    Step {
        course: Course::Lays {
            to: base + written,
            start: at,
            end: at + n,
        },
        running: record_run(p, tag, written + n, missing - n),
    }
}
