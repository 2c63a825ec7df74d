// When a row may come: the order of the rows.
#![tactic(auto)]

ghost use Rattle.std.specs.Prelude.{◌≡◌, ◌-◌, ◌≤◌, ◌<◌};
ghost use Rattle.model.specs.Rows.{rising, due};
ghost use Rattle.model.specs.Rules.{due_row};

use model::{RECORD_ROW, Verdict};

fn is_rising(rows: u16, last: u16, tag: u16) -> bool
    ensures { result ≡ rising rows last tag }
{
    if row_sets::is_taken(rows, RECORD_ROW) {
        return last < tag;
    }
    true
}

// A row may come, with this tag.
pub fn is_due(rows: u16, last: u16, r: usize, tag: u16) -> bool
    requires { (1 ≤ r) × (r ≤ 11) }
    ensures { result ≡ due rows last r tag }
{
    // asked by itself, for speed: most groupings are records, and of a constant the compiler makes one test
    if r == RECORD_ROW {
        if row_table::missing_before(rows, RECORD_ROW - 1) {
            return false;
        }
        return is_rising(rows, last, tag);
    }
    if row_table::missing_before(rows, r - 1) {
        return false;
    }
    rows >> (r - 1) == 0
}

// Rule d: the row of a tag that may come now.
pub fn due_row(rows: u16, last: u16, tag: u16) -> Verdict
    ensures { result ≡ due_row rows last tag }
{
    let r = row_table::row_of(tag);
    if r == 0 {
        return Verdict::Refuses(0x6A88);
    }
    if is_due(rows, last, r, tag) {
        return Verdict::Passes(r);
    }
    Verdict::Refuses(0x6985)
}
