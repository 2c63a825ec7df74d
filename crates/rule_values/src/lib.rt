// A grouping's value, by rules f to h: its length, whether it is whole, its bytes.
#![tactic(auto)]

ghost use Rattle.std.specs.Prelude.{◌≡◌, true, List, ℕ, ◌+◌, ◌≤◌, ◌<◌, length, drop};
ghost use Rattle.model.specs.declared.Loading.{Loading};
ghost use Rattle.model.specs.Stored.{area_size};
ghost use Rattle.model.specs.Rows.{row_at};
ghost use Rattle.model.specs.Rules.{spanned, length_ok};
ghost use Rattle.model.specs.Stages.{from_f};
ghost use Rattle.walk_course.specs.Lengths.{fits_row};
ghost use Rattle.walk_course.specs.Steps.{on, Judges, Roomed};

use model::{Head, Open, Row, Running, TABLE_ROW};
use walk_course::{Course, Step};

// Rule h of a value that may run on; it begins at `at`, and a record that it is for at `base`.
fn spanned_at(p: Running, row: usize, base: usize, h: Head, d: &[u8], at: usize) -> Step
    requires { (1 ≤ row) × (row ≤ 11) × ((row_at row).spans ≡ true) × (base + h.len ≤ area_size)
        × (at ≤ length d.now) }
    ensures { (capacity place room : ℕ) (l : Loading) (a : List ℕ) → place < at
        → length_ok row room h.len ≡ true → Roomed p h.tag row base room l a
        → Judges capacity result d.now place l a (spanned row h (drop at d.now) (on p l a)) }
{
    let len = h.len;
    if row == TABLE_ROW {
        return Step {
            course: Course::Feeds(at),
            running: walk_course::with_open(
                p,
                Open::Table {
                    held: 0,
                    missing: len,
                },
            ),
        };
    }
    walk_records::record_step(p, base, h.tag, 0, len, d.len(), at)
}

pub fn fits_row(x: Row, room: usize, len: usize) -> bool
    requires { 1 ≤ x.step }
    ensures { result ≡ fits_row x room len }
{
    if len < x.least {
        return false;
    }
    if room < len {
        return false;
    }
    if x.step == 1 {
        return true; // without a division
    }
    len % x.step == 0
}

// Rules f, g and h; the grouping's header begins at `at`.
pub fn from_f(
    p: Running,
    capacity: u8,
    row: usize,
    base: usize,
    room: usize,
    h: Head,
    d: &[u8],
    at: usize,
) -> Step
    requires { (1 ≤ row) × (row ≤ 11) × (base + room ≤ area_size) × ((row ≡ 11 → ⊥) → room ≡ (row_at row).most)
        × (1 ≤ h.size) × (at + h.size ≤ length d.now) }
    ensures { (l : Loading) (a : List ℕ) → Roomed p h.tag row base room l a
        → Judges capacity result d.now at l a
        (from_f capacity row room h (drop at d.now) (on p l a)) }
{
    let x = row_table::row_at(row);
    let start = at + h.size;
    if fits_row(x, room, h.len) {
        if x.spans {
            return spanned_at(p, row, base, h, d, start);
        }
        if h.len <= d.len() - start {
            return rule_content::whole_at(p, capacity, row, h, d, start);
        }
        return walk_course::failed_by(0x6A80, p);
    }
    walk_course::failed_by(0x6700, p)
}
