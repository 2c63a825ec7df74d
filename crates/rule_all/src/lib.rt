// One grouping, by rules a to h; `values` has f to h.
#![tactic(auto)]

ghost use Rattle.std.specs.Prelude.{◌≡◌, true, List, eqb, ℕ, ◌+◌, ◌≤◌, ◌<◌, length, drop};
ghost use Rattle.model.specs.declared.Loading.{Loading};
ghost use Rattle.model.specs.Rules.{grouping};
ghost use Rattle.model.specs.Stages.{from_e, from_d, from_c, from_b};
ghost use Rattle.walk_course.specs.Steps.{on, Judges, Within, Stands, Dued};
ghost use Rattle.rule_all.specs.Rooms.{room_spot, Placed};

use model::{Head, Header, RECORD_ROW, Running, Spot, Verdict};
use walk_course::Step;

// Rule e: where a record lies, and the most bytes that the value may have.
pub fn room_of(spot: Spot, row: usize) -> Spot
    requires { (1 ≤ row) × (row ≤ 11) }
    ensures { result ≡ room_spot spot row }
{
    if row == RECORD_ROW {
        return spot;
    }
    let x = row_table::row_at(row);
    Spot::At {
        base: 0,
        size: x.most,
    }
}

fn from_e(spot: Spot, p: Running, capacity: u8, row: usize, h: Head, d: &[u8], at: usize) -> Step
    requires { (1 ≤ row) × (row ≤ 11) × Within spot × (1 ≤ h.size) × (at + h.size ≤ length d.now) }
    ensures { (l : Loading) (a : List ℕ) → Dued p spot h.tag row l a
        → Judges capacity result d.now at l a (from_e capacity row h (drop at d.now) (on p l a)) }
{
    let room = room_of(spot, row);
    match room {
        Spot::At { base, size } => rule_values::from_f(p, capacity, row, base, size, h, d, at),
        Spot::Nowhere => walk_course::failed_by(0x6A88, p),
    }
}

// Rule d and what follows.
fn from_d(spot: Spot, p: Running, capacity: u8, h: Head, d: &[u8], at: usize) -> Step
    requires { Within spot × (1 ≤ h.size) × (at + h.size ≤ length d.now) }
    ensures { (l : Loading) (a : List ℕ) → eqb p.internal 0x5A ≡ true → Stands p spot h.tag l a
        → Judges capacity result d.now at l a (from_d capacity h (drop at d.now) (on p l a)) }
{
    let verdict = row_due::due_row(p.rows, p.last, h.tag);
    match verdict {
        Verdict::Passes(row) => from_e(spot, p, capacity, row, h, d, at),
        Verdict::Refuses(w) => walk_course::failed_by(w, p),
    }
}

// Rule c and what follows: the state becomes '5A' before any later check.
fn from_c(spot: Spot, p: Running, capacity: u8, h: Head, d: &[u8], at: usize) -> Step
    requires { Within spot × (1 ≤ h.size) × (at + h.size ≤ length d.now) }
    ensures { (l : Loading) (a : List ℕ) → Stands p spot h.tag l a
        → Judges capacity result d.now at l a (from_c capacity h (drop at d.now) (on p l a)) }
{
    if p.internal == 0xA5 {
        return walk_course::failed_by(0x6985, p);
    }
    let mut next = p;
    next.internal = 0x5A;
    from_d(spot, next, capacity, h, d, at)
}

// Rules b to h of a grouping whose header is whole; it begins at `at`.
fn from_b(spot: Spot, p: Running, capacity: u8, p1: u8, h: Head, d: &[u8], at: usize) -> Step
    requires { Within spot × (at < length d.now) × (1 ≤ h.size) × (at + h.size ≤ length d.now) }
    ensures { (l : Loading) (a : List ℕ) → Stands p spot h.tag l a
        → Judges capacity result d.now at l a
        (from_b capacity (length d.now) p1 h (drop at d.now) (on p l a)) }
{
    let tag = h.tag;
    if header::is_query(tag) {
        return rule_queries::queried(p, p1, h, d.len(), at);
    }
    from_c(spot, p, capacity, h, d, at)
}

// One grouping, by rules a to h; it begins at `at`, and its record, if it is one, lies at `spot`.
pub fn grouping_at(spot: Spot, p: Running, capacity: u8, p1: u8, d: &[u8], at: usize) -> Step
    requires { Within spot × (at < length d.now) }
    ensures { (l : Loading) (a : List ℕ) → Placed p spot (drop at d.now) l a
        → Judges capacity result d.now at l a
        (grouping capacity (length d.now) p1 (drop at d.now) (on p l a)) }
{
    let header = header::header_at(d, at);
    match header {
        Header::Whole(h) => from_b(spot, p, capacity, p1, h, d, at),
        Header::Torn => walk_course::failed_by(0x6A80, p),
    }
}
