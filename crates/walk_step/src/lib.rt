// One step of a command: an open value's bytes, or one grouping.
#![tactic(auto)]

ghost use Rattle.std.specs.Prelude.{◌≡◌, List, ℕ, ◌<◌, length, drop};
ghost use Rattle.model.specs.declared.Loading.{Loading};
ghost use Rattle.model.specs.declared.Open.TheVariants.{Record};
ghost use Rattle.model.specs.declared.Spot.TheVariants.{At};
ghost use Rattle.model.specs.Stored.{area_size};
ghost use Rattle.model.specs.Loads.{file_list};
ghost use Rattle.model.specs.Rules.{tag_spot};
ghost use Rattle.theorem_sound.proofs.Inside.{Steady};
ghost use Rattle.walk_course.specs.Steps.{on, Judges, Within};
ghost use Rattle.walk_records.specs.Records.{record_step};
ghost use Rattle.walk_step.specs.Turns.{head_tag, wanted_tag, Fits, step_of};

use model::{Header, Open, Running, Spot};
use walk_course::{Course, Step};
use walk_records::record_step;

// A tag that no record has.
const NONE: u16 = 0x0000;

// The tag of the record whose header comes at `at`.
fn head_tag(d: &[u8], at: usize) -> u16
    requires { at < length d.now }
    ensures { result ≡ head_tag (drop at d.now) }
{
    let header = header::header_at(d, at);
    match header {
        Header::Whole(h) => {
            let tag = h.tag;
            if row_table::is_record(tag) {
                return tag;
            }
            NONE
        }
        Header::Torn => NONE,
    }
}

// The tag of the record that the next step is about, or 0: whoever has the file table finds its place.
pub fn wanted(p: Running, d: &[u8], at: usize) -> u16
    requires { at < length d.now }
    ensures { result ≡ wanted_tag p.pending (drop at d.now) }
{
    let pending = p.pending;
    match pending {
        Open::Shut => head_tag(d, at),
        Open::Table {
            held: _,
            missing: _,
        } => NONE,
        Open::Record {
            tag,
            written: _,
            missing: _,
        } => tag,
    }
}

// An open record's bytes; it lies at `spot`.
fn record_at(
    p: Running,
    spot: Spot,
    tag: u16,
    written: usize,
    missing: usize,
    len: usize,
    at: usize,
) -> Step
    requires { (at < len) × Within spot × Fits (Record tag written missing) spot }
    ensures { (base size : ℕ) → spot ≡ At base size → result ≡ record_step p base tag written missing len at }
{
    match spot {
        Spot::At { base, size: _ } => record_step(p, base, tag, written, missing, len, at),
        // an open record is listed
        Spot::Nowhere => walk_course::failed_by(0x6A88, p),
    }
}

// One step; the record that is wanted lies at `spot`.
pub fn step_at(spot: Spot, p: Running, capacity: u8, p1: u8, d: &[u8], at: usize) -> Step
    requires { (at < length d.now) × Within spot × Fits p.pending spot }
    ensures { (l : Loading) (a : List ℕ) → Steady area_size (on p l a)
        → spot ≡ tag_spot (file_list l) (wanted_tag p.pending (drop at d.now))
        → Judges capacity result d.now at l a
        (step_of capacity (length d.now) p1 (drop at d.now) (on p l a)) }
{
    let pending = p.pending;
    match pending {
        Open::Shut => rule_all::grouping_at(spot, p, capacity, p1, d, at),
        Open::Table {
            held: _,
            missing: _,
        } => Step {
            course: Course::Feeds(at),
            running: p,
        },
        Open::Record {
            tag,
            written,
            missing,
        } => record_at(p, spot, tag, written, missing, d.len(), at),
    }
}
