// Rule b: the three queries.
#![tactic(auto)]

ghost use Rattle.std.specs.Prelude.{◌≡◌, List, ℕ, ◌-◌, ◌<◌, length};
ghost use Rattle.model.specs.Rules.{query, challenged};
ghost use Rattle.model.specs.declared.Loading.{Loading};
ghost use Rattle.walk_course.specs.Steps.{on, ended_as};

use model::{Head, Running};
use walk_course::{Course, Step};

// '9484': only in 'CC' and once.
fn challenge_given(p: Running) -> Step
    ensures { (l : Loading) (a : List ℕ)
        → ended_as result.course (on result.running l a) ≡ challenged (on p l a) }
{
    if p.internal != 0xCC {
        return walk_course::failed_by(0x6985, p);
    }
    if row_due::is_due(p.rows, p.last, 1, 0x9484) {
        return Step {
            course: Course::Asked(0x9484),
            running: walk_course::with_taken(p, 1),
        };
    }
    walk_course::failed_by(0x6985, p)
}

// Rule b: a query stands at data byte 0, empty and alone, with P1 bit 1 set and bit 8 clear.
pub fn queried(p: Running, p1: u8, h: Head, n: usize, at: usize) -> Step
    requires { at < n }
    ensures { (bytes : List ℕ) (l : Loading) (a : List ℕ) → length bytes ≡ n - at
        → ended_as result.course (on result.running l a) ≡ query n p1 bytes h (on p l a) }
{
    if at != 0 {
        return walk_course::failed_by(0x6A80, p);
    }
    if h.len != 0 {
        return walk_course::failed_by(0x6A80, p);
    }
    if h.size != n {
        return walk_course::failed_by(0x6A80, p);
    }
    if p1 % 2 != 1 {
        return walk_course::failed_by(0x6A86, p);
    }
    if 0x80 <= p1 {
        return walk_course::failed_by(0x6A86, p);
    }
    let tag = h.tag;
    if tag == 0x9484 {
        return challenge_given(p);
    }
    Step {
        course: Course::Asked(tag),
        running: p,
    }
}
