// Rule h of a grouping that stays whole: its content judged; and kept, once it passed.
#![tactic(auto)]

ghost use Rattle.std.specs.Prelude.{◌≡◌, List, ℕ, ◌+◌, ◌-◌, ◌*◌, ◌≤◌, ◌<◌, length, drop};
ghost use Rattle.lists.specs.Bytes.{padded};
ghost use Rattle.model.specs.Rules.{counter_of, whole};
ghost use Rattle.walk_course.specs.Lengths.{Sized};
ghost use Rattle.walk_course.specs.Steps.{on, startup_of, kept_of, Judges};
ghost use Rattle.rule_content.specs.Kept.{word_of};

use model::{Head, Loading, Running, Secret};
use walk_course::{Course, Step};

const FIRST_SECRET_ROW: usize = 6;

const FINE: u16 = 0x9000;

// Bytes in an array, with zeros behind them: the serial number, a secret.
fn padded8(s: &[u8]) -> [u8; 8]
    requires { length s.now ≤ 8 }
    ensures { result ≡ padded 8 s.now }
{
    let mut b = [0u8; 8];
    memory::lay(&mut b, s);
    b
}

fn padded64(s: &[u8]) -> [u8; 64]
    requires { length s.now ≤ 64 }
    ensures { result ≡ padded 64 s.now }
{
    let mut b = [0u8; 64];
    memory::lay(&mut b, s);
    b
}

// '2100': first byte 6 to 55 and last two zero, on a chip of a capacity from 6 on. Any other content is fine.
fn judged(capacity: u8, row: usize, v: &[u8]) -> u16
    requires { Sized row (length v.now) }
    ensures { result ≡ word_of capacity row v.now }
{
    if row != 3 {
        return FINE;
    }
    if v[0] < 6 {
        return 0x6A80;
    }
    if 55 < v[0] {
        return 0x6A80;
    }
    if v[5] != 0 {
        return 0x6A80;
    }
    if v[6] != 0 {
        return 0x6A80;
    }
    if capacity < 6 {
        return 0x6A84;
    }
    FINE
}

// The smaller of what was asked and the capacity is kept.
fn startup_of(capacity: u8, v: &[u8]) -> [u8; 7]
    requires { length v.now ≡ 7 }
    ensures { result ≡ startup_of capacity v.now }
{
    let mut b = [0u8; 7];
    memory::lay(&mut b, v);
    if capacity < v[0] {
        b[0] = capacity;
        return b;
    }
    b
}

// Three bytes, the most significant first.
fn counter_in(v: &[u8]) -> u32
    requires { length v.now ≡ 3 }
    ensures { result ≡ counter_of v.now }
{
    let first = memory::wide(v[0]);
    let second = memory::wide(v[1]);
    let third = memory::wide(v[2]);
    ((first * 256 + second) * 256 + third) as u32
}

// Rows 6 to 10 are the secrets.
fn secret_place(row: usize) -> usize
    requires { row ≤ 10 }
    ensures { (result ≡ row - 6) × (result < 5) }
{
    if row < FIRST_SECRET_ROW {
        return 0;
    }
    row - FIRST_SECRET_ROW
}

// A passed grouping is kept: serial, startup, counter, or the secret's bytes with their length.
pub fn kept_as(mut l: Loading, capacity: u8, row: usize, v: &[u8]) -> Loading
    requires { Sized row (length v.now) }
    ensures { result ≡ kept_of capacity row v.now l }
{
    if row == 2 {
        l.serial = padded8(v);
        return l;
    }
    if row == 3 {
        l.startup = startup_of(capacity, v);
        return l;
    }
    if row == 4 {
        l.counter = counter_in(v);
        return l;
    }
    let at = secret_place(row);
    let bytes = padded64(v);
    let secret = Secret {
        bytes: bytes,
        len: v.len(),
    };
    l.secrets[at] = secret;
    l
}

// Rule h of a grouping that stays whole; its value begins at `at`.
pub fn whole_at(p: Running, capacity: u8, row: usize, h: Head, d: &[u8], at: usize) -> Step
    requires { Sized row h.len × (1 ≤ row) × (at + h.len ≤ length d.now) }
    ensures { (place : ℕ) (l : Loading) (a : List ℕ) → place < at
        → Judges capacity result d.now place l a
        (whole capacity row h (drop at d.now) (on p l a)) }
{
    let len = h.len;
    let end = at + len;
    let w = judged(capacity, row, &d[at..end]);
    if w != FINE {
        return walk_course::failed_by(w, p);
    }
    Step {
        course: Course::Keeps {
            row: row,
            start: at,
            end: end,
        },
        running: walk_course::with_taken(p, row),
    }
}
