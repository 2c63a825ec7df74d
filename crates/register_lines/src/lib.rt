// The lines of a register: one an event, and the last.
#![tactic(auto)]

ghost use Rattle.std.specs.Prelude.{◌≡◌, [], ◌∷◌, ◌++◌, ◌+◌, ◌≤◌, ◌<◌, min, length};
ghost use Rattle.lists.specs.Over.{overwrite};
ghost use Rattle.model.specs.Lines.{line_with, five, two, hex2, hex4, blank, end_of};

use model::{END_SIZE, LINE_SIZE};
use row_sets::count;

const BLANK: u8 = 0x20;

const LINE_FEED: u8 = 0x0A;

// A kind byte as it is printed.
fn capped(kind: u8) -> u8
    ensures { result ≡ min kind 99 }
{
    if 99 < kind {
        return 99;
    }
    kind
}

// Event number, kind and refusal number, each with its blank.
fn put_counts(out: &mut [u8], at: usize, n: u64, kind: u8, number: u8)
    requires { at + 12 ≤ length out.old }
    ensures { out.new
        ≡ overwrite out.old at (five n ++ blank ∷ two kind ++ blank ∷ two number ++ blank ∷ []) }
{
    print_numbers::put_five(out, at, n);
    out[at + 5] = BLANK;
    print_numbers::put_two(out, at + 6, kind as u32);
    out[at + 8] = BLANK;
    print_numbers::put_two(out, at + 9, number as u32);
    out[at + 11] = BLANK;
}

// Word, GP and internal, each with its blank.
fn put_states(out: &mut [u8], at: usize, word: u16, gp: u8, internal: u8)
    requires { at + 11 ≤ length out.old }
    ensures { out.new
        ≡ overwrite out.old at (hex4 word ++ blank ∷ hex2 gp ++ blank ∷ hex2 internal ++ blank ∷ []) }
{
    print_numbers::put_hex4(out, at, word);
    out[at + 4] = BLANK;
    print_numbers::put_hex2(out, at + 5, gp);
    out[at + 7] = BLANK;
    print_numbers::put_hex2(out, at + 8, internal);
    out[at + 10] = BLANK;
}

// An event's line.
pub fn put_line(
    out: &mut [u8],
    at: usize,
    n: u64,
    kind: u8,
    number: u8,
    word: u16,
    gp: u8,
    internal: u8,
    rows: u16,
)
    requires { at + 26 ≤ length out.old }
    ensures { out.new
        ≡ overwrite out.old at (line_with n kind number word gp internal rows) }
{
    put_counts(out, at, n, capped(kind), number);
    put_states(out, at + 12, word, gp, internal);
    print_numbers::put_two(out, at + 23, count(rows));
    out[at + 25] = LINE_FEED;
}

pub fn put_end(out: &mut [u8], at: usize, n: u64)
    requires { at + 10 ≤ length out.old }
    ensures { out.new ≡ overwrite out.old at (end_of n) }
{
    memory::put_bytes(out, at, b"END ");
    print_numbers::put_five(out, at + 4, n);
    out[at + 9] = LINE_FEED;
}
