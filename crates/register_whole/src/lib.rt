// Whether a register is whole, and of a loaded card: a lot that is resumed leaves such a card alone.
#![tactic(auto)]

ghost use Rattle.std.specs.Prelude.{◌≡◌, ◌+◌, ◌*◌, ◌≤◌, length};
ghost use Rattle.lists.specs.Bytes.{part, same};
ghost use Rattle.register_whole.specs.Whole.{ends_as, last_loaded, events_whole};

use model::LINE_SIZE;

// A line, and END.
const LEAST_SIZE: usize = 36;

// END tells five digits.
const MOST_EVENTS: usize = 99999;

// Where a line tells its word, and then GP and internal.
const WORD_PLACE: usize = 12;

// Whether these characters stand at a place.
fn reads(s: &[u8], at: usize, text: &[u8]) -> bool
    requires { at + length text.now ≤ length s.now }
    ensures { result ≡ same (part s.now at (length text.now)) text.now }
{
    let mut i: usize = 0;
    while i < text.len() {
        if s[at + i] != text[i] {
            return false;
        }
        i += 1;
    }
    true
}

// Whether what stands behind n lines is END and n.
fn ends_as(n: usize, register: &[u8]) -> bool
    requires { n * 26 + 10 ≤ length register.now }
    ensures { result ≡ ends_as n register.now }
{
    let mut end = [0u8; model::END_SIZE];
    register_lines::put_end(&mut end, 0, n as u64);
    reads(register, n * LINE_SIZE, &end)
}

// Whether the last of n lines is of a loaded card.
fn last_loaded(n: usize, register: &[u8]) -> bool
    requires { (1 ≤ n) × (n * 26 + 10 ≤ length register.now) }
    ensures { result ≡ last_loaded n register.now }
{
    reads(register, (n - 1) * LINE_SIZE + WORD_PLACE, b"9000 07 A5")
}

// How many events a register that is whole and of a loaded card tells; 0 where it is not.
pub fn events_in(register: &[u8]) -> usize
    ensures { result ≡ events_whole register.now }
{
    if register.len() < LEAST_SIZE {
        return 0;
    }
    let n = (register.len() - model::END_SIZE) / LINE_SIZE;
    if MOST_EVENTS < n {
        return 0;
    }
    if register.len() != n * LINE_SIZE + model::END_SIZE {
        return 0;
    }
    if ends_as(n, register) {
        if last_loaded(n, register) {
            return n;
        }
    }
    0
}
