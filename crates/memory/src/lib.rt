// Lent memory: bytes laid, cleared, read as numbers, and copied into an array.
#![tactic(auto)]

ghost use Rattle.std.specs.Prelude.{◌≡◌, ◌+◌, ◌≤◌, ◌*◌, ◌<◌, min, length, drop};
ghost use Rattle.lists.specs.Bytes.{part, zeros, all_zero, padded};
ghost use Rattle.lists.specs.Over.{overwrite};

// `src` over the front of `dst`.
pub fn lay(dst: &mut [u8], src: &[u8])
    requires { length src.now ≤ length dst.old }
    ensures { dst.new ≡ overwrite dst.old 0 src.now }
{
    let mut i: usize = 0;
    while i < src.len() {
        dst[i] = src[i];
        i += 1;
    }
}

// `src` over `dst` from a place on.
pub fn put_bytes(dst: &mut [u8], at: usize, src: &[u8])
    requires { at + length src.now ≤ length dst.old }
    ensures { dst.new ≡ overwrite dst.old at src.now }
{
    lay(&mut dst[at..], src);
}

// Zeros all over.
pub fn clear(dst: &mut [u8])
    ensures { dst.new ≡ zeros (length dst.old) }
{
    let mut i: usize = 0;
    while i < dst.len() {
        dst[i] = 0;
        i += 1;
    }
}

// A part of lent bytes, as far as they go.
pub fn part_of(s: &[u8], start: usize, len: usize) -> &[u8]
    ensures { result.now ≡ part s.now start len }
{
    let from = least(start, s.len());
    let end = from + least(len, s.len() - from);
    &s[from..end]
}

// A byte as a count.
pub fn wide(x: u8) -> usize
    ensures { (result ≡ x) × (result < 256) }
{
    x as usize
}

// Two bytes as a number, the more significant first.
pub fn word(hi: u8, lo: u8) -> u16
    ensures { result ≡ hi * 256 + lo }
{
    (hi as u16) * 256 + (lo as u16)
}

// Every byte from `at` on is zero. The loop does not stop early: so many bytes are looked at in one step.
pub fn zero_from(s: &[u8], at: usize) -> bool
    ensures { result ≡ all_zero (drop at s.now) }
{
    let mut zero = true;
    let mut i = at;
    while i < s.len() {
        if s[i] != 0 {
            zero = false;
        }
        i += 1;
    }
    zero
}

// The smaller of two counts.
pub fn least(a: usize, b: usize) -> usize
    ensures { result ≡ min a b }
{
    if a <= b {
        return a;
    }
    b
}

pub fn padded16(s: &[u8]) -> [u8; 16]
    requires { length s.now ≤ 16 }
    ensures { result ≡ padded 16 s.now }
{
    let mut b = [0u8; 16];
    lay(&mut b, s);
    b
}
