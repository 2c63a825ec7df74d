// Bytes in hexadecimal, numbers in decimal.
#![tactic(auto)]

ghost use Rattle.std.specs.Prelude.{◌≡◌, ◌+◌, ◌*◌, ◌≤◌, ◌<◌, length};
ghost use Rattle.lists.specs.Over.{overwrite};
ghost use Rattle.model.specs.Lines.{hex2, hex4, hex_digit, five, two};
ghost use Rattle.print_numbers.specs.Trace.{hex_of};
ghost use Rattle.print_numbers.specs.Trace.{width_of, last_digits, decimal_of};

// A hexadecimal digit in capitals.
fn hex_digit(d: u8) -> u8
    requires { d < 16 }
    ensures { result ≡ hex_digit d }
{
    if d < 10 {
        return 0x30 + d;
    }
    0x37 + d
}

pub fn put_hex2(out: &mut [u8], at: usize, b: u8)
    requires { at + 2 ≤ length out.old }
    ensures { out.new ≡ overwrite out.old at (hex2 b) }
{
    out[at] = hex_digit(b / 16 % 16);
    out[at + 1] = hex_digit(b % 16);
}

pub fn put_hex4(out: &mut [u8], at: usize, w: u16)
    requires { at + 4 ≤ length out.old }
    ensures { out.new ≡ overwrite out.old at (hex4 w) }
{
    put_hex2(out, at, (w / 256) as u8);
    put_hex2(out, at + 2, (w % 256) as u8);
}

// Bytes in hexadecimal, end to end. The place behind them.
pub fn put_hex(out: &mut [u8], at: usize, bytes: &[u8]) -> usize
    requires { at + 2 * length bytes.now ≤ length out.old }
    ensures { (result ≡ at + 2 * length bytes.now)
        × (length out.new ≡ length out.old)
        × (out.new ≡ overwrite out.old at (hex_of bytes.now)) }
{
    let mut i: usize = 0;
    while i < bytes.len() {
        put_hex2(out, at + 2 * i, bytes[i]);
        i += 1;
    }
    at + 2 * i
}

pub fn put_two(out: &mut [u8], at: usize, n: u32)
    requires { at + 2 ≤ length out.old }
    ensures { out.new ≡ overwrite out.old at (two n) }
{
    out[at] = 0x30 + (n / 10 % 10) as u8;
    out[at + 1] = 0x30 + (n % 10) as u8;
}

pub fn put_five(out: &mut [u8], at: usize, n: u64)
    requires { at + 5 ≤ length out.old }
    ensures { out.new ≡ overwrite out.old at (five n) }
{
    out[at] = 0x30 + (n / 10000 % 10) as u8;
    out[at + 1] = 0x30 + (n / 1000 % 10) as u8;
    out[at + 2] = 0x30 + (n / 100 % 10) as u8;
    put_two(out, at + 3, (n % 100) as u32);
}

// How many decimal digits a number has.
fn width(n: u64) -> usize
    ensures { (result ≡ width_of n) × (1 ≤ result) × (result ≤ 20) }
{
    let mut rest = n;
    let mut w: usize = 1;
    while 10 <= rest {
        rest = rest / 10;
        w += 1;
    }
    w
}

// The last w decimal digits, from the last one to the front.
fn put_digits(out: &mut [u8], at: usize, n: u64, w: usize)
    requires { at + w ≤ length out.old }
    ensures { out.new ≡ overwrite out.old at (last_digits w n) }
{
    let mut rest = n;
    let mut i = w;
    while 0 < i {
        i -= 1;
        out[at + i] = 0x30 + (rest % 10) as u8;
        rest = rest / 10;
    }
}

// A number in decimal, without leading zeros. The place behind it.
pub fn put_number(out: &mut [u8], at: usize, n: u64) -> usize
    requires { at + 20 ≤ length out.old }
    ensures { (at < result) × (result ≤ at + 20) × (result ≡ at + width_of n)
        × (length out.new ≡ length out.old)
        × (out.new ≡ overwrite out.old at (decimal_of n)) }
{
    let w = width(n);
    put_digits(out, at, n, w);
    at + w
}
