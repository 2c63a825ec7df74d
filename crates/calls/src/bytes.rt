// Bytes in arrays, read from stored bytes and stored. Numbers of more than one byte have the most significant first.
ghost use Rattle.std.specs.Prelude.{◌≡◌, ◌+◌, ◌≤◌, length};
ghost use Rattle.lists.specs.Bytes.{part};
ghost use Rattle.calls.specs.Stores.{Puts};

// Bytes from a place on.
pub fn array<const N: usize>(b: &[u8], at: usize) -> [u8; N]
    requires { at + N ≤ length b.now }
    ensures { result ≡ part b.now at N }
{
    let mut x = [0u8; N];
    x.copy_from_slice(&b[at..at + N]);
    x
}

// Bytes stored from a place on.
pub fn put<const N: usize>(b: &mut [u8], at: usize, x: [u8; N])
    requires { at + N ≤ length b.old }
    ensures { Puts b.old at x.entry N b.new }
{
    memory::put_bytes(b, at, &x);
}
