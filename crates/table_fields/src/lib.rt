// A descriptor's fields: read from its 18 bytes, its access conditions, its size in the file area.
#![tactic(auto)]

ghost use Rattle.std.specs.Prelude.{◌≡◌, ◌<◌, ◌+◌, ◌*◌, ◌≤◌};
ghost use Rattle.model.specs.Table.{access_ok, accesses_ok, size_of, sizes_ok, descriptor_of};

use model::{BINARY, Descriptor, SIMULATED};

pub fn access_ok(a: u8, k: u8) -> bool
    ensures { result ≡ access_ok a k }
{
    if a == 0x10 {
        if k < 1 {
            return false;
        }
        return k <= 3;
    }
    if a == 0x00 {
        return k == 0;
    }
    if a == 0x01 {
        return k == 0;
    }
    if a == 0x1F {
        return k == 0;
    }
    false
}

pub fn accesses_ok(a: [u8; 4], k: [u8; 4]) -> bool
    ensures { result ≡ accesses_ok a k }
{
    if access_ok(a[0], k[0]) {
        if access_ok(a[1], k[1]) {
            if access_ok(a[2], k[2]) {
                return access_ok(a[3], k[3]);
            }
        }
    }
    false
}

// A file's bytes in the file area.
pub fn size_of(d: Descriptor) -> usize
    ensures { (result ≡ size_of d) × (result ≤ 65535) }
{
    let z = memory::wide(d.recsize);
    let n = memory::wide(d.numrec);
    if d.eftype == BINARY {
        return 256 * z + n;
    }
    if d.eftype == SIMULATED {
        return 0;
    }
    z * n
}

pub fn sizes_ok(d: Descriptor) -> bool
    ensures { result ≡ sizes_ok d }
{
    if d.eftype == BINARY {
        return 1 <= size_of(d);
    }
    if d.recsize < 1 {
        return false;
    }
    1 <= d.numrec
}

// The descriptor that 18 bytes are.
pub fn descriptor_of(b: [u8; 18]) -> Descriptor
    ensures { result ≡ descriptor_of b }
{
    let lid = memory::word(b[0], b[1]);
    Descriptor {
        lid: lid,
        sfi: b[2],
        filetype: b[3],
        eftype: b[4],
        recsize: b[5],
        numrec: b[6],
        ac: [b[7], b[8], b[9], b[10]],
        nkey: [b[11], b[12], b[13], b[14]],
        refsfi: b[15],
        refnum: b[16],
        status: b[17],
    }
}
