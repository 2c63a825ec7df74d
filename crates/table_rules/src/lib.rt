// The file table: a descriptor judged after those before it.
#![tactic(auto)]

ghost use Rattle.std.specs.Prelude.{◌≡◌, ◌+◌, ◌*◌, ◌≤◌, ◌<◌, take};
ghost use Rattle.model.specs.Table.{passed, clashes, counter_among, data_ref_ok, ef_ok, rules_ok, total, admit_of};
ghost use Rattle.model.specs.Table.{table_passes};

use model::{AREA_SIZE, Descriptor, SIMULATED, TABLE_LIMIT, Verdict};

fn clashes_with(d: Descriptor, files: [Descriptor; 31], count: usize) -> bool
    requires { count ≤ 31 }
    ensures { result ≡ clashes d (take count files) }
{
    let mut i: usize = 0;
    while i < count {
        let e = files[i];
        if table_descriptor::clash_of(d, e) {
            return true;
        }
        i += 1;
    }
    false
}

fn counter_among(d: Descriptor, files: [Descriptor; 31], count: usize) -> bool
    requires { count ≤ 31 }
    ensures { result ≡ counter_among d (take count files) }
{
    let mut i: usize = 0;
    while i < count {
        let e = files[i];
        if table_descriptor::counter_in(d, e) {
            return true;
        }
        i += 1;
    }
    false
}

pub fn data_ref_ok(d: Descriptor, files: [Descriptor; 31], count: usize) -> bool
    requires { count ≤ 31 }
    ensures { result ≡ data_ref_ok d (take count files) }
{
    if d.eftype == SIMULATED {
        if d.refsfi < 1 {
            return false;
        }
        if d.refnum < 1 {
            return false;
        }
        return counter_among(d, files, count);
    }
    if d.refsfi != 0 {
        return false;
    }
    d.refnum == 0
}

fn ef_ok(d: Descriptor, files: [Descriptor; 31], count: usize) -> bool
    requires { count ≤ 31 }
    ensures { result ≡ ef_ok d (take count files) }
{
    if table_descriptor::ef_fields_ok(d) {
        if data_ref_ok(d, files, count) {
            if clashes_with(d, files, count) {
                return false;
            }
            return true;
        }
    }
    false
}

fn rules_ok(d: Descriptor, files: [Descriptor; 31], count: usize) -> bool
    requires { count ≤ 31 }
    ensures { result ≡ rules_ok d (take count files) }
{
    if TABLE_LIMIT <= count {
        return false;
    }
    let ac = d.ac;
    let nkey = d.nkey;
    if table_fields::accesses_ok(ac, nkey) {
        if count == 0 {
            return table_descriptor::df_ok(d);
        }
        return ef_ok(d, files, count);
    }
    false
}

// The bytes of the first `count` files.
pub fn total_of(files: [Descriptor; 31], count: usize) -> usize
    requires { count ≤ 31 }
    ensures { (result ≡ total (take count files)) × (result ≤ count * 65535) }
{
    let mut sum: usize = 0;
    let mut i: usize = 0;
    while i < count {
        let e = files[i];
        sum += table_fields::size_of(e);
        i += 1;
    }
    sum
}

// Whether a descriptor may come after the first `count`.
pub fn admit(d: Descriptor, files: [Descriptor; 31], count: usize) -> Verdict
    requires { count ≤ 31 }
    ensures { result ≡ admit_of d (take count files) }
{
    if rules_ok(d, files, count) {
        let before = total_of(files, count);
        let size = table_fields::size_of(d);
        if before + size <= AREA_SIZE {
            return Verdict::Passes(0);
        }
        return Verdict::Refuses(0x6A84);
    }
    Verdict::Refuses(0x6A80)
}

fn admits(d: Descriptor, files: [Descriptor; 31], count: usize) -> bool
    requires { count ≤ 31 }
    ensures { result ≡ passed (admit_of d (take count files)) }
{
    let v = admit(d, files, count);
    match v {
        Verdict::Passes(_) => true,
        Verdict::Refuses(_) => false,
    }
}

// The first `count` descriptors each pass after those before.
pub fn table_passes(files: [Descriptor; 31], count: usize) -> bool
    requires { count ≤ 31 }
    ensures { result ≡ table_passes files count }
{
    let mut n: usize = 0;
    while n < count {
        let d = files[n];
        if admits(d, files, n) {
            n += 1;
        } else {
            return false;
        }
    }
    true
}
