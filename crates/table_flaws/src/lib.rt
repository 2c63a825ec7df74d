// Which rule of the file table a descriptor breaks, for a message: the word that refuses it does not tell.
#![tactic(auto)]

ghost use Rattle.std.specs.Prelude.{◌≡◌, ◌+◌, ◌≤◌, take};
ghost use Rattle.model.specs.Loads.{file_list};
ghost use Rattle.table_flaws.specs.Flaws.{access_flaw, field_flaw, clash_flaw, total_flaw, ef_flaw, kind_flaw};
ghost use Rattle.table_flaws.specs.Flaws.{flaw_of, listed};

use model::{AREA_SIZE, Descriptor, Loading, TABLE_LIMIT};

const LAST_SFI: u8 = 0x1E;

const EF: u8 = 0x04;

// What is wrong with a descriptor. An AC and NKey, and a descriptor before it, are numbered from 1.
#[derive(Clone, Copy)]
pub enum Flaw {
    Nothing,
    TooMany,
    Access(usize),
    Df,
    Sfi,
    FileType,
    EfType,
    Status,
    Size,
    DataRef,
    LidUsed(usize),
    SfiUsed(usize),
    Total,
}

// A test's own flaw, or `later`, what the tests behind it find.
fn access_flaw(a: [u8; 4], k: [u8; 4], later: Flaw) -> Flaw
    ensures { result ≡ access_flaw a k later }
{
    if table_fields::access_ok(a[0], k[0]) {
        if table_fields::access_ok(a[1], k[1]) {
            if table_fields::access_ok(a[2], k[2]) {
                if table_fields::access_ok(a[3], k[3]) {
                    return later;
                }
                return Flaw::Access(4);
            }
            return Flaw::Access(3);
        }
        return Flaw::Access(2);
    }
    Flaw::Access(1)
}

fn field_flaw(d: Descriptor, later: Flaw) -> Flaw
    ensures { result ≡ field_flaw d later }
{
    if LAST_SFI < d.sfi {
        return Flaw::Sfi;
    }
    if d.filetype != EF {
        return Flaw::FileType;
    }
    let t = d.eftype;
    if table_descriptor::ef_type(t) {
        if d.status != 0 {
            return Flaw::Status;
        }
        if table_fields::sizes_ok(d) {
            return later;
        }
        return Flaw::Size;
    }
    Flaw::EfType
}

fn clash_flaw(d: Descriptor, files: [Descriptor; 31], count: usize, later: Flaw) -> Flaw
    requires { count ≤ 31 }
    ensures { result ≡ clash_flaw d (take count files) 1 later }
{
    let mut i: usize = 0;
    while i < count {
        let e = files[i];
        if d.lid == e.lid {
            return Flaw::LidUsed(i + 1);
        }
        if table_descriptor::clash_of(d, e) {
            return Flaw::SfiUsed(i + 1);
        }
        i += 1;
    }
    later
}

fn total_flaw(d: Descriptor, files: [Descriptor; 31], count: usize) -> Flaw
    requires { count ≤ 31 }
    ensures { result ≡ total_flaw d (take count files) }
{
    let before = table_rules::total_of(files, count);
    let size = table_fields::size_of(d);
    if before + size <= AREA_SIZE {
        return Flaw::Nothing;
    }
    Flaw::Total
}

fn ef_flaw(d: Descriptor, files: [Descriptor; 31], count: usize) -> Flaw
    requires { count ≤ 31 }
    ensures { result ≡ ef_flaw d (take count files) }
{
    if table_rules::data_ref_ok(d, files, count) {
        let total = total_flaw(d, files, count);
        let clash = clash_flaw(d, files, count, total);
        return field_flaw(d, clash);
    }
    field_flaw(d, Flaw::DataRef)
}

fn kind_flaw(d: Descriptor, files: [Descriptor; 31], count: usize) -> Flaw
    requires { count ≤ 31 }
    ensures { result ≡ kind_flaw d (take count files) }
{
    if count == 0 {
        if table_descriptor::df_ok(d) {
            return total_flaw(d, files, count);
        }
        return Flaw::Df;
    }
    ef_flaw(d, files, count)
}

fn flaw_in(d: Descriptor, files: [Descriptor; 31], count: usize) -> Flaw
    requires { count ≤ 31 }
    ensures { result ≡ flaw_of d (take count files) }
{
    if TABLE_LIMIT <= count {
        return Flaw::TooMany;
    }
    let ac = d.ac;
    let nkey = d.nkey;
    let later = kind_flaw(d, files, count);
    access_flaw(ac, nkey, later)
}

// What is wrong with a descriptor that comes behind those of the table.
pub fn flaw_of(l: Loading, d: Descriptor) -> Flaw
    requires { l.count ≤ 31 }
    ensures { result ≡ flaw_of d (file_list l) }
{
    let files = l.files;
    flaw_in(d, files, l.count)
}

fn listed_in(sfi: u8, files: [Descriptor; 31], count: usize) -> bool
    requires { count ≤ 31 }
    ensures { result ≡ listed sfi (take count files) }
{
    let mut i: usize = 0;
    while i < count {
        let e = files[i];
        if e.sfi == sfi {
            return true;
        }
        i += 1;
    }
    false
}

// Whether a descriptor of the table has this SFI.
pub fn is_listed(l: Loading, sfi: u8) -> bool
    requires { l.count ≤ 31 }
    ensures { result ≡ listed sfi (file_list l) }
{
    let files = l.files;
    listed_in(sfi, files, l.count)
}
