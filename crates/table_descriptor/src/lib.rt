// One descriptor of the file table: its fields judged, and beside another one.
#![tactic(auto)]

ghost use Rattle.std.specs.Prelude.{◌≡◌, ◌<◌};
ghost use Rattle.table_descriptor.specs.Fields.{ef_fields};
ghost use Rattle.model.specs.Table.{df_ok, ef_type, clash, counter_in};

use model::{BINARY, Descriptor, SIMULATED};

const COUNTERS: u8 = 0x09;

pub fn df_ok(d: Descriptor) -> bool
    ensures { result ≡ df_ok d }
{
    if d.sfi != 0 {
        return false;
    }
    if d.filetype != 0x02 {
        return false;
    }
    if d.eftype != 0x00 {
        return false;
    }
    if d.recsize != 0 {
        return false;
    }
    if d.numrec != 0 {
        return false;
    }
    if d.refsfi != 0 {
        return false;
    }
    if d.refnum != 0 {
        return false;
    }
    d.status <= 1
}

pub fn ef_type(t: u8) -> bool
    ensures { result ≡ ef_type t }
{
    if t == BINARY {
        return true;
    }
    if t == 0x02 {
        return true;
    }
    if t == 0x04 {
        return true;
    }
    if t == SIMULATED {
        return true;
    }
    t == COUNTERS
}

pub fn clash_of(d: Descriptor, e: Descriptor) -> bool
    ensures { result ≡ clash d e }
{
    if d.lid == e.lid {
        return true;
    }
    if d.sfi == 0 {
        return false;
    }
    d.sfi == e.sfi
}

pub fn counter_in(d: Descriptor, e: Descriptor) -> bool
    ensures { result ≡ counter_in d e }
{
    if e.eftype != COUNTERS {
        return false;
    }
    if e.sfi != d.refsfi {
        return false;
    }
    d.refnum <= e.recsize / 3
}

// What an EF's descriptor says by itself.
pub fn ef_fields_ok(d: Descriptor) -> bool
    ensures { result ≡ ef_fields d }
{
    if 0x1E < d.sfi {
        return false;
    }
    if d.filetype != 0x04 {
        return false;
    }
    let t = d.eftype;
    if ef_type(t) {
        if d.status != 0 {
            return false;
        }
        return table_fields::sizes_ok(d);
    }
    false
}
