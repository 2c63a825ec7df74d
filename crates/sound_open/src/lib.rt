// The clauses of sound on an open value.
#![tactic(auto)]

ghost use Rattle.std.specs.Prelude.{◌≡◌, ◌&&◌, ◌≤◌, eqb};
ghost use Rattle.model.specs.Sound.{table_fits, record_fits, pending_fits, some_missing, open_ok};
ghost use Rattle.sound_open.specs.Parts.{open_part};

use model::{DESCRIPTOR_SIZE, Loading, Open, Spot, TABLE_LIMIT, TABLE_ROOM, TABLE_ROW};

fn is_07_with_5a(g: u8, i: u8) -> bool
    ensures { result ≡ (eqb g 0x07 && eqb i 0x5A) }
{
    if g == 0x07 {
        return i == 0x5A;
    }
    false
}

// An open value only at '07' with '5A'.
fn open_ok(o: Open, g: u8, i: u8) -> bool
    ensures { result ≡ open_ok o g i }
{
    match o {
        Open::Shut => true,
        Open::Table {
            held: _,
            missing: _,
        } => is_07_with_5a(g, i),
        Open::Record {
            tag: _,
            written: _,
            missing: _,
        } => is_07_with_5a(g, i),
    }
}

// Descriptors x 18 + held + missing at most 558 and a multiple of 18, held under 18. Each is bounded before they are
// added.
fn table_fits(count: usize, held: usize, missing: usize) -> bool
    ensures { result ≡ table_fits count held missing }
{
    if DESCRIPTOR_SIZE <= held {
        return false;
    }
    if TABLE_LIMIT < count {
        return false;
    }
    if TABLE_ROOM < missing {
        return false;
    }
    let all = count * DESCRIPTOR_SIZE + held + missing;
    if TABLE_ROOM < all {
        return false;
    }
    all % DESCRIPTOR_SIZE == 0
}

// Row 5 not taken, and the table fits.
fn open_table_fits(l: Loading, held: usize, missing: usize) -> bool
    ensures { result ≡ pending_fits (Open.Table held missing) l }
{
    if row_sets::is_taken(l.running.rows, TABLE_ROW) {
        return false;
    }
    table_fits(l.count, held, missing)
}

// An 'ssnn' that rule e passes, written + missing at most its record: asked without the sum, which may be too large.
fn record_fits(spot: Spot, written: usize, missing: usize) -> bool
    ensures { result ≡ record_fits spot written missing }
{
    match spot {
        Spot::Nowhere => false,
        Spot::At { base: _, size } => {
            if size < written {
                return false;
            }
            missing <= size - written
        }
    }
}

// The same of an open 'ssnn' by its tag.
fn open_record_fits(l: Loading, tag: u16, written: usize, missing: usize) -> bool
    requires { l.count ≤ 31 }
    ensures { result ≡ pending_fits (Open.Record tag written missing) l }
{
    let spot = table_places::spot_at(l, tag);
    record_fits(spot, written, missing)
}

// Either '3100' or an 'ssnn', and it fits.
fn pending_fits(o: Open, l: Loading) -> bool
    requires { l.count ≤ 31 }
    ensures { result ≡ pending_fits o l }
{
    match o {
        Open::Shut => true,
        Open::Table { held, missing } => open_table_fits(l, held, missing),
        Open::Record {
            tag,
            written,
            missing,
        } => open_record_fits(l, tag, written, missing),
    }
}

// Missing at least 1 in both.
fn some_missing(o: Open) -> bool
    ensures { result ≡ some_missing o }
{
    match o {
        Open::Shut => true,
        Open::Table { held: _, missing } => 1 <= missing,
        Open::Record {
            tag: _,
            written: _,
            missing,
        } => 1 <= missing,
    }
}

// The clauses on an open value.
pub fn value_ok(l: Loading, g: u8) -> bool
    requires { l.count ≤ 31 }
    ensures { result ≡ open_part l g }
{
    let running = l.running;
    let o = running.pending;
    if open_ok(o, g, l.running.internal) {
        if pending_fits(o, l) {
            return some_missing(o);
        }
    }
    false
}
