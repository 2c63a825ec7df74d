// Whether a state is sound: a function for each clause, in the paper's order.
#![tactic(auto)]

ghost use Rattle.std.specs.Prelude.{◌≡◌, ◌≤◌, length};
ghost use Rattle.model.specs.Sound.{descriptors_ok, rows_ok, table_open, table_placed, secrets_ok, sound};
ghost use Rattle.sound_open.specs.Parts.{load_part};

use model::{Card, Descriptor, Loading, Open, SECRET_ROOM, Secret, TABLE_LIMIT, TABLE_ROW};

// The first bit past those of rows 1 to 11.
const PAST_ROWS: u16 = 0x0800;

const SECRET_COUNT: usize = 5;

// The table's places: an array that comes by itself tells its length, which it does not as a card's field.
fn places(files: [Descriptor; 31]) -> usize
    ensures { (result ≡ 31) × (length files ≡ 31) }
{
    TABLE_LIMIT
}

// Descriptors that each pass after those before; the caller has asked that the count is within the table.
fn descriptors_ok(l: Loading) -> bool
    requires { l.count ≤ 31 }
    ensures { result ≡ descriptors_ok l }
{
    let files = l.files;
    table_rules::table_passes(files, l.count)
}

// Rows 1 to 11 only, none when absent.
fn rows_ok(rows: u16, g: u8) -> bool
    ensures { result ≡ rows_ok rows g }
{
    if PAST_ROWS <= rows {
        return false;
    }
    if rows == 0 {
        return true;
    }
    g != 0x00
}

fn table_open(o: Open) -> bool
    ensures { result ≡ table_open o }
{
    match o {
        Open::Shut => false,
        Open::Table {
            held: _,
            missing: _,
        } => true,
        Open::Record {
            tag: _,
            written: _,
            missing: _,
        } => false,
    }
}

// Descriptors only where row 5 is taken, '3100' is open, or the card is locked in '5A'.
fn table_placed(l: Loading, g: u8) -> bool
    ensures { result ≡ table_placed l g }
{
    let running = l.running;
    let o = running.pending;
    if l.count == 0 {
        return true;
    }
    if row_sets::is_taken(l.running.rows, TABLE_ROW) {
        return true;
    }
    if table_open(o) {
        return true;
    }
    if l.running.internal == 0x5A {
        return g == 0x87;
    }
    false
}

// Secrets at most 64 bytes.
fn secrets_ok(secrets: [Secret; 5]) -> bool
    ensures { result ≡ secrets_ok secrets }
{
    let mut i: usize = 0;
    while i < SECRET_COUNT {
        let x = secrets[i];
        if SECRET_ROOM < x.len {
            return false;
        }
        i += 1;
    }
    true
}

// The clauses on rows, the table's place and secrets.
fn load_ok(l: Loading, g: u8) -> bool
    ensures { result ≡ load_part l g }
{
    let secrets = l.secrets;
    if rows_ok(l.running.rows, g) {
        if table_placed(l, g) {
            return secrets_ok(secrets);
        }
    }
    false
}

// Sound; and the table has its 31 places. Its rules, which cost the most, are asked last.
pub fn is_sound(c: Card) -> bool
    ensures { (result ≡ sound c) × (length c.loading.files ≡ 31) }
{
    let f = c.life;
    let l = c.loading;
    let files = l.files;
    if places(files) < l.count {
        return false;
    }
    if sound_life::life_ok(f, l.running.internal) {
        if load_ok(l, f.gp) {
            if sound_open::value_ok(l, f.gp) {
                return descriptors_ok(l);
            }
        }
    }
    false
}
