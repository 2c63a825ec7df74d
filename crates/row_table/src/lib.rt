// The eleven-row table as constants, and the mandatory rows that are missing.
#![tactic(auto)]

ghost use Rattle.std.specs.Prelude.{◌≡◌, ◌+◌, ◌-◌, ◌≤◌, ◌<◌, eqb, take};
ghost use Rattle.model.specs.Rows.{row_at, row_of, row_table, missing_from, mandatory_missing};
ghost use Rattle.row_table.specs.Lacking.{lacking};

use model::{DESCRIPTOR_SIZE, ROW_COUNT, Row, SECRET_ROOM, TABLE_ROOM};

const LONGEST: usize = 0xFFFE;

// The tags.
const CHALLENGE_TAG: u16 = 0x9484;

const SERIAL_TAG: u16 = 0x2000;

const STARTUP_TAG: u16 = 0x2100;

const COUNTER_TAG: u16 = 0x2200;

const TABLE_TAG: u16 = 0x3100;

const ACTIVATION_TAG: u16 = 0x3800;

const ISSUER_KEY_TAG: u16 = 0x4101;

const LOAD_KEY_TAG: u16 = 0x4102;

const DEBIT_KEY_TAG: u16 = 0x4103;

const PIN_TAG: u16 = 0x4104;

const FIRST_RECORD: u16 = 0x0100;

const LAST_RECORD: u16 = 0x1EFF;

const CHALLENGE: Row = Row {
    first: CHALLENGE_TAG,
    last: CHALLENGE_TAG,
    mandatory: true,
    spans: false,
    least: 0,
    most: 0,
    step: 1,
};

const SERIAL: Row = Row {
    first: SERIAL_TAG,
    last: SERIAL_TAG,
    mandatory: true,
    spans: false,
    least: 8,
    most: 8,
    step: 1,
};

const STARTUP: Row = Row {
    first: STARTUP_TAG,
    last: STARTUP_TAG,
    mandatory: true,
    spans: false,
    least: 7,
    most: 7,
    step: 1,
};

const COUNTER: Row = Row {
    first: COUNTER_TAG,
    last: COUNTER_TAG,
    mandatory: false,
    spans: false,
    least: 3,
    most: 3,
    step: 1,
};

const TABLE: Row = Row {
    first: TABLE_TAG,
    last: TABLE_TAG,
    mandatory: true,
    spans: true,
    least: DESCRIPTOR_SIZE,
    most: TABLE_ROOM,
    step: DESCRIPTOR_SIZE,
};

const ACTIVATION: Row = Row {
    first: ACTIVATION_TAG,
    last: ACTIVATION_TAG,
    mandatory: true,
    spans: false,
    least: 1,
    most: SECRET_ROOM,
    step: 1,
};

const ISSUER_KEY: Row = Row {
    first: ISSUER_KEY_TAG,
    last: ISSUER_KEY_TAG,
    mandatory: true,
    spans: false,
    least: 1,
    most: SECRET_ROOM,
    step: 1,
};

const LOAD_KEY: Row = Row {
    first: LOAD_KEY_TAG,
    last: LOAD_KEY_TAG,
    mandatory: true,
    spans: false,
    least: 1,
    most: SECRET_ROOM,
    step: 1,
};

const DEBIT_KEY: Row = Row {
    first: DEBIT_KEY_TAG,
    last: DEBIT_KEY_TAG,
    mandatory: true,
    spans: false,
    least: 1,
    most: SECRET_ROOM,
    step: 1,
};

const PIN: Row = Row {
    first: PIN_TAG,
    last: PIN_TAG,
    mandatory: false,
    spans: false,
    least: 1,
    most: SECRET_ROOM,
    step: 1,
};

const RECORDS: Row = Row {
    first: FIRST_RECORD,
    last: LAST_RECORD,
    mandatory: false,
    spans: true,
    least: 0,
    most: LONGEST,
    step: 1,
};

// A row's constants.
pub fn row_at(r: usize) -> Row
    requires { (1 ≤ r) × (r ≤ 11) }
    ensures { result ≡ row_at r }
{
    match r {
        1 => CHALLENGE,
        2 => SERIAL,
        3 => STARTUP,
        4 => COUNTER,
        5 => TABLE,
        6 => ACTIVATION,
        7 => ISSUER_KEY,
        8 => LOAD_KEY,
        9 => DEBIT_KEY,
        10 => PIN,
        _ => RECORDS,
    }
}

// The row of a tag; 0: unknown.
pub fn row_of(tag: u16) -> usize
    ensures { (result ≡ row_of tag) × (result ≤ 11) }
{
    match tag {
        CHALLENGE_TAG => 1,
        SERIAL_TAG => 2,
        STARTUP_TAG => 3,
        COUNTER_TAG => 4,
        TABLE_TAG => 5,
        ACTIVATION_TAG => 6,
        ISSUER_KEY_TAG => 7,
        LOAD_KEY_TAG => 8,
        DEBIT_KEY_TAG => 9,
        PIN_TAG => 10,
        FIRST_RECORD..=LAST_RECORD => 11,
        _ => 0,
    }
}

// Whether a tag is of the records' row.
pub fn is_record(tag: u16) -> bool
    ensures { result ≡ eqb (row_of tag) 11 }
{
    FIRST_RECORD <= tag && tag <= LAST_RECORD
}

// Row k + 1 is mandatory and not taken.
fn lacks(rows: u16, k: usize) -> bool
    requires { k < 11 }
    ensures { result ≡ lacking rows k }
{
    let row = row_at(k + 1);
    if row.mandatory {
        if row_sets::is_taken(rows, k + 1) {
            return false;
        }
        return true;
    }
    false
}

// A mandatory row among the first n is missing.
pub fn missing_before(rows: u16, n: usize) -> bool
    requires { n ≤ 11 }
    ensures { result ≡ missing_from rows 1 (take n row_table) }
{
    let mut k: usize = 0;
    while k < n {
        if lacks(rows, k) {
            return true;
        }
        k += 1;
    }
    false
}

pub fn mandatory_missing(rows: u16) -> bool
    ensures { result ≡ mandatory_missing rows }
{
    missing_before(rows, ROW_COUNT)
}
