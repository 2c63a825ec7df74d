// Where the parts of a stored card lie.
pub const CARD_SIZE: usize = 1_050;

pub const REFERENCE: usize = 0;

pub const CHALLENGE: usize = 4;

pub const TRACEABILITY: usize = 20;

pub const CAPACITY: usize = 36;

pub const GP: usize = 37;

pub const SELECTED: usize = 38;

pub const NAME: usize = 39;

pub const NAME_LENGTH: usize = 55;

pub const INTERNAL: usize = 63;

pub const ROWS: usize = 64;

pub const LAST: usize = 66;

pub const OPEN_KIND: usize = 68;

pub const OPEN_TAG: usize = 69;

pub const OPEN_COUNT: usize = 71;

pub const OPEN_MISSING: usize = 79;

pub const HELD: usize = 87;

pub const FILES: usize = 105;

pub const FILE_COUNT: usize = 663;

pub const SERIAL: usize = 671;

pub const STARTUP: usize = 679;

pub const COUNTER: usize = 686;

pub const SECRETS: usize = 690;

// A secret's bytes, with its length behind them; how many secrets there are.
pub const SECRET_SIZE: usize = 72;

pub const SECRET_LENGTH: usize = 64;

pub const SECRET_COUNT: usize = 5;

// The byte of an open value: '3100', 'ssnn', none.
pub const OPEN_TABLE: u8 = 1;

pub const OPEN_RECORD: u8 = 2;

pub const OPEN_NONE: u8 = 0;
