// What document 01 speaks of, as types and sizes: the chip, the card in its three parts, a header, and the answers of
// the calls. All that it says of them is in specs/; there is no logic here.
#![tactic(auto)]

// Stored forms: a chip record, its session capacity's place; an event record, its data's place; the file area; the
// least answer buffer; the longest order.
pub const CHIP_SIZE: usize = 40;

pub const CAPACITY: usize = 36;

pub const RECORD_SIZE: usize = 260;

pub const DATA_PLACE: usize = 4;

pub const AREA_SIZE: usize = 4096;

pub const ANSWER_ROOM: usize = 64;

pub const ORDER_LIMIT: usize = 8192;

// The kind of event that loads.
pub const STORE_DATA: u8 = 2;

// The eleven rows; those whose values span; a secret's longest.
pub const ROW_COUNT: usize = 11;

pub const TABLE_ROW: usize = 5;

pub const RECORD_ROW: usize = 11;

pub const SECRET_ROOM: usize = 64;

// The file table: its descriptors, their bytes, and the types of EF that store otherwise than by records.
pub const TABLE_LIMIT: usize = 31;

pub const DESCRIPTOR_SIZE: usize = 18;

pub const TABLE_ROOM: usize = 558;

pub const BINARY: u8 = 0x01;

pub const SIMULATED: u8 = 0x08;

// A register's line for an event, and its last.
pub const LINE_SIZE: usize = 26;

pub const END_SIZE: usize = 10;

// A chip record's facts.
#[derive(Clone, Copy)]
pub struct Chip {
    pub reference: [u8; 4],
    pub challenge: [u8; 16],
    pub traceability: [u8; 16],
    pub capacity: u8,
}

// A file table's descriptor, 18 bytes when stored.
#[derive(Clone, Copy)]
pub struct Descriptor {
    pub lid: u16,
    pub sfi: u8,
    pub filetype: u8,
    pub eftype: u8,
    pub recsize: u8,
    pub numrec: u8,
    pub ac: [u8; 4],
    pub nkey: [u8; 4],
    pub refsfi: u8,
    pub refnum: u8,
    pub status: u8,
}

// The value of '3800' or '410n': its first `len` bytes.
#[derive(Clone, Copy)]
pub struct Secret {
    pub bytes: [u8; 64],
    pub len: usize,
}

// A value that runs on into the next command. The held bytes of '3100' are kept beside it.
#[derive(Clone, Copy)]
pub enum Open {
    Shut,
    Table {
        held: usize,
        missing: usize,
    },
    Record {
        tag: u16,
        written: usize,
        missing: usize,
    },
}

// How far the loading is: what almost every grouping changes, and small.
#[derive(Clone, Copy)]
pub struct Running {
    pub internal: u8,
    pub rows: u16,
    pub last: u16,
    pub pending: Open,
}

// What groupings change: nothing else of a card is the walk's to touch.
#[derive(Clone, Copy)]
pub struct Loading {
    pub running: Running,
    pub held: [u8; 18],
    pub files: [Descriptor; 31],
    pub count: usize,
    pub serial: [u8; 8],
    pub startup: [u8; 7],
    pub counter: u32,
    pub secrets: [Secret; 5],
}

// What the life cycle's events change.
#[derive(Clone, Copy)]
pub struct Life {
    pub gp: u8,
    pub selected: bool,
    pub name: [u8; 16],
    pub namelen: usize,
}

#[derive(Clone, Copy)]
pub struct Card {
    pub chip: Chip,
    pub life: Life,
    pub loading: Loading,
}

// One row of the eleven-row table: its tags, mandatory mark, spanning mark, and the lengths that it allows.
#[derive(Clone, Copy)]
pub struct Row {
    pub first: u16,
    pub last: u16,
    pub mandatory: bool,
    pub spans: bool,
    pub least: usize,
    pub most: usize,
    pub step: usize,
}

// A grouping's header: its tag, how many bytes it takes itself, and the length that it tells.
#[derive(Clone, Copy)]
pub struct Head {
    pub tag: u16,
    pub size: usize,
    pub len: usize,
}

#[derive(Clone, Copy)]
pub enum Header {
    Torn,
    Whole(Head),
}

// Where a record lies in the file area.
#[derive(Clone, Copy)]
pub enum Spot {
    Nowhere,
    At { base: usize, size: usize },
}

// What a rule says: it passes, with a number that later rules go on with, or it refuses by a word.
#[derive(Clone, Copy)]
pub enum Verdict {
    Passes(usize),
    Refuses(u16),
}

// The answers of the calls.
#[derive(Clone, Copy)]
pub struct Made {
    pub number: u8,
    pub card: Card,
}

#[derive(Clone, Copy)]
pub struct Played {
    pub number: u8,
    pub word: u16,
    pub answered: usize,
    pub card: Card,
}

#[derive(Clone, Copy)]
pub struct Ran {
    pub number: u8,
    pub count: usize,
    pub card: Card,
}

#[derive(Clone, Copy)]
pub struct Written {
    pub number: u8,
    pub count: usize,
}

// A shown record: its part of the file area, by place and length.
#[derive(Clone, Copy)]
pub struct Shown {
    pub number: u8,
    pub start: usize,
    pub len: usize,
}

// One pull of the order's reader: a grouping, or which of the two endings.
#[derive(Clone, Copy)]
pub enum Pulled {
    Ended,
    Broken,
    Grouping { tag: u16, start: usize, len: usize },
}
