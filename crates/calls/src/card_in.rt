// A card from its stored bytes.
ghost use Rattle.std.specs.Prelude.{◌≡◌, ◌+◌, ◌≤◌, length};
ghost use Rattle.model.specs.Stored.{chip_of};
ghost use Rattle.calls.specs.Cards.{life_from, open_from, running_from, descriptor_from, files_from};
ghost use Rattle.calls.specs.Cards.{secret_from, secrets_from, loading_from, card_from};

use crate::bytes::array;
use crate::stored::{
    CAPACITY, CHALLENGE, COUNTER, FILE_COUNT, FILES, GP, HELD, INTERNAL, LAST, NAME, NAME_LENGTH,
    OPEN_COUNT, OPEN_KIND, OPEN_MISSING, OPEN_RECORD, OPEN_TABLE, OPEN_TAG, REFERENCE, ROWS,
    SECRET_LENGTH, SECRET_SIZE, SECRETS, SELECTED, SERIAL, STARTUP, TRACEABILITY,
};
use model::{
    Card, Chip, DESCRIPTOR_SIZE, Descriptor, Life, Loading, Open, Running, Secret, TABLE_LIMIT,
};

// The chip's facts lie as in a chip record.
fn chip_in(b: &[u8]) -> Chip
    requires { length b.now ≡ 1050 }
    ensures { result ≡ chip_of b.now }
{
    Chip {
        reference: array(b, REFERENCE),
        challenge: array(b, CHALLENGE),
        traceability: array(b, TRACEABILITY),
        capacity: b[CAPACITY],
    }
}

// What the life cycle changes.
fn life_in(b: &[u8]) -> Life
    requires { length b.now ≡ 1050 }
    ensures { result ≡ life_from b.now }
{
    Life {
        gp: b[GP],
        selected: b[SELECTED] != 0,
        name: array(b, NAME),
        namelen: u64::from_be_bytes(array(b, NAME_LENGTH)) as usize,
    }
}

// An open value: its byte, its tag, how many bytes are there and how many are missing.
fn open_in(b: &[u8]) -> Open
    requires { length b.now ≡ 1050 }
    ensures { result ≡ open_from b.now }
{
    let tag = u16::from_be_bytes(array(b, OPEN_TAG));
    let count = u64::from_be_bytes(array(b, OPEN_COUNT)) as usize;
    let missing = u64::from_be_bytes(array(b, OPEN_MISSING)) as usize;
    match b[OPEN_KIND] {
        OPEN_TABLE => Open::Table {
            held: count,
            missing,
        },
        OPEN_RECORD => Open::Record {
            tag,
            written: count,
            missing,
        },
        _ => Open::Shut,
    }
}

// How far the loading is.
fn running_in(b: &[u8]) -> Running
    requires { length b.now ≡ 1050 }
    ensures { result ≡ running_from b.now }
{
    Running {
        internal: b[INTERNAL],
        rows: u16::from_be_bytes(array(b, ROWS)),
        last: u16::from_be_bytes(array(b, LAST)),
        pending: open_in(b),
    }
}

// The descriptor at a place.
fn descriptor_in(b: &[u8], at: usize) -> Descriptor
    requires { at + 18 ≤ length b.now }
    ensures { result ≡ descriptor_from b.now at }
{
    table_fields::descriptor_of(array(b, at))
}

// The 31 descriptors.
fn files_in(b: &[u8]) -> [Descriptor; 31]
    requires { length b.now ≡ 1050 }
    ensures { result ≡ files_from 31 b.now }
{
    let mut files = [descriptor_in(b, FILES); 31];
    for (i, d) in files.iter_mut().enumerate() {
        *d = descriptor_in(b, FILES + DESCRIPTOR_SIZE * i);
    }
    files
}

// A secret's bytes, and its length behind them.
fn secret_in(b: &[u8], at: usize) -> Secret
    requires { at + 72 ≤ length b.now }
    ensures { result ≡ secret_from b.now at }
{
    Secret {
        bytes: array(b, at),
        len: u64::from_be_bytes(array(b, at + SECRET_LENGTH)) as usize,
    }
}

// The secrets of '3800' and '4101' to '4104'.
fn secrets_in(b: &[u8]) -> [Secret; 5]
    requires { length b.now ≡ 1050 }
    ensures { result ≡ secrets_from b.now }
{
    [
        secret_in(b, SECRETS),
        secret_in(b, SECRETS + SECRET_SIZE),
        secret_in(b, SECRETS + 2 * SECRET_SIZE),
        secret_in(b, SECRETS + 3 * SECRET_SIZE),
        secret_in(b, SECRETS + 4 * SECRET_SIZE),
    ]
}

// What groupings change.
fn loading_in(b: &[u8]) -> Loading
    requires { length b.now ≡ 1050 }
    ensures { result ≡ loading_from b.now }
{
    Loading {
        running: running_in(b),
        held: array(b, HELD),
        files: files_in(b),
        count: u64::from_be_bytes(array(b, FILE_COUNT)) as usize,
        serial: array(b, SERIAL),
        startup: array(b, STARTUP),
        counter: u32::from_be_bytes(array(b, COUNTER)),
        secrets: secrets_in(b),
    }
}

// A card, sound or not.
pub fn card_in(b: &[u8]) -> Card
    requires { length b.now ≡ 1050 }
    ensures { result ≡ card_from b.now }
{
    Card {
        chip: chip_in(b),
        life: life_in(b),
        loading: loading_in(b),
    }
}
