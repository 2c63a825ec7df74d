// A card's bytes, as they are stored.
ghost use Rattle.std.specs.Prelude.{◌≡◌, ◌+◌, ◌≤◌, length};
ghost use Rattle.calls.specs.Stores.{Puts, chip_bytes, life_bytes, span_bytes, open_bytes, running_bytes};
ghost use Rattle.calls.specs.Stores.{descriptor_bytes, files_bytes, secret_bytes, secrets_bytes, facts_bytes};
ghost use Rattle.calls.specs.Stores.{loading_bytes, card_bytes};

use crate::bytes::put;
use crate::stored::{
    CAPACITY, CHALLENGE, COUNTER, FILE_COUNT, FILES, GP, HELD, INTERNAL, LAST, NAME, NAME_LENGTH,
    OPEN_COUNT, OPEN_KIND, OPEN_MISSING, OPEN_NONE, OPEN_RECORD, OPEN_TABLE, OPEN_TAG, REFERENCE,
    ROWS, SECRET_LENGTH, SECRET_SIZE, SECRETS, SELECTED, SERIAL, STARTUP, TRACEABILITY,
};
use model::{Card, Chip, DESCRIPTOR_SIZE, Descriptor, Life, Loading, Open, Running, Secret};

// The parts of a card, each at its own place of the card's bytes.
fn put_chip(b: &mut [u8], chip: Chip)
    requires { length b.old ≡ 1050 }
    ensures { Puts b.old 0 (chip_bytes chip) 37 b.new }
{
    put(b, REFERENCE, chip.reference);
    put(b, CHALLENGE, chip.challenge);
    put(b, TRACEABILITY, chip.traceability);
    put(b, CAPACITY, [chip.capacity]);
}

// What the life cycle changes. Selected is 1 or 0.
fn put_life(b: &mut [u8], life: Life)
    requires { length b.old ≡ 1050 }
    ensures { Puts b.old 37 (life_bytes life) 26 b.new }
{
    put(b, GP, [life.gp]);
    put(b, SELECTED, [life.selected as u8]);
    put(b, NAME, life.name);
    put(b, NAME_LENGTH, (life.namelen as u64).to_be_bytes());
}

// An open value: its byte, its tag, how many bytes are there and how many are missing.
fn put_span(b: &mut [u8], kind: u8, tag: u16, count: usize, missing: usize)
    requires { length b.old ≡ 1050 }
    ensures { Puts b.old 68 (span_bytes kind tag count missing) 19 b.new }
{
    put(b, OPEN_KIND, [kind]);
    put(b, OPEN_TAG, tag.to_be_bytes());
    put(b, OPEN_COUNT, (count as u64).to_be_bytes());
    put(b, OPEN_MISSING, (missing as u64).to_be_bytes());
}

// Where no value is open all of it is zero, and '3100' has no tag here.
fn put_open(b: &mut [u8], pending: Open)
    requires { length b.old ≡ 1050 }
    ensures { Puts b.old 68 (open_bytes pending) 19 b.new }
{
    match pending {
        Open::Shut => put_span(b, OPEN_NONE, 0, 0, 0),
        Open::Table { held, missing } => put_span(b, OPEN_TABLE, 0, held, missing),
        Open::Record {
            tag,
            written,
            missing,
        } => put_span(b, OPEN_RECORD, tag, written, missing),
    }
}

// How far the loading is.
fn put_running(b: &mut [u8], p: Running)
    requires { length b.old ≡ 1050 }
    ensures { Puts b.old 63 (running_bytes p) 24 b.new }
{
    put(b, INTERNAL, [p.internal]);
    put(b, ROWS, p.rows.to_be_bytes());
    put(b, LAST, p.last.to_be_bytes());
    put_open(b, p.pending);
}

// A descriptor as document 01 stores it.
fn put_descriptor(b: &mut [u8], at: usize, d: Descriptor)
    requires { at + 18 ≤ length b.old }
    ensures { Puts b.old at (descriptor_bytes d) 18 b.new }
{
    put(b, at, d.lid.to_be_bytes());
    put(
        b,
        at + 2,
        [d.sfi, d.filetype, d.eftype, d.recsize, d.numrec],
    );
    put(b, at + 7, d.ac);
    put(b, at + 11, d.nkey);
    put(b, at + 15, [d.refsfi, d.refnum, d.status]);
}

// The 31 descriptors.
fn put_files(b: &mut [u8], files: [Descriptor; 31])
    requires { length b.old ≡ 1050 }
    ensures { Puts b.old 105 (files_bytes files) 558 b.new }
{
    for (i, d) in files.iter().enumerate() {
        put_descriptor(b, FILES + DESCRIPTOR_SIZE * i, *d);
    }
}

// A secret's bytes, and its length behind them.
fn put_secret(b: &mut [u8], at: usize, s: Secret)
    requires { at + 72 ≤ length b.old }
    ensures { Puts b.old at (secret_bytes s) 72 b.new }
{
    put(b, at, s.bytes);
    put(b, at + SECRET_LENGTH, (s.len as u64).to_be_bytes());
}

// The secrets of '3800' and '4101' to '4104'.
fn put_secrets(b: &mut [u8], secrets: [Secret; 5])
    requires { length b.old ≡ 1050 }
    ensures { Puts b.old 690 (secrets_bytes secrets) 360 b.new }
{
    for (i, s) in secrets.iter().enumerate() {
        put_secret(b, SECRETS + SECRET_SIZE * i, *s);
    }
}

// The numbers and facts of the loading part.
fn put_facts(b: &mut [u8], l: Loading)
    requires { length b.old ≡ 1050 }
    ensures { Puts b.old 663 (facts_bytes l) 27 b.new }
{
    put(b, FILE_COUNT, (l.count as u64).to_be_bytes());
    put(b, SERIAL, l.serial);
    put(b, STARTUP, l.startup);
    put(b, COUNTER, l.counter.to_be_bytes());
}

// What groupings change.
fn put_loading(b: &mut [u8], l: Loading)
    requires { length b.old ≡ 1050 }
    ensures { Puts b.old 63 (loading_bytes l) 987 b.new }
{
    put_running(b, l.running);
    put(b, HELD, l.held);
    put_files(b, l.files);
    put_facts(b, l);
    put_secrets(b, l.secrets);
}

// A card, sound or not: all of its bytes.
pub fn put_card(b: &mut [u8], c: Card)
    requires { length b.old ≡ 1050 }
    ensures { b.new ≡ card_bytes c }
{
    put_chip(b, c.chip);
    put_life(b, c.life);
    put_loading(b, c.loading);
}
