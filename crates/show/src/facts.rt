// The card in words but its files: its life, its facts, the rows taken, the secrets' lengths.
use crate::text::{Hex, Many, Text};
use model::{Card, Life, Loading, Open, ROW_COUNT, Secret};
use std::fmt;
use std::fmt::{Display, Formatter, Write};

// '3800' is row 6; the secrets are those of rows 6 to 10.
const FIRST_SECRET_ROW: usize = 6;

const FILE_TABLE_TAG: u16 = 0x3100;

// A printable character as it is, any other byte as a dot.
fn character(b: u8) -> char {
    match b {
        0x20..=0x7E => b as char,
        _ => '.',
    }
}

// Bytes as text.
#[derive(Clone, Copy)]
struct Characters<'a>(&'a [u8]);

impl Display for Characters<'_> {
    fn fmt<W: Write>(&self, f: &mut Formatter<W>) -> fmt::Result {
        for b in self.0 {
            write!(f, "{}", character(*b))?;
        }
        Ok(())
    }
}

// The name as text, and in hexadecimal.
fn write_name(text: &mut Text, life: &Life) {
    let name = &life.name[..life.namelen.min(life.name.len())];
    if name.is_empty() {
        text.put("Card\n  name            none");
        return;
    }
    text.put("Card\n  name            ");
    text.put(Characters(name));
    text.put(format_args!(" '{}'", Hex(name)));
}

// The states, and how many events there were.
fn write_states(text: &mut Text, life: &Life, internal: u8, events: u64) {
    let cycle = match life.gp {
        0x00 => " absent",
        0x03 => " installed",
        0x07 => " selectable",
        0x83 => " locked from installed",
        0x87 => " locked from selectable",
        _ => "",
    };
    let selected = if life.selected {
        "selected"
    } else {
        "not selected"
    };
    let state = match internal {
        0xCC => " NOT_PERSONALIZED, before loading",
        0x5A => " PERSONALIZING",
        0xA5 => " PERSONALIZED",
        _ => "",
    };
    let gp = life.gp;
    text.put(format_args!(
        "\n  life cycle      '{gp:02X}'{cycle}, {selected}\n  internal state  '{internal:02X}'{state}\n  events          {events:05}"
    ));
}

// Serial number and startup information, whose first byte is at least 6 once loaded.
fn write_kept(text: &mut Text, l: &Loading) {
    text.put(format_args!("\n  serial number   '{}'", Hex(&l.serial)));
    text.put(format_args!("\n  startup         '{}'", Hex(&l.startup)));
    match l.startup[0] {
        0 => text.put(", not loaded"),
        most => text.put(format_args!(
            ", {} in a session at most",
            Many(most as usize, "modification")
        )),
    }
}

// An open value: its tag, and how many bytes are missing.
#[derive(Clone, Copy)]
struct Gap(Open);

impl Display for Gap {
    fn fmt<W: Write>(&self, f: &mut Formatter<W>) -> fmt::Result {
        let (tag, missing) = match self.0 {
            Open::Shut => return write!(f, "none"),
            Open::Table { missing, .. } => (FILE_TABLE_TAG, missing),
            Open::Record { tag, missing, .. } => (tag, missing),
        };
        write!(f, "'{tag:04X}', {} still missing", Many(missing, "byte"))
    }
}

// The counter, the open value, and how many rows are taken.
fn write_progress(text: &mut Text, l: &Loading) {
    text.put(format_args!(
        "\n  counter         {}\n  open value      {}",
        l.counter,
        Gap(l.running.pending)
    ));
    text.put(format_args!("\n\nRows taken: {}", row_sets::count(l.running.rows)));
}

// What a row is, with the last tag of a record.
#[derive(Clone, Copy)]
struct RowWords {
    row: usize,
    last: u16,
}

impl Display for RowWords {
    fn fmt<W: Write>(&self, f: &mut Formatter<W>) -> fmt::Result {
        match self.row {
            1 => write!(f, "\n  '9484' challenge"),
            2 => write!(f, "\n  '2000' serial number"),
            3 => write!(f, "\n  '2100' startup information"),
            4 => write!(f, "\n  '2200' transaction counter"),
            5 => write!(f, "\n  '3100' file table"),
            6 => write!(f, "\n  '3800' activation parameters"),
            7 => write!(f, "\n  '4101' Issuer key"),
            8 => write!(f, "\n  '4102' Load key"),
            9 => write!(f, "\n  '4103' Debit key"),
            10 => write!(f, "\n  '4104' PIN"),
            _ => write!(f, "\n  'ssnn' file contents, last '{:04X}'", self.last),
        }
    }
}

fn write_rows(text: &mut Text, rows: u16, last: u16) {
    for row in 1..=ROW_COUNT {
        if row_sets::is_taken(rows, row) {
            text.put(RowWords { row, last });
        }
    }
}

// The secrets' lengths, and no byte of them.
fn write_lengths(text: &mut Text, secrets: &[Secret; 5]) {
    for (i, s) in secrets.iter().enumerate() {
        let row = FIRST_SECRET_ROW + i;
        text.put(RowWords { row, last: 0 });
        match s.len {
            0 => text.put(": none"),
            n => text.put(format_args!(": {}", Many(n, "byte"))),
        }
    }
}

pub fn write_facts(text: &mut Text, c: &Card, events: u64) {
    let l = &c.loading;
    write_name(text, &c.life);
    write_states(text, &c.life, l.running.internal, events);
    write_kept(text, l);
    write_progress(text, l);
    write_rows(text, l.running.rows, l.running.last);
    text.put("\n\nSecrets, their lengths only");
    write_lengths(text, &l.secrets);
}
