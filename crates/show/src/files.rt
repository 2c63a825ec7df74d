// The file table in words, and what the files hold.
use crate::text::{Hex, Many, Text};
use model::{BINARY, Card, Descriptor, SIMULATED};
use std::fmt;
use std::fmt::{Display, Formatter, Write};

// The FileType that the text turns on.
const DF: u8 = 0x02;

const HEX_LINE: usize = 32;

// An access condition, with its key where it has one.
#[derive(Clone, Copy)]
struct Access {
    ac: u8,
    key: u8,
}

impl Display for Access {
    fn fmt<W: Write>(&self, f: &mut Formatter<W>) -> fmt::Result {
        match self.ac {
            0x00 => write!(f, "NEVER"),
            0x01 => write!(f, "PIN"),
            0x10 => {
                let key = match self.key {
                    1 => "1 (Issuer key)",
                    2 => "2 (Load key)",
                    3 => "3 (Debit/Validation key)",
                    _ => "",
                };
                write!(f, "SESSION with key {key}")
            }
            0x1F => write!(f, "ALWAYS"),
            _ => Ok(()),
        }
    }
}

// The first behind a title, the others behind a semicolon.
fn write_accesses(text: &mut Text, d: &Descriptor) {
    for (i, (ac, key)) in d.ac.iter().zip(&d.nkey).enumerate() {
        let before = if i == 0 {
            "\n    access conditions: "
        } else {
            "; "
        };
        let access = Access { ac: *ac, key: *key };
        text.put(format_args!("{before}{access}"));
    }
}

// The type, with a binary file's size, or the number and size of the records.
fn write_sizes(text: &mut Text, d: &Descriptor) {
    if d.eftype == BINARY {
        let size = table_fields::size_of(*d);
        text.put(format_args!(", binary file, {}", Many(size, "byte")));
        return;
    }
    let kind = match d.eftype {
        0x02 => ", linear file, ",
        0x04 => ", cyclic file, ",
        0x08 => ", simulated counter file, ",
        0x09 => ", counters file, ",
        _ => "",
    };
    let records = Many(d.numrec as usize, "record");
    let bytes = Many(d.recsize as usize, "byte");
    text.put(format_args!("{kind}{records} of {bytes}"));
}

// What a descriptor says but its access conditions.
fn write_kind(text: &mut Text, d: &Descriptor) {
    let lid = d.lid;
    if d.filetype == DF {
        let state = if d.status % 2 == 0 {
            "validated"
        } else {
            "invalidated"
        };
        text.put(format_args!("\n  LID '{lid:04X}', DF, {state}"));
        return;
    }
    match d.sfi {
        0 => text.put(format_args!("\n  LID '{lid:04X}', EF, no SFI")),
        sfi => text.put(format_args!("\n  LID '{lid:04X}', EF, SFI '{sfi:02X}'")),
    }
    write_sizes(text, d);
}

// Bytes in hexadecimal, as many lines as they need.
fn write_dump(text: &mut Text, bytes: &[u8]) {
    for line in bytes.chunks(HEX_LINE) {
        text.put(format_args!("      {}\n", Hex(line)));
    }
}

// A record: its place, and the bytes that `shown` gives.
fn write_record(text: &mut Text, c: &Card, area: &[u8], sfi: u8, nn: u8) {
    let s = call_shown::shown(*c, area, sfi, nn);
    if s.number != 0 {
        text.put(format_args!("    record {nn} cannot be shown\n"));
        return;
    }
    text.put(format_args!(
        "    record {nn}: offset {}, {}\n",
        s.start,
        Many(s.len, "byte")
    ));
    write_dump(text, call_shown::part_shown(area, s));
}

// What is stored of a file: of a simulated counter DataRef tells where.
fn write_contents(text: &mut Text, c: &Card, area: &[u8], d: &Descriptor) {
    if d.filetype == DF {
        return;
    }
    if d.eftype == SIMULATED {
        text.put(format_args!(
            "    stores nothing: it is counter {} of the counters file with SFI '{:02X}'\n",
            d.refnum, d.refsfi
        ));
        return;
    }
    if d.sfi == 0 {
        text.put("    no SFI: its records cannot be loaded or shown\n");
        return;
    }
    if d.eftype == BINARY {
        write_record(text, c, area, d.sfi, 0);
        return;
    }
    for nn in 1..=d.numrec {
        write_record(text, c, area, d.sfi, nn);
    }
}

pub fn write_table(text: &mut Text, c: &Card, area: &[u8]) {
    let l = &c.loading;
    let files = &l.files[..l.count.min(l.files.len())];
    match files.len() {
        0 => text.put("\n\nFile table: none\n"),
        n => text.put(format_args!(
            "\n\nFile table: {}; offsets are those in the file area\n",
            Many(n, "descriptor")
        )),
    }
    for d in files {
        write_kind(text, d);
        write_accesses(text, d);
        text.put("\n");
        write_contents(text, c, area, d);
    }
}
