// A refusal in words: which rule, where in the order, and what was found there. No byte of a value is ever told.
#![tactic(auto)]

ghost use Rattle.std.specs.Prelude.{◌≤◌, length};

use model::{CHIP_SIZE, RECORD_ROW, ROW_COUNT};
use print_forms::Line;
use reason_stops::{Cause, Stop};
use reason_why::Why;
use std::fmt;
use std::fmt::{Display, Formatter, Write};
use table_flaws::Flaw;

const TAG_SIZE: usize = 2;

// How many bytes.
#[derive(Clone, Copy)]
struct Bytes(usize);

impl Display for Bytes {
    fn fmt<W: Write>(&self, f: &mut Formatter<W>) -> fmt::Result {
        match self.0 {
            1 => write!(f, "1 byte"),
            n => write!(f, "{n} bytes"),
        }
    }
}

// What is wrong with a descriptor. The flaw is another crate's type, and this one's to put into words.
#[derive(Clone, Copy)]
struct FlawWords(Flaw);

impl Display for FlawWords {
    fn fmt<W: Write>(&self, f: &mut Formatter<W>) -> fmt::Result {
        match self.0 {
            Flaw::Nothing => write!(f, "nothing is wrong with it"),
            Flaw::TooMany => write!(f, "31 stand before it, and that is a whole table"),
            Flaw::Access(i) => write!(
                f,
                "AC or NKey {i} (AC must be 00, 01, 10 or 1F, and NKey 1 to 3 beside 10, else 0)"
            ),
            Flaw::Df => write!(
                f,
                "it comes first and is no DF's (SFI 0, 02, 00, sizes and DataRef 0, status 0 or 1)"
            ),
            Flaw::Sfi => write!(f, "its SFI is over 1E"),
            Flaw::FileType => write!(f, "its file type is not 04"),
            Flaw::EfType => write!(f, "its EF type is not 01, 02, 04, 08 or 09"),
            Flaw::Status => write!(f, "its status is not 0"),
            Flaw::Size => write!(f, "its size is 0"),
            Flaw::DataRef => write!(
                f,
                "its DataRef must be 0, or for type 08 a counter of an earlier file of type 09"
            ),
            Flaw::LidUsed(k) => write!(f, "its LID is used by descriptor {k}"),
            Flaw::SfiUsed(k) => write!(f, "its SFI is used by descriptor {k}"),
            Flaw::Total => write!(f, "the files have over 4,096 bytes in all"),
        }
    }
}

// A value's length that is refused: `most` is the record's size or what the tag's row allows.
#[derive(Clone, Copy)]
struct LengthWords {
    tag: u16,
    len: usize,
    most: usize,
}

impl Display for LengthWords {
    fn fmt<W: Write>(&self, f: &mut Formatter<W>) -> fmt::Result {
        let most = self.most;
        write!(f, "f: its value has {}, ", Bytes(self.len))?;
        if self.len <= most {
            return write!(f, "which this tag does not allow");
        }
        if row_table::row_of(self.tag) == RECORD_ROW {
            return write!(f, "and the record has room for {most}");
        }
        write!(f, "and at most {most} are allowed")
    }
}

// A row's first tag; 0 where there is no such row.
fn first_tag(row: usize) -> u16 {
    if row < 1 || ROW_COUNT < row {
        return 0;
    }
    row_table::row_at(row).first
}

// The rule that an order stops at, with what it found.
#[derive(Clone, Copy)]
struct RuleWords {
    tag: u16,
    cause: Cause,
}

impl Display for RuleWords {
    fn fmt<W: Write>(&self, f: &mut Formatter<W>) -> fmt::Result {
        match self.cause {
            Cause::HeaderTorn(left) => write!(
                f,
                "a: the header is not whole: {} left",
                Bytes(left)
            ),
            Cause::LengthFfff => write!(f, "a: its length is FFFF"),
            Cause::Query => write!(f, "b: an order holds no queries"),
            Cause::UnknownTag => write!(f, "d: unknown tag"),
            Cause::RowMissing(row) => write!(
                f,
                "d: row {row} ('{:04X}'), which is mandatory, must come before it",
                first_tag(row)
            ),
            Cause::RowPassed => write!(f, "d: this row or a later one has come already"),
            Cause::NotRising(last) => write!(f, "d: records rise, and '{last:04X}' came before it"),
            Cause::NoFile => write!(f, "e: no file has SFI {:02X}", self.tag / 256),
            Cause::NoRecord => write!(f, "e: the file has no such record"),
            Cause::Length { len, most } => LengthWords {
                tag: self.tag,
                len,
                most,
            }
            .fmt(f),
            Cause::CutShort(n) => write!(f, "g: its value is cut short by {}", Bytes(n)),
            Cause::Startup => write!(f, "h: the first byte must be 6 to 55 and the last two zero"),
            Cause::Capacity => write!(f, "h: the chip's session capacity is under 6"),
            Cause::Descriptor { index, flaw } => write!(
                f,
                "h: descriptor {index}: {}",
                FlawWords(flaw)
            ),
            // What the order's end leaves breaks no rule.
            Cause::Open(_) | Cause::Rows(_) => Ok(()),
        }
    }
}

// The mandatory rows that are missing, by their first tags.
#[derive(Clone, Copy)]
struct MissingRows {
    taken: u16,
}

impl Display for MissingRows {
    fn fmt<W: Write>(&self, f: &mut Formatter<W>) -> fmt::Result {
        write!(
            f,
            ": every grouping passes, and these mandatory rows are missing:"
        )?;
        for row in 1..=ROW_COUNT {
            let x = row_table::row_at(row);
            if x.mandatory && !row_sets::is_taken(self.taken, row) {
                write!(f, " {:04X}", x.first)?;
            }
        }
        Ok(())
    }
}

// Whether what an order stops at has a tag.
pub fn has_tag(cause: Cause) -> bool {
    match cause {
        Cause::HeaderTorn(left) => TAG_SIZE <= left,
        Cause::Rows(_) => false,
        _ => true,
    }
}

// Where an order stops, and on which line of a text that it was read from; and why.
#[derive(Clone, Copy)]
struct StopWords {
    stop: Stop,
    line: Option<u32>,
}

impl StopWords {
    // Where in the order, and in the text.
    fn put_place<W: Write>(&self, f: &mut Formatter<W>) -> fmt::Result {
        write!(f, ": at byte {} of the order", self.stop.place)?;
        if let Some(line) = self.line {
            write!(f, " (line {line} of the text)")?;
        }
        if has_tag(self.stop.cause) {
            write!(f, ", '{:04X}'", self.stop.tag)?;
        }
        write!(f, ": ")
    }
}

impl Display for StopWords {
    // Of a value that the order's end leaves open there is no word.
    fn fmt<W: Write>(&self, f: &mut Formatter<W>) -> fmt::Result {
        let Stop {
            tag,
            word,
            cause,
            ..
        } = self.stop;
        if let Cause::Rows(taken) = cause {
            return MissingRows { taken }.fmt(f);
        }
        self.put_place(f)?;
        if let Cause::Open(n) = cause {
            return write!(f, "its value misses {} at the order's end", Bytes(n));
        }
        write!(
            f,
            "the card answers {word:04X}, rule {}",
            RuleWords { tag, cause }
        )
    }
}

// A refusal by its number. `chip_size` is told for 7. For 10 `why` is what the order stops at, and `line` that one's
// line in a text.
#[derive(Clone, Copy)]
pub struct Refusal {
    pub number: u8,
    pub chip_size: usize,
    pub why: Why,
    pub line: Option<u32>,
}

impl Refusal {
    // Its words, behind what a line has.
    pub fn put_on<const N: usize>(self, line: &mut Line<N>)
        ensures { length line.old ≤ length line.new }
    {
        line.put_form(format_args!("{self}"));
    }

    // What a number means.
    fn put_number<W: Write>(&self, f: &mut Formatter<W>) -> fmt::Result {
        let number = self.number;
        write!(f, ": refused by number {number}: ")?;
        match number {
            7 if self.chip_size != CHIP_SIZE => write!(
                f,
                "the chip record has {}, and it must have 40",
                Bytes(self.chip_size)
            ),
            7 => write!(
                f,
                "the chip record's last three bytes, 37 to 39 counted from 0, must be zero"
            ),
            9 => write!(
                f,
                "the order has over 8,192 bytes, and at most that many can be cut"
            ),
            10 => write!(f, "the order is not complete for this chip"),
            _ => write!(f, "it is refused by number {number}"),
        }
    }
}

impl Display for Refusal {
    fn fmt<W: Write>(&self, f: &mut Formatter<W>) -> fmt::Result {
        self.put_number(f)?;
        match self.why {
            Why::Complete => Ok(()),
            Why::Stops(stop) => StopWords {
                stop,
                line: self.line,
            }
            .fmt(f),
        }
    }
}
