// A job's line on standard output: nine fields parted by tabs.
ghost use Rattle.std.specs.Prelude.{◌≤◌, length};

use io_intake::Unread;
use job_register::Entry;
use print_forms::Line;
use reason_why::Why;
use std::fmt;
use std::fmt::{Display, Formatter, Write};

// How a job ended: entered; its register stood and was whole, with so many events; refused by a number; not done,
// where a text's fault has a line and a column.
#[derive(Clone, Copy)]
pub enum Ending {
    Entered(Entry),
    Kept(usize),
    Refused { number: u8, why: Why },
    Undone(Option<(u32, u32)>),
}

impl From<Unread> for Ending {
    fn from(why: Unread) -> Self {
        match why {
            Unread::Failed(_) => Ending::Undone(None),
            Unread::Wrong { line, column, .. } => Ending::Undone(Some((line, column))),
        }
    }
}

// The fields behind the name, each with the tab before it.
impl Display for Ending {
    fn fmt<W: Write>(&self, f: &mut Formatter<W>) -> fmt::Result {
        match *self {
            Ending::Entered(entry) => {
                let Entry {
                    events,
                    gp,
                    internal,
                    ..
                } = entry;
                let serial = u64::from_be_bytes(entry.serial);
                write!(
                    f,
                    "\t0\t{gp:02X}\t{internal:02X}\t{events}\t{serial:016X}\t-\t-\t-"
                )
            }
            Ending::Kept(events) => write!(f, "\t0\t07\tA5\t{events}\t-\t-\t-\t-"),
            Ending::Refused { number, why } => {
                write!(f, "\t{number}\t-\t-\t0\t-")?;
                put_why(f, why)
            }
            Ending::Undone(None) => write!(f, "\t-\t-\t-\t0\t-\t-\t-\t-"),
            Ending::Undone(Some((line, column))) => {
                write!(f, "\t-\t-\t-\t0\t-\t{line}:{column}\t-\t-")
            }
        }
    }
}

// What the order of a job stops at that is refused, if it does.
fn put_why<W: Write>(f: &mut Formatter<W>, why: Why) -> fmt::Result {
    match why {
        Why::Complete => write!(f, "\t-\t-\t-"),
        Why::Stops(stop) => {
            let place = stop.place;
            let tag = stop.tag;
            let word = stop.word;
            if reason_words::has_tag(stop.cause) {
                return write!(f, "\t{place}\t{tag:04X}\t{word:04X}");
            }
            write!(f, "\t{place}\t-\t{word:04X}")
        }
    }
}

// Control characters would part a line.
fn shown(c: u8) -> u8 {
    if c.is_ascii_control() {
        return b'?';
    }
    c
}

// A job's line, as far as there is room. Nothing that stands there goes.
pub fn put_line<const N: usize>(lines: &mut Line<N>, name: &[u8], ending: Ending)
    ensures { length lines.old ≤ length lines.new }
{
    for c in &name[..name.len().min(lines.room())] {
        lines.push(shown(*c));
    }
    lines.put_form(format_args!("{ending}\n"));
}
