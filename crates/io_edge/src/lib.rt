// Where a program meets the system: whole reads and writes that tell a failure from an end, what it was started on,
// files by their names, lines on standard error, standard output, and the status that it tells.
#![tactic(auto)]

mod files;
mod page;
mod source;
mod status;
mod voice;

ghost use Rattle.std.specs.Prelude.{◌≡◌, length, take, OnOk};
ghost use Rattle.std.specs.IoError.{raw_os_error};
ghost use Rattle.std.specs.Io.KnownBytes.{Consumes, Appends};
ghost use Rattle.io_edge.specs.Counts.{IsPrefixLen, count_in};

pub use files::{open_overwrite, open_read, remove, rename};
pub use page::Page;
pub use source::{Arguments, Label, Source, Stream, is_text_name};
pub use status::{Failure, Status, listener, tell};
use std::io::{ErrorKind, Read, Write};
use std::{io, thread};
pub use voice::Voice;

// How many bytes a read came to, and why no further.
#[derive(Clone, Copy)]
pub struct ReadError {
    pub count: usize,
    pub why: io::Error,
}

// The system's number of an input or output error.
const EIO: i32 = 5;

// Whether a call that failed is to be made again: a signal came in between, or the other end was not ready. Only
// a descriptor that does not wait by itself is waited for here.
fn is_again(error: &io::Error) -> bool {
    match error.kind() {
        ErrorKind::WouldBlock => {
            thread::yield_now();
            true
        }
        ErrorKind::Interrupted => true,
        _ => false,
    }
}

// Why reading is given up that does not come to its end: there is no word for that.
pub fn given_up() -> io::Error
    ensures { raw_os_error result ≡ Some EIO }
{
    io::Error::from_raw_os_error(EIO)
}

// Reads until the room is full or the input ends. The loops here count more turns than a run uses up, since nothing
// says how often a call is made again.
pub fn read_full<R: Read>(from: &mut R, room: &mut [u8]) -> Result<usize, ReadError>
    ensures count { IsPrefixLen (count_in result) room.new }
    ensures bytes { Consumes (R.remaining from.old) (R.remaining from.new) (take (count_in result) room.new) }
{
    let mut count: usize = 0;
    for _ in 0..u64::MAX {
        if count >= room.len() {
            return Ok(count);
        }
        match from.read(&mut room[count..]) {
            Ok(0) => return Ok(count),
            Ok(n) => count += n,
            Err(why) => {
                if !is_again(&why) {
                    return Err(ReadError { count, why });
                }
            }
        }
    }
    Err(ReadError {
        count,
        why: given_up(),
    })
}

// Why a write is given up that moves nothing: no other would move more.
fn no_more() -> io::Error {
    io::Error::from(ErrorKind::WriteZero)
}

// Writes all of the bytes, by as many writes as it takes, or tells why a write failed.
pub fn write_whole<W: Write>(to: &mut W, bytes: &[u8]) -> io::Result<()>
    ensures { OnOk result (Appends (W.contents to.old) (W.contents to.new) bytes.now) }
{
    let mut rest = bytes;
    for _ in 0..u64::MAX {
        if rest.is_empty() {
            return Ok(());
        }
        match to.write(rest) {
            Ok(0) => return Err(no_more()),
            Ok(n) => rest = &rest[n..],
            Err(e) => {
                if !is_again(&e) {
                    return Err(e);
                }
            }
        }
    }
    Err(no_more())
}

// Reads as `read_full`. A failure is said in a line on standard error, the label before the system's reason.
pub fn read_labelled<R: Read>(
    voice: Voice,
    from: &mut R,
    room: &mut [u8],
) -> Result<usize, ReadError>
    ensures count { IsPrefixLen (count_in result) room.new }
    ensures bytes { Consumes (R.remaining from.old) (R.remaining from.new) (take (count_in result) room.new) }
{
    let got = read_full(from, room);
    if let Err(e) = &got {
        voice.say_failed(e.why);
    }
    got
}
