// How a program ends, and who hears of it.
ghost use Rattle.std.specs.Prelude.{◌≡◌, ◌+◌, ◌↔◌, ◌⊎◌, cond, IsTrue};
ghost use Rattle.io_edge.specs.Ends.{number_of, status_with};
ghost use Rattle.io_edge.specs.declared.status.Failure.TheVariants.{NotDone};

use crate::{ReadError, write_whole};
use std::fs::{File, Files, OpenOptions};
use std::os::fd::AsRawFd;

// Where a status goes. The wrapper listens there, on descriptor 3.
const STATUS_FILE: &str = "/dev/fd/3";

// Descriptors 0 to 2 are input, output and errors.
const STANDARD_FILES: i32 = 3;

// Why a program gives up: something failed, which was said on standard error, or the reader of standard output has
// gone.
#[derive(Clone, Copy, Debug, PartialEq, Eq)]
pub enum Failure {
    NotDone,
    Gone,
}

// What a program tells: done; something was refused by a number; or why it was given up.
#[derive(Clone, Copy, Debug, PartialEq, Eq)]
pub enum Status {
    Done,
    Refused,
    NotDone,
    Gone,
}

impl Status {
    // That of a program which came to its end.
    pub fn of(refused: bool) -> Status
        ensures { result ≡ cond refused Status.Refused Status.Done }
    {
        if refused {
            Status::Refused
        } else {
            Status::Done
        }
    }

    // Whether a program came to its end.
    pub fn is_done(self) -> bool
        ensures { IsTrue result ↔ ((self ≡ Status.Done) ⊎ (self ≡ Status.Refused)) }
    {
        self == Status::Done || self == Status::Refused
    }

    // The number that a program tells.
    pub fn number(self) -> u8
        ensures { result ≡ number_of self }
    {
        match self {
            Status::Done => 0,
            Status::Refused => 1,
            Status::NotDone => 2,
            Status::Gone => 4,
        }
    }

    // The same as a character.
    fn digit(self) -> u8
        ensures { result ≡ 48 + number_of self }
    {
        b'0' + self.number()
    }
}

impl From<Failure> for Status {
    ghost from_gives = { λ failure status. status ≡ status_with failure };

    fn from(failure: Failure) -> Self {
        match failure {
            Failure::NotDone => Status::NotDone,
            Failure::Gone => Status::Gone,
        }
    }
}

// A read that failed was said.
impl From<ReadError> for Failure {
    ghost from_gives = { λ _ failure. failure ≡ NotDone };

    fn from(_error: ReadError) -> Self {
        Self::NotDone
    }
}

// Who hears the status of a program that was asked to tell it. A program opens this before any other file: were
// descriptor 3 closed, that file would stand there. Were one of the first three closed, this would stand in its place,
// and what a program prints would be heard as its status: then nobody hears it.
pub fn listener<R: Files<File = File>>(rt: &R, asked: bool) -> Option<File> {
    if !asked {
        return None;
    }
    match OpenOptions::new().append(true).open(rt, STATUS_FILE) {
        Ok(heard) if STANDARD_FILES <= heard.as_raw_fd() => Some(heard),
        _ => None,
    }
}

// The last act of such a program. Who hears nothing knows that it did not come to its end.
pub fn tell(listener: Option<File>, ended: Result<Status, Failure>) {
    if let Some(mut heard) = listener {
        let status = ended.unwrap_or_else(Status::from);
        let _ = write_whole(&mut heard, &[status.digit(), b'\n']);
    }
}
