// Standard output.
use crate::status::Failure;
use crate::voice::Voice;
use crate::write_whole;
use std::io;
use std::io::{ErrorKind, Stdout};

// Where a program prints, and the voice that says that it could not, as `replay: standard output`.
#[derive(Clone, Copy)]
pub struct Page<'a> {
    pub out: Stdout,
    pub voice: Voice<'a>,
}

impl Page<'_> {
    // Writes to standard output as `write_whole`. Where that failed, nothing is to be written behind it.
    pub fn print(self, bytes: &[u8]) -> Result<(), Failure> {
        let mut out = self.out;
        match write_whole(&mut out, bytes) {
            Ok(()) => Ok(()),
            Err(e) => Err(self.not_printed(e)),
        }
    }

    // That the reader has gone is said to nobody.
    fn not_printed(self, error: io::Error) -> Failure {
        if error.kind() == ErrorKind::BrokenPipe {
            return Failure::Gone;
        }
        self.voice.say_failed(error);
        Failure::NotDone
    }
}
