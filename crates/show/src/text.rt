// What is written: texts that go to standard output one by one, and words that several of them have.
use io_edge::{Failure, Page};
use print_forms::Line;
use std::fmt;
use std::fmt::{Display, Formatter, Write};

// No text is longer.
const TEXT_SIZE: usize = 512;

// A text on its way, and whether all before it went out.
#[derive(Drop)]
pub struct Text<'a> {
    page: Page<'a>,
    line: Line<TEXT_SIZE>,
    sent: Result<(), Failure>,
}

impl<'a> Text<'a> {
    pub fn new(page: Page<'a>) -> Self {
        Self {
            page,
            line: Line::new(),
            sent: Ok(()),
        }
    }

    // One text, by one write: what a pipe takes before its reader comes hangs on how what is written is parted. Where a
    // write failed, nothing is written behind it.
    pub fn put<D: Display + Drop>(&mut self, form: D) {
        self.line.clear();
        self.line.put_form(form);
        if self.sent.is_ok() {
            self.sent = self.page.print(self.line.as_bytes());
        }
    }

    pub fn finish(self) -> Result<(), Failure> {
        self.sent
    }
}

// Bytes in hexadecimal.
#[derive(Clone, Copy)]
pub struct Hex<'a>(pub &'a [u8]);

impl Display for Hex<'_> {
    fn fmt<W: Write>(&self, f: &mut Formatter<W>) -> fmt::Result {
        for b in self.0 {
            write!(f, "{b:02X}")?;
        }
        Ok(())
    }
}

// So many of something, with an s unless it is one.
#[derive(Clone, Copy)]
pub struct Many<'a>(pub usize, pub &'a str);

impl Display for Many<'_> {
    fn fmt<W: Write>(&self, f: &mut Formatter<W>) -> fmt::Result {
        let n = self.0;
        let one = self.1;
        if n == 1 {
            return write!(f, "1 {one}");
        }
        write!(f, "{n} {one}s")
    }
}
