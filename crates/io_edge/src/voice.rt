// Lines on standard error.
ghost use Rattle.std.specs.Prelude.{◌≡◌, ◌≤◌, length};

use crate::write_whole;
use print_forms::Line;
use std::fmt::Display;
use std::io;
use std::io::Stderr;

const LINE_SIZE: usize = 256;

// Who says what is wrong: each line begins with a label, as `replay: FILE`.
#[derive(Clone, Copy)]
pub struct Voice<'a> {
    pub err: Stderr,
    pub label: &'a [u8],
}

impl Voice<'_> {
    // The same, of something else.
    pub fn labelled<'b>(self, label: &'b [u8]) -> Voice<'b>
        ensures { result.label.now ≡ label.now }
    {
        Voice {
            err: self.err,
            label,
        }
    }

    // The label and a text. Where that fails there is nowhere left to say so.
    pub fn say(self, text: &[u8]) {
        let mut err = self.err;
        let _ = write_whole(&mut err, self.label);
        let _ = write_whole(&mut err, text);
    }

    // The label and what a value displays, up to 256 characters of it.
    pub fn say_line<D: Display + Drop>(self, words: D) {
        let mut line = Line::<LINE_SIZE>::new();
        line.put_form(words);
        self.say(line.as_bytes());
    }

    // A text's fault at a place. What stands there is not told, since it could be a key's.
    pub fn say_fault(self, is_half: bool, line: u32, column: u32) {
        let fault = if is_half {
            "half a byte: the digit stands alone"
        } else {
            "not a hexadecimal digit"
        };
        self.say_line(format_args!(": line {line}, column {column}: {fault}\n"));
    }

    // What failed and why: the label, and the system's reason.
    pub fn say_failed(self, why: io::Error) {
        let mut line = Line::<LINE_SIZE>::new();
        line.put_form(format_args!(": {why}"));
        let words = line.as_bytes();
        self.say(&words[..words_end(words)]);
        self.labelled(b"\n").say(b"");
    }
}

// The library puts the system's number behind its words, which are shown alone.
const NUMBER: &[u8] = b" (os error ";

// How long the words are without the number.
fn words_end(words: &[u8]) -> usize
    ensures { result ≤ length words.now }
{
    words
        .windows(NUMBER.len())
        .position(|w| w == NUMBER)
        .unwrap_or(words.len())
}
