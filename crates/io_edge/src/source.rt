// What a program was started on.
ghost use Rattle.std.specs.Prelude.{◌≡◌, ◌+◌, ◌≤◌, cond, length, take, IfSome};
ghost use Rattle.io_edge.specs.Counts.{IsPrefixLen, count_in};

use crate::files::open_read;
use crate::status::Failure;
use crate::voice::Voice;
use crate::{ReadError, read_labelled};
use print_forms::Line;
use std::env::{Env, FillError};
use std::fs::File;
use std::io;
use std::io::{Read, Stdin};

// Room for a label: a program's name, a colon, a blank, and a file's name of up to 4,095 bytes.
const LABEL_SIZE: usize = 4128;

pub type Label = Line<LABEL_SIZE>;

// An option is shorter. A longer argument is none.
const WORD_SIZE: usize = 16;

// Whether a name ends in .txt.
pub fn is_text_name(name: &[u8]) -> bool {
    name.ends_with(b".txt")
}

// What is read: standard input, or a file.
#[derive(Drop)]
pub enum Stream {
    Standard(Stdin),
    Named(File),
}

impl Read for Stream {
    fn read(&mut self, buf: &mut [u8]) -> io::Result<usize> {
        match self {
            Stream::Standard(stdin) => stdin.read(buf),
            Stream::Named(file) => file.read(buf),
        }
    }
}

// What a program reads, who says what is wrong with that, and whether its name is that of a text.
#[derive(Drop)]
pub struct Source<'a> {
    pub from: Stream,
    pub voice: Voice<'a>,
    pub is_text: bool,
}

impl Source<'_> {
    // Reads as `read_labelled`.
    pub fn read(&mut self, room: &mut [u8]) -> Result<usize, ReadError>
        ensures count { IsPrefixLen (count_in result) room.new }
        ensures stays { (self.new.voice ≡ self.old.voice) × (self.new.is_text ≡ self.old.is_text) }
    {
        read_labelled(self.voice, &mut self.from, room)
    }
}

// The system's number of the reason that a name is too long.
const ENAMETOOLONG: i32 = 36;

// The arguments from the next on, and the program's voice, as `replay: `. The runtime by its name: under a bound `Env` a
// program's proof would rest on four more functions of C, which none calls.
#[derive(Drop)]
pub struct Arguments<'a> {
    pub rt: &'a HostRuntime,
    pub voice: Voice<'a>,
    pub next: usize,
}

impl<'a> Arguments<'a> {
    pub fn new(rt: &'a HostRuntime, voice: Voice<'a>) -> Arguments<'a>
        ensures { result.next ≡ 1 }
    {
        Arguments { rt, voice, next: 1 }
    }

    // The next argument at the front of the room, and how long it is: none where there is none, or no room for it.
    pub fn copy_next(&self, room: &mut [u8]) -> Option<usize>
        ensures { IfSome result (λ n. IsPrefixLen n room.new) }
    {
        self.rt.arg(self.next, room).ok()
    }

    // Whether the next argument is this option. A longer one is no word here; none is an empty one.
    pub fn is_next(&self, option: &[u8]) -> bool {
        let mut word = [0u8; WORD_SIZE];
        let n = self.copy_next(&mut word).unwrap_or(0);
        &word[..n] == option
    }

    // Whether the next argument is this option. Then the one behind it is next.
    pub fn take_option(&mut self, option: &[u8]) -> bool
        requires { self.old.next ≤ 8 }
        ensures { self.new.next ≡ cond result (self.old.next + 1) self.old.next }
    {
        let given = self.is_next(option);
        if given {
            self.next += 1;
        }
        given
    }

    // Whether there is an argument i.
    fn has(&self, i: usize) -> bool {
        let mut word = [0u8; WORD_SIZE];
        match self.rt.arg(i, &mut word) {
            Ok(_) | Err(FillError::TooLong) => true,
            Err(FillError::NotPresent) => false,
        }
    }

    // What the next argument names, or standard input where there is none; nothing may follow. The label is the
    // program's and the file's name.
    pub fn open_last<'b, const N: usize>(
        &self,
        stdin: Stdin,
        label: &'b mut Line<N>,
    ) -> Result<Source<'b>, Failure>
        requires { self.now.next ≤ 9 }
    {
        if self.has(self.next + 1) {
            self.voice.say(b"one file, or none for standard input\n");
            return Err(Failure::NotDone);
        }
        label.clear();
        label.put_text(self.voice.label);
        if self.has(self.next) {
            return self.open_named(label);
        }
        label.put_text(b"standard input");
        Ok(Source {
            from: Stream::Standard(stdin),
            voice: self.voice.labelled(label.as_bytes()),
            is_text: false,
        })
    }

    // The file that the next argument names. An empty name is one that there is no file of; one that the label has no
    // room for is too long.
    fn open_named<'b, const N: usize>(
        &self,
        label: &'b mut Line<N>,
    ) -> Result<Source<'b>, Failure> {
        let mut room = [0u8; N];
        let Some(n) = self.copy_next(&mut room[..label.room()]) else {
            label.put_text(b"FILE");
            let why = io::Error::from_raw_os_error(ENAMETOOLONG);
            self.voice.labelled(label.as_bytes()).say_failed(why);
            return Err(Failure::NotDone);
        };
        let name = &room[..n];
        label.put_text(name);
        let voice = self.voice.labelled(label.as_bytes());
        match open_read(self.rt, name) {
            Ok(file) => Ok(Source {
                from: Stream::Named(file),
                voice,
                is_text: is_text_name(name),
            }),
            Err(e) => {
                voice.say_failed(e);
                Err(Failure::NotDone)
            }
        }
    }
}
