// The parts of a call, taken from the input one behind the other. Behind the first fault nothing more is taken.
ghost use Rattle.std.specs.Prelude.{◌≡◌, ◌+◌, ◌*◌, ◌≤◌, length, IfOk};
ghost use Rattle.io_edge.specs.Counts.{IsPrefixLen};

use crate::bytes::array;
use crate::card_in::card_in;
use crate::stored::CARD_SIZE;
use io_edge::{Failure, ReadError, Source};
use model::Card;
use std::fmt;
use std::fmt::{Display, Formatter, Write};

// The longest lent memory, and the most words.
pub const MEMORY_LIMIT: usize = 12_480;

pub const WORD_LIMIT: usize = 64;

// What is wrong with a call: the input ends within it; its memory is longer than may be, or its words are; there is no
// such call. Or a read or a write failed, which was said, or the reader of standard output has gone.
#[derive(Clone, Copy, Debug, PartialEq, Eq)]
pub enum Fault {
    Torn,
    TooLong,
    Unknown,
    Failed,
}

impl Display for Fault {
    fn fmt<W: Write>(&self, f: &mut Formatter<W>) -> fmt::Result {
        match self {
            Fault::Torn => write!(f, "the input ends within it"),
            Fault::TooLong => write!(f, "memory or words too long"),
            Fault::Unknown => write!(f, "no such call"),
            Fault::Failed => write!(f, "it cannot be read, or not be told"),
        }
    }
}

impl From<ReadError> for Fault {
    fn from(_error: ReadError) -> Fault {
        Fault::Failed
    }
}

impl From<Failure> for Fault {
    fn from(_failure: Failure) -> Fault {
        Fault::Failed
    }
}

// The byte that says which call.
#[derive(Clone, Copy, Debug, PartialEq, Eq)]
pub enum Call {
    Play,
    Run,
    Shown,
    Count,
    Fresh,
    Write,
    Pull,
}

impl TryFrom<u8> for Call {
    type Error = Fault;

    fn try_from(byte: u8) -> Result<Call, Fault> {
        match byte {
            1 => Ok(Call::Play),
            2 => Ok(Call::Run),
            3 => Ok(Call::Shown),
            4 => Ok(Call::Count),
            5 => Ok(Call::Fresh),
            6 => Ok(Call::Write),
            7 => Ok(Call::Pull),
            _ => Err(Fault::Unknown),
        }
    }
}

// Where the calls are read.
#[derive(Drop)]
pub struct Input<'a> {
    pub source: Source<'a>,
}

impl Input<'_> {
    // Fills a room.
    fn take(&mut self, room: &mut [u8]) -> Result<(), Fault> {
        if self.source.read(room)? < room.len() {
            return Err(Fault::Torn);
        }
        Ok(())
    }

    // So many bytes.
    pub fn take_array<const N: usize>(&mut self) -> Result<[u8; N], Fault> {
        let mut bytes = [0u8; N];
        self.take(&mut bytes)?;
        Ok(bytes)
    }

    // Which call. Where no byte comes, the calls are at their end.
    pub fn take_call(&mut self) -> Result<Option<Call>, Fault> {
        match self.take_array::<1>() {
            Ok(byte) => Ok(Some(Call::try_from(byte[0])?)),
            Err(Fault::Torn) => Ok(None),
            Err(fault) => Err(fault),
        }
    }

    // A card's stored bytes.
    pub fn take_card(&mut self) -> Result<Card, Fault> {
        let bytes = self.take_array::<CARD_SIZE>()?;
        Ok(card_in(&bytes))
    }

    // How many are to come: what the next two bytes say, if it is no more than may be.
    fn take_length(&mut self, most: usize) -> Result<usize, Fault>
        ensures { IfOk result (λ n. n ≤ most) }
    {
        let n = u16::from_be_bytes(self.take_array()?) as usize;
        if n <= most {
            return Ok(n);
        }
        Err(Fault::TooLong)
    }

    // Lent memory, into a room's front. How long it is.
    pub fn take_memory(&mut self, room: &mut [u8]) -> Result<usize, Fault>
        ensures { IfOk result (λ n. IsPrefixLen n room.new) }
    {
        let n = self.take_length(room.len())?;
        self.take(&mut room[..n])?;
        Ok(n)
    }

    // Words, into a room's front. How many they are.
    pub fn take_words(&mut self, words: &mut [u16; WORD_LIMIT]) -> Result<usize, Fault>
        ensures { IfOk result (λ n. n ≤ 64) }
    {
        let mut bytes = [0u8; 2 * WORD_LIMIT];
        let n = self.take_length(WORD_LIMIT)?;
        self.take(&mut bytes[..2 * n])?;
        for (w, b) in words.iter_mut().zip(bytes.chunks_exact(2)) {
            *w = u16::from_be_bytes(array(b, 0));
        }
        Ok(n)
    }
}
