// A job from its file, as bytes or as hexadecimal text, in lent room; and what is said where it cannot be read or is
// refused.
#![tactic(auto)]

ghost use Rattle.std.specs.Prelude.{◌≡◌, ◌≤◌, ◌||◌, ◌++◌, cond, min, length, IfOk};
ghost use Rattle.io_intake.specs.declared.Unread.TheVariants.{Failed};
ghost use Rattle.io_edge.specs.Counts.{IsPrefixLen};
ghost use Rattle.io_intake.specs.Counts.{count_before};

use io_edge::{Failure, ReadError, Source, Voice};
use job_text::{Fault, Mode, Reading};
use model::{CAPACITY, CHIP_SIZE, ORDER_LIMIT};
use print_forms::Line;
use reason_why::Why;
use reason_words::Refusal;
use std::fs::Files;
use std::io;
use std::io::Read;

// Room for a job: a chip record, the longest order, and the first byte of one that is too long.
pub const JOB_SIZE: usize = 8233;

// Room for 47 records; no complete order makes more.
pub const RECORDS_SIZE: usize = 12220;

// Small, since a lot has much else on its stack.
const BLOCK_SIZE: usize = 1024;

const MESSAGE_SIZE: usize = 4864;

// Why a job could not be read: a read failed, or its text is wrong, at a place behind so many bytes.
#[derive(Clone, Copy)]
pub enum Unread {
    Failed(io::Error),
    Wrong {
        fault: Fault,
        line: u32,
        column: u32,
        count: usize,
    },
}

impl Unread {
    // In one line on standard error: the system's reason, or where the text is wrong.
    pub fn said(self, voice: Voice) -> Failure
        ensures { result ≡ Failure.NotDone }
    {
        match self {
            Unread::Failed(why) => voice.say_failed(why),
            Unread::Wrong {
                fault,
                line,
                column,
                ..
            } => voice.say_fault(fault == Fault::HalfByte, line, column),
        }
        Failure::NotDone
    }
}

impl From<io::Error> for Unread {
    ghost from_gives = { λ why unread. unread ≡ Failed why };

    fn from(why: io::Error) -> Self {
        Unread::Failed(why)
    }
}

impl From<ReadError> for Unread {
    ghost from_gives = { λ error unread. unread ≡ Failed error.why };

    fn from(error: ReadError) -> Self {
        Unread::Failed(error.why)
    }
}

// A job's bytes, and of a text also each byte's line.
#[derive(Clone, Copy)]
pub struct Job<'a> {
    pub bytes: &'a [u8],
    pub lines: &'a [u32],
}

// Where the order begins behind the chip record.
pub fn chip_end(job: &[u8]) -> usize
    ensures within { IsPrefixLen result job.now }
    ensures chip { result ≡ min CHIP_SIZE (length job.now) }
{
    CHIP_SIZE.min(job.len())
}

impl<'a> Job<'a> {
    // Its chip record, and its order.
    pub fn parts(self) -> (&'a [u8], &'a [u8])
        ensures whole { result.0.now ++ result.1.now ≡ self.entry.bytes.now }
        ensures chip { length result.0.now ≡ min CHIP_SIZE (length self.entry.bytes.now) }
    {
        self.bytes.split_at(chip_end(self.bytes))
    }

    // Why the order is not complete; of a job that is refused by another number there is nothing to tell.
    fn why_of(self, number: u8) -> Why {
        let (chip, order) = self.parts();
        if number == 10 && chip.len() == CHIP_SIZE && order.len() <= ORDER_LIMIT {
            return reason_why::why_not(chip[CAPACITY], order);
        }
        Why::Complete
    }

    // The line of the text on which an order stops.
    fn line_of(self, why: Why) -> Option<u32> {
        let Why::Stops(stop) = why else { return None };
        self.lines.get(CHIP_SIZE..)?.get(stop.place).copied()
    }

    // A job that is refused, which is said in one line on standard error: the label, the number, and what it means for
    // this job. Why its order is not complete.
    pub fn say_refused(self, voice: Voice, number: u8) -> Why {
        let why = self.why_of(number);
        let refusal = Refusal {
            number,
            chip_size: chip_end(self.bytes),
            why,
            line: self.line_of(why),
        };
        let mut text = Line::<MESSAGE_SIZE>::new();
        text.put_text(voice.label);
        refusal.put_on(&mut text);
        text.put_text(b"\n");
        voice.labelled(text.as_bytes()).say(b"");
        why
    }
}

// A text that has ended.
fn ended(last: Reading) -> Result<usize, Unread>
    ensures count { IfOk result (λ count. count ≡ last.count) }
    ensures wrong { count_before result ≤ last.count }
{
    let place = last.finish().place;
    match place.mode {
        Mode::Wrong(fault) => Err(Unread::Wrong {
            fault,
            line: place.line,
            column: place.column,
            count: last.count,
        }),
        _ => Ok(last.count),
    }
}

// Block after block. The loop has more turns than a run uses up, since nothing says that an input ends.
fn take_text<R: Read>(from: &mut R, room: &mut [u8], lines: &mut [u32]) -> Result<usize, Unread>
    requires { length lines.old ≡ length room.old }
    ensures count { IfOk result (λ count. count ≤ length room.old) }
    ensures wrong { count_before result ≤ length room.old }
{
    let mut block = [0u8; BLOCK_SIZE];
    let mut reading = Reading::start();
    for _ in 0..u64::MAX {
        let n = io_edge::read_full(from, &mut block)?;
        reading = reading.read(&block[..n], room, lines);
        if n < BLOCK_SIZE {
            return ended(reading);
        }
    }
    Err(Unread::Failed(io_edge::given_up()))
}

// A job into the front of the room, as far as that goes.
pub fn take<'a, R: Read>(
    from: &mut R,
    is_text: bool,
    room: &'a mut [u8],
    lines: &'a mut [u32],
) -> Result<Job<'a>, Unread>
    requires { length lines.old ≡ length room.old }
    ensures bytes { IfOk result (λ job. length job.bytes.now ≤ length room.old) }
    ensures lines { IfOk result (λ job. length job.lines.now ≡ cond is_text (length job.bytes.now) 0) }
    ensures wrong { count_before result ≤ length room.old }
{
    if is_text {
        let count = take_text(from, room, lines)?;
        return Ok(Job {
            bytes: &room[..count],
            lines: &lines[..count],
        });
    }
    let count = io_edge::read_full(from, room)?;
    Ok(Job {
        bytes: &room[..count],
        lines: &lines[..0],
    })
}

// A job from what a program reads; `hex` where that is text whatever its name. What is wrong is said.
pub fn take_source<'a>(
    source: &mut Source,
    hex: bool,
    room: &'a mut [u8],
    lines: &'a mut [u32],
) -> Result<Job<'a>, Failure>
    requires { length lines.old ≡ length room.old }
    ensures bytes { IfOk result (λ job. length job.bytes.now ≤ length room.old) }
    ensures lines { IfOk result (λ job. length job.lines.now
        ≡ cond (hex || source.old.is_text) (length job.bytes.now) 0) }
    ensures stays { (source.new.voice ≡ source.old.voice) × (source.new.is_text ≡ source.old.is_text) }
{
    let is_text = hex || source.is_text;
    let voice = source.voice;
    take(&mut source.from, is_text, room, lines).map_err(|why| why.said(voice))
}

fn take_file<'a, R: Files>(
    rt: &R,
    name: &[u8],
    room: &'a mut [u8],
    lines: &'a mut [u32],
) -> Result<Job<'a>, Unread>
    requires { length lines.old ≡ length room.old }
    ensures bytes { IfOk result (λ job. length job.bytes.now ≤ length room.old) }
    ensures lines { IfOk result (λ job. length job.lines.now ≤ length job.bytes.now) }
    ensures wrong { count_before result ≤ length room.old }
{
    let mut file = io_edge::open_read(rt, name)?;
    take(&mut file, io_edge::is_text_name(name), room, lines)
}

// A job from the file of this name, which is text where the name ends so. What is wrong is said, and told.
pub fn take_named<'a, R: Files>(
    rt: &R,
    voice: Voice,
    name: &[u8],
    room: &'a mut [u8],
    lines: &'a mut [u32],
) -> Result<Job<'a>, Unread>
    requires { length lines.old ≡ length room.old }
    ensures bytes { IfOk result (λ job. length job.bytes.now ≤ length room.old) }
    ensures lines { IfOk result (λ job. length job.lines.now ≤ length job.bytes.now) }
    ensures wrong { count_before result ≤ length room.old }
{
    let taken = take_file(rt, name, room, lines);
    if let Err(why) = taken {
        why.said(voice);
    }
    taken
}
