// What the programs that play a session say of it on standard error, as its records go by: a chip record or an event
// that is refused, and a last record that is not whole. Each line begins with a voice's label, as `replay: FILE`.
#![tactic(auto)]

ghost use Rattle.std.specs.Prelude.{◌≡◌, ◌+◌, ◌*◌, ◌/◌, ◌≤◌, ◌↔◌, length};

use io_edge::{Status, Voice};
use model::{CHIP_SIZE, DATA_PLACE, LINE_SIZE, RECORD_SIZE};

const LENGTH_PLACE: usize = 3;

const NUMBER_PLACE: usize = 10;

const ZERO_DIGIT: u8 = b'0';

// So many refused events have a line each; the others are counted.
const LINES: u64 = 10;

// 2^50. Counts stop here, so that a place in the session is a number: no run comes so far.
const MOST: u64 = 0x4_0000_0000_0000;

// A chip record that is refused.
pub fn note_chip(voice: Voice, chip: &[u8]) {
    if chip.len() != CHIP_SIZE {
        let n = chip.len();
        voice.say_line(format_args!(
            ": refused by number 7: the chip record has {n} bytes, and it must have 40\n"
        ));
        return;
    }
    voice.say(
        b": refused by number 7: the chip record's last three bytes, 37 to 39 counted from 0, must be zero\n",
    );
}

fn one_more(n: u64) -> u64
    ensures { result ≤ MOST }
{
    if n < MOST {
        return n + 1;
    }
    MOST
}

// Where the record behind so many events begins in the session.
fn start_of(events: u64) -> u64
    ensures { result ≤ 40 + 260 * MOST }
{
    CHIP_SIZE as u64 + RECORD_SIZE as u64 * events.min(MOST)
}

// The first byte that is not zero, from `at` on.
fn first_from(r: &[u8], at: usize) -> usize
    requires { at ≤ length r.now }
    ensures { result ≤ length r.now }
{
    let rest = &r[at..];
    let zeros = rest.iter().position(|b| *b != 0);
    at + zeros.unwrap_or(rest.len())
}

// Whether a line's number is none.
fn is_good(line: &[u8]) -> bool
    requires { length line.now ≡ 26 }
{
    line[NUMBER_PLACE] == ZERO_DIGIT
}

// Whether so many lines have none. (`all` doesn't know how long a line is.)
fn are_good(lines: &[u8], count: usize) -> bool {
    for line in lines.chunks_exact(LINE_SIZE).take(count) {
        if !is_good(line) {
            return false;
        }
    }
    true
}

// How many events there were, and how many of them were refused.
#[derive(Clone, Copy, Default)]
pub struct Noted {
    pub events: u64,
    pub refused: u64,
}

impl Noted {
    // Of the event behind these. Only places are said, and a kind: a byte that must be zero could be a key's.
    fn say_fault(self, voice: Voice, r: &[u8])
        requires { length r.now ≡ 260 }
    {
        let event = one_more(self.events);
        let start = start_of(self.events);
        if event_kinds::fault_in(r) == 4 {
            let kind = r[0];
            voice.say_line(format_args!(
                ": event {event} is refused by number 4: byte {start}, the kind, is {kind}, and must be 1 to 8\n"
            ));
            return;
        }
        let place = start + first_from(r, DATA_PLACE + r[LENGTH_PLACE] as usize) as u64;
        voice.say_line(format_args!(
            ": event {event} is refused by number 5: byte {place} must be zero\n"
        ));
    }

    // One record more. It is looked at again only where playing it refused it.
    pub fn note(&mut self, voice: Voice, r: &[u8], refused: bool)
        requires { length r.now ≡ 260 }
    {
        if refused {
            if self.refused < LINES {
                self.say_fault(voice, r);
            }
            self.refused = one_more(self.refused);
        }
        self.events = one_more(self.events);
    }

    // So many events more, none of them refused.
    fn note_good(&mut self, count: usize)
        requires { count ≤ 0x100000000000000 }
    {
        self.events = if self.events < MOST {
            self.events + count as u64
        } else {
            MOST
        };
    }

    // The records of a block, beside the lines that they were given. A block of which none was refused costs little.
    pub fn note_all(&mut self, voice: Voice, records: &[u8], lines: &[u8])
        requires { length records.now / 260 * 26 ≤ length lines.now }
    {
        let count = records.len() / RECORD_SIZE;
        if are_good(lines, count) {
            self.note_good(count);
            return;
        }
        for (r, line) in records
            .chunks_exact(RECORD_SIZE)
            .zip(lines.chunks_exact(LINE_SIZE))
        {
            self.note(voice, r, !is_good(line));
        }
    }

    // The session's end, with so many bytes behind the last whole record.
    pub fn end(self, voice: Voice, left: usize) -> Status
        ensures { (result ≡ Status.Done) ↔ ((left ≡ 0) × (self.refused ≡ 0)) }
    {
        if LINES < self.refused {
            let more = self.refused - LINES;
            voice.say_line(format_args!(
                ": and {more} more events are refused; their lines have the number\n"
            ));
        }
        if left != 0 {
            voice.say_line(format_args!(
                ": the last {left} bytes are no whole record of 260, and no event\n"
            ));
        }
        Status::of(left != 0 || self.refused != 0)
    }
}
