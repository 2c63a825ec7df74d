// The program `groupings [--tell] [--job] [--hex] [FILE]`: an order, or a job's, is read, as bytes or as hexadecimal
// text, a line a pull is written to standard output, and last which ending it has. It streams: an order of any
// length, in the memory of one window and one buffer.
#![tactic(auto)]

ghost use Rattle.std.specs.Prelude.{◌≡◌, ◌+◌, ◌*◌, ◌≤◌, length, IfOk, OnOk};

use io_edge::{Arguments, Failure, Label, Page, Source, Status, Voice, listener, tell};
use job_text::{Fault, Mode, Place, Reading};
use model::{CHIP_SIZE, Header};
use std::io::{Stdin, Stdout};

// A value of up to so many bytes is printed only when it is whole: it fits a window with its header.
const LONGEST: usize = 16384;

const WINDOW_SIZE: usize = 20480;

const TEXT_SIZE: usize = 16384;

// A value goes into the buffer in pieces of at most so many bytes.
const PIECE: usize = 4096;

// A line's characters other than its value's digits.
const LINE_MORE: usize = 7;

// A tag's digits, and the blank behind them.
const TAG_MORE: usize = 5;

// Text is read so many characters at a time: they complete fewer bytes.
const CHUNK: usize = 512;

// A value in hexadecimal, or a dash, from a place on that has room for it. The place behind it.
fn put_value(out: &mut [u8], at: usize, value: &[u8]) -> usize
    requires { at + 2 * length value.now + 1 ≤ length out.old }
    ensures { result ≤ at + 2 * length value.now + 1 }
{
    if value.is_empty() {
        out[at] = b'-';
        return at + 1;
    }
    print_numbers::put_hex(out, at, value)
}

// The line of a grouping likewise.
fn put_line(out: &mut [u8], at: usize, tag: u16, value: &[u8]) -> usize
    requires { at + 2 * length value.now + 7 ≤ length out.old }
    ensures { result ≤ length out.old }
{
    print_numbers::put_hex4(out, at, tag);
    out[at + 4] = b' ';
    let end = put_value(out, at + TAG_MORE, value);
    out[end] = b'\n';
    end + 1
}

// Lines on their way to standard output, gathered in a buffer. Memory and a count, and no `Line`: a grouping's line is
// laid with one change of the count, and short groupings took half as long again with one for each part.
#[derive(Drop)]
struct Lines<'a> {
    page: Page<'a>,
    text: [u8; TEXT_SIZE],
    filled: usize,
    // How many bytes of a long value are still to come.
    owed: usize,
    ghost within: { filled ≤ 16384 },
}

impl Lines<'_> {
    fn send(&mut self) -> Result<(), Failure>
        ensures { OnOk result (self.new.filled ≡ 0) }
    {
        self.page.print(&self.text[..self.filled])?;
        self.filled = 0;
        Ok(())
    }

    // Where so many more characters have no room, what is gathered goes out.
    fn make_room(&mut self, more: usize) -> Result<(), Failure>
        requires { more ≤ TEXT_SIZE }
        ensures { OnOk result (self.new.filled + more ≤ TEXT_SIZE) }
    {
        if TEXT_SIZE - self.filled < more {
            return self.send();
        }
        Ok(())
    }

    // A tag and the blank behind it.
    fn put_tag(&mut self, tag: u16) -> Result<(), Failure> {
        self.make_room(TAG_MORE)?;
        let at = self.filled;
        print_numbers::put_hex4(&mut self.text, at, tag);
        self.text[at + 4] = b' ';
        self.filled = at + TAG_MORE;
        Ok(())
    }

    fn end_line(&mut self) -> Result<(), Failure> {
        self.make_room(1)?;
        let at = self.filled;
        self.text[at] = b'\n';
        self.filled = at + 1;
        Ok(())
    }

    // Bytes of a value in hexadecimal.
    fn put_bytes(&mut self, value: &[u8]) -> Result<(), Failure> {
        for piece in value.chunks(PIECE) {
            self.make_room(2 * piece.len())?;
            self.filled = print_numbers::put_hex(&mut self.text, self.filled, piece);
        }
        Ok(())
    }

    // The line of a grouping: at once where the buffer can hold it, else in pieces.
    fn put_grouping(&mut self, tag: u16, value: &[u8]) -> Result<(), Failure> {
        if PIECE - LINE_MORE <= value.len() {
            self.put_tag(tag)?;
            self.put_bytes(value)?;
            return self.end_line();
        }
        self.make_room(2 * value.len() + LINE_MORE)?;
        self.filled = put_line(&mut self.text, self.filled, tag, value);
        Ok(())
    }

    // The lines of the groupings that are whole in a window. How much of it they use up. No `for`: a grouping tells
    // where the next begins.
    fn print_whole(&mut self, order: &[u8]) -> Result<usize, Failure>
        ensures { IfOk result (λ used. used ≤ length order.now) }
    {
        let mut at: usize = 0;
        while at < order.len() {
            let found = order_reader::found_at(order, at);
            if found.ending != 0 {
                return Ok(at);
            }
            self.put_grouping(found.tag, order_reader::value_of(order, found))?;
            at = found.next;
        }
        Ok(at)
    }

    // The start of a long value's line, where a window begins with such a grouping: the rest of the line goes as it
    // comes.
    fn print_long(&mut self, order: &[u8]) -> Result<usize, Failure>
        ensures { IfOk result (λ used. used ≤ length order.now) }
    {
        match header::header_at(order, 0) {
            Header::Whole(head) if LONGEST < head.len => {
                self.put_tag(head.tag)?;
                self.owed = head.len;
                Ok(head.size.min(order.len()))
            }
            _ => Ok(0),
        }
    }

    // More of a long value, and the end of its line behind the last byte.
    fn print_more(&mut self, order: &[u8]) -> Result<usize, Failure>
        ensures { IfOk result (λ used. used ≤ length order.now) }
    {
        let n = self.owed.min(order.len());
        self.put_bytes(&order[..n])?;
        self.owed = self.owed.saturating_sub(n);
        if self.owed == 0 {
            self.end_line()?;
        }
        Ok(n)
    }

    // Prints what can be printed of a window. Nothing of it is used up where the order is at its end, or torn.
    fn print_window(&mut self, order: &[u8]) -> Result<usize, Failure>
        ensures { IfOk result (λ used. used ≤ length order.now) }
    {
        if 0 < self.owed {
            return self.print_more(order);
        }
        let used = self.print_whole(order)?;
        if 0 < used {
            return Ok(used);
        }
        self.print_long(order)
    }

    // What is gathered, the end of a line that was broken off, and the last line.
    fn print_ending(&mut self, torn: bool) -> Result<(), Failure> {
        self.send()?;
        let broken = 0 < self.owed;
        self.page.print(match (broken, torn) {
            (true, _) => b"\ntorn\n",
            (false, true) => b"torn\n",
            (false, false) => b"end\n",
        })
    }
}

// What is still to be read: bytes, text from a place on, or nothing.
#[derive(Clone, Copy)]
enum Input {
    Bytes,
    Text(Place),
    Ended,
}

// The front of what is read and not used up. Fixed memory and a count: there is no heap, and a `Line` can't be read
// into.
#[derive(Drop)]
struct Window<'a> {
    source: Source<'a>,
    input: Input,
    bytes: [u8; WINDOW_SIZE],
    filled: usize,
    // Where the window begins in the order.
    front: u64,
    ghost within: { filled ≤ 20480 },
}

impl Window<'_> {
    fn order(&self) -> &[u8]
        ensures { length result.now ≡ self.now.filled }
    {
        &self.bytes[..self.filled]
    }

    // Fills the window with bytes.
    fn fill_bytes(&mut self) -> Result<(), Failure> {
        let at = self.filled;
        let n = self.source.read(&mut self.bytes[at..])?;
        self.filled = at + n;
        if self.filled < WINDOW_SIZE {
            self.input = Input::Ended;
        }
        Ok(())
    }

    // The bytes of the next characters. Where the text is wrong, that is said.
    fn take_chunk(&mut self, place: Place) -> Result<(), Failure>
        requires { self.old.filled + 512 ≤ 20480 }
    {
        let mut chars = [0u8; CHUNK];
        let mut lines = [0u32; CHUNK];
        let n = self.source.read(&mut chars)?;
        let at = self.filled;
        let begun = Reading { place, count: 0 };
        let r = begun.read(&chars[..n], &mut self.bytes[at..at + CHUNK], &mut lines);
        self.filled = at + r.count;
        self.input = Input::Text(r.place);
        let mut last = r.place;
        if n < CHUNK {
            self.input = Input::Ended;
            last = r.finish().place;
        }
        if let Mode::Wrong(fault) = last.mode {
            self.source
                .voice
                .say_fault(fault == Fault::HalfByte, last.line, last.column);
            return Err(Failure::NotDone);
        }
        Ok(())
    }

    // Fills the window with the bytes of text, as long as those of a chunk have room. The loops here have more turns
    // than a run uses up, since nothing says that an input ends.
    fn fill_text(&mut self) -> Result<(), Failure> {
        for _ in 0..u64::MAX {
            let Input::Text(place) = self.input else {
                return Ok(());
            };
            if WINDOW_SIZE - self.filled < CHUNK {
                return Ok(());
            }
            self.take_chunk(place)?;
        }
        Err(Failure::NotDone)
    }

    // Fills the window behind what is kept of it. An input that has ended is not read again.
    fn fill(&mut self) -> Result<(), Failure> {
        match self.input {
            Input::Bytes => self.fill_bytes(),
            Input::Text(_) => self.fill_text(),
            Input::Ended => Ok(()),
        }
    }

    // The first bytes are used up, so many: the rest moves to the front.
    fn use_up(&mut self, n: usize)
        requires { n ≤ self.old.filled }
    {
        let end = self.filled;
        self.bytes.copy_within(n..end, 0);
        self.filled = end - n;
        self.front = self.front.wrapping_add(n as u64);
    }

    // Passes over the chip record. Whether there is a whole one; what is wrong with it is said.
    fn pass_chip(&mut self) -> Result<bool, Failure> {
        self.fill()?;
        let filled = self.filled;
        if filled < CHIP_SIZE {
            let s = if filled == 1 { "" } else { "s" };
            self.source.voice.say_line(format_args!(
                ": the chip record has {filled} byte{s}, and it must have 40\n"
            ));
            return Ok(false);
        }
        self.use_up(CHIP_SIZE);
        self.front = 0;
        Ok(true)
    }

    // Reads to the end of the input: an order's length is known only then.
    fn pass_rest(&mut self) -> Result<(), Failure> {
        for _ in 0..u64::MAX {
            self.use_up(self.filled);
            if let Input::Ended = self.input {
                return Ok(());
            }
            self.fill()?;
        }
        Err(Failure::NotDone)
    }
}

// Window after window to the end of the order, or to where it is torn. Where the grouping begins that is under way
// then, if one is.
fn print_order(window: &mut Window, lines: &mut Lines) -> Result<u64, Failure> {
    let mut began = window.front;
    for _ in 0..u64::MAX {
        window.fill()?;
        let used = lines.print_window(window.order())?;
        if used == 0 {
            return Ok(began);
        }
        window.use_up(used);
        if lines.owed == 0 {
            began = window.front;
        }
    }
    Ok(began)
}

fn print(window: &mut Window, lines: &mut Lines) -> Result<Status, Failure> {
    let began = print_order(window, lines)?;
    let torn = 0 < lines.owed || 0 < window.filled;
    window.pass_rest()?;
    lines.print_ending(torn)?;
    if torn {
        let read = window.front;
        window.source.voice.say_line(format_args!(
            ": torn at byte {began} of {read}: a header or a value is not whole there\n"
        ));
    }
    Ok(Status::of(torn))
}

// How the groupings are printed of what the arguments name.
fn run(
    arguments: Arguments,
    stdin: Stdin,
    out: Stdout,
    is_job: bool,
    hex: bool,
) -> Result<Status, Failure>
    requires { arguments.next ≤ 9 }
{
    let mut label = Label::new();
    let source = arguments.open_last(stdin, &mut label)?;
    let input = if hex || source.is_text {
        Input::Text(Reading::start().place)
    } else {
        Input::Bytes
    };
    let mut window = Window {
        source,
        input,
        bytes: [0; WINDOW_SIZE],
        filled: 0,
        front: 0,
    };
    if is_job && !window.pass_chip()? {
        return Ok(Status::Refused);
    }
    let voice = arguments.voice.labelled(b"groupings: standard output");
    let mut lines = Lines {
        page: Page { out, voice },
        text: [0; TEXT_SIZE],
        filled: 0,
        owed: 0,
    };
    print(&mut window, &mut lines)
}

// The arguments are `[--tell] [--job] [--hex] [FILE]`.
fn main(rt: HostRuntime) {
    let voice = Voice {
        err: rt.stderr(),
        label: b"groupings: ",
    };
    let mut arguments = Arguments::new(&rt, voice);
    let tells = arguments.take_option(b"--tell");
    let listener = listener(&rt, tells);
    let is_job = arguments.take_option(b"--job");
    let hex = arguments.take_option(b"--hex");
    let ended = run(arguments, rt.stdin(), rt.stdout(), is_job, hex);
    tell(listener, ended);
}
