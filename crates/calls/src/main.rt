// The program `calls [--tell] [FILE]`: stored calls are read, each is made, and everything that came back is a line on
// standard output. The tests compare it character by character with the second program's.
#![tactic(auto)]

mod bytes;
mod card_in;
mod card_out;
mod input;
mod lines;
mod making;
mod stored;

use input::{Fault, Input};
use io_edge::{Arguments, Failure, Label, Page, Source, Status, Voice};
use lines::Lines;
use making::make;
use print_forms::Line;

// No call's line is longer than 2,600 characters.
const LINE_ROOM: usize = 4_096;

const END_SIZE: usize = 48;

// Where another line might not fit, those before it go out.
fn make_room(page: Page, out: &mut Lines) -> Result<(), Failure> {
    if LINE_ROOM <= out.room() {
        return Ok(());
    }
    let printed = page.print(out.as_bytes());
    out.clear();
    printed
}

// Call after call, to the end of the input or to a call that is none; how many were made is counted. The loop has more
// turns than a run uses up, since nothing says that an input ends.
fn make_all(input: &mut Input, page: Page, out: &mut Lines, count: &mut u64) -> Result<(), Fault> {
    for _ in 0..u64::MAX {
        make_room(page, out)?;
        let Some(call) = input.take_call()? else {
            return Ok(());
        };
        make(call, out, input)?;
        *count = count.wrapping_add(1);
    }
    Err(Fault::Failed)
}

// What is wrong with the call behind those that were made. A read or a write that failed was said already.
fn say_wrong(voice: Voice, count: u64, fault: Fault) {
    if fault != Fault::Failed {
        let number = count.wrapping_add(1);
        voice.say_line(format_args!(": number {number} is no call: {fault}\n"));
    }
}

// The last line.
fn print_end(page: Page, count: u64) -> Result<(), Failure> {
    let mut line = Line::<END_SIZE>::new();
    line.put_form(format_args!("END {count}\n"));
    page.print(line.as_bytes())
}

// All calls of an input, and the last line behind the last call.
fn calls(source: Source, page: Page) -> Result<Status, Failure> {
    let voice = source.voice;
    let mut input = Input { source };
    let mut out = Lines::new();
    let mut count = 0;
    let made = make_all(&mut input, page, &mut out, &mut count);
    let printed = page.print(out.as_bytes());
    if let Err(fault) = made {
        say_wrong(voice, count, fault);
        return Err(Failure::NotDone);
    }
    printed?;
    print_end(page, count)?;
    Ok(Status::Done)
}

// The arguments are `[--tell] [FILE]`.
fn main(rt: HostRuntime) {
    let voice = Voice {
        err: rt.stderr(),
        label: b"calls: ",
    };
    let page = Page {
        out: rt.stdout(),
        voice: voice.labelled(b"calls: standard output"),
    };
    let mut arguments = Arguments::new(&rt, voice);
    let listener = io_edge::listener(&rt, arguments.take_option(b"--tell"));
    let mut label = Label::new();
    let ended = match arguments.open_last(rt.stdin(), &mut label) {
        Ok(source) => calls(source, page),
        Err(failure) => Err(failure),
    };
    io_edge::tell(listener, ended);
}
