// The program `replay [--tell] [--sum] [FILE]`: a chip record and event records are read, the register is written to
// standard output, and what is refused is said on standard error.
#![tactic(auto)]

use io_edge::{Arguments, Failure, Label, Page, Source, Status, Voice};
use model::END_SIZE;

// The last line.
fn print_end(page: Page, count: u64) -> Result<(), Failure> {
    let mut end = [0u8; END_SIZE];
    register_lines::put_end(&mut end, 0, count);
    page.print(&end)
}

// The place sum of the file area, for the benchmark: so no compiler may leave out what is stored there.
fn say_sum(voice: Voice, sum: usize) {
    voice
        .labelled(b"AREA ")
        .say_line(format_args!("{sum:010}\n"));
}

fn replay(mut source: Source, page: Page, sums: bool) -> Result<Status, Failure> {
    let mut area = io_playing::clear_area();
    let outcome = io_playing::play(&mut source, Some(page), &mut area);
    let status = Status::from(outcome.ending?);
    if !status.is_done() {
        return Ok(status);
    }
    print_end(page, outcome.count)?;
    if sums {
        say_sum(source.voice, io_playing::place_sum(&area));
    }
    Ok(status)
}

fn main(rt: HostRuntime) {
    let voice = Voice {
        err: rt.stderr(),
        label: b"replay: ",
    };
    let page = Page {
        out: rt.stdout(),
        voice: voice.labelled(b"replay: standard output"),
    };
    let mut arguments = Arguments::new(&rt, voice);
    let tells = arguments.take_option(b"--tell");
    let listener = io_edge::listener(&rt, tells);
    let sums = arguments.take_option(b"--sum");
    let mut label = Label::new();
    let source = arguments.open_last(rt.stdin(), &mut label);
    io_edge::tell(
        listener,
        source.and_then(|source| replay(source, page, sums)),
    );
}
