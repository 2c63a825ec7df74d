// The program `cut`: a job in, as `job` takes it; on standard output the session that `replay` reads: the chip record,
// INSTALL '0C', SELECT, and the writer's records. A refusal writes one line to standard error alone.
#![tactic(auto)]

use io_edge::{Arguments, Failure, Label, Page, Source, Status, Voice};
use io_intake::{JOB_SIZE, Job, RECORDS_SIZE};
use model::CHIP_SIZE;

// A chip record and the longest session of a complete order.
const SESSION_SIZE: usize = CHIP_SIZE + RECORDS_SIZE;

// A job's session, or its refusal.
fn cut(voice: Voice, job: Job, page: Page) -> Result<Status, Failure> {
    let (chip, order) = job.parts();
    let mut room = [0u8; SESSION_SIZE];
    let laid = job_session::lay_job(chip, order, &mut room);
    if laid.number != 0 {
        job.say_refused(voice, laid.number);
        return Ok(Status::Refused);
    }
    page.print(&room[..laid.size])?;
    Ok(Status::Done)
}

fn run(mut source: Source, hex: bool, page: Page) -> Result<Status, Failure> {
    let mut room = [0u8; JOB_SIZE];
    let mut lines = [0u32; JOB_SIZE];
    let job = io_intake::take_source(&mut source, hex, &mut room, &mut lines)?;
    cut(source.voice, job, page)
}

// The arguments are `[--tell] [--hex] [FILE]`.
fn main(rt: HostRuntime) {
    let voice = Voice {
        err: rt.stderr(),
        label: b"cut: ",
    };
    let page = Page {
        out: rt.stdout(),
        voice: voice.labelled(b"cut: standard output"),
    };
    let mut arguments = Arguments::new(&rt, voice);
    let tells = arguments.take_option(b"--tell");
    let listener = io_edge::listener(&rt, tells);
    let hex = arguments.take_option(b"--hex");
    let mut label = Label::new();
    let source = arguments.open_last(rt.stdin(), &mut label);
    io_edge::tell(listener, source.and_then(|source| run(source, hex, page)));
}
