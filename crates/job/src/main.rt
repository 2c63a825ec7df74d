// The program `job`: one job in, its register out. A job is a chip record and an order, as bytes or as hexadecimal
// text. A refusal is one line on standard error, and nothing goes to standard output then.
#![tactic(auto)]

ghost use Rattle.std.specs.Prelude.{◌≡◌, ◌≤◌, length};

use io_edge::{Arguments, Failure, Label, Page, Source, Status, Voice};
use io_intake::{JOB_SIZE, Job, RECORDS_SIZE};
use job_register::Entry;
use model::{AREA_SIZE, END_SIZE, LINE_SIZE};

// 47 lines, and the end.
const REGISTER_SIZE: usize = 1232;

// The register of a loaded card. That it is loaded is proved; it is looked at all the same, as by any reader of a
// register.
fn print_register(page: Page, out: &[u8], entry: Entry) -> Result<Status, Failure>
    requires { (length out.now ≡ REGISTER_SIZE) × (entry.events ≤ 47) }
{
    let size = entry.events * LINE_SIZE + END_SIZE;
    page.print(&out[..size])?;
    Ok(Status::of(entry.gp != 0x07 || entry.internal != 0xA5))
}

fn enter(voice: Voice, job: Job, page: Page) -> Result<Status, Failure> {
    let (chip, order) = job.parts();
    let mut room = [0u8; RECORDS_SIZE];
    let mut area = [0u8; AREA_SIZE];
    let mut out = [0u8; REGISTER_SIZE];
    let entry = job_register::enter_job(chip, order, &mut room, &mut area, &mut out);
    if entry.number != 0 {
        job.say_refused(voice, entry.number);
        return Ok(Status::Refused);
    }
    print_register(page, &out, entry)
}

fn run(mut source: Source, hex: bool, page: Page) -> Result<Status, Failure> {
    let mut room = [0u8; JOB_SIZE];
    let mut lines = [0u32; JOB_SIZE];
    let job = io_intake::take_source(&mut source, hex, &mut room, &mut lines)?;
    enter(source.voice, job, page)
}

// The arguments are `[--tell] [--hex] [FILE]`.
fn main(rt: HostRuntime) {
    let voice = Voice {
        err: rt.stderr(),
        label: b"job: ",
    };
    let page = Page {
        out: rt.stdout(),
        voice: voice.labelled(b"job: standard output"),
    };
    let mut arguments = Arguments::new(&rt, voice);
    let tells = arguments.take_option(b"--tell");
    let listener = io_edge::listener(&rt, tells);
    let hex = arguments.take_option(b"--hex");
    let mut label = Label::new();
    let source = arguments.open_last(rt.stdin(), &mut label);
    io_edge::tell(listener, source.and_then(|source| run(source, hex, page)));
}
