// The program `lot`: many jobs in one process. Names of job files on standard input, a register each in a folder, a
// line a job on standard output, and a last line that counts them.
#![tactic(auto)]

mod line;
mod names;
mod options;
mod paths;

ghost use Rattle.std.specs.Prelude.{◌≡◌, ◌≤◌, [], length};

use io_edge::{Failure, Label, Page, Source, Stream, Voice};
use io_intake::{JOB_SIZE, Job, RECORDS_SIZE};
use job_register::Entry;
use line::{Ending, put_line};
use model::{AREA_SIZE, END_SIZE, LINE_SIZE};
use names::Names;
use options::{Options, read_options};
use paths::{Path, put_path};
use print_forms::Line;
use std::fs::{File, Files};
use std::io;
use std::io::ErrorKind;

// 47 lines, and the end.
const REGISTER_SIZE: usize = 1232;

const FOLDER_SIZE: usize = 1024;

// Lines are gathered while names are at hand. A line has room for the longest name that there is, and the fields
// behind it.
const LINES_SIZE: usize = 12288;

const LINE_LIMIT: usize = 4480;

// The last line, of four counts.
const END_LIMIT: usize = 128;

// A job by its name, and where its register goes.
#[derive(Drop)]
struct Target<'a, R> {
    rt: &'a R,
    voice: Voice<'a>,
    name: &'a [u8],
    folder: &'a [u8],
    path: &'a [u8],
}

// A register into its part, which is closed then.
fn put_part(mut part: File, register: &[u8]) -> io::Result<()> {
    io_edge::write_whole(&mut part, register)
}

// A job's register. What that takes is off the stack before a register is stored or a refusal said.
fn made(job: Job, out: &mut [u8]) -> Entry
    ensures { result.events ≤ 47 }
{
    let (chip, order) = job.parts();
    let mut room = [0u8; RECORDS_SIZE];
    let mut area = [0u8; AREA_SIZE];
    job_register::enter_job(chip, order, &mut room, &mut area, out)
}

impl<R: Files<File = File>> Target<'_, R> {
    // What failed at a path, which is said.
    fn failed(&self, path: &[u8], why: io::Error) -> Failure {
        self.voice.labelled(path).say_failed(why);
        Failure::NotDone
    }

    // The events of a register that stands and is whole.
    fn kept(&self) -> Option<usize> {
        let mut register = [0u8; REGISTER_SIZE];
        let mut file = io_edge::open_read(self.rt, self.path).ok()?;
        let n = io_edge::read_full(&mut file, &mut register).ok()?;
        match register_whole::events_in(&register[..n]) {
            0 => None,
            events => Some(events),
        }
    }

    // An old register of a job that has none now goes: it would speak of another order.
    fn remove(&self) -> Result<(), Failure> {
        match io_edge::remove(self.rt, self.path) {
            Err(e) if e.kind() != ErrorKind::NotFound => Err(self.failed(self.path, e)),
            _ => Ok(()),
        }
    }

    // A register in its part, moved to its path.
    fn put(&self, file: File, part: &[u8], register: &[u8]) -> Result<(), Failure> {
        put_part(file, register).map_err(|e| self.failed(part, e))?;
        io_edge::rename(self.rt, part, self.path).map_err(|e| self.failed(self.path, e))
    }

    // A register, whole or not there: written beside, and renamed. A part is not left half written.
    fn store(&self, register: &[u8]) -> Result<(), Failure> {
        let mut path = Path::new();
        put_path(&mut path, self.folder, b"/.", self.name, b".register.part");
        let part = path.as_bytes();
        let file = io_edge::open_overwrite(self.rt, part).map_err(|e| self.failed(part, e))?;
        let stored = self.put(file, part, register);
        if stored.is_err() {
            let _ = io_edge::remove(self.rt, part);
        }
        stored
    }

    // A job that was read: its register is stored; or it is refused, which is said. One that was not entered has no
    // register from now on.
    fn enter(&self, voice: Voice, job: Job) -> Result<Ending, Failure> {
        let mut out = [0u8; REGISTER_SIZE];
        let entry = made(job, &mut out);
        let number = entry.number;
        if number != 0 {
            let why = job.say_refused(voice, number);
            self.remove()?;
            return Ok(Ending::Refused { number, why });
        }
        let size = entry.events * LINE_SIZE + END_SIZE;
        if let Err(failure) = self.store(&out[..size]) {
            let _ = self.remove();
            return Err(failure);
        }
        Ok(Ending::Entered(entry))
    }

    // A job from its file, in lent room: the job's 8 KB and its lines' 33 KB are made once a lot.
    fn take(&self, room: &mut [u8], lines: &mut [u32]) -> Ending
        requires { length lines.old ≡ length room.old }
    {
        let mut label = Label::new();
        label.put_text(self.voice.label);
        label.put_text(self.name);
        let voice = self.voice.labelled(label.as_bytes());
        match io_intake::take_named(self.rt, voice, self.name, room, lines) {
            Ok(job) => self.enter(voice, job).unwrap_or(Ending::Undone(None)),
            Err(why) => {
                let _ = self.remove();
                Ending::from(why)
            }
        }
    }
}

// The jobs so far, by how they ended.
#[derive(Clone, Copy, Default)]
struct Tally {
    loaded: u64,
    refused: u64,
    undone: u64,
}

impl Tally {
    // One more. No lot comes so far that a count stands still.
    fn count(&mut self, ending: Ending) {
        match ending {
            Ending::Entered(_) | Ending::Kept(_) => self.loaded = self.loaded.saturating_add(1),
            Ending::Refused { .. } => self.refused = self.refused.saturating_add(1),
            Ending::Undone(_) => self.undone = self.undone.saturating_add(1),
        }
    }

    // The last line: without it a reader must not take the lot for done.
    fn print(self, page: Page) -> Result<(), Failure> {
        let Tally {
            loaded,
            refused,
            undone,
        } = self;
        let jobs = loaded.saturating_add(refused).saturating_add(undone);
        let mut line = Line::<END_LIMIT>::new();
        line.put_form(format_args!("END\t{jobs}\t{loaded}\t{refused}\t{undone}\n"));
        page.print(line.as_bytes())
    }
}

// The lot under way: its counts, the number of the next name, and the lines that are gathered.
#[derive(Drop)]
struct Lot<'a, R> {
    rt: &'a R,
    voice: Voice<'a>,
    folder: &'a [u8],
    options: Options,
    tally: Tally,
    number: u64,
    lines: Line<LINES_SIZE>,
}

impl<'a, R: Files<File = File>> Lot<'a, R> {
    fn new(rt: &'a R, voice: Voice<'a>, folder: &'a [u8], options: Options) -> Lot<'a, R>
        ensures { result.lines ≡ [] }
    {
        Lot {
            rt,
            voice,
            folder,
            options,
            tally: Tally::default(),
            number: 0,
            lines: Line::new(),
        }
    }

    // One job, by its name.
    fn one(&self, name: &[u8], room: &mut [u8], lines: &mut [u32]) -> Ending
        requires { length lines.old ≡ length room.old }
    {
        let mut path = Path::new();
        put_path(&mut path, self.folder, b"/", name, b".register");
        let target = Target {
            rt: self.rt,
            voice: self.voice,
            name,
            folder: self.folder,
            path: path.as_bytes(),
        };
        if self.options.resume {
            if let Some(events) = target.kept() {
                return Ending::Kept(events);
            }
        }
        target.take(room, lines)
    }

    // One name more: passed over where it is empty or another part's.
    fn turn(&mut self, name: &[u8], room: &mut [u8], lines: &mut [u32])
        requires { length lines.old ≡ length room.old }
    {
        if name.is_empty() {
            return;
        }
        let number = self.number;
        self.number = number.saturating_add(1);
        if self.options.part.has(number) {
            let ending = self.one(name, room, lines);
            self.tally.count(ending);
            put_line(&mut self.lines, name, ending);
        }
    }

    // What is gathered goes out where names are waited for, and where another line might not fit.
    fn pass_on(&mut self, page: Page, waits: bool) -> Result<(), Failure>
        ensures { length self.new.lines ≤ length self.old.lines }
    {
        if waits || self.lines.room() < LINE_LIMIT {
            page.print(self.lines.as_bytes())?;
            self.lines.clear();
        }
        Ok(())
    }

    // Name after name; what is gathered goes out before more names are waited for. The loop has more turns than a run
    // uses up, since nothing says that an input ends.
    fn run(&mut self, names: &mut Names, page: Page) -> Result<(), Failure> {
        let mut room = [0u8; JOB_SIZE];
        let mut lines = [0u32; JOB_SIZE];
        for _ in 0..u64::MAX {
            let whole = names.whole_len();
            self.pass_on(page, whole.is_none())?;
            let Some(name) = names.read_next(whole)? else {
                return self.tally.print(page);
            };
            self.turn(name, &mut room, &mut lines);
        }
        Ok(())
    }
}

fn say_usage(voice: Voice) {
    voice.say(b"usage: lot [-0] [--resume] [--part K/N] OUT, a name of at most 1,024 bytes\n");
}

fn main(rt: HostRuntime) {
    let voice = Voice {
        err: rt.stderr(),
        label: b"lot: ",
    };
    let page = Page {
        out: rt.stdout(),
        voice: voice.labelled(b"lot: standard output"),
    };
    let Some((options, arguments)) = read_options(&rt, voice) else {
        return say_usage(voice);
    };
    let mut folder = [0u8; FOLDER_SIZE];
    let Some(n @ 1..) = arguments.copy_next(&mut folder) else {
        return say_usage(voice);
    };
    let source = Source {
        from: Stream::Standard(rt.stdin()),
        voice: voice.labelled(b"lot: standard input"),
        is_text: false,
    };
    let separator = if options.zero { 0 } else { b'\n' };
    let mut lot = Lot::new(&rt, voice, &folder[..n], options);
    let mut names = Names::new(source, separator);
    let _ = lot.run(&mut names, page);
}
