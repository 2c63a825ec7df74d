// What the program was started with: `[-0] [--resume] [--part K/N] OUT`.
ghost use Rattle.std.specs.Prelude.{◌<◌, ◌≤◌};

use io_edge::{Arguments, Voice};

const WORD_SIZE: usize = 16;

// A number has at most so many digits.
const DIGITS: usize = 6;

// One of the parts that a lot is shared out in, by its number from 0.
#[derive(Clone, Copy)]
pub struct Part {
    index: u64,
    count: u64,
    ghost among_them: { index < count },
}

// A number; 0 where there is no digit.
fn number_of(digits: &[u8]) -> Option<u64> {
    if DIGITS < digits.len() {
        return None;
    }
    let mut n: u64 = 0;
    for c in digits {
        if !c.is_ascii_digit() {
            return None;
        }
        n = n.saturating_mul(10).saturating_add(u64::from(*c - b'0'));
    }
    Some(n)
}

impl Part {
    fn whole() -> Part {
        Part { index: 0, count: 1 }
    }

    // `K/N`, K below N.
    fn parse(word: &[u8]) -> Option<Part> {
        let slash = word.iter().position(|c| *c == b'/')?;
        let index = number_of(&word[..slash])?;
        let count = number_of(&word[slash + 1..])?;
        if index < count {
            return Some(Part { index, count });
        }
        None
    }

    // Whether a name is this part's, by its number.
    pub fn has(self, number: u64) -> bool {
        number % self.count == self.index
    }
}

// Names end in a zero byte; registers that are whole are left; only the names of a part.
#[derive(Clone, Copy)]
pub struct Options {
    pub zero: bool,
    pub resume: bool,
    pub part: Part,
}

fn read_part(arguments: &mut Arguments) -> Option<Part>
    requires { arguments.old.next ≤ 8 }
{
    let mut word = [0u8; WORD_SIZE];
    let n = arguments.copy_next(&mut word)?;
    arguments.next += 1;
    Part::parse(&word[..n])
}

// The options, in this order, and the arguments from the folder on. None where a part is not told right.
pub fn read_options<'a>(rt: &'a HostRuntime, voice: Voice<'a>) -> Option<(Options, Arguments<'a>)> {
    let mut arguments = Arguments::new(rt, voice);
    let zero = arguments.take_option(b"-0");
    let resume = arguments.take_option(b"--resume");
    let mut part = Part::whole();
    if arguments.take_option(b"--part") {
        part = read_part(&mut arguments)?;
    }
    let options = Options { zero, resume, part };
    Some((options, arguments))
}
