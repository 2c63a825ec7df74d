// Hexadecimal job text, read block by block: its bytes, the line of each, and the first fault.
#![tactic(auto)]

ghost use Rattle.std.specs.Prelude.{◌≡◌, ◌+◌, ◌≤◌, min, length};
ghost use Rattle.lists.specs.Over.{overwrite};
ghost use Rattle.job_text.specs.Characters.{sort_of};
ghost use Rattle.job_text.specs.declared.Mode.TheVariants.{Between};
ghost use Rattle.job_text.specs.Places.{place, more, from_between, from_half, from_comment, from_mark, step};
ghost use Rattle.job_text.specs.Places.{pair_of, byte_of, bytes_in, lines_in};
ghost use Rattle.job_text.specs.Pairs.{values_from, PairIn};
ghost use Rattle.job_text.specs.Text.{begun, reached, laid_bytes, laid_lines, end_in, ended};

// No digit's value.
const NO_VALUE: u8 = 0x10;

// At each character the value of the digit that it is, or `NO_VALUE`. A table and no `match`: no processor foresees
// which digits are letters (docs/DECISIONS.md).
const VALUES: [u8; 256] = *b"\
    \x10\x10\x10\x10\x10\x10\x10\x10\x10\x10\x10\x10\x10\x10\x10\x10\
    \x10\x10\x10\x10\x10\x10\x10\x10\x10\x10\x10\x10\x10\x10\x10\x10\
    \x10\x10\x10\x10\x10\x10\x10\x10\x10\x10\x10\x10\x10\x10\x10\x10\
    \x00\x01\x02\x03\x04\x05\x06\x07\x08\x09\x10\x10\x10\x10\x10\x10\
    \x10\x0A\x0B\x0C\x0D\x0E\x0F\x10\x10\x10\x10\x10\x10\x10\x10\x10\
    \x10\x10\x10\x10\x10\x10\x10\x10\x10\x10\x10\x10\x10\x10\x10\x10\
    \x10\x0A\x0B\x0C\x0D\x0E\x0F\x10\x10\x10\x10\x10\x10\x10\x10\x10\
    \x10\x10\x10\x10\x10\x10\x10\x10\x10\x10\x10\x10\x10\x10\x10\x10\
    \x10\x10\x10\x10\x10\x10\x10\x10\x10\x10\x10\x10\x10\x10\x10\x10\
    \x10\x10\x10\x10\x10\x10\x10\x10\x10\x10\x10\x10\x10\x10\x10\x10\
    \x10\x10\x10\x10\x10\x10\x10\x10\x10\x10\x10\x10\x10\x10\x10\x10\
    \x10\x10\x10\x10\x10\x10\x10\x10\x10\x10\x10\x10\x10\x10\x10\x10\
    \x10\x10\x10\x10\x10\x10\x10\x10\x10\x10\x10\x10\x10\x10\x10\x10\
    \x10\x10\x10\x10\x10\x10\x10\x10\x10\x10\x10\x10\x10\x10\x10\x10\
    \x10\x10\x10\x10\x10\x10\x10\x10\x10\x10\x10\x10\x10\x10\x10\x10\
    \x10\x10\x10\x10\x10\x10\x10\x10\x10\x10\x10\x10\x10\x10\x10\x10";

// What a character is by itself.
#[derive(Clone, Copy)]
pub enum Sort {
    Digit(u8),
    Blank,
    Break,
    Hash,
    Other,
}

// A character that is no digit where one may stand, or half a byte.
#[derive(Clone, Copy, PartialEq, Eq, Debug)]
pub enum Fault {
    NoDigit,
    HalfByte,
}

// What the reader stands in.
#[derive(Clone, Copy)]
pub enum Mode {
    // Of a byte order mark so many bytes are passed; none at the text's beginning.
    Mark(u8),
    Between,
    // Behind the first digit of a pair.
    Half(u8),
    Comment,
    // Behind a fault.
    Wrong(Fault),
}

// The line and column are those of the next character; of the first digit where its pair is half; of the fault.
#[derive(Clone, Copy)]
pub struct Place {
    pub mode: Mode,
    pub line: u32,
    pub column: u32,
}

// A place, and how many bytes are laid.
#[derive(Clone, Copy)]
pub struct Reading {
    pub place: Place,
    pub count: usize,
}

impl From<u8> for Sort {
    ghost from_gives = { λ x s. s ≡ sort_of x };

    #[tactic(auto, using(std::proofs::lemmas::Bool::Decides::nat_tests), unfolding(crate::specs::Characters::sort_of))]
    fn from(x: u8) -> Self {
        match x {
            b' ' | b'\t' | b'\r' => Sort::Blank,
            b'\n' => Sort::Break,
            b'#' => Sort::Hash,
            b'0'..=b'9' => Sort::Digit(x - b'0'),
            b'A'..=b'F' => Sort::Digit(x - b'A' + 10),
            b'a'..=b'f' => Sort::Digit(x - b'a' + 10),
            _ => Sort::Other,
        }
    }
}

impl Mode {
    // The byte that a character completes.
    fn byte_of(self, x: u8) -> Option<u8>
        ensures { result ≡ byte_of self x }
    {
        match self {
            Mode::Half(high) => pair_of(high, Sort::from(x)),
            _ => None,
        }
    }

    // At the text's end.
    fn ended(self) -> Mode
        ensures { result ≡ end_in self }
    {
        match self {
            Mode::Mark(1..) => Mode::Wrong(Fault::NoDigit),
            Mode::Half(_) => Mode::Wrong(Fault::HalfByte),
            _ => self,
        }
    }
}

impl Place {
    // The same line and column.
    fn with(self, mode: Mode) -> Place
        ensures { result ≡ place mode self.line self.column }
    {
        Place { mode, ..self }
    }

    // One column on.
    fn past(self, mode: Mode) -> Place
        ensures { result ≡ place mode self.line (more self.column) }
    {
        let column = self.column.saturating_add(1);
        Place {
            mode,
            column,
            ..self
        }
    }

    // Behind a pair's two digits.
    fn past_pair(self) -> Place
        ensures { result ≡ place Between self.line (more (more self.column)) }
    {
        self.past(Mode::Between).past(Mode::Between)
    }

    // Where the next line begins.
    fn below(self) -> Place
        ensures { result ≡ place Between (more self.line) 1 }
    {
        Place {
            mode: Mode::Between,
            line: self.line.saturating_add(1),
            column: 1,
        }
    }

    fn from_between(self, s: Sort) -> Place
        ensures { result ≡ from_between self.line self.column s }
    {
        match s {
            Sort::Digit(d) => self.with(Mode::Half(d)),
            Sort::Blank => self.past(Mode::Between),
            Sort::Break => self.below(),
            Sort::Hash => self.past(Mode::Comment),
            Sort::Other => self.with(Mode::Wrong(Fault::NoDigit)),
        }
    }

    fn from_half(self, s: Sort) -> Place
        ensures { result ≡ from_half self.line self.column s }
    {
        match s {
            Sort::Digit(_) => self.past_pair(),
            Sort::Other => self.past(Mode::Wrong(Fault::NoDigit)),
            Sort::Blank | Sort::Break | Sort::Hash => self.with(Mode::Wrong(Fault::HalfByte)),
        }
    }

    fn from_comment(self, x: u8) -> Place
        ensures { result ≡ from_comment self.line self.column x }
    {
        if x == b'\n' {
            return self.below();
        }
        self.past(Mode::Comment)
    }

    fn from_mark(self, n: u8, x: u8) -> Place
        ensures { result ≡ from_mark n self.line self.column x }
    {
        match (n, x) {
            (0, 0xEF) => self.with(Mode::Mark(1)),
            (0, _) => self.from_between(Sort::from(x)),
            (1, 0xBB) => self.with(Mode::Mark(2)),
            (2.., 0xBF) => self.with(Mode::Between),
            _ => self.with(Mode::Wrong(Fault::NoDigit)),
        }
    }

    fn step(self, x: u8) -> Place
        ensures { result ≡ step self x }
    {
        match self.mode {
            Mode::Mark(n) => self.from_mark(n, x),
            Mode::Between => self.from_between(Sort::from(x)),
            Mode::Half(_) => self.from_half(Sort::from(x)),
            Mode::Comment => self.from_comment(x),
            Mode::Wrong(_) => self,
        }
    }
}

fn pair_of(high: u8, s: Sort) -> Option<u8>
    ensures { result ≡ pair_of high s }
{
    match s {
        Sort::Digit(low) => Some(high % 16 * 16 + low % 16),
        _ => None,
    }
}

// The table as a local of the reader's, since a constant is laid out anew wherever it is used.
fn digit_values() -> [u8; 256]
    ensures { result ≡ values_from 0 256 }
{
    VALUES
}

// The byte of two digits between pairs, as most characters of a text are: read in one turn, and by the table.
fn pair_between(values: &[u8; 256], mode: Mode, x: u8, y: u8) -> Option<u8>
    requires { values.now ≡ values_from 0 256 }
    ensures { PairIn mode x y result }
{
    if let Mode::Between = mode {
        let high = values[x as usize];
        let low = values[y as usize];
        if high < NO_VALUE && low < NO_VALUE {
            return Some(high * 16 + low);
        }
    }
    None
}

// A byte laid where there is room for it, and its line. How many are laid then.
fn lay(given: Option<u8>, line: u32, n: usize, out: &mut [u8], lines: &mut [u32]) -> usize
    requires { (length lines.old ≡ length out.old) × (n ≤ length out.old) }
    ensures { (result ≡ min (n + length (bytes_in given)) (length out.old))
        × (out.new ≡ overwrite out.old n (bytes_in given))
        × (lines.new ≡ overwrite lines.old n (lines_in given line)) }
{
    match given {
        None => n,
        Some(byte) => {
            if out.len() <= n {
                return n;
            }
            out[n] = byte;
            lines[n] = line;
            n + 1
        }
    }
}

impl Reading {
    // Of a text that begins.
    pub fn start() -> Reading
        ensures { result ≡ begun }
    {
        let place = Place {
            mode: Mode::Mark(0),
            line: 1,
            column: 1,
        };
        Reading { place, count: 0 }
    }

    // The next characters of a text: their bytes are laid into `out` behind those of the reading, and the line of each
    // at the same place of `lines`. Bytes for which there is no room are dropped. Two arrays and a count of both: the
    // theorems `blocks_bytes`, `blocks_lines`, `whole_bytes` and `whole_lines` speak of each. No `for`: a turn takes
    // one character or two.
    pub fn read(self, chars: &[u8], out: &mut [u8], lines: &mut [u32]) -> Reading
        requires { (length lines.old ≡ length out.old) × (self.count ≤ length out.old) }
        ensures { (result ≡ reached (length out.old) self chars.now)
            × (out.new ≡ laid_bytes self chars.now out.old)
            × (lines.new ≡ laid_lines self chars.now lines.old) }
    {
        let values = digit_values();
        let mut place = self.place;
        let mut count = self.count;
        let mut rest = chars;
        while let Some((x, behind)) = rest.split_first() {
            if let Some((y, tail)) = behind.split_first() {
                if let Some(byte) = pair_between(&values, place.mode, *x, *y) {
                    count = lay(Some(byte), place.line, count, out, lines);
                    place = place.past_pair();
                    rest = tail;
                    continue;
                }
            }
            count = lay(place.mode.byte_of(*x), place.line, count, out, lines);
            place = place.step(*x);
            rest = behind;
        }
        Reading { place, count }
    }

    // The text's end.
    pub fn finish(self) -> Reading
        ensures { result ≡ ended self }
    {
        let place = self.place.with(self.place.mode.ended());
        Reading { place, ..self }
    }
}
