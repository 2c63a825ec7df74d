// The names of jobs, as standard input brings them.
ghost use Rattle.std.specs.Prelude.{◌≡◌, ◌+◌, ◌≤◌, ◌<◌, length, IfOk, IfSome};

use io_edge::{Failure, Source};

const WINDOW_SIZE: usize = 4352;

// Names that a separator ends, in a window of what was read: the next begins at `at`, and the window is filled up to
// `filled`. Fixed memory and counts, since there is no heap and a `Line` can't be read into.
#[derive(Drop)]
pub struct Names<'a> {
    source: Source<'a>,
    separator: u8,
    window: [u8; WINDOW_SIZE],
    at: usize,
    filled: usize,
    ghost ordered: { at ≤ filled },
    ghost within: { filled ≤ 4352 },
}

impl<'a> Names<'a> {
    pub fn new(source: Source<'a>, separator: u8) -> Names<'a> {
        Names {
            source,
            separator,
            window: [0; WINDOW_SIZE],
            at: 0,
            filled: 0,
        }
    }

    // How long the next name is, where its separator is in the window. Else it has to be read on for.
    pub fn whole_len(&self) -> Option<usize>
        ensures { IfSome result (λ n. self.now.at + n < self.now.filled) }
    {
        let separator = self.separator;
        self.window[self.at..self.filled]
            .iter()
            .position(|c| *c == separator)
    }

    // Fills the window behind a name that no separator ended.
    fn refill(&mut self) -> Result<(), Failure>
        ensures { self.new.at ≡ 0 }
    {
        let at = self.at;
        let filled = self.filled;
        self.window.copy_within(at..filled, 0);
        self.at = 0;
        self.filled = filled - at;
        let kept = self.filled;
        let n = self.source.read(&mut self.window[kept..])?;
        self.filled = kept + n;
        Ok(())
    }

    // The same, read on for: none at the input's end. The last name may have no separator.
    fn read_len(&mut self) -> Result<Option<usize>, Failure>
        ensures { IfOk result (λ len. IfSome len (λ n. self.new.at + n ≤ self.new.filled)) }
    {
        self.refill()?;
        match self.whole_len() {
            Some(n) => Ok(Some(n)),
            None if self.filled == 0 => Ok(None),
            None if self.filled == WINDOW_SIZE => {
                self.source.voice.say(b": a name is too long\n");
                Err(Failure::NotDone)
            }
            None => Ok(Some(self.filled)),
        }
    }

    // How long the next name is, which is `whole` where that was found.
    fn next_len(&mut self, whole: Option<usize>) -> Result<Option<usize>, Failure>
        requires { IfSome whole (λ n. self.old.at + n < self.old.filled) }
        ensures { IfOk result (λ len. IfSome len (λ n. self.new.at + n ≤ self.new.filled)) }
    {
        match whole {
            Some(n) => Ok(Some(n)),
            None => self.read_len(),
        }
    }

    // The next name, of which `whole_len` said how long it is: a name is looked through once. None at the input's end.
    pub fn read_next(&mut self, whole: Option<usize>) -> Result<Option<&[u8]>, Failure>
        requires { IfSome whole (λ n. self.old.at + n < self.old.filled) }
    {
        let Some(n) = self.next_len(whole)? else {
            return Ok(None);
        };
        let start = self.at;
        let end = start + n;
        self.at = self.filled.min(end + 1);
        let held = &*self;
        Ok(Some(&held.window[start..end]))
    }
}
