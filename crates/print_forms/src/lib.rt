// Text in fixed memory, filled from the front: forms with their values, bytes as they are, bytes in hexadecimal, numbers.
// What there is no room for is left out.
#![tactic(auto)]

ghost use Rattle.std.specs.Prelude.{◌≡◌, ◌+◌, ◌-◌, ◌/◌, ◌<◌, ◌≤◌, [], ◌∷◌, ◌++◌, length, take};
ghost use Rattle.std.specs.Prelude.{false, slice_index};
ghost use Rattle.std.specs.Char.{is_ascii_hexdigit};
ghost use Rattle.print_numbers.specs.Trace.{decimal_of, hex_of};

use std::fmt;
use std::fmt::{Display, Write};
use std::marker::Model;

// The most characters of a number.
const NUMBER_LIMIT: usize = 20;

// A line, seen as its text so far.
#[derive(Drop)]
pub struct Line<const N: usize> {
    text: [u8; N],
    filled: usize,
}

impl<const N: usize> Model for Line<N> {
    ghost use Rattle.std.specs.Prelude.{◌≤◌, ℕ, List, take};

    ghost Value = { List ℕ };

    ghost view = { λ l. take l.filled l.text };

    ghost invariant = { λ l. l.filled ≤ N };
}

impl<const N: usize> Line<N> {
    pub fn new() -> Self
        ensures { result ≡ [] }
    {
        Self {
            text: [0; N],
            filled: 0,
        }
    }

    pub fn as_bytes(&self) -> &[u8]
        ensures { result.now ≡ self.now }
    {
        &self.text[..self.filled]
    }

    // How many characters there still is room for.
    pub fn room(&self) -> usize
        ensures { result + length self.now ≡ N }
    {
        N - self.filled
    }

    pub fn clear(&mut self)
        ensures { self.new ≡ [] }
    {
        self.filled = 0;
    }

    // Bytes as they are, as many as there is room for.
    pub fn put_text(&mut self, text: &[u8])
        ensures { self.new ≡ self.old ++ take (N - length self.old) text.now }
    {
        let n = text.len().min(self.room());
        memory::put_bytes(&mut self.text, self.filled, &text[..n]);
        self.filled += n;
    }

    // Bytes in hexadecimal, as many as there is room for.
    pub fn put_hex(&mut self, bytes: &[u8])
        ensures { self.new ≡ self.old ++ hex_of (take ((N - length self.old) / 2) bytes.now) }
    {
        let n = bytes.len().min(self.room() / 2);
        self.filled = print_numbers::put_hex(&mut self.text, self.filled, &bytes[..n]);
    }

    // A number in decimal, where there is room for the longest.
    pub fn put_number(&mut self, n: u64)
        ensures room { length self.old + 20 ≤ N → self.new ≡ self.old ++ decimal_of n }
        ensures cut { N < length self.old + 20 → self.new ≡ self.old }
    {
        if self.room() < NUMBER_LIMIT {
            return;
        }
        self.filled = print_numbers::put_number(&mut self.text, self.filled, n);
    }

    // One character more, which has room.
    pub fn push(&mut self, c: u8)
        requires { length self.old < N }
        ensures laid { self.new ≡ self.old ++ c ∷ [] }
        ensures long { length self.new ≡ length self.old + 1 }
    {
        self.text[self.filled] = c;
        self.filled += 1;
    }

    // A form with its values, by `format_args!`. It is cut off where the room ends, but a number goes in whole or not at
    // all. Nothing that stands there goes.
    pub fn put_form<D: Display + Drop>(&mut self, form: D)
        ensures stays { length self.old ≤ length self.new }
        ensures whole { length self.old < N → length self.new ≡ N
            → is_ascii_hexdigit (slice_index self.new (N - 1)) ≡ false }
    {
        let before = self.filled;
        let _ = self.write(form);
        self.filled = self.filled.max(before);
        if self.filled == N {
            let text = &self.text[..];
            self.filled = before + whole_in(&text[before..]);
        }
    }
}

// How far a text goes without the digits at its end: where there was no more room they may be a part of a number.
fn whole_in(text: &[u8]) -> usize
    ensures within { result ≤ length text.now }
    ensures whole { 0 < result → is_ascii_hexdigit (slice_index text.now (result - 1)) ≡ false }
{
    match text.iter().rposition(|c| !c.is_ascii_hexdigit()) {
        Some(i) => i + 1,
        None => 0,
    }
}

// `write!` gives a form's texts and values one by one.
impl<const N: usize> fmt::Write for Line<N> {
    ghost write_str_gives = { λ l text m. m ≡ l ++ take (N - length l) text };

    fn write_str(&mut self, form: &str) -> fmt::Result {
        self.put_text(form.as_bytes());
        Ok(())
    }
}
