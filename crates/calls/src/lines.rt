// The line of a call: everything that came back, and every lent byte afterwards. A field has a blank before it. Behind
// what stands there, so nothing of that goes.
ghost use Rattle.std.specs.Prelude.{◌≡◌, ◌+◌, ◌*◌, ◌<◌, ◌≤◌, length};
ghost use Rattle.calls.specs.Sums.{place_sum};

use crate::bytes::put;
use crate::card_out::put_card;
use crate::input::WORD_LIMIT;
use crate::stored::CARD_SIZE;
use model::{Card, Made, Played, Ran, Shown, Written};
use order_reader::Found;
use print_forms::Line;

// Room for lines: some are gathered before they are written.
const LINES_SIZE: usize = 32_768;

pub type Lines = Line<LINES_SIZE>;

// Memory of up to so many bytes is printed whole.
const SHORT: usize = 64;

// A byte times its place, counted from 1.
fn weight(i: usize, b: u8) -> usize
    requires { i < 12480 }
    ensures { (result ≡ (i + 1) * b) × (result ≤ 3182400) }
{
    (i + 1) * b as usize
}

// The place sum of memory. That of `io_playing` is of an area alone, and what it promises is a bound.
fn place_sum(bytes: &[u8]) -> usize
    requires { length bytes.now ≤ 12480 }
    ensures { result ≡ place_sum bytes.now }
{
    let mut sum: usize = 0;
    for (i, b) in bytes.iter().enumerate() {
        sum += weight(i, *b);
    }
    sum
}

// Short memory is all of its bytes, or a dash; longer memory its length and its place sum.
fn put_memory(out: &mut Lines, bytes: &[u8])
    requires { length bytes.now ≤ 12480 }
    ensures { length out.old ≤ length out.new }
{
    match bytes.len() {
        0 => out.put_text(b" -"),
        1..=SHORT => {
            out.put_text(b" ");
            out.put_hex(bytes);
        }
        n => out.put_form(format_args!(" {n}:{}", place_sum(bytes))),
    }
}

// Words as memory, two bytes each.
fn put_words(out: &mut Lines, words: &[u16])
    requires { length words.now ≤ 64 }
    ensures { length out.old ≤ length out.new }
{
    let mut bytes = [0u8; 2 * WORD_LIMIT];
    for (i, w) in words.iter().enumerate() {
        put(&mut bytes, 2 * i, w.to_be_bytes());
    }
    put_memory(out, &bytes[..2 * words.len()]);
}

// The bytes of a card.
fn put_bytes_of(out: &mut Lines, c: Card)
    ensures { length out.old ≤ length out.new }
{
    let mut bytes = [0u8; CARD_SIZE];
    put_card(&mut bytes, c);
    out.put_text(b" ");
    out.put_hex(&bytes);
}

// The line of `play`.
pub fn put_played(out: &mut Lines, x: &Played, area: &[u8], answer: &[u8])
    requires { (length area.now ≤ 12480) × (length answer.now ≤ 12480) }
    ensures { length out.old ≤ length out.new }
{
    out.put_form(format_args!("play {} {:04X} {}", x.number, x.word, x.answered));
    put_bytes_of(out, x.card);
    put_memory(out, area);
    put_memory(out, answer);
    out.put_text(b"\n");
}

// The line of `run`.
pub fn put_ran(out: &mut Lines, x: &Ran, area: &[u8], words: &[u16])
    requires { (length area.now ≤ 12480) × (length words.now ≤ 64) }
    ensures { length out.old ≤ length out.new }
{
    out.put_form(format_args!("run {} {}", x.number, x.count));
    put_bytes_of(out, x.card);
    put_memory(out, area);
    put_words(out, words);
    out.put_text(b"\n");
}

// The line of `shown`.
pub fn put_shown(out: &mut Lines, x: &Shown, part: &[u8])
    requires { length part.now ≤ 12480 }
    ensures { length out.old ≤ length out.new }
{
    out.put_form(format_args!("shown {} {}", x.number, x.start));
    put_memory(out, part);
    out.put_text(b"\n");
}

// The line of `count`.
pub fn put_count(out: &mut Lines, count: u32)
    ensures { length out.old ≤ length out.new }
{
    out.put_form(format_args!("count {count}\n"));
}

// The line of `fresh`.
pub fn put_made(out: &mut Lines, x: &Made)
    ensures { length out.old ≤ length out.new }
{
    out.put_form(format_args!("fresh {}", x.number));
    put_bytes_of(out, x.card);
    out.put_text(b"\n");
}

// The line of `write`.
pub fn put_written(out: &mut Lines, x: &Written, room: &[u8])
    requires { length room.now ≤ 12480 }
    ensures { length out.old ≤ length out.new }
{
    out.put_form(format_args!("write {} {}", x.number, x.count));
    put_memory(out, room);
    out.put_text(b"\n");
}

// The line of `pull`.
pub fn put_pulled(out: &mut Lines, x: &Found, value: &[u8])
    requires { length value.now ≤ 12480 }
    ensures { length out.old ≤ length out.new }
{
    out.put_form(format_args!("pull {} {:04X} {} {}", x.ending, x.tag, x.start, x.next));
    put_memory(out, value);
    out.put_text(b"\n");
}
