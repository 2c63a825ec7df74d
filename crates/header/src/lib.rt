// One header at a place of a slice, and which tags are queries.
#![tactic(auto)]

ghost use Rattle.std.specs.Prelude.{◌≡◌, ◌+◌, ◌≤◌, length, drop};
ghost use Rattle.lists.specs.Bytes.{word_at};
ghost use Rattle.model.specs.Header.{header_of};
ghost use Rattle.model.specs.Rules.{is_query};

use model::{Head, Header};

const SHORT_SIZE: usize = 3;

const LONG_SIZE: usize = 5;

fn word_at(s: &[u8], at: usize) -> u16
    requires { at + 2 ≤ length s.now }
    ensures { result ≡ word_at s.now at }
{
    memory::word(s[at], s[at + 1])
}

// The header that the bytes from `at` on begin with.
pub fn header_at(s: &[u8], at: usize) -> Header
    ensures { result ≡ header_of (drop at s.now) }
{
    if s.len() < at {
        return Header::Torn;
    }
    let left = s.len() - at;
    if left < SHORT_SIZE {
        return Header::Torn;
    }
    let tag = word_at(s, at);
    let short = memory::wide(s[at + 2]);
    if short != 0xFF {
        return Header::Whole(Head {
            tag: tag,
            size: SHORT_SIZE,
            len: short,
        });
    }
    if left < LONG_SIZE {
        return Header::Torn;
    }
    let long = word_at(s, at + 3);
    if long == 0xFFFF {
        return Header::Torn;
    }
    Header::Whole(Head {
        tag: tag,
        size: LONG_SIZE,
        len: long as usize,
    })
}

// The tags that ask, and load nothing.
pub fn is_query(tag: u16) -> bool
    ensures { result ≡ is_query tag }
{
    if tag == 0x9484 {
        return true;
    }
    if tag == 0x8185 {
        return true;
    }
    tag == 0x84F2
}
