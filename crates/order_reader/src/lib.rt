// The order's reader: it keeps the lent order and its place, and gives one grouping a pull.
#![tactic(auto)]

ghost use Rattle.std.specs.Prelude.{◌≡◌, ◌+◌};
ghost use Rattle.model.specs.Order.{pull_of};
ghost use Rattle.order_reader.specs.Reads.{nothing_found, found_at, value_of};

use model::{Header, Pulled};

const ENDED: u8 = 1;

const BROKEN: u8 = 2;

// One pull of the order: the grouping at a place, or which of the two endings.
fn pull_at(order: &[u8], at: usize) -> Pulled
    ensures { result ≡ pull_of order.now at }
{
    if order.len() <= at {
        return Pulled::Ended;
    }
    let h = header::header_at(order, at);
    match h {
        Header::Torn => Pulled::Broken,
        Header::Whole(head) => {
            if order.len() - at - head.size < head.len {
                return Pulled::Broken;
            }
            Pulled::Grouping {
                tag: head.tag,
                start: at + head.size,
                len: head.len,
            }
        }
    }
}

// What a pull finds, in numbers: a grouping's tag and where its value lies, the next pull's place, and which of the
// two endings there was, 0 for none.
#[derive(Clone, Copy)]
pub struct Found {
    pub tag: u16,
    pub start: usize,
    pub len: usize,
    pub next: usize,
    pub ending: u8,
}

// Nothing was found, and the place stays.
fn nothing_found(at: usize, ending: u8) -> Found
    ensures { result ≡ nothing_found at ending }
{
    Found {
        tag: 0x0000,
        start: 0,
        len: 0,
        next: at,
        ending: ending,
    }
}

// A pull in numbers.
pub fn found_at(order: &[u8], at: usize) -> Found
    ensures { result ≡ found_at order.now at }
{
    let pulled = pull_at(order, at);
    match pulled {
        Pulled::Ended => nothing_found(at, ENDED),
        Pulled::Broken => nothing_found(at, BROKEN),
        Pulled::Grouping { tag, start, len } => Found {
            tag: tag,
            start: start,
            len: len,
            next: start + len,
            ending: 0,
        },
    }
}

// The value of what was found, as a part of the order, as far as that goes.
pub fn value_of(order: &[u8], found: Found) -> &[u8]
    ensures { result.now ≡ value_of order.now found }
{
    memory::part_of(order, found.start, found.len)
}

// A reader keeps the lent order and its place.
#[derive(Clone, Copy)]
pub struct Reader<'a> {
    pub order: &'a [u8],
    pub at: usize,
}

// What one pull hands back: what was found, its value as a part of the order, and the reader of the rest.
#[derive(Clone, Copy)]
pub struct Drawn<'a> {
    pub rest: Reader<'a>,
    pub value: &'a [u8],
    pub found: Found,
}

// One grouping a pull.
pub fn pull<'a>(r: Reader<'a>) -> Drawn<'a>
    ensures { (result.found ≡ found_at r.entry.order.now r.entry.at)
        × (result.value.now ≡ value_of r.entry.order.now (found_at r.entry.order.now r.entry.at))
        × (result.rest.order ≡ r.entry.order)
        × (result.rest.at ≡ (found_at r.entry.order.now r.entry.at).next) }
{
    let found = found_at(r.order, r.at);
    let value = value_of(r.order, found);
    let rest = Reader {
        order: r.order,
        at: found.next,
    };
    Drawn {
        rest: rest,
        value: value,
        found: found,
    }
}

// What a pull at a place finds: the reader stands in a local.
pub fn pulled_at(order: &[u8], at: usize) -> Found
    ensures { result ≡ found_at order.now at }
{
    let reader = Reader {
        order: order,
        at: at,
    };
    let drawn = pull(reader);
    drawn.found
}

// The value that a pull at a place hands back.
pub fn value_pulled<'a>(order: &'a [u8], at: usize) -> &'a [u8]
    ensures { result.now ≡ value_of order.now (found_at order.now at) }
{
    let reader = Reader {
        order: order,
        at: at,
    };
    let drawn = pull(reader);
    drawn.value
}
