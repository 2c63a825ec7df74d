// Where a command of the cut order ends, and how many there are.
#![tactic(auto)]

ghost use Rattle.std.specs.Prelude.{◌≡◌, ◌+◌, ◌≤◌, length, drop};
ghost use Rattle.model.specs.Order.{cut_of, spannable};
ghost use Rattle.order_cuts.specs.Portions.{unit_portion, grouping_portion, portion_of};
ghost use Rattle.order_cuts.specs.Cuts.{Fitting, cuttable, units_from, Command};

use model::{Head, Header};

// A command's most data bytes.
const DATA_ROOM: usize = 255;

// Where a cutter stands: a place of the order, and how many bytes of a spannable value are still to come there.
#[derive(Clone, Copy)]
pub struct Place {
    pub at: usize,
    pub inside: usize,
}

// How much a command takes at once, and how many bytes of a spannable value are then to come; it takes 0 where the
// next unit doesn't fit.
#[derive(Clone, Copy)]
pub struct Portion {
    pub taken: usize,
    pub inside: usize,
}

// The value of a tag may run into the next command; an unknown tag's may not. Most groupings of an order are records.
fn is_spannable(tag: u16) -> bool
    ensures { result ≡ spannable tag }
{
    if row_table::is_record(tag) {
        return true;
    }
    let r = row_table::row_of(tag);
    if r == 0 {
        return false;
    }
    let row = row_table::row_at(r);
    row.spans
}

// A unit of n bytes, behind which `inside` bytes of a spannable value come.
fn unit_portion(n: usize, room: usize, inside: usize) -> Portion
    ensures { result ≡ unit_portion n room inside }
{
    if n <= room {
        return Portion {
            taken: n,
            inside: inside,
        };
    }
    Portion {
        taken: 0,
        inside: 0,
    }
}

// A grouping's first unit: its header where its value spans, else the whole of it. `left` is what the order has left.
fn grouping_portion(head: Head, left: usize, room: usize) -> Portion
    requires { head.size ≤ left }
    ensures { result ≡ grouping_portion head left room }
{
    if is_spannable(head.tag) {
        return unit_portion(head.size, room, head.len);
    }
    let value = memory::least(head.len, left - head.size);
    unit_portion(head.size + value, room, 0)
}

// What a command with this much room takes next.
fn portion_at(order: &[u8], at: usize, inside: usize, room: usize) -> Portion
    requires { at ≤ length order.now }
    ensures { result ≡ portion_of (drop at order.now) inside room }
{
    let left = order.len() - at;
    if 0 < inside {
        let taken = memory::least(memory::least(inside, room), left);
        return Portion {
            taken: taken,
            inside: inside - taken,
        };
    }
    let h = header::header_at(order, at);
    match h {
        Header::Torn => unit_portion(left, room, 0),
        Header::Whole(head) => grouping_portion(head, left, room),
    }
}

// Where the command that begins at a place ends: it closes only when the next unit doesn't fit.
pub fn command_end(order: &[u8], start: Place) -> Place
    requires { (start.at ≤ length order.now) × Fitting (units_from order.now start) }
    ensures { Command order.now start result }
{
    let mut at = start.at;
    let mut inside = start.inside;
    while at < order.len() {
        let room = DATA_ROOM - (at - start.at);
        let step = portion_at(order, at, inside, room);
        if step.taken == 0 {
            return Place {
                at: at,
                inside: inside,
            };
        }
        at += step.taken;
        inside = step.inside;
    }
    Place {
        at: at,
        inside: inside,
    }
}

// How many commands the order is cut into.
pub fn command_count(order: &[u8]) -> usize
    requires { cuttable order.now }
    ensures { result ≡ length (cut_of order.now) }
{
    let mut end = command_end(order, Place { at: 0, inside: 0 });
    let mut count: usize = 1;
    while end.at < order.len() {
        end = command_end(order, end);
        count += 1;
    }
    count
}
