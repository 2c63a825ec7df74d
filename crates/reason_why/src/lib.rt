// Why an order is not complete: the first piece of it that the card does not take, or what its end leaves.
#![tactic(auto)]

ghost use Rattle.std.specs.Prelude.{◌≡◌, List, ℕ, ◌-◌, ◌≤◌, length, drop};
ghost use Rattle.model.specs.Order.{order_limit, challenged_state};
ghost use Rattle.walk_course.specs.Steps.{state_of};
ghost use Rattle.reason_why.specs.Reasons.{why_from, why_not, at_end, end_stop};

use model::{Loading, Open};
use reason_stops::{Cause, Stop};
use walk_command::End;

// How many bytes '9484' takes, with no value.
const FRONT_SIZE: usize = 3;

// The word of an order whose pieces all pass, where the end is asked for.
const NOT_YET: u16 = 0x6985;

// The order is complete, or stops somewhere.
#[derive(Clone, Copy)]
pub enum Why {
    Complete,
    Stops(Stop),
}

// What an order leaves that is not complete though each piece passes: a value open, from the last place, or rows
// missing.
fn end_stop(l: Loading, size: usize, place: usize) -> Stop
    requires { 3 ≤ size }
    ensures { (a : List ℕ) → result ≡ end_stop size place (state_of l a) }
{
    let running = l.running;
    let pending = running.pending;
    match pending {
        Open::Shut => Stop {
            place: size - FRONT_SIZE,
            tag: 0x0000,
            word: NOT_YET,
            cause: Cause::Rows(l.running.rows),
        },
        Open::Table { held: _, missing } => Stop {
            place: place,
            tag: 0x3100,
            word: NOT_YET,
            cause: Cause::Open(missing),
        },
        Open::Record {
            tag,
            written: _,
            missing,
        } => Stop {
            place: place,
            tag: tag,
            word: NOT_YET,
            cause: Cause::Open(missing),
        },
    }
}

// The end of a walk in which each piece passed.
fn at_end(l: Loading, size: usize, place: usize) -> Why
    requires { 3 ≤ size }
    ensures { (a : List ℕ) → result ≡ at_end size place (state_of l a) }
{
    if order_complete::is_ready(l) {
        return Why::Complete;
    }
    Why::Stops(end_stop(l, size, place))
}

// The groupings of a command behind '9484', on a fresh card of this capacity that has given its challenge: the card's
// own walk.
fn why_behind(capacity: u8, d: &[u8]) -> Why
    requires { (3 ≤ length d.now) × (length d.now ≤ 8195) }
    ensures { result ≡ why_from (length d.now - 3) capacity (length d.now) 0
        (drop 3 d.now) challenged_state }
{
    let load = order_complete::challenged();
    let mut area = [0u8; 4096];
    let s = walk_command::walked(load, &mut area, capacity, 0x00, d, FRONT_SIZE);
    let end = s.end;
    match end {
        End::Done => at_end(s.load, d.len(), s.place - FRONT_SIZE),
        End::Asked(_) => Why::Stops(reason_stops::stop_at(s.load, 0x9000, d, s.place)),
        End::Failed(w) => Why::Stops(reason_stops::stop_at(s.load, w, d, s.place)),
    }
}

// Why this order is not complete for a chip of this capacity.
pub fn why_not(capacity: u8, order: &[u8]) -> Why
    requires { length order.now ≤ order_limit }
    ensures { result ≡ why_not capacity order.now }
{
    let mut data = [0u8; 8195];
    memory::lay(&mut data, b"\x94\x84\x00");
    memory::put_bytes(&mut data, FRONT_SIZE, order);
    let end = FRONT_SIZE + order.len();
    why_behind(capacity, &data[..end])
}
