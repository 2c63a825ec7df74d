// Whether an order is complete for a chip: the card's own walk says so.
#![tactic(auto)]

ghost use Rattle.std.specs.Prelude.{◌≡◌, List, ℕ, ◌≤◌, length};
ghost use Rattle.model.specs.Command.{is_shut, ready};
ghost use Rattle.model.specs.Order.{order_limit, complete, challenged_state};
ghost use Rattle.walk_course.specs.Steps.{state_of};
ghost use Rattle.order_complete.specs.Writes.{passes_behind};

use model::{Loading, Open};
use walk_command::End;

// How many bytes '9484' takes, with no value.
const FRONT_SIZE: usize = 3;

const CHALLENGE_ROW: usize = 1;

fn is_shut(o: Open) -> bool
    ensures { result ≡ is_shut o }
{
    match o {
        Open::Shut => true,
        Open::Table {
            held: _,
            missing: _,
        } => false,
        Open::Record {
            tag: _,
            written: _,
            missing: _,
        } => false,
    }
}

// No mandatory row is missing, and no value open.
pub fn is_ready(l: Loading) -> bool
    ensures { (a : List ℕ) → result ≡ ready (state_of l a) }
{
    if row_table::mandatory_missing(l.running.rows) {
        return false;
    }
    let running = l.running;
    let pending = running.pending;
    is_shut(pending)
}

// A fresh card's loading part, once it has given its challenge.
pub fn challenged() -> Loading
    ensures { result ≡ challenged_state.load }
{
    let mut load = card_fresh::fresh_loading();
    let running = walk_course::with_taken(load.running, CHALLENGE_ROW);
    load.running = running;
    load
}

// The groupings of a command behind '9484' pass on a fresh card of this capacity that has given its challenge, and
// leave it ready: the card's own walk says so.
fn passes_behind(capacity: u8, d: &[u8]) -> bool
    requires { 3 ≤ length d.now }
    ensures { result ≡ passes_behind capacity d.now }
{
    let load = challenged();
    let mut area = [0u8; 4096];
    let s = walk_command::walked(load, &mut area, capacity, 0x00, d, FRONT_SIZE);
    let end = s.end;
    match end {
        End::Done => is_ready(s.load),
        End::Asked(_) => false,
        End::Failed(_) => false,
    }
}

// The order is complete for a chip of this capacity.
pub fn is_complete(capacity: u8, order: &[u8]) -> bool
    requires { length order.now ≤ order_limit }
    ensures { result ≡ complete capacity order.now }
{
    let mut data = [0u8; 8195];
    memory::lay(&mut data, b"\x94\x84\x00");
    memory::put_bytes(&mut data, FRONT_SIZE, order);
    let end = FRONT_SIZE + order.len();
    passes_behind(capacity, &data[..end])
}
