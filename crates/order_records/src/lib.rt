// The writer's records: an order cut, and laid into lent room.
#![tactic(auto)]

ghost use Rattle.std.specs.Prelude.{◌≡◌, ◌+◌, ◌*◌, ◌≤◌, length};
ghost use Rattle.lists.specs.Joined.{joined};
ghost use Rattle.lists.specs.Over.{overwrite};
ghost use Rattle.model.specs.Stored.{data_room, record_size};
ghost use Rattle.model.specs.Order.{records_for, stored};
ghost use Rattle.order_cuts.specs.Cuts.{cuttable};

use model::{RECORD_SIZE, STORE_DATA};
use order_cuts::Place;

// A record's bytes before its data: kind, P1, P2, length.
const FRONT_SIZE: usize = 4;

// One record of STORE DATA, written whole, zeros and all.
fn lay_record(room: &mut [u8], to: usize, p1: u8, bytes: &[u8])
    requires { (length bytes.now ≤ data_room) × (to + record_size ≤ length room.old) }
    ensures { room.new ≡ overwrite room.old to (stored p1 bytes.now) }
{
    let n = bytes.len();
    let front = [STORE_DATA, p1, 0x00, n as u8];
    memory::put_bytes(room, to, &front);
    memory::put_bytes(room, to + FRONT_SIZE, bytes);
    memory::clear(&mut room[to + FRONT_SIZE + n..to + RECORD_SIZE]);
}

// The writer's records: '9484', then a record a command of the order, P1 '80' on the last.
pub fn lay_records(order: &[u8], room: &mut [u8])
    requires { cuttable order.now × (length (records_for order.now) * record_size ≤ length room.old) }
    ensures { room.new ≡ overwrite room.old 0 (joined (records_for order.now)) }
{
    lay_record(room, 0, 0x01, b"\x94\x84\x00");
    let mut to = RECORD_SIZE;
    let mut start: usize = 0;
    let mut end = order_cuts::command_end(order, Place { at: 0, inside: 0 });
    while end.at < order.len() {
        let next = end.at;
        lay_record(room, to, 0x00, &order[start..next]);
        start = next;
        to += RECORD_SIZE;
        end = order_cuts::command_end(order, end);
    }
    lay_record(room, to, 0x80, &order[start..]);
}
