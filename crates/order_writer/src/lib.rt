// The writer: an order that is complete for a chip, cut into records.
#![tactic(auto)]

ghost use Rattle.std.specs.Prelude.{List, ℕ, ◌≤◌, length};
ghost use Rattle.model.specs.Order.{complete, records_for, no_writing, write_of};
ghost use Rattle.order_cuts.specs.Cuts.{cuttable};
ghost use Rattle.order_complete.specs.Writes.{Writes, cut_for};

use model::{ORDER_LIMIT, RECORD_SIZE, Written};

// A refusal: 0 records.
fn refused_by(number: u8) -> Written
    ensures { (room : List ℕ) → Writes (no_writing number) room result room }
{
    Written {
        number: number,
        count: 0,
    }
}

// The records of a complete order, or number 11.
fn cut_into(order: &[u8], room: &mut [u8]) -> Written
    requires { cuttable order.now × (length (records_for order.now) ≤ 45) }
    ensures { Writes (cut_for order.now (length room.old)) room.old result
        room.new }
{
    let count = 1 + order_cuts::command_count(order);
    if room.len() < count * RECORD_SIZE {
        return refused_by(11);
    }
    order_records::lay_records(order, room);
    Written {
        number: 0,
        count: count,
    }
}

// The order for the chip of this record, cut into records in the lent room: numbers 7, 9, 10 and 11.
pub fn write(chip: &[u8], order: &[u8], room: &mut [u8]) -> Written
    ensures { Writes (write_of chip.now order.now (length room.old))
        room.old result room.new }
{
    let made = card_fresh::fresh(chip);
    if made.number != 0 {
        return refused_by(made.number);
    }
    if ORDER_LIMIT < order.len() {
        return refused_by(9);
    }
    if order_complete::is_complete(made.card.chip.capacity, order) {
        return cut_into(order, room);
    }
    refused_by(10)
}
