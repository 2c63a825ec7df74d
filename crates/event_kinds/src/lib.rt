// Which records are events; the answer to a record that is refused.
#![tactic(auto)]

ghost use Rattle.std.specs.Prelude.{◌≡◌, ◌+◌, ◌<◌, length};
ghost use Rattle.model.specs.Stored.{is_kind};
ghost use Rattle.event_kinds.specs.Faults.{fault_in};

use model::{Card, DATA_PLACE, Played};

pub fn refused_by(number: u8, c: Card) -> Played
    ensures { result ≡ record { number = number; word = 0; answered = 0; card = c } }
{
    Played {
        number: number,
        word: 0x0000,
        answered: 0,
        card: c,
    }
}

fn is_kind(k: u8) -> bool
    ensures { result ≡ is_kind k }
{
    if k < 1 {
        return false;
    }
    k <= 8
}

// The number that refuses a record, or 0 where it is an event: its kind is none (4), a byte that must be zero isn't
// (5).
pub fn fault_in(r: &[u8]) -> u8
    requires { length r.now ≡ 260 }
    ensures { result ≡ fault_in r.now }
{
    let known = is_kind(r[0]);
    let padded = memory::zero_from(r, DATA_PLACE + memory::wide(r[3]));
    if !known {
        return 4;
    }
    if !padded {
        return 5;
    }
    0
}
