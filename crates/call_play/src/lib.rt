// One event: numbers 1, 2, 6 and 3, else the turn of its record.
#![tactic(auto)]

ghost use Rattle.std.specs.Prelude.{◌<◌, length};
ghost use Rattle.model.specs.Session.{play_of};
ghost use Rattle.event_replies.specs.Plays.{Plays};

use model::{ANSWER_ROOM, AREA_SIZE, Card, Played, RECORD_SIZE};

// One event: 1, 2, 6, 3, 4, 5 are checked in this order.
pub fn play(c: Card, area: &mut [u8], answer: &mut [u8], r: &[u8]) -> Played
    ensures { Plays (play_of c area.old (length answer.old) r.now) result
        area.new answer.old answer.new }
{
    if area.len() != AREA_SIZE {
        return event_kinds::refused_by(1, c);
    }
    if answer.len() < ANSWER_ROOM {
        return event_kinds::refused_by(2, c);
    }
    if sound_card::is_sound(c) {
        if r.len() != RECORD_SIZE {
            return event_kinds::refused_by(3, c);
        }
        return event_turn::turn(c, area, answer, r);
    }
    event_kinds::refused_by(6, c)
}
