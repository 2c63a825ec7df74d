// A session on a card: its events one after the other.
#![tactic(auto)]

ghost use Rattle.std.specs.Prelude.{length};
ghost use Rattle.model.specs.Session.{run_of};
ghost use Rattle.call_run.specs.Runs.{Checked, Runs};

use model::{ANSWER_ROOM, AREA_SIZE, Card, RECORD_SIZE, Ran};

// The number by which a session is refused, else 0: 1, 6, 3, 11 are checked in this order.
fn refusal(c: Card, area: usize, session: usize, words: usize) -> u8
    ensures { Checked result c area session words }
{
    if area != AREA_SIZE {
        return 1;
    }
    if sound_card::is_sound(c) {
        if session % RECORD_SIZE != 0 {
            return 3; // not whole records
        }
        if words < session / RECORD_SIZE {
            return 11; // too few places for words
        }
        return 0;
    }
    6
}

// A session: its records one after the other, a word each; where it is refused, none of them.
pub fn run(mut c: Card, area: &mut [u8], session: &[u8], words: &mut [u16]) -> Ran
    ensures { Runs (run_of c area.old (length words.old) session.now) result
        area.new words.old words.new }
{
    let number = refusal(c, area.len(), session.len(), words.len());
    let mut k: usize = 0;
    if number == 0 {
        k = session.len() / RECORD_SIZE;
    }
    let mut answer = [0u8; ANSWER_ROOM];
    let mut i: usize = 0;
    while i < k {
        let at = i * RECORD_SIZE;
        let x = event_turn::turn(c, area, &mut answer, &session[at..at + RECORD_SIZE]);
        words[i] = x.word;
        c = x.card;
        i += 1;
    }
    Ran {
        number: number,
        count: k,
        card: c,
    }
}
