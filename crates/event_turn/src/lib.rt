// One record on a sound card, handed back whole.
#![tactic(auto)]

ghost use Rattle.std.specs.Prelude.{◌≡◌, true, ◌≤◌, length};
ghost use Rattle.lists.specs.Over.{overwrite};
ghost use Rattle.model.specs.Stored.{area_size};
ghost use Rattle.model.specs.Events.{store_data, event};
ghost use Rattle.model.specs.Session.{turn_of};
ghost use Rattle.theorem_sound.specs.Keeps.{Good};
ghost use Rattle.answers.specs.Answers.{Answers};
ghost use Rattle.event_kinds.specs.Faults.{event_of};
ghost use Rattle.walk_command.specs.Ends.{settled_card};
ghost use Rattle.event_replies.specs.Lives.{lived_as};
ghost use Rattle.event_replies.specs.Plays.{Plays};
ghost use Rattle.event_turn.specs.Told.{end_answer};

use event_replies::Replied;
use model::{Card, DATA_PLACE, Loading, Open, Played};
use walk_command::{End, Said};

// A card that locks, or not, with this loading part.
fn settled_card(mut c: Card, mut load: Loading, x: Said) -> Card
    ensures { result ≡ settled_card x c load }
{
    let p = load.running;
    let running = x.running;
    load.running = running;
    if x.locks {
        let held = load.held;
        let left = walk_course::held_dropped(p, held);
        load.held = left;
        let mut life = c.life;
        life.gp = 0x87;
        life.selected = false;
        c.life = life;
        c.loading = load;
        return c;
    }
    c.loading = load;
    c
}

// The card after an event that is no command.
fn lived_card(mut c: Card, x: Replied) -> Card
    ensures { result ≡ lived_as c x }
{
    let life = x.life;
    c.life = life;
    if x.locks {
        let mut load = c.loading;
        let held = load.held;
        let left = walk_course::held_dropped(load.running, held);
        load.held = left;
        let running = walk_course::with_open(load.running, Open::Shut);
        load.running = running;
        c.loading = load;
        return c;
    }
    c
}

// A query's answer, and nothing for any other end.
fn lay_end(answer: &mut [u8], c: Card, end: End) -> usize
    requires { 64 ≤ length answer.old }
    ensures { (result ≡ length (end_answer end c))
        × (answer.new ≡ overwrite answer.old 0 (end_answer end c)) }
{
    match end {
        End::Done => 0,
        End::Asked(tag) => answers::lay_answer(answer, c, tag),
        End::Failed(_) => 0,
    }
}

// A command.
fn commanded(c: Card, area: &mut [u8], answer: &mut [u8], p1: u8, d: &[u8]) -> Played
    requires { Good area_size c area.old × (64 ≤ length answer.old) × (c.life.selected ≡ true)
        × (1 ≤ length d.now) }
    ensures { (result.number ≡ 0)
        × Answers (store_data p1 d.now c area.old) result.word result.answered result.card
        area.new answer.old answer.new }
{
    let e = walk_command::walked(c.loading, area, c.chip.capacity, p1, d, 0);
    let load = e.load;
    let end = e.end;
    let x = walk_command::settled(end, load.running, p1);
    let card = settled_card(c, load, x);
    Played {
        number: 0,
        word: x.word,
        answered: lay_end(answer, card, end),
        card: card,
    }
}

// An event.
fn turned_by(c: Card, area: &mut [u8], answer: &mut [u8], kind: u8, p1: u8, d: &[u8]) -> Played
    requires { Good area_size c area.old × (64 ≤ length answer.old) }
    ensures { (result.number ≡ 0)
        × Answers (event (event_of kind p1 d.now) c area.old) result.word result.answered result.card
        area.new answer.old answer.new }
{
    let load = c.loading;
    if event_replies::commands(c.life, load.running.internal, kind, d.len()) {
        return commanded(c, area, answer, p1, d);
    }
    let x = event_replies::lived(c, area, answer, kind, p1, d);
    Played {
        number: 0,
        word: x.word,
        answered: x.answered,
        card: lived_card(c, x),
    }
}

// One record on a sound card.
pub fn turn(c: Card, area: &mut [u8], answer: &mut [u8], r: &[u8]) -> Played
    requires { Good area_size c area.old × (64 ≤ length answer.old) × (length r.now ≡ 260) }
    ensures { Plays (turn_of c area.old r.now) result area.new answer.old
        answer.new }
{
    let number = event_kinds::fault_in(r);
    if number != 0 {
        return event_kinds::refused_by(number, c);
    }
    let end = DATA_PLACE + memory::wide(r[3]);
    turned_by(c, area, answer, r[0], r[1], &r[DATA_PLACE..end])
}
