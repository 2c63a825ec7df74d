// Events that are no command for the walk: a small reply, whatever the state. Whoever has the card makes the change.
#![tactic(auto)]

ghost use Rattle.std.specs.Prelude.{◌≡◌, Bool, true, false, cond, List, eqb, ℕ, ◌≤◌, length};
ghost use Rattle.model.specs.declared.Loading.{Loading};
ghost use Rattle.model.specs.Stored.{area_size};
ghost use Rattle.model.specs.Events.{says, with_life, stuck, otherwise, event};
ghost use Rattle.theorem_sound.specs.Keeps.{Good};
ghost use Rattle.answers.specs.Answers.{Answers};
ghost use Rattle.event_kinds.specs.Faults.{event_of};
ghost use Rattle.event_replies.specs.Lives.{is_command, lived_as, alike};

use life_cycle::Lived;
use life_select::Replied as Selected;
use model::{Card, Life, STORE_DATA};

const SELECT: u8 = 3;

// A word, how many answer bytes, the life after it, and whether the card locks by it, which drops an open value.
#[derive(Clone, Copy)]
pub struct Replied {
    pub word: u16,
    pub answered: usize,
    pub life: Life,
    pub locks: bool,
}

// Whether an event is a command for the walk.
pub fn commands(life: Life, internal: u8, kind: u8, n: usize) -> bool
    ensures { result ≡ is_command kind n life.gp internal life.selected }
{
    if kind != STORE_DATA {
        return false;
    }
    if n == 0 {
        return false;
    }
    if life.selected {
        if internal == 0x5A {
            return life.gp == 0x07;
        }
        return true;
    }
    false
}

// The kinds that give no answer bytes.
fn unanswered(c: Card, area: &mut [u8], kind: u8, p1: u8, d: &[u8]) -> Lived
    requires { Good area_size c area.old × (eqb kind 2 ≡ false) × (eqb kind 3 ≡ false) }
    ensures { otherwise (event_of kind p1 d.now) c area.old
        ≡ says result.word (with_life result.life c) area.new }
{
    if kind == 1 {
        return life_install::installed_by(c, area, p1, d);
    }
    if kind == 4 {
        return life_cycle::answered_foreign(c);
    }
    if kind == 7 {
        return life_cycle::locked_by(c);
    }
    if kind == 8 {
        return life_cycle::unlocked_by(c);
    }
    life_cycle::deselected(c)
}

// A word, and how many answer bytes.
#[derive(Clone, Copy)]
struct Told {
    pub word: u16,
    pub answered: usize,
}

// In '5A' on a card that is locked, or was just locked: it asks for the name alone.
fn told_stuck(c: Card, answer: &mut [u8], kind: u8, d: &[u8]) -> Told
    requires { (64 ≤ length answer.old) × (c.life.namelen ≤ 16) }
    ensures { (p g : ℕ) (s : Bool) (l : Loading) (a : List ℕ)
        → Answers (stuck (event_of kind p d.now) (alike c g s l) a) result.word result.answered (alike c g s l)
        a answer.old answer.new }
{
    if kind == SELECT {
        if life_names::is_named(c.life, d) {
            return Told {
                word: 0x6283,
                answered: answers::lay_name_fci(answer, c),
            };
        }
        return Told {
            word: 0x6A82,
            answered: 0,
        };
    }
    if kind == 5 {
        return Told {
            word: 0x0000,
            answered: 0,
        };
    }
    if kind == 6 {
        return Told {
            word: 0x0000,
            answered: 0,
        };
    }
    Told {
        word: 0x6985,
        answered: 0,
    }
}

// STORE DATA that is no command: the card is not selected, or there is no data.
fn refused_data(life: Life) -> u16
    ensures { result ≡ cond life.selected 0x6700 0x6985 }
{
    if life.selected {
        return 0x6700;
    }
    0x6985
}

// A reply on a card that locks by it.
fn locked(word: u16, answered: usize, life: Life) -> Replied
    ensures { result ≡ record {
      word = word;
      answered = answered;
      life = record
          { gp = 0x87; selected = false; name = life.name; namelen = life.namelen };
      locks = true;
    } }
{
    let mut next = life;
    next.gp = 0x87;
    next.selected = false;
    Replied {
        word: word,
        answered: answered,
        life: next,
        locks: true,
    }
}

// In '5A': at '07' each kind but 2 locks, and STORE DATA without data.
fn lived_in_5a(c: Card, answer: &mut [u8], kind: u8, d: &[u8]) -> Replied
    requires { (64 ≤ length answer.old) × (c.life.namelen ≤ 16) × (c.loading.running.internal ≡ 0x5A)
        × (is_command kind (length d.now) c.life.gp 0x5A c.life.selected ≡ false) }
    ensures { (p : ℕ) (a : List ℕ)
        → Answers (event (event_of kind p d.now) c a) result.word result.answered (lived_as c result) a
        answer.old answer.new }
{
    let life = c.life;
    if life.gp == 0x07 {
        if kind == STORE_DATA {
            if life.selected {
                return locked(0x6700, 0, life);
            }
            return Replied {
                word: 0x6985, // not selected
                answered: 0,
                life: life,
                locks: false,
            };
        }
        let t = told_stuck(c, answer, kind, d);
        return locked(t.word, t.answered, life);
    }
    let t = told_stuck(c, answer, kind, d);
    Replied {
        word: t.word,
        answered: t.answered,
        life: life,
        locks: false,
    }
}

// Outside '5A' no event locks.
fn lived_outside(
    c: Card,
    area: &mut [u8],
    answer: &mut [u8],
    kind: u8,
    p1: u8,
    d: &[u8],
) -> Selected
    requires { Good area_size c area.old × (64 ≤ length answer.old) × (c.loading.running.internal ≡ 0x5A → ⊥)
        × (is_command kind (length d.now) c.life.gp c.loading.running.internal c.life.selected
        ≡ false) }
    ensures { Answers (event (event_of kind p1 d.now) c area.old) result.word result.answered
        (with_life result.life c) area.new answer.old answer.new }
{
    if kind == SELECT {
        return life_select::selected_by(c, answer, d);
    }
    let life = c.life;
    if kind == STORE_DATA {
        return Selected {
            word: refused_data(life),
            answered: 0,
            life: life,
        };
    }
    let x = unanswered(c, area, kind, p1, d);
    let next = x.life;
    Selected {
        word: x.word,
        answered: 0,
        life: next,
    }
}

// Any event but those that `commands` tells.
pub fn lived(c: Card, area: &mut [u8], answer: &mut [u8], kind: u8, p1: u8, d: &[u8]) -> Replied
    requires { Good area_size c area.old × (64 ≤ length answer.old)
        × (is_command kind (length d.now) c.life.gp c.loading.running.internal c.life.selected
        ≡ false) }
    ensures { Answers (event (event_of kind p1 d.now) c area.old) result.word result.answered
        (lived_as c result) area.new answer.old answer.new }
{
    let load = c.loading;
    if load.running.internal == 0x5A {
        return lived_in_5a(c, answer, kind, d);
    }
    let x = lived_outside(c, area, answer, kind, p1, d);
    let life = x.life;
    Replied {
        word: x.word,
        answered: x.answered,
        life: life,
        locks: false,
    }
}
