// LOCK, UNLOCK, DESELECT, RESET and another command: they change the card's life and nothing else of it.
#![tactic(auto)]

ghost use Rattle.std.specs.Prelude.{◌≡◌, List, ℕ, ◌+◌, ◌<◌};
ghost use Rattle.model.specs.Events.{says, with_life, lock, unlock, deselect, foreign};

use model::{Card, Life};

const LOCKED: u8 = 0x80;

// The word of an event, and the life after it.
#[derive(Clone, Copy)]
pub struct Lived {
    pub word: u16,
    pub life: Life,
}

// LOCK: absent, locked, else the top bit set, not selected.
pub fn locked_by(c: Card) -> Lived
    ensures { (a : List ℕ) → lock c a ≡ says result.word (with_life result.life c) a }
{
    let life = c.life;
    if life.gp == 0x00 {
        return Lived {
            word: 0x6A88, // nothing to lock
            life: life,
        };
    }
    if LOCKED <= life.gp {
        return Lived {
            word: 0x6985, // locked already
            life: life,
        };
    }
    let mut next = life;
    next.gp = life.gp + LOCKED;
    next.selected = false;
    Lived {
        word: 0x9000, // locked
        life: next,
    }
}

// UNLOCK: absent, not locked, else the bit cleared.
pub fn unlocked_by(c: Card) -> Lived
    ensures { (a : List ℕ) → unlock c a ≡ says result.word (with_life result.life c) a }
{
    let life = c.life;
    if life.gp == 0x00 {
        return Lived {
            word: 0x6A88, // nothing to unlock
            life: life,
        };
    }
    if life.gp < LOCKED {
        return Lived {
            word: 0x6985, // not locked
            life: life,
        };
    }
    let mut next = life;
    next.gp = life.gp - LOCKED;
    Lived {
        word: 0x9000, // unlocked
        life: next,
    }
}

// DESELECT, RESET.
pub fn deselected(c: Card) -> Lived
    ensures { (a : List ℕ) → deselect c a ≡ says result.word (with_life result.life c) a }
{
    let mut life = c.life;
    life.selected = false;
    Lived {
        word: 0x0000,
        life: life,
    }
}

// Kind 4, another command.
pub fn answered_foreign(c: Card) -> Lived
    ensures { (a : List ℕ) → foreign c a ≡ says result.word (with_life result.life c) a }
{
    let life = c.life;
    if life.selected {
        return Lived {
            word: 0x6D00,
            life: life,
        };
    }
    Lived {
        word: 0x6985, // not selected
        life: life,
    }
}
