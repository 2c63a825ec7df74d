// SELECT, outside 5A: the word, and the life after it.
#![tactic(auto)]

ghost use Rattle.std.specs.Prelude.{◌≡◌, List, ℕ, ◌≤◌, ◌<◌, length, true};
ghost use Rattle.model.specs.Events.{with_life, invalidated, select};
ghost use Rattle.answers.specs.Answers.{Answers};

use model::{Card, Life};

// The word of SELECT, the number of its answer bytes, and the life after it.
#[derive(Clone, Copy)]
pub struct Replied {
    pub word: u16,
    pub answered: usize,
    pub life: Life,
}

// The DF is invalidated.
fn is_invalidated(c: Card) -> bool
    ensures { result ≡ invalidated c }
{
    if c.loading.count < 1 {
        return false;
    }
    let files = c.loading.files;
    let df = files[0];
    df.status == 1
}

// SELECT, outside '5A'.
pub fn selected_by(c: Card, answer: &mut [u8], d: &[u8]) -> Replied
    requires { (64 ≤ length answer.old) × (c.life.namelen ≤ 16) }
    ensures { (a : List ℕ)
        → Answers (select d.now c a) result.word result.answered (with_life result.life c) a answer.old
        answer.new }
{
    let life = c.life;
    if life.gp != 0x07 {
        return Replied {
            word: 0x6A82, // not '07'
            answered: 0,
            life: life,
        };
    }
    if life_names::is_named(life, d) {
        let mut next = life;
        next.gp = 0x07;
        next.selected = true;
        if c.loading.running.internal == 0xCC {
            let n = answers::lay_name_fci(answer, c);
            return Replied {
                word: 0x9000,
                answered: n,
                life: next,
            };
        }
        let n = answers::lay_full_fci(answer, c);
        if is_invalidated(c) {
            return Replied {
                word: 0x6283,
                answered: n,
                life: next,
            };
        }
        return Replied {
            word: 0x9000,
            answered: n,
            life: next,
        };
    }
    Replied {
        word: 0x6A82, // another name
        answered: 0,
        life: life,
    }
}
