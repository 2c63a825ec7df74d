// INSTALL: what it makes of the card's life and of the file area.
#![tactic(auto)]

ghost use Rattle.std.specs.Prelude.{◌≡◌, List, ℕ, ◌≤◌, length, true};
ghost use Rattle.model.specs.Events.{says, with_life, names_in, install_form, installing, making_selectable, install};
ghost use Rattle.life_names.specs.Places.{named_as};

use life_cycle::Lived;
use model::{Card, Life};

// INSTALL '04' and '0C': the instance name kept, `gp` '03' or '07', the area filled with zeros.
fn installed(c: Card, area: &mut [u8], p1: u8, d: &[u8]) -> Lived
    requires { length area.old ≡ 4096 }
    ensures { installing p1 (names_in d.now) c area.old
        ≡ says result.word (with_life result.life c) area.new }
{
    let life = c.life;
    if life_names::is_install_form(d) {
        if life.gp == 0x00 {
            memory::clear(area);
            return Lived {
                word: 0x9000,
                life: named(life, p1, d),
            };
        }
        return Lived {
            word: 0x6985, // present
            life: life,
        };
    }
    Lived {
        word: 0x6A80, // not the form of '04' and '0C'
        life: life,
    }
}

// The life that INSTALL gives: the name from its data, with zeros behind it.
fn named(life: Life, p1: u8, d: &[u8]) -> Life
    requires { install_form (names_in d.now) ≡ true }
    ensures { result ≡ named_as life p1 (names_in d.now) }
{
    let p = life_names::places_in(d);
    let from = p.name;
    let to = p.tail;
    let name = memory::padded16(&d[from..to]);
    if p1 == 0x04 {
        return Life {
            gp: 0x03,
            selected: life.selected,
            name: name,
            namelen: p.third,
        };
    }
    Life {
        gp: 0x07,
        selected: life.selected,
        name: name,
        namelen: p.third,
    }
}

// INSTALL '08': absent or another name, not '03', then '07'.
fn made_selectable(c: Card, d: &[u8]) -> Lived
    requires { c.life.namelen ≤ 16 }
    ensures { (a : List ℕ)
        → making_selectable (names_in d.now) c a ≡ says result.word (with_life result.life c) a }
{
    let life = c.life;
    if life_names::is_selectable_form(d) {
        if life.gp == 0x00 {
            return Lived {
                word: 0x6A88, // nothing installed
                life: life,
            };
        }
        let p = life_names::places_in(d);
        let from = p.name;
        let to = p.tail;
        if life_names::is_named(life, &d[from..to]) {
            if life.gp == 0x03 {
                let mut next = life;
                next.gp = 0x07;
                return Lived {
                    word: 0x9000,
                    life: next,
                };
            }
            return Lived {
                word: 0x6985, // not '03'
                life: life,
            };
        }
        return Lived {
            word: 0x6A88, // another name
            life: life,
        };
    }
    Lived {
        word: 0x6A80, // not the form of '08'
        life: life,
    }
}

// INSTALL.
pub fn installed_by(c: Card, area: &mut [u8], p1: u8, d: &[u8]) -> Lived
    requires { (length area.old ≡ 4096) × (c.life.namelen ≤ 16) }
    ensures { install p1 d.now c area.old
        ≡ says result.word (with_life result.life c) area.new }
{
    if p1 == 0x08 {
        return made_selectable(c, d);
    }
    if p1 == 0x04 || p1 == 0x0C {
        return installed(c, area, p1, d);
    }
    let life = c.life;
    Lived {
        word: 0x6A86,
        life: life,
    }
}
