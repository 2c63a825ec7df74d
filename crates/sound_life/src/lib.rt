// The clauses of sound on the card's life.
#![tactic(auto)]

ghost use Rattle.std.specs.Prelude.{◌≡◌, ◌||◌, eqb};
ghost use Rattle.model.specs.Sound.{gp_ok, internal_ok, name_ok, selected_ok};
ghost use Rattle.sound_open.specs.Parts.{life_part};

use model::Life;

const NAME_LEAST: usize = 5;

const NAME_MOST: usize = 16;

// GP among '00', '03', '07', '83', '87'.
fn gp_ok(g: u8) -> bool
    ensures { result ≡ gp_ok g }
{
    if g == 0x00 {
        return true;
    }
    if g == 0x03 {
        return true;
    }
    if g == 0x07 {
        return true;
    }
    if g == 0x83 {
        return true;
    }
    g == 0x87
}

fn is_07_or_87(g: u8) -> bool
    ensures { result ≡ (eqb g 0x07 || eqb g 0x87) }
{
    if g == 0x07 {
        return true;
    }
    g == 0x87
}

// Internal 'CC', or '5A' or 'A5' with '07' or '87'.
fn internal_ok(i: u8, g: u8) -> bool
    ensures { result ≡ internal_ok i g }
{
    if i == 0xCC {
        return true;
    }
    if i == 0x5A {
        return is_07_or_87(g);
    }
    if i == 0xA5 {
        return is_07_or_87(g);
    }
    false
}

// Name length 5 to 16, or 0 exactly when absent.
fn name_ok(n: usize, g: u8) -> bool
    ensures { result ≡ name_ok n g }
{
    if g == 0x00 {
        return n == 0;
    }
    if n < NAME_LEAST {
        return false;
    }
    n <= NAME_MOST
}

// Selected only at '07', and always at '07' with '5A'.
fn selected_ok(sel: bool, g: u8, i: u8) -> bool
    ensures { result ≡ selected_ok sel g i }
{
    if g == 0x07 {
        if sel {
            return true;
        }
        return i != 0x5A;
    }
    !sel
}

// The clauses on GP, internal, name and selected.
pub fn life_ok(f: Life, i: u8) -> bool
    ensures { result ≡ life_part f i }
{
    let g = f.gp;
    if gp_ok(g) {
        if internal_ok(i, g) {
            if name_ok(f.namelen, g) {
                return selected_ok(f.selected, g, i);
            }
        }
    }
    false
}
