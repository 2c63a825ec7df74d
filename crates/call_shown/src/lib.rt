// A file's record, shown as the part of the file area where it is stored.
#![tactic(auto)]

ghost use Rattle.std.specs.Prelude.{◌≡◌};
ghost use Rattle.model.specs.Session.{unshown, shown_of, part_shown};

use model::{AREA_SIZE, Card, Shown, Spot};

// Nothing is shown, by a number.
fn unshown(number: u8) -> Shown
    ensures { result ≡ unshown number }
{
    Shown {
        number: number,
        start: 0,
        len: 0,
    }
}

// A file's record, as the part of the file area where it is stored: 1, 6, 8 are checked in this order.
pub fn shown(c: Card, area: &[u8], sfi: u8, nn: u8) -> Shown
    ensures { result ≡ shown_of c area.now sfi nn }
{
    if area.len() != AREA_SIZE {
        return unshown(1);
    }
    if sound_card::is_sound(c) {
        let l = c.loading;
        let files = l.files;
        let spot = table_places::spot_of(files, l.count, sfi, nn);
        match spot {
            Spot::At { base, size } => {
                return Shown {
                    number: 0,
                    start: base,
                    len: size,
                };
            }
            Spot::Nowhere => return unshown(8),
        }
    }
    unshown(6)
}

// That part of the file area, as far as it goes.
pub fn part_shown(area: &[u8], s: Shown) -> &[u8]
    ensures { result.now ≡ part_shown area.now s }
{
    memory::part_of(area, s.start, s.len)
}
