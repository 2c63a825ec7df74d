// INSTALL's data: the three names, each after its length byte, and the forms.
#![tactic(auto)]

ghost use Rattle.std.specs.Prelude.{◌≡◌, ◌+◌, ◌≤◌, ◌<◌, length, take, drop};
ghost use Rattle.lists.specs.Bytes.{byte_at, same};
ghost use Rattle.model.specs.Events.{names_in, name_length, install_form, selectable_form};
ghost use Rattle.life_names.specs.Places.{places_in};

use model::Life;

const NAME_ROOM: usize = 16;

// Where INSTALL's data has what: the lengths of the three names, the place of the third, that of the tail.
#[derive(Clone, Copy)]
pub struct Places {
    pub first: usize,
    pub second: usize,
    pub third: usize,
    pub name: usize,
    pub tail: usize,
}

// The byte at a place; 0 past the end.
fn byte_at(s: &[u8], i: usize) -> u8
    ensures { result ≡ byte_at s.now i }
{
    if i < s.len() {
        return s[i];
    }
    0 // past the end
}

pub fn places_in(d: &[u8]) -> Places
    ensures { (result ≡ places_in d.now) × (result.tail ≤ 768) × (result.name ≤ result.tail) }
{
    let first = memory::wide(byte_at(d, 0));
    let second = memory::wide(byte_at(d, 1 + first));
    let third = memory::wide(byte_at(d, 2 + first + second));
    let name = 3 + first + second;
    Places {
        first: first,
        second: second,
        third: third,
        name: name,
        tail: name + third,
    }
}

// The same bytes, and as many.
fn same_bytes(a: &[u8], b: &[u8]) -> bool
    ensures { result ≡ same a.now b.now }
{
    if a.len() != b.len() {
        return false;
    }
    let mut i: usize = 0;
    while i < a.len() {
        if a[i] != b[i] {
            return false;
        }
        i += 1;
    }
    true
}

fn name_length(n: usize) -> bool
    ensures { result ≡ name_length n }
{
    if n < 5 {
        return false;
    }
    n <= NAME_ROOM
}

// What follows the names is exactly the fixed bytes.
fn tail_is(d: &[u8], at: usize, fixed: &[u8]) -> bool
    requires { 1 ≤ length fixed.now }
    ensures { result ≡ same (drop at d.now) fixed.now }
{
    if d.len() < at {
        return false;
    }
    same_bytes(&d[at..], fixed)
}

// '04' and '0C': three names, and their tail.
pub fn is_install_form(d: &[u8]) -> bool
    ensures { result ≡ install_form (names_in d.now) }
{
    let p = places_in(d);
    if name_length(p.first) {
        if name_length(p.second) {
            if name_length(p.third) {
                return tail_is(d, p.tail, b"\x01\x00\x02\xC9\x00\x00");
            }
        }
    }
    false
}

// '08': two empty names, the instance's, and their tail.
pub fn is_selectable_form(d: &[u8]) -> bool
    ensures { result ≡ selectable_form (names_in d.now) }
{
    let p = places_in(d);
    if p.first != 0 {
        return false;
    }
    if p.second != 0 {
        return false;
    }
    if name_length(p.third) {
        return tail_is(d, p.tail, b"\x01\x00\x00\x00");
    }
    false
}

// All bytes of the card's name, and no other.
pub fn is_named(life: Life, n: &[u8]) -> bool
    requires { life.namelen ≤ 16 }
    ensures { result ≡ same n.now (take life.namelen life.name) }
{
    let name = life.name;
    let len = life.namelen;
    same_bytes(n, &name[..len])
}
