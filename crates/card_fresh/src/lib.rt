// The fresh card, made from a chip record.
#![tactic(auto)]

ghost use Rattle.std.specs.Prelude.{◌≡◌, ◌≤◌, length};
ghost use Rattle.lists.specs.Bytes.{padded};
ghost use Rattle.model.specs.Stored.{chip_size, chip_of, chip_form, fresh_loading, fresh_card};
ghost use Rattle.model.specs.Session.{fresh_of};

use model::{
    CAPACITY, CHIP_SIZE, Card, Chip, Descriptor, Life, Loading, Made, Open, Running, Secret,
};

const CHALLENGE: usize = 4;

const TRACEABILITY: usize = 20;

const SPARE: usize = 37;

const FRESH_COUNTER: u32 = 200_000;

// The loading part of a fresh card.
pub fn fresh_loading() -> Loading
    ensures { result ≡ fresh_loading }
{
    let file = Descriptor {
        lid: 0,
        sfi: 0,
        filetype: 0,
        eftype: 0,
        recsize: 0,
        numrec: 0,
        ac: [0; 4],
        nkey: [0; 4],
        refsfi: 0,
        refnum: 0,
        status: 0,
    };
    let secret = Secret {
        bytes: [0; 64],
        len: 0,
    };
    Loading {
        running: Running {
            internal: 0xCC,
            rows: 0,
            last: 0,
            pending: Open::Shut,
        },
        held: [0; 18],
        files: [file; 31],
        count: 0,
        serial: [0; 8],
        startup: [0; 7],
        counter: FRESH_COUNTER,
        secrets: [secret; 5],
    }
}

// The fresh card of a chip: absent, and all else zero.
fn fresh_card(chip: Chip) -> Card
    ensures { result ≡ fresh_card chip }
{
    let life = Life {
        gp: 0x00,
        selected: false,
        name: [0; 16],
        namelen: 0,
    };
    let loading = fresh_loading();
    Card {
        chip: chip,
        life: life,
        loading: loading,
    }
}

// A chip record of the right form: 40 bytes, the last three zero.
fn is_chip(chip: &[u8]) -> bool
    ensures { result ≡ chip_form chip.now }
{
    if chip.len() == CHIP_SIZE {
        return memory::zero_from(chip, SPARE);
    }
    false
}

// Bytes in an array, with zeros behind them, as `memory::padded16`.
fn padded4(s: &[u8]) -> [u8; 4]
    requires { length s.now ≤ 4 }
    ensures { result ≡ padded 4 s.now }
{
    let mut b = [0u8; 4];
    memory::lay(&mut b, s);
    b
}

// The chip's facts.
fn chip_of(chip: &[u8]) -> Chip
    requires { length chip.now ≡ chip_size }
    ensures { result ≡ chip_of chip.now }
{
    let reference = padded4(&chip[..CHALLENGE]);
    let challenge = memory::padded16(&chip[CHALLENGE..TRACEABILITY]);
    let traceability = memory::padded16(&chip[TRACEABILITY..CAPACITY]);
    Chip {
        reference: reference,
        challenge: challenge,
        traceability: traceability,
        capacity: chip[CAPACITY],
    }
}

// The fresh card of a chip record; of 40 zero bytes where that is refused (7).
pub fn fresh(chip: &[u8]) -> Made
    ensures { result ≡ fresh_of chip.now }
{
    if is_chip(chip) {
        let known = chip_of(chip);
        return Made {
            number: 0,
            card: fresh_card(known),
        };
    }
    let unknown = chip_of(&[0; 40]);
    Made {
        number: 7,
        card: fresh_card(unknown),
    }
}
