// What the card answers, laid at the front of the answer buffer: both FCIs, and a query's answer.
#![tactic(auto)]

ghost use Rattle.std.specs.Prelude.{◌≡◌, ◌+◌, ◌≤◌, length};
ghost use Rattle.lists.specs.Over.{overwrite};
ghost use Rattle.model.specs.Events.{name_fci, full_fci, answer_to};
ghost use Rattle.answers.specs.Answers.{front};

use model::{Card, Life};

// What both FCIs begin with, at the front of the answer buffer: 6F, a length of n and `more`, 84, n, the name.
fn lay_front(answer: &mut [u8], life: Life, more: usize)
    requires { (64 ≤ length answer.old) × (life.namelen ≤ 16) × (more ≤ 26) }
    ensures { answer.new ≡ overwrite answer.old 0 (front more life) }
{
    let name = life.name;
    let n = life.namelen;
    let head = [0x6F, (n + more) as u8, 0x84, n as u8];
    memory::put_bytes(answer, 0, &head);
    memory::put_bytes(answer, 4, &name[..n]);
}

// The name FCI: how many bytes it has.
pub fn lay_name_fci(answer: &mut [u8], c: Card) -> usize
    requires { (64 ≤ length answer.old) × (c.life.namelen ≤ 16) }
    ensures { (result ≡ length (name_fci c)) × (answer.new ≡ overwrite answer.old 0 (name_fci c)) }
{
    let life = c.life;
    lay_front(answer, life, 2);
    life.namelen + 4
}

// The full FCI.
pub fn lay_full_fci(answer: &mut [u8], c: Card) -> usize
    requires { (64 ≤ length answer.old) × (c.life.namelen ≤ 16) }
    ensures { (result ≡ length (full_fci c)) × (answer.new ≡ overwrite answer.old 0 (full_fci c)) }
{
    let life = c.life;
    let n = life.namelen;
    let serial = c.loading.serial;
    let startup = c.loading.startup;
    lay_front(answer, life, 26);
    memory::put_bytes(answer, 4 + n, b"\xA5\x16\xBF\x0C\x13\xC7\x08");
    memory::put_bytes(answer, 11 + n, &serial);
    memory::put_bytes(answer, 19 + n, b"\x53\x07");
    memory::put_bytes(answer, 21 + n, &startup);
    n + 28
}

// What a query gives: how many bytes it has.
pub fn lay_answer(answer: &mut [u8], c: Card, tag: u16) -> usize
    requires { 64 ≤ length answer.old }
    ensures { (result ≡ length (answer_to tag c))
        × (answer.new ≡ overwrite answer.old 0 (answer_to tag c)) }
{
    let chip = c.chip;
    if tag == 0x9484 {
        let reference = chip.reference;
        let challenge = chip.challenge;
        memory::put_bytes(answer, 0, &reference);
        memory::put_bytes(answer, 4, &challenge);
        return 20;
    }
    if tag == 0x8185 {
        let traceability = chip.traceability;
        memory::put_bytes(answer, 0, &traceability);
        return 16;
    }
    let states = [
        0x9F,
        0x70,
        0x01,
        c.life.gp,
        0x9F,
        0xDC,
        0x01,
        c.loading.running.internal,
    ];
    memory::put_bytes(answer, 0, &states);
    8
}
