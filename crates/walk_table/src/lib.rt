// Bytes of an open '3100', taken as they come from command to command.
#![tactic(auto)]

ghost use Rattle.std.specs.Prelude.{◌≡◌, List, [], ℕ, ◌+◌, ◌-◌, ◌≤◌, ◌<◌, min, length, drop, set};
ghost use Rattle.lists.specs.Over.{overwrite};
ghost use Rattle.model.specs.declared.Open.TheVariants.{Table};
ghost use Rattle.model.specs.Table.{descriptor_of};
ghost use Rattle.model.specs.Loads.{running_open};
ghost use Rattle.model.specs.Rules.{fed};
ghost use Rattle.theorem_sound.proofs.Feeding.{Fed};
ghost use Rattle.walk_course.specs.Steps.{state_of, missing_in};
ghost use Rattle.walk_table.specs.Bytes.{held_of, table_run, fed_as, Reaches};

use model::{Descriptor, Loading, Open, Running, TABLE_ROW, Verdict};

// A value's bytes taken, or refused by a word, and the loading part.
#[derive(Clone, Copy)]
pub struct Taken {
    pub verdict: Verdict,
    pub load: Loading,
}

// So many bytes of a descriptor are held, and so many of the table missing.
fn holding(p: Running, held: usize, missing: usize) -> Running
    ensures { result ≡ running_open (Table held missing) p }
{
    walk_course::with_open(
        p,
        Open::Table {
            held: held,
            missing: missing,
        },
    )
}

// A descriptor is in the table, which misses so much behind it: taken whole, or still open.
fn table_run(p: Running, missing: usize) -> Running
    ensures { result ≡ table_run missing p }
{
    if missing == 0 {
        let shut = walk_course::with_open(p, Open::Shut);
        return walk_course::with_taken(shut, TABLE_ROW);
    }
    holding(p, 0, missing)
}

// How many bytes of a descriptor an open '3100' holds.
fn held_in(p: Running) -> usize
    ensures { result ≡ held_of p.pending }
{
    let pending = p.pending;
    match pending {
        Open::Table { held, missing: _ } => held,
        Open::Shut => 0,
        Open::Record {
            tag: _,
            written: _,
            missing: _,
        } => 0,
    }
}

// Bytes over the held ones, from a place on.
fn stashed(held: [u8; 18], at: usize, bytes: &[u8]) -> [u8; 18]
    requires { at + length bytes.now ≤ 18 }
    ensures { result ≡ overwrite held at bytes.now }
{
    let mut next = held;
    memory::put_bytes(&mut next, at, bytes);
    next
}

// A descriptor by its first 17 bytes and its last.
fn descriptor_of(held: [u8; 18], last: u8) -> Descriptor
    ensures { result ≡ descriptor_of (set held 17 last) }
{
    let mut bytes = held;
    bytes[17] = last;
    table_fields::descriptor_of(bytes)
}

// The place behind one before the end.
fn behind(at: usize, end: usize) -> usize
    requires { at < end }
    ensures { result ≡ at + 1 }
{
    at + 1
}

// How much an open '3100' misses.
fn missing_in(p: Running) -> usize
    ensures { result ≡ missing_in p.pending }
{
    let pending = p.pending;
    match pending {
        Open::Table { held: _, missing } => missing,
        Open::Shut => 0,
        Open::Record {
            tag: _,
            written: _,
            missing: _,
        } => 0,
    }
}

// An open '3100' takes its bytes from `at` on, descriptor by descriptor: what it misses, as far as the data goes.
pub fn table_fed(mut l: Loading, d: &[u8], mut at: usize) -> Taken
    requires { (at ≤ length d.now) × Fed 0 (missing_in l.running.pending) (state_of l []) }
    ensures { ((a : List ℕ)
        → fed_as result.verdict d.now (state_of result.load a) ≡ fed (drop at d.now) (state_of l a))
        × Reaches result.verdict (at + min (missing_in l.running.pending) (length d.now - at)) }
{
    let mut missing = missing_in(l.running);
    let end = at + memory::least(missing, d.len() - at);
    while at < end {
        let p = l.running;
        let held = held_in(p);
        let n = memory::least(17 - held, end - at);
        let last = at + n;
        let bytes = stashed(l.held, held, &d[at..last]);
        l.held = bytes;
        l.running = holding(p, held + n, missing - n);
        if last == end {
            return Taken {
                verdict: Verdict::Passes(end),
                load: l,
            };
        }
        let x = descriptor_of(bytes, d[last]);
        let files = l.files;
        let verdict = table_rules::admit(x, files, l.count);
        match verdict {
            Verdict::Passes(_) => {
                let count = l.count;
                l.files[count] = x;
                l.count = count + 1;
                l.held = [0u8; 18];
                missing = missing - n - 1;
                l.running = table_run(l.running, missing);
                at = behind(last, end);
            }
            Verdict::Refuses(_) => {
                return Taken {
                    verdict: verdict,
                    load: l,
                };
            }
        }
    }
    Taken {
        verdict: Verdict::Passes(end),
        load: l,
    }
}
