// The program `trace [--tell] [FILE]`: what `replay` reads, and of each event the whole state on a line. The tests
// compare it character by character with the second program's.
#![tactic(auto)]

ghost use Rattle.std.specs.Prelude.{◌≡◌, ◌≤◌, length};
ghost use Rattle.lists.specs.Bytes.{zeros};
ghost use Rattle.model.specs.Stored.{area_size};
ghost use Rattle.theorem_sound.specs.Keeps.{Good};

use io_edge::{Arguments, Failure, Label, Page, Source, Status, Voice};
use io_remarks::Noted;
use model::{
    Card, DESCRIPTOR_SIZE, Descriptor, Life, Loading, Open, Played, RECORD_SIZE, TABLE_LIMIT,
};
use print_forms::Line;

// 24 records. No event's line is longer than 2,600 characters, and there is room for as many.
const BLOCK_SIZE: usize = 6240;

const LINES_SIZE: usize = 62400;

const AREA_LINE_SIZE: usize = 8220;

const TABLE_TAG: u16 = 0x3100;

type Lines = Line<LINES_SIZE>;

// The first n of some bytes behind a blank. Of none it is a dash.
fn put_front(out: &mut Lines, bytes: &[u8], n: usize)
    ensures { length out.old ≤ length out.new }
{
    if n == 0 {
        out.put_text(b" -");
        return;
    }
    out.put_text(b" ");
    out.put_hex(&bytes[..n.min(bytes.len())]);
}

// Serial number, startup, counter, and the secrets of '3800' and '4101' to '4104'.
fn put_facts(out: &mut Lines, l: &Loading)
    ensures { length out.old ≤ length out.new }
{
    put_front(out, &l.serial, 8);
    put_front(out, &l.startup, 7);
    out.put_text(b" ");
    out.put_number(l.counter as u64);
    for s in &l.secrets {
        put_front(out, &s.bytes, s.len);
    }
}

// A descriptor as it is stored.
fn stored(d: &Descriptor) -> [u8; DESCRIPTOR_SIZE] {
    let [high, low] = d.lid.to_be_bytes();
    let [a0, a1, a2, a3] = d.ac;
    let [k0, k1, k2, k3] = d.nkey;
    [
        high, low, d.sfi, d.filetype, d.eftype, d.recsize, d.numrec, a0, a1, a2, a3, k0, k1, k2,
        k3, d.refsfi, d.refnum, d.status,
    ]
}

// The number of descriptors, and they.
fn put_table(out: &mut Lines, files: &[Descriptor], count: usize)
    ensures { length out.old ≤ length out.new }
{
    let first = &files[..count.min(files.len())];
    out.put_text(b" ");
    out.put_number(count as u64);
    out.put_text(if first.is_empty() { b" -" } else { b" " });
    for d in first {
        out.put_hex(&stored(d));
    }
}

// The open value as TAG:COUNT:MISSING, and the bytes held of '3100'.
fn put_open(out: &mut Lines, l: &Loading)
    ensures { length out.old ≤ length out.new }
{
    match l.running.pending {
        Open::Shut => out.put_text(b" - -"),
        Open::Table { held, missing } => {
            out.put_form(format_args!(" {TABLE_TAG:04X}:{held}:{missing}"));
            put_front(out, &l.held, held);
        }
        Open::Record {
            tag,
            written,
            missing,
        } => out.put_form(format_args!(" {tag:04X}:{written}:{missing} -")),
    }
}

// GP, internal, selected, name, rows.
fn put_life(out: &mut Lines, life: &Life, internal: u8, rows: u16)
    ensures { length out.old ≤ length out.new }
{
    let selected = life.selected as u8;
    out.put_form(format_args!(" {:02X} {internal:02X} {selected}", life.gp));
    put_front(out, &life.name, life.namelen);
    out.put_form(format_args!(" {rows:04X}"));
}

// An event's line: what it said, its refusal number and word; the card's life; the answer; what is loaded. The area's
// place sum ends it.
fn put_line(out: &mut Lines, p: &Played, answer: &[u8], area: &[u8])
    requires { length area.now ≡ 4096 }
    ensures { length out.old ≤ length out.new }
{
    let l = &p.card.loading;
    out.put_form(format_args!("{} {:04X}", p.number, p.word));
    put_life(out, &p.card.life, l.running.internal, l.running.rows);
    put_front(out, answer, p.answered);
    put_facts(out, l);
    put_table(out, &l.files, l.count);
    put_open(out, l);
    out.put_form(format_args!(" {:08X}\n", io_playing::place_sum(area)));
}

// How far a session is traced: the card, what was noted of it, and how many bytes are behind the last whole record.
#[derive(Clone, Copy)]
struct Stand {
    card: Card,
    noted: Noted,
    left: usize,
}

// One record is played and has its line. Whether it was refused.
fn trace_one(c: &mut Card, area: &mut [u8], r: &[u8], out: &mut Lines) -> bool
    requires { Good area_size c.old area.old × (length r.now ≡ 260) }
    ensures { Good area_size c.new area.new × (length out.old ≤ length out.new) }
{
    let mut answer = [0u8; 64];
    let p = event_turn::turn(*c, area, &mut answer, r);
    *c = p.card;
    put_line(out, &p, &answer, area);
    p.number != 0
}

// The whole records of a block, a line each. A torn last record is not an event.
fn trace_all(s: &mut Stand, voice: Voice, area: &mut [u8], records: &[u8], out: &mut Lines)
    requires { Good area_size s.old.card area.old }
    ensures { Good area_size s.new.card area.new }
{
    for r in records.chunks_exact(RECORD_SIZE) {
        let refused = trace_one(&mut s.card, area, r, out);
        s.noted.note(voice, r, refused);
    }
    s.left = records.len() % RECORD_SIZE;
}

// The next block, and how many bytes it has.
fn trace_block(
    s: &mut Stand,
    source: &mut Source,
    page: Page,
    area: &mut [u8],
) -> Result<usize, Failure>
    requires { Good area_size s.old.card area.old }
    ensures { Good area_size s.new.card area.new }
{
    let mut block = [0u8; BLOCK_SIZE];
    let mut out = Lines::new();
    let n = source.read(&mut block)?;
    trace_all(s, source.voice, area, &block[..n], &mut out);
    page.print(out.as_bytes())?;
    Ok(n)
}

// Block after block to the end of the input. The loop has more turns than a run uses up, since nothing says that an
// input ends.
fn trace_blocks(
    s: &mut Stand,
    source: &mut Source,
    page: Page,
    area: &mut [u8],
) -> Result<Status, Failure>
    requires { Good area_size s.old.card area.old }
{
    for _ in 0..u64::MAX {
        if trace_block(s, source, page, area)? < BLOCK_SIZE {
            return Ok(s.noted.end(source.voice, s.left));
        }
    }
    Err(Failure::NotDone)
}

// The last line: AREA and its bytes.
fn print_area(page: Page, area: &[u8]) -> Result<(), Failure> {
    let mut line = Line::<AREA_LINE_SIZE>::new();
    line.put_text(b"AREA ");
    line.put_hex(area);
    line.put_text(b"\n");
    page.print(line.as_bytes())
}

// The events of the card that the chip record gives, and the area after them.
fn trace_card(c: Card, source: &mut Source, page: Page) -> Result<Status, Failure>
    requires { Good area_size c (zeros area_size) }
{
    let mut area = io_playing::clear_area();
    let mut s = Stand {
        card: c,
        noted: Noted::default(),
        left: 0,
    };
    let status = trace_blocks(&mut s, source, page, &mut area)?;
    if !status.is_done() {
        return Ok(status);
    }
    print_area(page, &area)?;
    Ok(status)
}

fn trace(source: &mut Source, page: Page) -> Result<Status, Failure> {
    let begun = io_playing::begin(source);
    if begun.status? == Status::Refused {
        page.print(b"REFUSED 07\n")?;
        return Ok(Status::Refused);
    }
    trace_card(begun.card, source, page)
}

fn main(rt: HostRuntime) {
    let voice = Voice {
        err: rt.stderr(),
        label: b"trace: ",
    };
    let page = Page {
        out: rt.stdout(),
        voice: voice.labelled(b"trace: standard output"),
    };
    let mut arguments = Arguments::new(&rt, voice);
    let listener = io_edge::listener(&rt, arguments.take_option(b"--tell"));
    let mut label = Label::new();
    let ended = match arguments.open_last(rt.stdin(), &mut label) {
        Ok(mut source) => trace(&mut source, page),
        Err(failure) => Err(failure),
    };
    io_edge::tell(listener, ended);
}
