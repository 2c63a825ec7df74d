// Why a grouping of an order is not taken: the first of rules a to h, or of the file table's, that it breaks. The
// word that refuses it does not tell as much.
#![tactic(auto)]

ghost use Rattle.std.specs.Prelude.{◌≡◌, ◌+◌, ◌-◌, ◌*◌, ◌≤◌, ◌<◌, length, drop};
ghost use Rattle.model.specs.Loads.{file_list};
ghost use Rattle.model.specs.Rules.{room_of};
ghost use Rattle.reason_stops.specs.Stops.{missing_row, undue_cause, absent_cause, flaw_at, table_stop, value_stop};
ghost use Rattle.reason_stops.specs.Stops.{length_stop, room_stop, head_stop, stop_of, torn_stop, stop_as};

use model::{DESCRIPTOR_SIZE, Head, Header, Loading, RECORD_ROW, ROW_COUNT, Spot, TABLE_ROW};
use table_flaws::Flaw;

const FRONT_SIZE: usize = 3;

const LONG_SIZE: usize = 5;

const TAG_SIZE: usize = 2;

// By the rules' letters. a: a header of which so many bytes are left; its length is 'FFFF'. b: a query. d: the tag is
// unknown; a mandatory row, this one first, has not come before it; it or a later row has; the record before has this
// tag. e: no file has the SFI; the file has no such record. f: a value of `len` bytes, where there is room for
// `most`. g: so many bytes are missing. h: '2100'; the chip's capacity; a descriptor, numbered from 1. Then what the
// order's end leaves: a value that misses so many bytes; mandatory rows that are missing, where these are taken.
#[derive(Clone, Copy)]
pub enum Cause {
    HeaderTorn(usize),
    LengthFfff,
    Query,
    UnknownTag,
    RowMissing(usize),
    RowPassed,
    NotRising(u16),
    NoFile,
    NoRecord,
    Length { len: usize, most: usize },
    CutShort(usize),
    Startup,
    Capacity,
    Descriptor { index: usize, flaw: Flaw },
    Open(usize),
    Rows(u16),
}

// What is not taken: where it begins in the order, its tag, the card's word, and the cause.
#[derive(Clone, Copy)]
pub struct Stop {
    pub place: usize,
    pub tag: u16,
    pub word: u16,
    pub cause: Cause,
}

// The first mandatory row that is missing, by its number.
fn missing_row(rows: u16) -> usize
    ensures { result ≡ missing_row 11 rows 1 }
{
    let mut n: usize = 1;
    while n <= ROW_COUNT {
        if row_table::missing_before(rows, n) {
            return n;
        }
        n += 1;
    }
    n
}

// Rule d, of a row that is not due.
fn undue_cause(rows: u16, last: u16, row: usize) -> Cause
    requires { (1 ≤ row) × (row ≤ 11) }
    ensures { result ≡ undue_cause rows last row }
{
    if row_table::missing_before(rows, row - 1) {
        return Cause::RowMissing(missing_row(rows));
    }
    if row == RECORD_ROW {
        return Cause::NotRising(last);
    }
    Cause::RowPassed
}

// Rule e, of a record that has no place.
fn absent_cause(l: Loading, tag: u16) -> Cause
    requires { l.count ≤ 31 }
    ensures { result ≡ absent_cause (file_list l) tag }
{
    if table_flaws::is_listed(l, (tag / 256) as u8) {
        return Cause::NoRecord;
    }
    Cause::NoFile
}

// The flaw of the descriptor that begins at `start`.
fn flaw_at(l: Loading, d: &[u8], start: usize) -> Flaw
    requires { (l.count ≤ 31) × (start ≤ 100000) }
    ensures { result ≡ flaw_at (file_list l) d.now start }
{
    if d.len() < start + DESCRIPTOR_SIZE {
        return Flaw::Nothing;
    }
    let mut b = [0u8; 18];
    memory::lay(&mut b, &d[start..start + DESCRIPTOR_SIZE]);
    let file = table_fields::descriptor_of(b);
    table_flaws::flaw_of(l, file)
}

// Rule h of '3100': the descriptor behind those that it left.
fn table_stop(l: Loading, w: u16, h: Head, d: &[u8], at: usize) -> Stop
    requires { (l.count ≤ 31) × (3 ≤ at) × (at + h.size ≤ length d.now) × (length d.now ≤ 8195) }
    ensures { result ≡ table_stop (file_list l) l.count w h (at - 3) (drop at d.now) }
{
    let start = h.size + l.count * DESCRIPTOR_SIZE;
    let flaw = flaw_at(l, &d[at..], start);
    Stop {
        place: at - FRONT_SIZE + start,
        tag: h.tag,
        word: w,
        cause: Cause::Descriptor {
            index: l.count + 1,
            flaw: flaw,
        },
    }
}

// A grouping's stop by its own place.
fn stop_as(at: usize, h: Head, w: u16, cause: Cause) -> Stop
    requires { 3 ≤ at }
    ensures { result ≡ stop_as (at - 3) h.tag w cause }
{
    Stop {
        place: at - FRONT_SIZE,
        tag: h.tag,
        word: w,
        cause: cause,
    }
}

// Rule h: '3100' by its descriptor, else '2100', whose word tells which of its two tests.
fn value_stop(l: Loading, w: u16, row: usize, h: Head, d: &[u8], at: usize) -> Stop
    requires { (l.count ≤ 31) × (3 ≤ at) × (at + h.size ≤ length d.now) × (length d.now ≤ 8195) }
    ensures { result ≡ value_stop (file_list l) l.count w row h (at - 3) (drop at d.now) }
{
    if row == TABLE_ROW {
        return table_stop(l, w, h, d, at);
    }
    if w == 0x6A84 {
        return stop_as(at, h, w, Cause::Capacity);
    }
    stop_as(at, h, w, Cause::Startup)
}

// Rules f and g, and what follows.
fn length_stop(l: Loading, w: u16, row: usize, room: usize, h: Head, d: &[u8], at: usize) -> Stop
    requires { (l.count ≤ 31) × (1 ≤ row) × (row ≤ 11) × (3 ≤ at) × (at + h.size ≤ length d.now)
        × (length d.now ≤ 8195) }
    ensures { result ≡ length_stop (file_list l) l.count w row room h (at - 3) (drop at d.now) }
{
    let x = row_table::row_at(row);
    if rule_values::fits_row(x, room, h.len) {
        let left = d.len() - at - h.size;
        if x.spans {
            return value_stop(l, w, row, h, d, at);
        }
        if h.len <= left {
            return value_stop(l, w, row, h, d, at);
        }
        return stop_as(at, h, w, Cause::CutShort(h.len - left));
    }
    stop_as(
        at,
        h,
        w,
        Cause::Length {
            len: h.len,
            most: room,
        },
    )
}

// Rule e, and what follows.
fn room_stop(l: Loading, w: u16, row: usize, h: Head, d: &[u8], at: usize) -> Stop
    requires { (l.count ≤ 31) × (1 ≤ row) × (row ≤ 11) × (3 ≤ at) × (at + h.size ≤ length d.now)
        × (length d.now ≤ 8195) }
    ensures { result ≡ room_stop (room_of (file_list l) row h.tag) (file_list l) l.count w row h (at - 3)
        (drop at d.now) }
{
    let spot = table_places::spot_at(l, h.tag);
    let room = rule_all::room_of(spot, row);
    match room {
        Spot::At { base: _, size } => length_stop(l, w, row, size, h, d, at),
        Spot::Nowhere => stop_as(at, h, w, absent_cause(l, h.tag)),
    }
}

// Rules b to h.
fn head_stop(l: Loading, w: u16, h: Head, d: &[u8], at: usize) -> Stop
    requires { (l.count ≤ 31) × (3 ≤ at) × (at + h.size ≤ length d.now) × (length d.now ≤ 8195) }
    ensures { result ≡ head_stop l.running.rows l.running.last (file_list l) l.count w h (at - 3)
        (drop at d.now) }
{
    if header::is_query(h.tag) {
        return stop_as(at, h, w, Cause::Query);
    }
    let row = row_table::row_of(h.tag);
    if row == 0 {
        return stop_as(at, h, w, Cause::UnknownTag);
    }
    if row_due::is_due(l.running.rows, l.running.last, row, h.tag) {
        return room_stop(l, w, row, h, d, at);
    }
    let cause = undue_cause(l.running.rows, l.running.last, row);
    stop_as(at, h, w, cause)
}

// Rule a: a header that is not whole, or whose length is 'FFFF'.
fn torn_stop(w: u16, d: &[u8], at: usize) -> Stop
    requires { (3 ≤ at) × (at ≤ length d.now) }
    ensures { result ≡ torn_stop w (at - 3) (drop at d.now) }
{
    let left = d.len() - at;
    if left < TAG_SIZE {
        return Stop {
            place: at - FRONT_SIZE,
            tag: 0x0000,
            word: w,
            cause: Cause::HeaderTorn(left),
        };
    }
    let tag = memory::word(d[at], d[at + 1]);
    if left < LONG_SIZE {
        return Stop {
            place: at - FRONT_SIZE,
            tag: tag,
            word: w,
            cause: Cause::HeaderTorn(left),
        };
    }
    Stop {
        place: at - FRONT_SIZE,
        tag: tag,
        word: w,
        cause: Cause::LengthFfff,
    }
}

// Why the grouping at `at` of a command's data is not taken, by the loading part that it leaves and the card's word.
// Three bytes of the data, those of '9484', stand before the order.
pub fn stop_at(l: Loading, w: u16, d: &[u8], at: usize) -> Stop
    requires { (l.count ≤ 31) × (3 ≤ at) × (at < length d.now) × (length d.now ≤ 8195) }
    ensures { result ≡ stop_of l.running.rows l.running.last (file_list l) l.count w (at - 3)
        (drop at d.now) }
{
    let header = header::header_at(d, at);
    match header {
        Header::Whole(h) => head_stop(l, w, h, d, at),
        Header::Torn => torn_stop(w, d, at),
    }
}
