// Where a record lies in the file area: files in table order, records in theirs.
#![tactic(auto)]

ghost use Rattle.std.specs.Prelude.{◌≡◌, ◌+◌, ◌-◌, ◌*◌, ◌≤◌, ◌<◌, take};
ghost use Rattle.model.specs.Table.{spot_in, spot_of};
ghost use Rattle.model.specs.Loads.{file_list};
ghost use Rattle.model.specs.Rules.{tag_spot};
ghost use Rattle.table_places.specs.Scans.{scan_from};

use model::{BINARY, Descriptor, Loading, SIMULATED, Spot};

// Record nn of a file that begins at `base`.
pub fn spot_in(d: Descriptor, base: usize, nn: u8) -> Spot
    requires { base ≤ 31 * 65535 }
    ensures { result ≡ spot_in d base nn }
{
    if d.eftype == BINARY {
        if nn == 0 {
            return Spot::At {
                base: base,
                size: table_fields::size_of(d),
            };
        }
        return Spot::Nowhere;
    }
    if d.eftype == SIMULATED {
        return Spot::Nowhere;
    }
    if nn < 1 {
        return Spot::Nowhere;
    }
    if d.numrec < nn {
        return Spot::Nowhere;
    }
    let size = memory::wide(d.recsize);
    let before = memory::wide(nn - 1);
    let skipped = before * size;
    let begin = base + skipped;
    Spot::At {
        base: begin,
        size: size,
    }
}

// Where a search for the file with this SFI begins, among so many: no file is found by SFI 0.
pub fn scan_from(sfi: u8, count: usize) -> usize
    ensures { result ≡ scan_from sfi count }
{
    if sfi == 0 {
        return count;
    }
    0
}

// The place of record nn of the file with this SFI.
pub fn spot_of(files: [Descriptor; 31], count: usize, sfi: u8, nn: u8) -> Spot
    requires { count ≤ 31 }
    ensures { result ≡ spot_of (take count files) sfi nn }
{
    if sfi == 0 {
        return Spot::Nowhere;
    }
    let mut base: usize = 0;
    let mut i: usize = 0;
    while i < count {
        let d = files[i];
        if d.sfi == sfi {
            return spot_in(d, base, nn);
        }
        base += table_fields::size_of(d);
        i += 1;
    }
    Spot::Nowhere
}

// The place of the record that a tag names.
pub fn spot_at(l: Loading, tag: u16) -> Spot
    requires { l.count ≤ 31 }
    ensures { result ≡ tag_spot (file_list l) tag }
{
    let files = l.files;
    let sfi = (tag / 256) as u8;
    let nn = (tag % 256) as u8;
    spot_of(files, l.count, sfi, nn)
}
