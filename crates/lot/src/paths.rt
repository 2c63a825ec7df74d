// Where a job's register goes: OUT/BASE.register, and before it is whole OUT/.BASE.register.part, in the same folder.
use print_forms::Line;

const PATH_SIZE: usize = 4128;

pub type Path = Line<PATH_SIZE>;

// Behind the last slash of a name.
fn last_part(name: &[u8]) -> &[u8] {
    match name.iter().rposition(|c| *c == b'/') {
        Some(i) => &name[i + 1..],
        None => name,
    }
}

// The same without its last extension.
fn base_of(name: &[u8]) -> &[u8] {
    let last = last_part(name);
    match last.iter().rposition(|c| *c == b'.') {
        Some(i) => &last[..i],
        None => last,
    }
}

// The path of a name's register in a folder, between two texts, as far as it has room.
pub fn put_path(path: &mut Path, folder: &[u8], before: &[u8], name: &[u8], after: &[u8]) {
    path.put_text(folder);
    path.put_text(before);
    path.put_text(base_of(name));
    path.put_text(after);
}
