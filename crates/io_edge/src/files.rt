// Files by their names. A name is bytes. The library's are UTF-8: what is none is refused, as the system refuses what
// it cannot encode.
ghost use Rattle.std.specs.Prelude.{◌≡◌};

use std::fs::{File, Files};
use std::{fs, io, str};

// The system's numbers of two reasons: an argument that is invalid, and a character that is.
const EINVAL: i32 = 22;

const EILSEQ: i32 = 84;

// A name that has a zero byte is none.
fn path_of(name: &[u8]) -> io::Result<&str> {
    if name.contains(&0) {
        return Err(io::Error::from_raw_os_error(EINVAL));
    }
    str::from_utf8(name).map_err(|_| io::Error::from_raw_os_error(EILSEQ))
}

pub fn open_read<R: Files>(rt: &R, name: &[u8]) -> io::Result<R::File> {
    File::open(rt, path_of(name)?)
}

// A file to write, made where there is none and emptied where there is one.
pub fn open_overwrite<R: Files>(rt: &R, name: &[u8]) -> io::Result<R::File> {
    File::create(rt, path_of(name)?)
}

pub fn rename(rt: &impl Files, from: &[u8], to: &[u8]) -> io::Result<()> {
    fs::rename(rt, path_of(from)?, path_of(to)?)
}

pub fn remove(rt: &impl Files, name: &[u8]) -> io::Result<()> {
    fs::remove_file(rt, path_of(name)?)
}
