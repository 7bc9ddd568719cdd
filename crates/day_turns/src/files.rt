// A file read whole, and how long a file is.
ghost use Rattle.std.specs.Prelude.{◌≤◌, length};
ghost use Rattle.std.specs.Option.{IfSome};
ghost use Rattle.io.specs.Counts.{IsPrefixLen};

use std::fs::File;
use std::io::{Read, Seek, SeekFrom};

// Reads a file whole, and answers how many bytes it has, which stand at the front of the room. Where that cannot be, standard error has why.
pub fn read(rt: HostRuntime, path: &[u8], room: &mut [u8]) -> Option<usize>
    ensures { IfSome result (λ n. IsPrefixLen n room.new) }
{
    let mut file = case_files::open(rt, path)?;
    let bytes = case_files::fill(&mut file, room);
    if is_at_end(rt, &mut file, path) {
        Some(bytes)
    } else {
        None
    }
}

// Reads a file that a day file names, by a path from the day file's folder.
pub fn read_beside(rt: HostRuntime, day: &[u8], name: &[u8], room: &mut [u8]) -> Option<usize>
    ensures { IfSome result (λ n. IsPrefixLen n room.new) }
{
    let mut path = [0u8; 4096];
    let n = beside(day, name, &mut path);
    read(rt, &path[0..n], room)
}

// The path of such a file, and how long it is; 0 where there is none.
fn beside(day: &[u8], name: &[u8], path: &mut [u8]) -> usize
    ensures { result ≤ length path.new }
{
    let n = day_paths::beside(day, name, path);
    if n <= path.len() { n } else { 0 }
}

// Whether a file is longer than so many bytes. One that has no length, as a pipe, may be.
pub fn is_longer(rt: HostRuntime, path: &[u8], bytes: i64) -> bool {
    match case_files::opened(rt, path) {
        Ok(mut file) => is_open_longer(&mut file, bytes),
        Err(_) => false,
    }
}

fn is_open_longer(file: &mut File, bytes: i64) -> bool {
    match file.seek(SeekFrom::End(0)) {
        Ok(size) => bytes < size.cast_signed(),
        Err(_) => true,
    }
}

pub fn is_longer_beside(rt: HostRuntime, day: &[u8], name: &[u8], bytes: i64) -> bool {
    let mut path = [0u8; 4096];
    let n = beside(day, name, &mut path);
    is_longer(rt, &path[0..n], bytes)
}

// Whether the file ends here, by one read more: standard error has why not.
fn is_at_end(rt: HostRuntime, file: &mut File, path: &[u8]) -> bool {
    let mut byte = [0u8; 1];
    match file.read(&mut byte) {
        Ok(0) => true,
        Ok(_) => {
            case_files::tell(rt, path, "too long");
            false
        }
        Err(e) => {
            case_files::tell(rt, path, e);
            false
        }
    }
}
