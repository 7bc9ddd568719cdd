// A case file as the replays read it: an argument names it, it goes through a room smaller than it, and its first line is printed.
#![tactic(auto)]

ghost use Rattle.std.specs.Prelude.{◌≡◌, ◌+◌, ◌-◌, ◌≤◌, length, IfSome};
ghost use Rattle.io.specs.Counts.{IsPrefixLen};
ghost use Rattle.text.specs.Lines.{after_line};

use std::env::{Env, FillError};
use std::fmt::Display;
use std::fs::File;
use std::io::{Error, ErrorKind, Read};

// How many bytes of an argument stand at the room's start: none of one that is longer than the room. No answer where there is none so far on.
pub fn argument(rt: HostRuntime, which: usize, room: &mut [u8]) -> Option<usize>
    ensures { IfSome result (λ n. IsPrefixLen n room.new) }
{
    match rt.arg(which, room) {
        Ok(n) => Some(n),
        Err(FillError::TooLong) => Some(0),
        Err(FillError::NotPresent) => None,
    }
}

// Opens a file to read it. Where that cannot be, standard error has why.
pub fn open(rt: HostRuntime, path: &[u8]) -> Option<File> {
    match opened(rt, path) {
        Ok(file) => Some(file),
        Err(e) => {
            tell(rt, path, e);
            None
        }
    }
}

// A path is text: one that is none is a name that no file has.
pub fn opened(rt: HostRuntime, path: &[u8]) -> Result<File, Error> {
    match std::str::from_utf8(path) {
        Ok(name) => std::fs::open(&rt, name),
        Err(_) => Err(Error::from(ErrorKind::InvalidFilename)),
    }
}

// Writes a line to standard error: what failed, a colon and why.
pub fn tell<D: Display + Drop>(rt: HostRuntime, what: &[u8], why: D) {
    let _ = rt.stderr().write_all(what);
    let _ = eprintln!(rt; ": {why}");
}

// Brings what stands between two places to the room's start, and reads behind it until the room is full or the file ends.
// Answers where what was read ends. Places that are none keep nothing.
pub fn refill(file: &mut File, room: &mut [u8], from: usize, end: usize) -> usize
    ensures { IsPrefixLen result room.new }
{
    let kept = to_front(room, from, end);
    kept + fill(file, &mut room[kept..])
}

fn to_front(room: &mut [u8], from: usize, end: usize) -> usize
    ensures { result ≤ length room.new }
{
    if room.len() < end || end < from {
        return 0;
    }
    room.copy_within(from..end, 0);
    end - from
}

// Reads until the room is full, the file ends or a read fails, and answers how many bytes stand at the room's start.
pub fn fill(file: &mut File, room: &mut [u8]) -> usize
    ensures { IsPrefixLen result room.new }
{
    let mut done = 0usize;
    // no index is counted: each turn goes on by as many bytes as a read brings
    while done < room.len() {
        let more = read_some(file, room, done);
        if more == 0 {
            return done;
        }
        done += more;
    }
    done
}

// One read into the room from a place on: how many bytes came.
fn read_some(file: &mut File, room: &mut [u8], at: usize) -> usize
    requires { at ≤ length room.old }
    ensures { at + result ≤ length room.old }
{
    match file.read(&mut room[at..]) {
        Ok(more) => more,
        Err(_) => 0,
    }
}

// Prints the first line, on a line of its own, and answers where the next one starts.
pub fn print_line(rt: HostRuntime, bytes: &[u8]) -> usize
    ensures { result ≡ length bytes.now - length (after_line bytes.now) }
{
    let line = text::first_line(bytes);
    let stop = line.stop;
    let _ = rt.write_all(b"\n");
    let _ = rt.write_all(&bytes[..stop]);
    let _ = rt.write_all(b"\n");
    line.next
}
