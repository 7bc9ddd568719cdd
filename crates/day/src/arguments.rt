// How the program is told what to do, and how it tells how that went.
use std::fs::OpenOptions;
use std::io::Write;

// How many arguments there are, the program's name among them.
pub fn count(rt: HostRuntime) -> usize {
    let mut word = [0u8; 1];
    for i in 0..usize::MAX {
        if case_files::argument(rt, i, &mut word).is_none() {
            return i;
        }
    }
    usize::MAX
}

// Whether the first argument asks for the status.
pub fn asks_for_status(rt: HostRuntime) -> bool {
    let mut word = [0u8; 4096];
    match case_files::argument(rt, 1, &mut word) {
        Some(n) => text::same(&word[..n], b"--status-on-3"),
        None => false,
    }
}

// A program has no exit status of its own: it writes a digit to descriptor 3, which the script that starts it passes on.
pub fn tell_status(rt: HostRuntime, status: u64) {
    if let Ok(mut told) = OpenOptions::new().append(true).open(&rt, "/dev/fd/3") {
        let _ = write!(told, "{status}");
    }
}
