// Runs the day files that its arguments name, one after the other, each from a fresh planner. The script `latchmeander` starts it, with a stack
// that takes the large rooms; the small rooms fit the usual stack of 8 MiB.
#![tactic(auto)]

mod arguments;
mod fronts;
mod rooms;
mod runs;

use day_turns::turns;

fn main(rt: HostRuntime) {
    let last = arguments::count(rt);
    if arguments::asks_for_status(rt) {
        let status = run_files(rt, last, 2, 3 < last);
        arguments::tell_status(rt, status);
    } else {
        run_files(rt, last, 1, 2 < last);
    }
}

// Runs the files that the arguments name from `first` on and before `last`, and answers how it went. It calls itself before it does its own
// part: so the compiler keeps it a call, and lays neither kind of rooms into its frame or into that of main.
fn run_files(rt: HostRuntime, last: usize, first: usize, named: bool) -> u64 {
    if last <= first {
        return 0;
    }
    let which = last - 1;
    let before = run_files(rt, which, first, named);
    if rooms::is_large(rt, which) {
        turns::worse(before, in_large_rooms(rt, which, named))
    } else {
        turns::worse(before, in_small_rooms(rt, which, named))
    }
}

// A day file of 32 MiB, other files of 128 MiB, and lists for a bank of 65,536 rounds of 64.
fn in_large_rooms(rt: HostRuntime, which: usize, named: bool) -> u64 {
    let mut day = [0u8; 33554432];
    let mut file = [0u8; 134217728];
    let mut floats = [0.0f64; 4265856];
    let mut wholes = [0u32; 75776];
    runs::argument(
        rt,
        which,
        named,
        &mut day,
        &mut file,
        &mut floats,
        &mut wholes,
    )
}

// Files of 262,144 bytes, and lists for any bank that such a file has.
fn in_small_rooms(rt: HostRuntime, which: usize, named: bool) -> u64 {
    let mut day = [0u8; 262144];
    let mut file = [0u8; 262144];
    let mut floats = [0.0f64; 262144];
    let mut wholes = [0u32; 75776];
    runs::argument(
        rt,
        which,
        named,
        &mut day,
        &mut file,
        &mut floats,
        &mut wholes,
    )
}
