// How the cases of a file went, by kind: three counts for each letter, run, refused and differing, one behind the other.
ghost use Rattle.std.specs.Prelude.{◌≤◌};

use crate::words::at;

// As many counts as there are: 26 letters, three each.
pub const COUNTS: usize = 78;

// One case more of a kind, a lower-case letter; any other kind counts as z.
pub fn count(counts: &mut [u64], kind: u8, refused: bool, agrees: bool) {
    let first = place_of(kind);
    add_one(counts, first, true);
    add_one(counts, first + 1, refused);
    add_one(counts, first + 2, !agrees);
}

// Where the counts of a kind start.
fn place_of(kind: u8) -> usize
    ensures { result ≤ 75 }
{
    match kind {
        b'a'..=b'z' => (kind - b'a') as usize * 3,
        _ => 75,
    }
}

fn add_one(counts: &mut [u64], place: usize, counted: bool) {
    if counted {
        add(counts, place);
    }
}

fn add(counts: &mut [u64], place: usize) {
    if place < counts.len() {
        counts[place] = counts[place].wrapping_add(1);
    }
}

// A line with the counts of a kind, where one of it was run.
pub fn print_kind(rt: HostRuntime, counts: &[u64], kind: u8, name: &[u8]) {
    let first = place_of(kind);
    if at(counts, first) == 0 {
        return;
    }
    let _ = rt.write_all(name);
    print_counts(rt, at(counts, first), at(counts, first + 1));
    print_count(rt, b", differing ", at(counts, first + 2));
    let _ = rt.write_all(b"\n");
}

// A line with the sums of all kinds run and refused, and one with that of the differing ones.
pub fn print_sums(rt: HostRuntime, counts: &[u64]) {
    let _ = rt.write_all(b"all");
    print_counts(rt, sum(counts, 0), sum(counts, 1));
    print_count(rt, b"\ndiffering ", sum(counts, 2));
    let _ = rt.write_all(b"\n");
}

// The sum of the counts at a place of each kind's three.
fn sum(counts: &[u64], place: usize) -> u64 {
    let mut sum = 0u64;
    for (at, count) in counts.iter().enumerate() {
        if at % 3 == place {
            sum = sum.wrapping_add(*count);
        }
    }
    sum
}

fn print_counts(rt: HostRuntime, run: u64, refused: u64) {
    print_count(rt, b" run ", run);
    print_count(rt, b", refused ", refused);
}

fn print_count(rt: HostRuntime, label: &[u8], n: u64) {
    let _ = rt.write_all(label);
    let _ = print!(rt; "{n}");
}
