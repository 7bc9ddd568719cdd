// The kinds by name: a text has a line for each, its letter, a space and its name.
use cases::tally;

// Prints the counts of each kind of a text that was run.
pub fn print(rt: HostRuntime, counts: &[u64], kinds: &[u8]) {
    for kind in kinds.split(|b| *b == b'\n') {
        print_kind(rt, counts, kind);
    }
}

fn print_kind(rt: HostRuntime, counts: &[u64], kind: &[u8]) {
    if 2 <= kind.len() {
        tally::print_kind(rt, counts, kind[0], &kind[2..]);
    }
}
