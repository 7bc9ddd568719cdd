// How the cases of a file went.
use crate::column::Column;

#[derive(Clone, Copy, Default)]
pub struct Tally {
    pub decimals: u64,
    pub wholes: u64,
    pub seconds: u64,
    pub both: u64,
    pub neither: u64,
    pub rust_alone: u64,
    pub ours_alone: u64,
    pub differing: u64,
}

impl Tally {
    // One case more of a kind.
    pub fn counted(mut self, kind: u8) -> Self {
        match kind {
            b'd' => {
                self.decimals = self.decimals.wrapping_add(1);
            }
            b'w' => {
                self.wholes = self.wholes.wrapping_add(1);
            }
            _ => {
                self.seconds = self.seconds.wrapping_add(1);
            }
        }
        self
    }

    // One comparison more. What we read must be what the rules say and, to the last bit, what the Rust reads.
    pub fn compared(self, ours: Column, answer: &[u8], rust: &[u8]) -> Self {
        let bytes = ours.bytes;
        let rust_reads = !text::same(rust, b"----------------");
        let as_ruled = text::same(&bytes, answer);
        if ours.is_value {
            let equal = text::same(&bytes, rust);
            return self.read(rust_reads).judged(as_ruled && equal);
        }
        self.refused(rust_reads).judged(as_ruled)
    }

    fn read(mut self, rust_reads: bool) -> Self {
        if rust_reads {
            self.both = self.both.wrapping_add(1);
        } else {
            self.ours_alone = self.ours_alone.wrapping_add(1);
        }
        self
    }

    fn refused(mut self, rust_reads: bool) -> Self {
        if rust_reads {
            self.rust_alone = self.rust_alone.wrapping_add(1);
        } else {
            self.neither = self.neither.wrapping_add(1);
        }
        self
    }

    fn judged(mut self, agrees: bool) -> Self {
        if !agrees {
            self.differing = self.differing.wrapping_add(1);
        }
        self
    }

    pub fn print(self, rt: HostRuntime) {
        let numbers = self.decimals.wrapping_add(self.wholes);
        print_count(rt, b"run ", numbers.wrapping_add(self.seconds));
        print_count(rt, b": decimals ", self.decimals);
        print_count(rt, b", whole numbers ", self.wholes);
        print_count(rt, b", seconds ", self.seconds);
        print_count(rt, b"\nread by both ", self.both);
        print_count(rt, b", refused by both ", self.neither);
        print_count(rt, b", read by the Rust alone ", self.rust_alone);
        print_count(rt, b", by us alone ", self.ours_alone);
        print_count(rt, b"\ndiffering ", self.differing);
        let _ = rt.write_all(b"\n");
    }
}

fn print_count(rt: HostRuntime, label: &[u8], n: u64) {
    let _ = rt.write_all(label);
    let _ = print!(rt; "{n}");
}
