// How the cases of a file went.
// Who reads a bank, and who refuses it.
#[derive(Clone, Copy, Default)]
pub struct Split {
    pub both: u64,
    pub neither: u64,
    pub rust_alone: u64,
    pub ours_alone: u64,
}

// How many answers are values, and how many refusals. The Rust refuses nothing here: it is asked where the rules give a value.
#[derive(Clone, Copy, Default)]
pub struct Values {
    pub given: u64,
    pub refused: u64,
}

#[derive(Clone, Copy, Default)]
pub struct Tally {
    pub banks: u64,
    pub models: u64,
    pub values: u64,
    pub read: Split,
    pub expected: Values,
    pub sampled: Values,
    pub differing: u64,
}

impl Split {
    // One bank more.
    fn counted(mut self, ours: bool, rust: bool) -> Self {
        let who = match (ours, rust) {
            (true, true) => &mut self.both,
            (true, false) => &mut self.ours_alone,
            (false, true) => &mut self.rust_alone,
            (false, false) => &mut self.neither,
        };
        *who = who.wrapping_add(1);
        self
    }

    fn print(self, rt: HostRuntime) {
        print_count(rt, b"\nbanks read by both ", self.both);
        print_count(rt, b", refused by both ", self.neither);
        print_count(rt, b", read by the Rust alone ", self.rust_alone);
        print_count(rt, b", by us alone ", self.ours_alone);
    }
}

impl Values {
    // One answer more.
    fn counted(mut self, is_value: bool) -> Self {
        if is_value {
            self.given = self.given.wrapping_add(1);
        } else {
            self.refused = self.refused.wrapping_add(1);
        }
        self
    }

    fn print(self, rt: HostRuntime, label: &[u8]) {
        print_count(rt, label, self.given);
        print_count(rt, b", refused ", self.refused);
    }
}

impl Tally {
    // One bank more, and who reads it.
    pub fn bank(mut self, ours: bool, rust: bool) -> Self {
        self.banks = self.banks.wrapping_add(1);
        self.read = self.read.counted(ours, rust);
        self
    }

    // One model more, and whether we give its expected value and its sample.
    pub fn model(mut self, expected: bool, sampled: bool) -> Self {
        self.models = self.models.wrapping_add(1);
        self.expected = self.expected.counted(expected);
        self.sampled = self.sampled.counted(sampled);
        self
    }

    // One value of a position more.
    pub fn value(mut self) -> Self {
        self.values = self.values.wrapping_add(1);
        self
    }

    // Whether the case is as the rules and the Rust have it.
    pub fn judged(mut self, agrees: bool) -> Self {
        if !agrees {
            self.differing = self.differing.wrapping_add(1);
        }
        self
    }

    pub fn print(self, rt: HostRuntime) {
        let asked = self.models.wrapping_add(self.values);
        print_count(rt, b"run ", self.banks.wrapping_add(asked));
        print_count(rt, b": banks ", self.banks);
        print_count(rt, b", models ", self.models);
        print_count(rt, b", values ", self.values);
        self.read.print(rt);
        self.expected.print(rt, b"\nexpected values of both ");
        self.sampled.print(rt, b"; samples of both ");
        print_count(rt, b"\ndiffering ", self.differing);
        let _ = rt.write_all(b"\n");
    }
}

fn print_count(rt: HostRuntime, label: &[u8], n: u64) {
    let _ = rt.write_all(label);
    let _ = print!(rt; "{n}");
}
