// Slots of the sequences' chains, which lie in one slice, 64 a sequence, and their ranks.
ghost use Rattle.std.specs.Prelude.{◌≡◌, ◌+◌, ◌*◌, ◌≤◌, ◌<◌, min, length, drop};
ghost use Rattle.heap.specs.Heap.{Stands, candidate};
ghost use Rattle.heap.specs.Greedy.{head_of, frontier};
ghost use Rattle.slots.specs.Slots.{Fits, flipped, starts, survival, stacks, down_from};

// The rank of a sequence's next slot, if it has one.
#[derive(Clone, Copy)]
pub struct Slot {
    pub more: bool,
    pub rank: u64,
}

// The rank of bits of which the smallest win.
pub fn flip(b: u64) -> u64
    ensures { result ≡ flipped b }
{
    u64::MAX - b
}

// Every sequence at the batch's depth, or at its chain's end.
pub fn start_widths(lengths: &[u32], depth: u32, widths: &mut [u32])
    requires { length widths.old ≡ length lengths.now }
    ensures { widths.new ≡ starts depth lengths.now }
{
    for k in 0..lengths.len() {
        widths[k] = depth.min(lengths[k]);
    }
}

// The survival of slot d of sequence k.
pub fn survival_at(chains: &[f64], k: usize, d: u32) -> f64
    requires { (k * 64 + 64 ≤ length chains.now) × (d < 64) }
    ensures { result ≡ survival chains.now k d }
{
    let at = k * 64 + d as usize;
    chains[at]
}

// The rank of the deepest of w slots of sequence k, if there is one.
pub fn deepest(chains: &[f64], k: usize, w: u32) -> Slot
    requires { (k * 64 + 64 ≤ length chains.now) × (w ≤ 64) }
    ensures { candidate result.more result.rank ≡ head_of (down_from w (drop (k * 64) chains.now)) }
{
    if 0 < w {
        Slot {
            more: true,
            rank: flip(float::bits(survival_at(chains, k, w - 1))),
        }
    } else {
        Slot {
            more: false,
            rank: 0,
        }
    }
}

// An entry for each sequence that has a slot: its deepest; says how many.
pub fn fill_deepest(chains: &[f64], widths: &[u32], rank: &mut [u64], seq: &mut [u64]) -> usize
    requires fits { Fits chains.now widths.now (length widths.now) }
    requires widths_in_bounds { (length widths.now ≤ length rank.old) × (length widths.now ≤ length seq.old) }
    ensures { (result ≤ length widths.now) × Stands rank.new seq.new result (frontier (stacks down_from widths.now chains.now)) }
{
    let mut m: usize = 0;
    for k in 0..widths.len() {
        let slot = deepest(chains, k, widths[k]);
        if slot.more {
            rank[m] = slot.rank;
            seq[m] = k as u64;
            m += 1;
        }
    }
    m
}
