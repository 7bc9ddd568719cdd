// The worker's record with one decision more.
ghost use Rattle.std.specs.Prelude.{◌≡◌, ◌≤◌, length};
ghost use Rattle.asking.specs.Values.{held_of};
ghost use Rattle.deciding.specs.Deciding.{toward};
ghost use Rattle.deciding.specs.Ready.{Held};

use ledger_rows::layout::Past;
use switch_settings::SwitchConstraints;
use switching::Switching;

// The record that the storage has, its stall by its bits.
fn held_of(past: Past) -> Switching
    requires { Held past }
    ensures { result ≡ held_of past }
{
    Switching {
        width: past.width as u32,
        rounds: past.rounds as u32,
        stall: float::of_bits(past.stall),
    }
}

// One step toward the target; a worker's first decision is free.
pub fn toward(switch: SwitchConstraints, curve: &[f64], target: u32, past: Past) -> Switching
    requires curve_len_bound { length curve.now ≤ 65 }
    requires held { past.kind ≡ 2 → Held past }
    ensures { result ≡ toward switch curve.now target past }
{
    if past.kind == 2 {
        let held = held_of(past);
        return switching::inner::decided(held, curve, target, switch);
    }
    Switching {
        width: target,
        rounds: 0,
        stall: 0.0,
    }
}
