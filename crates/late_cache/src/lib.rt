// A cache of the sets that were tested for lateness, so that a set is seldom tested twice.
#![tactic(auto)]

ghost use Rattle.std.specs.Prelude.{◌≡◌};
ghost use Rattle.mask.specs.Mask.{has};
ghost use Rattle.schedule.specs.Periodic.{LateSet};
ghost use Rattle.schedule.specs.Arrays.{tasks_of, InLimits, Says};
ghost use Rattle.late_cache.specs.LateCache.{LateCache, place_of, with_verdict};

use schedule::Timing;

// 65,536 words for sets. The 16,385 words behind them are for the look at the listed conflicts; nothing is claimed of them here.
pub type LateCache = [u32; 81921];

// Where a set stands in a table of 65,536 words. Any place would do: no answer rests on it.
pub fn place_of(set: u32) -> usize
    ensures { result ≡ place_of set }
{
    (set as u64 * 2654435761 % 4294967296 / 65536) as usize
}

// Whether the set has a late job in the tick run: from the table, or worked out and put there.
pub fn is_late(timing: &Timing, n: usize, set: u32, lateness: &mut LateCache) -> bool
    requires { InLimits n timing.now set × LateCache (tasks_of n timing.now) lateness.old }
    ensures { Says result (LateSet (tasks_of n timing.now) (has set)) × LateCache (tasks_of n timing.now) lateness.new × (lateness.new ≡ with_verdict lateness.old set result) }
{
    let at = place_of(set);
    let word = lateness[at];
    if word / 2 == set {
        return word % 2 == 1;
    }
    let late = schedule::is_late(timing, n, set);
    lateness[at] = 2 * set + late as u32;
    late
}
