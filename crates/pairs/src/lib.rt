// Pairs of tasks that can never stand on one processor, by the rules or because they are late together.
#![tactic(auto)]

ghost use Rattle.std.specs.Prelude.{◌≡◌, ◌≤◌, ◌<◌};
ghost use Rattle.schedule.specs.Arrays.{InLimits};
ghost use Rattle.pairs.specs.Pairs.{takes_both, nowhere, late_pair, apart, strangers_of};

use numbers::wide;
use partial::{Instance, State};
use rows::Rows;
use schedule::Timing;

// Whether tasks i and j may reside on processor p, and it has the memory and the load for both.
fn takes_both(rows: &Rows, s: State, i: usize, j: usize, p: usize) -> bool
    requires { (i < 24) × (j < 24) × (p < 8) }
    ensures { result ≡ takes_both rows.now s i j p }
{
    if !mask::has(rows.residence[i] & rows.residence[j], p) {
        return false;
    }
    if s.memory[p] < wide(rows.memory[i]) + wide(rows.memory[j]) {
        return false;
    }
    wide(rows.load[i]) + wide(rows.load[j]) <= s.load[p]
}

// Whether no processor takes both tasks.
fn nowhere(rows: &Rows, s: State, processors: usize, i: usize, j: usize) -> bool
    requires { (processors ≤ 8) × (i < 24) × (j < 24) }
    ensures { result ≡ nowhere rows.now s processors i j }
{
    for p in 0..processors {
        if takes_both(rows, s, i, j, p) {
            return false;
        }
    }
    true
}

// Whether tasks i and j are late as a pair.
fn late_pair(timing: &Timing, n: usize, i: usize, j: usize) -> bool
    requires { InLimits n timing.now 0 × (i < n) × (j < n) }
    ensures { result ≡ late_pair timing.now n i j }
{
    let pair = mask::insert(mask::insert(0, i), j);
    schedule::is_late(timing, n, pair)
}

// Whether i and j are two tasks that can never stand on one processor.
fn apart(instance: &Instance, s: State, i: usize, j: usize) -> bool
    requires { InLimits instance.now.sizes.tasks instance.now.timing 0 × (instance.now.sizes.processors ≤ 8) × (i < instance.now.sizes.tasks) × (j < instance.now.sizes.tasks) }
    ensures { result ≡ apart instance.now.timing instance.now.rows instance.now.sizes s i j }
{
    if i == j {
        return false;
    }
    if mask::has(instance.rows.exclusions[i], j) {
        return true;
    }
    if nowhere(&instance.rows, s, instance.sizes.processors, i, j) {
        return true;
    }
    late_pair(&instance.timing, instance.sizes.tasks, i, j)
}

// How many tasks can never stand beside task i.
pub fn strangers(instance: &Instance, s: State, i: usize) -> u64
    requires { InLimits instance.now.sizes.tasks instance.now.timing 0 × (instance.now.sizes.processors ≤ 8) × (i < instance.now.sizes.tasks) }
    ensures { (result ≡ strangers_of instance.now.timing instance.now.rows instance.now.sizes s i) × (result ≤ 24) }
{
    let n = instance.sizes.tasks;
    let mut count: u64 = 0;
    for j in 0..n {
        if apart(instance, s, i, j) {
            count += 1;
        }
    }
    count
}
