// Messages that must cross the network, because the tasks at their ends cannot meet any more.
#![tactic(auto)]

ghost use Rattle.std.specs.Prelude.{◌≡◌, ◌≤◌, ◌<◌, get_or, ◌&&◌, ◌||◌};
ghost use Rattle.finite.specs.Finite.{some_below};
ghost use Rattle.mask.specs.Mask.{has};
ghost use Rattle.partial.specs.Tests.{SmallMessages};
ghost use Rattle.knapsack.specs.Knapsack.{joined};
ghost use Rattle.network_bound.specs.NetworkBound.{must_cross, crossing_of};

use partial::State;
use rows::Messages;

// Whether one of the m processors has or can take both tasks.
fn can_meet(s: State, sets: [u32; 8], m: usize, from: usize, to: usize) -> bool
    requires { (m ≤ 8) × (from < 32) × (to < 32) }
    ensures { result ≡ some_below m (λ p. joined (get_or s.on p 0) (get_or sets p 0) from && joined (get_or s.on p 0) (get_or sets p 0) to) }
{
    for p in 0..m {
        let all = sets[p] | s.on[p];
        if mask::has(all, from) {
            if mask::has(all, to) {
                return true;
            }
        }
    }
    false
}

// Whether one of two tasks is in the set.
fn has_either(set: u32, a: usize, b: usize) -> bool
    requires { (a < 32) × (b < 32) }
    ensures { result ≡ (has set a || has set b) }
{
    if mask::has(set, a) {
        return true;
    }
    mask::has(set, b)
}

// Whether a message between the two tasks must cross the network, and does not yet.
fn must_cross(
    exclusions: &[u32; 24],
    s: State,
    sets: [u32; 8],
    m: usize,
    from: usize,
    to: usize,
) -> bool
    requires { (m ≤ 8) × (from < 24) × (to < 24) }
    ensures { result ≡ must_cross exclusions.now s sets m from to }
{
    if !has_either(s.left, from, to) {
        return false;
    }
    if mask::has(exclusions[from], to) {
        return true;
    }
    !can_meet(s, sets, m, from, to)
}

// What the messages amount to that must cross the network, and do not yet.
pub fn crossing<'a>(
    exclusions: &'a [u32; 24],
    messages: &'a Messages,
    count: usize,
    s: State,
    sets: [u32; 8],
    m: usize,
) -> u64
    requires { (m ≤ 8) × SmallMessages messages.now count }
    ensures { result ≡ crossing_of exclusions.now messages.now count s sets m }
{
    let mut sum: u64 = 0;
    for j in 0..count {
        let from = messages.sender[j] as usize;
        let to = messages.receiver[j] as usize;
        if must_cross(exclusions, s, sets, m, from, to) {
            sum += messages.amount[j];
        }
    }
    sum
}
