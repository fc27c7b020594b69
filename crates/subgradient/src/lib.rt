// The weights of the weight bound adapt by a subgradient method: a task that the best packings leave out gets heavier, one that several of them take gets
// lighter. The bound is right for any weights, so no answer rests on these numbers.
#![tactic(auto)]

ghost use Rattle.std.specs.Prelude.{◌≡◌, ◌*◌, ◌≤◌, ◌<◌, T};
ghost use Rattle.mask.specs.Mask.{below};
ghost use Rattle.subgradient.specs.Subgradient.{AtMost, counted_of, counts_of, direction_from, direction_of, distance, norm_of, total_of, stride_of};
ghost use Rattle.subgradient.specs.Subgradient.{limited, moved_weight, moved_of, off_scale, scaled_of, rescaled_of, adapt_of, heaviest};

use numbers::{lower, wide};

// The weights and the direction after a step; still where the direction is 256 for every open task, so that no weight moves.
#[derive(Clone, Copy)]
pub struct Adapted {
    pub weights: [u32; 24],
    pub direction: [u32; 24],
    pub still: bool,
}

// The counts with one set more.
fn counted(counts: [u32; 24], set: u32) -> [u32; 24]
    requires { AtMost 7 counts }
    ensures { result ≡ counted_of counts set }
{
    let mut next = counts;
    for k in mask::members(set & mask::all_below(24)) {
        next[k] = counts[k] + 1;
    }
    next
}

// For each task how many of the first m sets take it.
fn counts(sets: [u32; 8], m: usize) -> [u32; 24]
    requires { m ≤ 8 }
    ensures { result ≡ counts_of sets m }
{
    let mut taken = [0u32; 24];
    for p in 0..m {
        let more = counted(taken, sets[p]);
        taken = more;
    }
    taken
}

// The direction of one task: in 256ths how many sets take it, and after the first step by 4 tenths that and by 6 tenths the direction before.
fn direction_from(first: bool, before: u32, count: u32) -> u32
    requires { (before ≤ 2048) × (count ≤ 8) }
    ensures { result ≡ direction_from first before count }
{
    if first {
        return 256 * count;
    }
    (6 * before + 4 * 256 * count) / 10
}

// The direction of each task.
fn direction(first: bool, before: [u32; 24], counts: [u32; 24]) -> [u32; 24]
    requires { AtMost 2048 before × AtMost 8 counts }
    ensures { result ≡ direction_of first before counts }
{
    let mut next = [0u32; 24];
    for k in 0..24 {
        next[k] = direction_from(first, before[k], counts[k]);
    }
    next
}

// How far a direction is from 256, where the weight stays.
fn distance(direction: u32) -> u64
    ensures { result ≡ distance direction }
{
    let d = wide(direction);
    if d < 256 {
        return 256 - d;
    }
    d - 256
}

// The square of the direction's length over the open tasks.
fn norm(direction: [u32; 24], left: u32) -> u64
    requires { T (below 24 left) × AtMost 2048 direction }
    ensures { result ≡ norm_of direction left }
{
    let mut sum: u64 = 0;
    for k in mask::members(left) {
        let d = distance(direction[k]);
        sum += d * d;
    }
    sum
}

// The weight of a set of tasks.
pub fn total(weights: &[u32; 24], set: u32) -> u64
    requires { T (below 24 set) }
    ensures { (result ≡ total_of weights.now set) × (result ≤ heaviest) }
{
    let mut sum: u64 = 0;
    for k in mask::members(set) {
        sum += wide(weights[k]);
    }
    sum
}

// How far the step goes: by the gap that is to be closed, and a little more; alpha is in per cent.
fn stride(gap: u64, scale: u64, alpha: u64) -> u64
    requires { (gap ≤ 8 * heaviest) × (scale ≤ heaviest) × (alpha ≤ 100) }
    ensures { (result ≡ stride_of gap scale alpha) × (result ≤ 825149116716) }
{
    (gap + scale / 200 + 1) * alpha / 100
}

// A weight stays below 2^28.
fn limited(x: u64) -> u32
    ensures { result ≡ limited x }
{
    lower(x, 268435455) as u32
}

// The weight of an open task after the step.
fn moved_weight(weight: u32, direction: u32, stride: u64, norm: u64) -> u32
    requires { (direction ≤ 2048) × (stride ≤ 825149116716) × (0 < norm) }
    ensures { result ≡ moved_weight weight direction stride norm }
{
    let change = stride * distance(direction) * 256 / norm;
    let before = wide(weight);
    if direction < 256 {
        return limited(before + change);
    }
    if before < change {
        return 0;
    }
    limited(before - change)
}

// The weights after the step.
fn moved(weights: [u32; 24], direction: [u32; 24], left: u32, stride: u64, norm: u64) -> [u32; 24]
    requires { T (below 24 left) × AtMost 2048 direction × (stride ≤ 825149116716) × (0 < norm) }
    ensures { result ≡ moved_of weights direction left stride norm }
{
    let mut next = weights;
    for k in mask::members(left) {
        next[k] = moved_weight(weights[k], direction[k], stride, norm);
    }
    next
}

// Whether weights of such a total have become too small to be told apart, or needlessly large.
fn off_scale(total: u64) -> bool
    ensures { result ≡ off_scale total }
{
    if total == 0 {
        return false;
    }
    if total < 2097152 {
        return true;
    }
    8388608 < total
}

// The weights, so that a total becomes about 2^22.
fn scaled(weights: [u32; 24], total: u64) -> [u32; 24]
    requires { 0 < total }
    ensures { result ≡ scaled_of weights total }
{
    let mut next = [0u32; 24];
    for k in 0..24 {
        next[k] = limited(wide(weights[k]) * 4194304 / total);
    }
    next
}

// The weights, scaled where the total of the open tasks asks for it.
pub fn rescaled(weights: [u32; 24], left: u32) -> [u32; 24]
    requires { T (below 24 left) }
    ensures { result ≡ rescaled_of weights left }
{
    let total = total(&weights, left);
    if off_scale(total) {
        return scaled(weights, total);
    }
    weights
}

// One step: from the sets that the first m processors pack best to the next direction and weights. The gap is how much more the processors can take than
// the open tasks weigh.
pub fn adapt(
    weights: [u32; 24],
    before: [u32; 24],
    first: bool,
    sets: [u32; 8],
    m: usize,
    left: u32,
    gap: u64,
    alpha: u64,
) -> Adapted
    requires { AtMost 2048 before × (m ≤ 8) × T (below 24 left) × (gap ≤ 8 * heaviest) × (alpha ≤ 100) }
    ensures { result ≡ adapt_of weights before first sets m left gap alpha }
{
    let direction = direction(first, before, counts(sets, m));
    let norm = norm(direction, left);
    if norm == 0 {
        return Adapted {
            weights: weights,
            direction: direction,
            still: true,
        };
    }
    let stride = stride(gap, total(&weights, left), alpha);
    let next = rescaled(moved(weights, direction, left, stride, norm), left);
    Adapted {
        weights: next,
        direction: direction,
        still: false,
    }
}
