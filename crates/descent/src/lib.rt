// The search for weights of the capacity bound, round by round. Any weights are right, so no answer rests on how they are found.
#![tactic(auto)]

ghost use Rattle.std.specs.Prelude.{◌≡◌, ◌+◌, ◌*◌, ◌≤◌, ◌<◌, T};
ghost use Rattle.mask.specs.Mask.{below};
ghost use Rattle.subgradient.specs.Subgradient.{AtMost, heaviest};
ghost use Rattle.descent.specs.Descent.{begin_of, compared_of, turned_back_of, advanced_of, ends_of, after_of, Moves};

// How weights are looked for: in how many rounds at most; by how many per cent of the gap they move first (alpha); after how many rounds without gain
// the steps become smaller; after how many calls of packing it ends. Where the first gap is more than `far` times what the open tasks weigh, there is
// only one round.
#[derive(Clone, Copy)]
pub struct Pace {
    pub rounds: u32,
    pub alpha: u64,
    pub patience: u32,
    pub calls: u64,
    pub far: u64,
}

// The search for weights after some rounds: the weights of the next round, the direction in which they moved, and whether they have moved; the best
// weights so far, with the least gap, and how many rounds ago that was (idle); the length of a step in per cent of the gap (alpha); how many calls of
// packing were made; and how many rounds are left.
#[derive(Clone, Copy)]
pub struct Descent {
    pub weights: [u32; 24],
    pub direction: [u32; 24],
    pub moved: bool,
    pub best: [u32; 24],
    pub least: u64,
    pub idle: u32,
    pub alpha: u64,
    pub calls: u64,
    pub rounds: u32,
}

// What it begins with.
pub fn begin(weights: [u32; 24], pace: Pace) -> Descent
    ensures { result ≡ begin_of weights pace }
{
    Descent {
        weights,
        direction: [256u32; 24],
        moved: false,
        best: weights,
        least: 18446744073709551615,
        idle: 0,
        alpha: pace.alpha,
        calls: 0,
        rounds: pace.rounds,
    }
}

// The best weights are noted, and the calls of packing.
fn compared(descent: Descent, gap: u64, calls: u64) -> Descent
    requires { (descent.calls + calls < 18446744073709551616) × (descent.idle ≤ 256) }
    ensures { result ≡ compared_of descent gap calls }
{
    let mut next = descent;
    next.calls = descent.calls + calls;
    next.idle = descent.idle + 1;
    if gap < descent.least {
        let weights = descent.weights;
        next.least = gap;
        next.best = weights;
        next.idle = 0;
    }
    next
}

// After too many rounds without gain, the next step is from the best weights, and smaller.
fn turned_back(descent: Descent, patience: u32) -> Descent
    requires { descent.alpha ≤ 100 }
    ensures { result ≡ turned_back_of descent patience }
{
    if descent.idle < patience {
        return descent;
    }
    let best = descent.best;
    let mut next = descent;
    next.weights = best;
    next.direction = [256u32; 24];
    next.idle = 0;
    next.alpha = descent.alpha * 66 / 100;
    next
}

// A step to other weights. Where there is none, no round is left.
fn advanced(descent: Descent, sets: [u32; 8], m: usize, left: u32, gap: u64) -> Descent
    requires { AtMost 2048 descent.direction × (descent.alpha ≤ 100) × (0 < descent.rounds) × (m ≤ 8) × T (below 24 left) × (gap ≤ 8 * heaviest) }
    ensures { result ≡ advanced_of descent sets m left gap }
{
    let weights = descent.weights;
    let direction = descent.direction;
    let adapted = subgradient::adapt(
        weights,
        direction,
        !descent.moved,
        sets,
        m,
        left,
        gap,
        descent.alpha,
    );
    let mut next = descent;
    let weights = adapted.weights;
    next.weights = weights;
    let direction = adapted.direction;
    next.direction = direction;
    next.moved = true;
    next.rounds = descent.rounds - 1;
    if adapted.still {
        next.rounds = 0;
    }
    next
}

// Whether no more weights are looked for: the first gap is too far, packing took too long, or the steps have become too small.
fn ends(descent: Descent, pace: Pace, left: u32, gap: u64) -> bool
    requires { (pace.far ≤ 8) × T (below 24 left) }
    ensures { result ≡ ends_of descent pace left gap }
{
    if pace.calls < descent.calls {
        return true;
    }
    if descent.alpha < 2 {
        return true;
    }
    if descent.moved {
        return false;
    }
    let weights = descent.weights;
    pace.far * subgradient::total(&weights, left) < gap
}

// The search for weights after a round.
pub fn after(
    descent: Descent,
    pace: Pace,
    sets: [u32; 8],
    m: usize,
    left: u32,
    gap: u64,
    calls: u64,
) -> Descent
    requires { Moves descent × (0 < descent.rounds) × (pace.far ≤ 8) × (m ≤ 8) × T (below 24 left) × (gap ≤ 8 * heaviest) × (calls < 4294967296) }
    ensures { result ≡ after_of descent pace sets m left gap calls }
{
    let mut next = turned_back(compared(descent, gap, calls), pace.patience);
    if ends(next, pace, left, gap) {
        next.rounds = 0;
        return next;
    }
    advanced(next, sets, m, left, gap)
}
