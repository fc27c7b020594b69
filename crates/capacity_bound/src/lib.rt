// The capacity bound: the open tasks weigh more than all processors together can take.
#![tactic(auto)]

ghost use Rattle.std.specs.Prelude.{◌≡◌, ℕ, ◌-◌, ◌*◌, ◌≤◌, ◌<◌, T, length, get_or, false};
ghost use Rattle.finite.specs.Finite.{sum_to};
ghost use Rattle.mask.specs.Mask.{below};
ghost use Rattle.timing.specs.Timing.{tasks_in};
ghost use Rattle.region.specs.Given.{Given, Gives};
ghost use Rattle.bound_cache.specs.BoundCache.{LearntOf};
ghost use Rattle.capacity_bound.specs.Bound.{BoundedAs};
ghost use Rattle.subgradient.specs.Subgradient.{heaviest};
ghost use Rattle.capacity_bound.specs.CapacityBound.{packing_fuel, calls_of, Weights, TopAs, Covers, Weighable, Topped, TightAs};
ghost use Rattle.nogoods.specs.Nogoods.{KnownSets};
ghost use Rattle.rows.specs.declared.Measure.TheVariants.{Other};

use bound_cache::{Caches, Key};
use knapsack::{Pack, Weighting};
use late_cache::LateCache;
use nogoods::Mode;
use numbers::{lower, wide};
use partial::{Instance, State};
use rows::Measure;

// Whether a region is given up at once, and how many conflicts are listed then.
#[derive(Clone, Copy)]
pub struct Bounded {
    pub hopeless: bool,
    pub count: usize,
}

// The same, by weights. `gap` is how much more the processors can take, by their bounds, than the open tasks weigh; `sets` has the heaviest set that
// was found for each processor, with the tasks on it, or none where its bound was not made tighter; `calls` is how many calls the packings took. These
// only guide the choice of other weights.
#[derive(Clone, Copy)]
pub struct Weighed {
    pub bounded: Bounded,
    pub gap: u64,
    pub sets: [u32; 8],
    pub calls: u64,
}

// A tighter bound for a processor, the heaviest set that was found for it, how many conflicts are listed then, and how many calls its packing took.
#[derive(Clone, Copy)]
pub struct Tightened {
    pub most: u64,
    pub set: u32,
    pub count: usize,
    pub calls: u64,
}

// How many calls of `knapsack::most` each packing may use.
const FUEL: u32 = 20000;

// A bound on the weight that a processor can take of the candidates: all of them, or by what is left of its load or memory, where these are weighed.
fn top(weighting: &Weighting, set: u32, space: u64, spare: u64) -> u64
    requires { T (below 24 set) }
    ensures { TopAs weighting.now set space spare result }
{
    let all = subgradient::total(&weighting.weights, set);
    match weighting.measure {
        Measure::Load => lower(all, spare),
        Measure::Memory => lower(all, space),
        _ => all,
    }
}

// Such a bound for each of the m processors.
fn tops_of(weighting: &Weighting, sets: [u32; 8], s: State, m: usize) -> [u64; 8]
    requires { (m ≤ 8) × ((p : ℕ) → p < m → T (below 24 (get_or sets p 0))) }
    ensures { (length result ≡ 8) × ((p : ℕ) → get_or result p 0 ≤ heaviest)
        × ((p : ℕ) → p < m → TopAs weighting.now (get_or sets p 0) (get_or s.memory p 0) (get_or s.load p 0) (get_or result p 0)) }
{
    let mut tops = [0u64; 8];
    for p in 0..m {
        tops[p] = top(weighting, sets[p], s.memory[p], s.load[p]);
    }
    tops
}

// The sum of the first m.
fn sum_of(tops: [u64; 8], m: usize) -> u64
    requires { (m ≤ 8) × ((p : ℕ) → get_or tops p 0 ≤ heaviest) }
    ensures { result ≡ sum_to m (λ p. get_or tops p 0) }
{
    let mut sum: u64 = 0;
    for p in 0..m {
        sum += tops[p];
    }
    sum
}

// How much the sum is more than the need.
fn gap_of(sum: u64, need: u64) -> u64
    ensures { result ≡ sum - need }
{
    if sum < need {
        return 0;
    }
    sum - need
}

// How many calls a packing took that has so much fuel left.
fn calls_of(left: u32) -> u64
    ensures { result ≡ calls_of left }
{
    if FUEL < left {
        return 0;
    }
    wide(FUEL - left)
}

// Whether processor r can take just what p can.
fn covers(s: State, sets: [u32; 8], r: usize, p: usize) -> bool
    requires { (r < 8) × (p < 8) }
    ensures { T result → Covers s sets r p }
{
    if s.on[p] != s.on[r] {
        return false;
    }
    if sets[p] != sets[r] {
        return false;
    }
    if s.memory[r] != s.memory[p] {
        return false;
    }
    if s.load[r] != s.load[p] {
        return false;
    }
    true
}

// The lowest processor that can take just what p can.
fn like(s: State, sets: [u32; 8], p: usize) -> usize
    requires { p < 8 }
    ensures { (result ≤ p) × (result < p → Covers s sets result p) }
{
    for r in 0..p {
        if covers(s, sets, r, p) {
            return r;
        }
    }
    p
}

// A tighter bound for processor p, by packing.
fn pack(
    instance: &Instance,
    weighting: &Weighting,
    s: State,
    sets: [u32; 8],
    tops: [u64; 8],
    p: usize,
    mode: Mode,
    list: &mut [u8],
    count: usize,
    lateness: &mut LateCache,
) -> Tightened
    requires { Given instance.now
        (λ t. Topped t mode s weighting.now.weights sets tops list.old count) (λ t. KnownSets (tasks_in t) list.old count lateness.old)
        × (p < instance.now.sizes.processors) }
    ensures { Gives instance.now
        (λ t. Topped t mode s weighting.now.weights sets tops list.old count) (λ t. KnownSets (tasks_in t) list.old count lateness.old)
        (λ t. TightAs t mode s weighting.now.weights sets tops p list.old count list.new result × KnownSets (tasks_in t) list.new result.count lateness.new)
        × (result.calls ≤ packing_fuel) }
{
    let most = tops[p];
    let set = sets[p];
    let reach = subgradient::total(&weighting.weights, set);
    let on = s.on[p];
    let space = s.memory[p];
    let spare = s.load[p];
    let pack = Pack {
        on,
        candidates: set,
        at: 0,
        space,
        spare,
        weight: 0,
        reach,
        stop: most,
        best: 0,
        best_set: on,
        fuel: FUEL,
    };
    let packed = knapsack::most(
        &instance.timing,
        &instance.rows,
        weighting,
        instance.sizes.tasks,
        pack,
        mode,
        list,
        count,
        lateness,
    );
    Tightened {
        most: lower(most, packed.most),
        set: packed.set,
        count: packed.count,
        calls: calls_of(packed.fuel),
    }
}

// The same where no conflicts are listed: what is kept of it, or by packing, and that is kept then.
fn pack_once(
    instance: &Instance,
    weighting: &Weighting,
    s: State,
    sets: [u32; 8],
    tops: [u64; 8],
    p: usize,
    mode: Mode,
    list: &mut [u8],
    count: usize,
    caches: &mut Caches,
) -> Tightened
    requires { Given instance.now
        (λ t. Topped t mode s weighting.now.weights sets tops list.old count) (λ t. LearntOf t list.old count instance.now.rows caches.old.lateness caches.old.bounds)
        × Weights instance.now.rows weighting.now × (p < instance.now.sizes.processors) × (mode.listing ≡ false) × (weighting.now.measure ≡ Other → ⊥) }
    ensures { Gives instance.now
        (λ t. Topped t mode s weighting.now.weights sets tops list.old count) (λ t. LearntOf t list.old count instance.now.rows caches.old.lateness caches.old.bounds)
        (λ t. TightAs t mode s weighting.now.weights sets tops p list.old count list.new result × LearntOf t list.new result.count instance.now.rows caches.new.lateness caches.new.bounds)
        × (result.calls ≤ packing_fuel) }
{
    let on = s.on[p];
    let key = Key {
        on,
        candidates: sets[p],
        row: bound_cache::number_of(weighting.measure),
        space: s.memory[p],
        spare: s.load[p],
    };
    if let Some(kept) = bound_cache::recall(key, &caches.bounds) {
        return Tightened {
            most: lower(tops[p], kept),
            set: on,
            count,
            calls: 0,
        };
    }
    let packed = pack(
        instance,
        weighting,
        s,
        sets,
        tops,
        p,
        mode,
        list,
        count,
        &mut caches.lateness,
    );
    bound_cache::keep(key, packed.most, &mut caches.bounds);
    packed
}

// A tighter bound for processor p: that of an earlier one which can take just what p can (and what was found for it), or by packing. Bounds are kept
// only for the weights of the rows.
fn tighten(
    instance: &Instance,
    weighting: &Weighting,
    s: State,
    sets: [u32; 8],
    tops: [u64; 8],
    found: [u32; 8],
    p: usize,
    mode: Mode,
    list: &mut [u8],
    count: usize,
    caches: &mut Caches,
) -> Tightened
    requires { Given instance.now
        (λ t. Topped t mode s weighting.now.weights sets tops list.old count) (λ t. LearntOf t list.old count instance.now.rows caches.old.lateness caches.old.bounds)
        × Weights instance.now.rows weighting.now × (p < instance.now.sizes.processors) }
    ensures { Gives instance.now
        (λ t. Topped t mode s weighting.now.weights sets tops list.old count) (λ t. LearntOf t list.old count instance.now.rows caches.old.lateness caches.old.bounds)
        (λ t. TightAs t mode s weighting.now.weights sets tops p list.old count list.new result × LearntOf t list.new result.count instance.now.rows caches.new.lateness caches.new.bounds)
        × (result.calls ≤ packing_fuel) }
{
    let r = like(s, sets, p);
    if r < p {
        let set = found[r];
        return Tightened {
            most: lower(tops[p], tops[r]),
            set,
            count,
            calls: 0,
        };
    }
    if mode.listing || weighting.measure == Measure::Other {
        return pack(
            instance,
            weighting,
            s,
            sets,
            tops,
            p,
            mode,
            list,
            count,
            &mut caches.lateness,
        );
    }
    pack_once(
        instance, weighting, s, sets, tops, p, mode, list, count, caches,
    )
}

// The bound by weights, those of the rows or any others: the processors are tightened one after the other, until their sum is below
// what the open tasks weigh.
pub fn weigh(
    instance: &Instance,
    weighting: &Weighting,
    s: State,
    sets: [u32; 8],
    mode: Mode,
    list: &mut [u8],
    count: usize,
    caches: &mut Caches,
) -> Weighed
    requires { Given instance.now
        (λ t. Weighable t mode s sets list.old count) (λ t. LearntOf t list.old count instance.now.rows caches.old.lateness caches.old.bounds)
        × Weights instance.now.rows weighting.now }
    ensures { Gives instance.now
        (λ t. Weighable t mode s sets list.old count) (λ t. LearntOf t list.old count instance.now.rows caches.old.lateness caches.old.bounds)
        (λ t. BoundedAs t mode s list.old count list.new result.bounded × LearntOf t list.new result.bounded.count instance.now.rows caches.new.lateness caches.new.bounds)
        × (result.gap ≤ 8 * heaviest) × (result.calls ≤ 8 * packing_fuel) }
{
    let m = instance.sizes.processors;
    let need = subgradient::total(&weighting.weights, s.left);
    let mut tops = tops_of(weighting, sets, s, m);
    let mut found = [0u32; 8];
    let mut sum = sum_of(tops, m);
    let mut listed = count;
    let mut calls: u64 = 0;
    let mut p: usize = 0;
    while p < m && need <= sum {
        let tight = tighten(
            instance, weighting, s, sets, tops, found, p, mode, list, listed, caches,
        );
        tops[p] = tight.most;
        found[p] = tight.set;
        listed = tight.count;
        calls += tight.calls;
        sum = sum_of(tops, m);
        p += 1;
    }
    let bounded = Bounded {
        hopeless: sum < need,
        count: listed,
    };
    Weighed {
        bounded,
        gap: gap_of(sum, need),
        sets: found,
        calls,
    }
}
