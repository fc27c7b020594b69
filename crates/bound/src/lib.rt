// A bound on the region below a state: the open tasks weigh more than all processors together can take, or the network carries too little.
#![tactic(auto)]

ghost use Rattle.std.specs.Prelude.{◌≡◌};
ghost use Rattle.region.specs.Begins.{Begins, Opens};
ghost use Rattle.region.specs.Given.{Given, Gives};
ghost use Rattle.bound_cache.specs.BoundCache.{LearntOf};
ghost use Rattle.capacity_bound.specs.Bound.{BoundedAs};
ghost use Rattle.capacity_bound.specs.CapacityBound.{Weighable};
ghost use Rattle.rows.specs.Rows.{weights_in};
ghost use Rattle.bound.specs.Due.{adapts, is_due, asked_heuristics, credit_after, tried_heuristics, bound_heuristics, AdaptedAs};

use bound_cache::Caches;
use capacity_bound::Bounded;
use heuristics::Heuristics;
use knapsack::Weighting;
use nogoods::Mode;
use partial::{Instance, State};
use rows::{Measure, Rows};

// The weights of the tasks by load, by memory, or else by both.
fn weights_in(rows: &Rows, measure: Measure) -> &[u32; 24]
    ensures { result.now ≡ weights_in rows.now measure }
{
    match measure {
        Measure::Load => &rows.load,
        Measure::Memory => &rows.memory,
        _ => &rows.weight,
    }
}

// The bound by the weights of each measure in turn.
fn by_rows(
    instance: &Instance,
    s: State,
    sets: [u32; 8],
    mode: Mode,
    list: &mut [u8],
    count: usize,
    caches: &mut Caches,
) -> Bounded
    requires { Given instance.now
        (λ t. Weighable t mode s sets list.old count) (λ t. LearntOf t list.old count instance.now.rows caches.old.lateness caches.old.bounds) }
    ensures { Gives instance.now
        (λ t. Weighable t mode s sets list.old count) (λ t. LearntOf t list.old count instance.now.rows caches.old.lateness caches.old.bounds)
        (λ t. BoundedAs t mode s list.old count list.new result × LearntOf t list.new result.count instance.now.rows caches.new.lateness caches.new.bounds) }
{
    let rows = &instance.rows;
    let mut listed = count;
    for measure in [Measure::Load, Measure::Memory, Measure::Both] {
        let weights = *weights_in(rows, measure);
        let order = rows.order;
        let weighting = Weighting {
            weights,
            order,
            measure,
        };
        let weighed = capacity_bound::weigh(
            instance, &weighting, s, sets, mode, list, listed, caches,
        );
        let bounded = weighed.bounded;
        if bounded.hopeless {
            return bounded;
        }
        listed = bounded.count;
    }
    Bounded {
        hopeless: false,
        count: listed,
    }
}

// The bound by the network, then by weights: in a weighted run such that adapt to the region, else those of the rows.
fn try_all(
    instance: &Instance,
    s: State,
    sets: [u32; 8],
    mode: Mode,
    list: &mut [u8],
    count: usize,
    heuristics: &mut Heuristics,
    caches: &mut Caches,
) -> Bounded
    requires { Given instance.now (λ t. Weighable t mode s sets list.old count) (λ t. LearntOf t list.old count instance.now.rows caches.old.lateness caches.old.bounds) }
    ensures { Gives instance.now
        (λ t. Weighable t mode s sets list.old count) (λ t. LearntOf t list.old count instance.now.rows caches.old.lateness caches.old.bounds)
        (λ t. BoundedAs t mode s list.old count list.new result × LearntOf t list.new result.count instance.now.rows caches.new.lateness caches.new.bounds)
        × AdaptedAs (adapts heuristics.old) s.left heuristics.old heuristics.new }
{
    let remote = network_bound::crossing(
        &instance.rows.exclusions,
        &instance.messages,
        instance.sizes.messages,
        s,
        sets,
        instance.sizes.processors,
    );
    if s.traffic < remote {
        return Bounded {
            hopeless: true,
            count,
        };
    }
    if heuristics.guide.weighted {
        return adaptive_bound::refute(instance, s, sets, mode, list, count, heuristics, caches);
    }
    by_rows(instance, s, sets, mode, list, count, caches)
}

// The bound with the candidates that a test of every open task leaves.
fn try_tested(
    instance: &Instance,
    s: State,
    mode: Mode,
    list: &mut [u8],
    count: usize,
    heuristics: &mut Heuristics,
    caches: &mut Caches,
) -> Bounded
    requires { Given instance.now (λ t. Opens t s list.old count) (λ t. LearntOf t list.old count instance.now.rows caches.old.lateness caches.old.bounds) }
    ensures { Gives instance.now
        (λ t. Opens t s list.old count) (λ t. LearntOf t list.old count instance.now.rows caches.old.lateness caches.old.bounds)
        (λ t. BoundedAs t mode s list.old count list.new result × LearntOf t list.new result.count instance.now.rows caches.new.lateness caches.new.bounds)
        × AdaptedAs (adapts heuristics.old) s.left heuristics.old heuristics.new }
{
    let candidates = candidates::candidates_of(
        instance,
        s,
        mode,
        list,
        count,
        &mut caches.lateness,
    );
    let sets = candidates.sets;
    try_all(
        instance,
        s,
        sets,
        mode,
        list,
        candidates.count,
        heuristics,
        caches,
    )
}

// Whether the bound is tried: with four open tasks or more; in a run that is not weighted, where it has not paid of late, every 32nd time.
fn due(left: u32, heuristics: &mut Heuristics) -> bool
    ensures { (result ≡ is_due left heuristics.old) × (heuristics.new ≡ asked_heuristics left heuristics.old) }
{
    if u32::count_ones(left) < 4 {
        return false;
    }
    if heuristics.guide.weighted || heuristics.guide.credit != 0 {
        return true;
    }
    let skips = (heuristics.guide.skips % 32 + 1) % 32;
    heuristics.guide.skips = skips;
    skips == 0
}

// The credit of the bound after a try, one more than it, 0 where it is used up: a region that it gave up counts for 24, another costs 1.
fn credit(before: u32, hopeless: bool) -> u32
    ensures { result ≡ credit_after before hopeless }
{
    if hopeless {
        if 377 < before {
            return 401;
        }
        return before + 24;
    }
    if before == 0 {
        return 0;
    }
    before - 1
}

// A try of the bound is noted, unless the run is weighted: there every try is made.
fn note(heuristics: &mut Heuristics, hopeless: bool)
    ensures { heuristics.new ≡ tried_heuristics hopeless heuristics.old }
{
    if !heuristics.guide.weighted {
        heuristics.guide.credit = credit(heuristics.guide.credit, hopeless);
    }
}

// A bound on the region below a state: whether it can be given up at once, and how many conflicts are listed then.
// Where nothing is listed, the candidates are those that the state keeps.
// Where conflicts are listed, every open task is tested: the bound is tried without listing first, and again where that gives the region up.
pub fn bound(
    instance: &Instance,
    s: State,
    mode: Mode,
    list: &mut [u8],
    count: usize,
    heuristics: &mut Heuristics,
    caches: &mut Caches,
) -> Bounded
    requires { Given instance.now (λ t. Begins t mode s list.old count) (λ t. LearntOf t list.old count instance.now.rows caches.old.lateness caches.old.bounds) }
    ensures { Gives instance.now
        (λ t. Begins t mode s list.old count) (λ t. LearntOf t list.old count instance.now.rows caches.old.lateness caches.old.bounds)
        (λ t. BoundedAs t mode s list.old count list.new result × LearntOf t list.new result.count instance.now.rows caches.new.lateness caches.new.bounds)
        × AdaptedAs (adapts heuristics.old) s.left (bound_heuristics s.left result.hopeless heuristics.old) heuristics.new }
{
    if !due(s.left, heuristics) {
        return Bounded {
            hopeless: false,
            count,
        };
    }
    if !mode.listing {
        let may = s.may;
        let only = try_all(instance, s, may, mode, list, count, heuristics, caches);
        note(heuristics, only.hopeless);
        return only;
    }
    let quiet = Mode {
        listing: false,
        limited: mode.limited,
    };
    let first = try_tested(instance, s, quiet, list, count, heuristics, caches);
    if !first.hopeless {
        note(heuristics, first.hopeless);
        return first;
    }
    let second = try_tested(instance, s, mode, list, first.count, heuristics, caches);
    note(heuristics, second.hopeless);
    second
}
