// The capacity bound by weights that adapt to a region: weights are looked for under which the open tasks weigh more than the processors can take.
// Any weights are right, so no answer rests on how they are found.
#![tactic(auto)]

ghost use Rattle.std.specs.Prelude.{◌+◌, ◌≤◌};
ghost use Rattle.region.specs.Given.{Given, Gives};
ghost use Rattle.bound_cache.specs.BoundCache.{LearntOf};
ghost use Rattle.capacity_bound.specs.Bound.{BoundedAs};
ghost use Rattle.capacity_bound.specs.CapacityBound.{Weighable};
ghost use Rattle.adaptive_bound.specs.AdaptiveBound.{row_for, OnlyRow, OnlyRoot};

use bound_cache::Caches;
use capacity_bound::Bounded;
use descent::Pace;
use heuristics::{Heuristics, ROOT};
use knapsack::Weighting;
use nogoods::Mode;
use partial::{Instance, State};
use rows::Measure;

// Below a state a few rounds from the weights of the region around it; at the root of a decision many.
const NODE: Pace = Pace {
    rounds: 21,
    alpha: 30,
    patience: 21,
    calls: 18446744073709551615,
    far: 1,
};

const START: Pace = Pace {
    rounds: 200,
    alpha: 100,
    patience: 8,
    calls: 1000000,
    far: 8,
};

// Whether a region is given up, and the best weights that were found for it.
#[derive(Clone, Copy)]
struct Descended {
    bounded: Bounded,
    best: [u32; 24],
}

// Looks for weights by which the region is given up.
fn descend(
    instance: &Instance,
    s: State,
    sets: [u32; 8],
    from: [u32; 24],
    pace: Pace,
    mode: Mode,
    list: &mut [u8],
    count: usize,
    caches: &mut Caches,
) -> Descended
    requires { Given instance.now
        (λ t. Weighable t mode s sets list.old count) (λ t. LearntOf t list.old count instance.now.rows caches.old.lateness caches.old.bounds)
        × (pace.far ≤ 8) × (pace.alpha ≤ 100) × (pace.rounds ≤ 256) }
    ensures { Gives instance.now
        (λ t. Weighable t mode s sets list.old count) (λ t. LearntOf t list.old count instance.now.rows caches.old.lateness caches.old.bounds)
        (λ t. BoundedAs t mode s list.old count list.new result.bounded × LearntOf t list.new result.bounded.count instance.now.rows caches.new.lateness caches.new.bounds) }
{
    let mut descent = descent::begin(from, pace);
    let mut listed = count;
    let mut hopeless = false;
    while !hopeless && descent.rounds != 0 {
        let weights = descent.weights;
        let order = ordering::order_of(&weights, &instance.rows.weight);
        let weighting = Weighting {
            weights,
            order,
            measure: Measure::Other,
        };
        let weighed = capacity_bound::weigh(
            instance, &weighting, s, sets, mode, list, listed, caches,
        );
        let bounded = weighed.bounded;
        hopeless = bounded.hopeless;
        listed = bounded.count;
        if hopeless {
            descent.best = weights;
        } else {
            let found = weighed.sets;
            descent = descent::after(
                descent,
                pace,
                found,
                instance.sizes.processors,
                s.left,
                weighed.gap,
                weighed.calls,
            );
        }
    }
    let best = descent.best;
    Descended {
        bounded: Bounded {
            hopeless,
            count: listed,
        },
        best,
    }
}

// The bound for a region below others: from the best weights of the region around it, which has one open task more; where conflicts are listed, from
// those by which the region was given up before.
pub fn refute(
    instance: &Instance,
    s: State,
    sets: [u32; 8],
    mode: Mode,
    list: &mut [u8],
    count: usize,
    heuristics: &mut Heuristics,
    caches: &mut Caches,
) -> Bounded
    requires { Given instance.now
        (λ t. Weighable t mode s sets list.old count) (λ t. LearntOf t list.old count instance.now.rows caches.old.lateness caches.old.bounds) }
    ensures { Gives instance.now
        (λ t. Weighable t mode s sets list.old count) (λ t. LearntOf t list.old count instance.now.rows caches.old.lateness caches.old.bounds)
        (λ t. BoundedAs t mode s list.old count list.new result × LearntOf t list.new result.count instance.now.rows caches.new.lateness caches.new.bounds)
        × OnlyRow (row_for s.left) heuristics.old heuristics.new }
{
    let open = u32::count_ones(s.left) as usize;
    let mut around = open + 1;
    if mode.listing {
        around = open;
    }
    let from = heuristics.weights[around];
    let descended = descend(instance, s, sets, from, NODE, mode, list, count, caches);
    let best = descended.best;
    heuristics.weights[open] = best;
    descended.bounded
}

// The bound for the region of a whole decision: from the best weights of the decision before.
pub fn refute_all(
    instance: &Instance,
    s: State,
    sets: [u32; 8],
    mode: Mode,
    list: &mut [u8],
    count: usize,
    heuristics: &mut Heuristics,
    caches: &mut Caches,
) -> Bounded
    requires { Given instance.now
        (λ t. Weighable t mode s sets list.old count) (λ t. LearntOf t list.old count instance.now.rows caches.old.lateness caches.old.bounds) }
    ensures { Gives instance.now
        (λ t. Weighable t mode s sets list.old count) (λ t. LearntOf t list.old count instance.now.rows caches.old.lateness caches.old.bounds)
        (λ t. BoundedAs t mode s list.old count list.new result × LearntOf t list.new result.count instance.now.rows caches.new.lateness caches.new.bounds)
        × OnlyRoot s.left heuristics.old heuristics.new }
{
    let mut from = heuristics.weights[ROOT];
    if subgradient::total(&from, s.left) == 0 {
        let base = instance.rows.weight;
        from = subgradient::rescaled(base, s.left);
    }
    let descended = descend(instance, s, sets, from, START, mode, list, count, caches);
    let best = descended.best;
    heuristics.weights[ROOT] = best;
    heuristics.weights[u32::count_ones(s.left) as usize + 1] = best;
    descended.bounded
}
