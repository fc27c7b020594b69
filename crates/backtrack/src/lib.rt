// The search below a partial placement, in two modes: whether a placement without a late set exists there; and which conflicts rule out all of them.
#![tactic(auto)]

ghost use Rattle.std.specs.Prelude.{◌≡◌, true, ◌⊎◌, ◌+◌, ◌≤◌, ◌<◌, T};
ghost use Rattle.mask.specs.Mask.{has};
ghost use Rattle.rules.specs.Sets.{standing};
ghost use Rattle.region.specs.Begins.{Begins};
ghost use Rattle.region.specs.Given.{Given, Gives};
ghost use Rattle.bound_cache.specs.BoundCache.{LearntOf};
ghost use Rattle.backtrack.specs.Backtrack.{ExploredAs, BacktrackedIn};

use bound_cache::Caches;
use heuristics::Heuristics;
use nogoods::Mode;
use partial::{Instance, State};

// What the search of a region comes to: the tasks on each processor in a placement; that there is none; or that it gave up.
#[derive(Clone, Copy)]
pub enum Outcome {
    Found([u32; 8]),
    Nothing,
    GaveUp,
}

// What the search of a region comes to, and how many conflicts are listed then.
#[derive(Clone, Copy)]
pub struct Backtracked {
    pub outcome: Outcome,
    pub count: usize,
}

// Whether the search gives up: it is limited, and its fuel is used up. Otherwise one unit is used. Each node is counted.
fn gives_up(limited: bool, heuristics: &mut Heuristics) -> bool
    ensures { result ≡ true → limited ≡ true }
{
    heuristics::count_node(heuristics);
    if !limited {
        return false;
    }
    let fuel = heuristics.guide.fuel;
    if fuel == 0 {
        return true;
    }
    heuristics.guide.fuel = fuel - 1;
    false
}

// At which of m processors a round over all of them begins: any, so that a restart goes another way.
fn offset(m: usize, heuristics: &mut Heuristics) -> usize
    requires { 0 < m }
    ensures { result < m }
{
    heuristics::noise(heuristics) as usize % m
}

// The processor that is i places after the first, around all m.
fn turned(first: usize, i: usize, m: usize) -> usize
    requires { (first < m) × (i < m) × (m ≤ 8) }
    ensures { (result < m) × ((result ≡ first + i) ⊎ (result + m ≡ first + i)) }
{
    let p = first + i;
    if p < m {
        return p;
    }
    p - m
}

// The region below the open task k on processor p. It is passed over where nothing is listed and the task may not stand there,
// and where a lower processor can stand in for p.
#[cycle(backtrack_branch_explore)]
fn explore(
    instance: &Instance,
    s: State,
    k: usize,
    p: usize,
    mode: Mode,
    list: &mut [u8],
    count: usize,
    heuristics: &mut Heuristics,
    caches: &mut Caches,
) -> Backtracked
    requires { Given instance.now (λ t. Begins t mode s list.old count) (λ t. LearntOf t list.old count instance.now.rows caches.old.lateness caches.old.bounds)
        × T (has s.left k) × (p < instance.now.sizes.processors) }
    ensures { Gives instance.now
        (λ t. Begins t mode s list.old count) (λ t. LearntOf t list.old count instance.now.rows caches.old.lateness caches.old.bounds)
        (λ t. ExploredAs t mode s k p list.old count list.new result × LearntOf t list.new result.count instance.now.rows caches.new.lateness caches.new.bounds) }
{
    if !mode.listing {
        if !mask::has(s.may[p], k) {
            return Backtracked {
                outcome: Outcome::Nothing,
                count,
            };
        }
    }
    if symmetry::representative(&instance.rows, s, p) != p {
        return Backtracked {
            outcome: Outcome::Nothing,
            count,
        };
    }
    let entered = entering::enter(instance, s, k, p, mode, list, count, &mut caches.lateness);
    let Some(next) = entered.next else {
        return Backtracked {
            outcome: Outcome::Nothing,
            count: entered.count,
        };
    };
    backtrack(
        instance,
        next,
        mode,
        list,
        entered.count,
        heuristics,
        caches,
    )
}

// The region below a state with open tasks: one of them by `pick`, on each processor in turn. One that no processor can take is blamed.
#[cycle(backtrack_branch_explore)]
fn branch(
    instance: &Instance,
    s: State,
    mode: Mode,
    list: &mut [u8],
    count: usize,
    heuristics: &mut Heuristics,
    caches: &mut Caches,
) -> Backtracked
    requires { Given instance.now (λ t. Begins t mode s list.old count) (λ t. LearntOf t list.old count instance.now.rows caches.old.lateness caches.old.bounds)
        × (0 < s.left) }
    ensures { Gives instance.now
        (λ t. Begins t mode s list.old count) (λ t. LearntOf t list.old count instance.now.rows caches.old.lateness caches.old.bounds)
        (λ t. BacktrackedIn t mode (standing s.on) list.old count list.new result × LearntOf t list.new result.count instance.now.rows caches.new.lateness caches.new.bounds) }
{
    let may = s.may;
    let k = branching::pick(
        &instance.rows.base,
        instance.sizes.processors,
        s.left,
        &may,
        heuristics,
    );
    let first = offset(instance.sizes.processors, heuristics);
    let mut at = count;
    for i in 0..instance.sizes.processors {
        let p = turned(first, i, instance.sizes.processors);
        let explored = explore(instance, s, k, p, mode, list, at, heuristics, caches);
        let Outcome::Nothing = explored.outcome else {
            return explored;
        };
        at = explored.count;
    }
    heuristics::blame(heuristics, k);
    Backtracked {
        outcome: Outcome::Nothing,
        count: at,
    }
}

// The region below a state: the placement at hand where no task is open, nothing where the bound gives the region up, else its branches.
#[cycle(backtrack_branch_explore)]
pub fn backtrack(
    instance: &Instance,
    s: State,
    mode: Mode,
    list: &mut [u8],
    count: usize,
    heuristics: &mut Heuristics,
    caches: &mut Caches,
) -> Backtracked
    requires { Given instance.now (λ t. Begins t mode s list.old count) (λ t. LearntOf t list.old count instance.now.rows caches.old.lateness caches.old.bounds) }
    ensures { Gives instance.now
        (λ t. Begins t mode s list.old count) (λ t. LearntOf t list.old count instance.now.rows caches.old.lateness caches.old.bounds)
        (λ t. BacktrackedIn t mode (standing s.on) list.old count list.new result × LearntOf t list.new result.count instance.now.rows caches.new.lateness caches.new.bounds) }
{
    if gives_up(mode.limited, heuristics) {
        return Backtracked {
            outcome: Outcome::GaveUp,
            count,
        };
    }
    if s.left == 0 {
        let on = s.on;
        return Backtracked {
            outcome: Outcome::Found(on),
            count,
        };
    }
    let bounded = bound::bound(instance, s, mode, list, count, heuristics, caches);
    if bounded.hopeless {
        return Backtracked {
            outcome: Outcome::Nothing,
            count: bounded.count,
        };
    }
    branch(instance, s, mode, list, bounded.count, heuristics, caches)
}
