// The search of a region, in its two ways: whether it has a placement without a late set; and which conflicts rule out all of its placements.
#![tactic(auto)]

ghost use Rattle.std.specs.Prelude.{◌≡◌, true};
ghost use Rattle.rules.specs.Sets.{standing};
ghost use Rattle.nogoods.specs.Nogoods.{lists};
ghost use Rattle.region.specs.Begins.{Begins, Ready, Prepared};
ghost use Rattle.region.specs.Given.{Given, Gives};
ghost use Rattle.bound_cache.specs.BoundCache.{Learnt};
ghost use Rattle.restarts.specs.Restarts.{AttemptedAs, NoneGood, DecidedAs, CoveringAs};

use backtrack::Outcome;
use bound_cache::Caches;
use heuristics::Heuristics;
use nogoods::Mode;
use partial::{Instance, State};

// Whether the list of conflicts is cut, and how many it has.
#[derive(Clone, Copy)]
pub struct Listed {
    pub cut: bool,
    pub count: usize,
}

// Whether weights are found at the root of a decision that refute the whole region.
fn refuted_at_root(
    instance: &Instance,
    s: State,
    heuristics: &mut Heuristics,
    caches: &mut Caches,
) -> bool
    requires { Given instance.now (λ t. Prepared t s) (λ t. Learnt t instance.now.rows caches.old.lateness caches.old.bounds) }
    ensures { Gives instance.now
        (λ t. Prepared t s) (λ t. Learnt t instance.now.rows caches.old.lateness caches.old.bounds)
        (λ t. (result ≡ true → NoneGood t (standing s.on)) × Learnt t instance.now.rows caches.new.lateness caches.new.bounds) }
{
    nogoods::forget(&mut caches.lateness);
    let mut no_list = [0u8; 3];
    let mode = Mode {
        listing: false,
        limited: false,
    };
    let may = s.may;
    let bounded = adaptive_bound::refute_all(
        instance,
        s,
        may,
        mode,
        &mut no_list,
        0,
        heuristics,
        caches,
    );
    bounded.hopeless
}

// One run over the region below a state with the tasks that may stand on each processor. It lists nothing: it is lent a list without room.
// The heuristics that it begins with are kept, so that it can be replayed.
fn attempt(
    instance: &Instance,
    s: State,
    limited: bool,
    heuristics: &mut Heuristics,
    caches: &mut Caches,
) -> Outcome
    requires { Given instance.now (λ t. Prepared t s) (λ t. Learnt t instance.now.rows caches.old.lateness caches.old.bounds) }
    ensures { Gives instance.now
        (λ t. Prepared t s) (λ t. Learnt t instance.now.rows caches.old.lateness caches.old.bounds)
        (λ t. AttemptedAs t limited (standing s.on) result × Learnt t instance.now.rows caches.new.lateness caches.new.bounds) }
{
    runs::keep(heuristics);
    if heuristics.guide.weighted {
        let refuted = refuted_at_root(instance, s, heuristics, caches);
        if refuted {
            return Outcome::Nothing;
        }
    }
    nogoods::forget(&mut caches.lateness);
    let mut no_list = [0u8; 3];
    let mode = Mode {
        listing: false,
        limited,
    };
    let run = backtrack::backtrack(instance, s, mode, &mut no_list, 0, heuristics, caches);
    run.outcome
}

// The tasks on each processor in a placement without a late set in the region below a state, if there is one:
// 20 runs with growing fuel, since a restart chooses anew; then one to its end.
pub fn decide(
    instance: &Instance,
    s: State,
    heuristics: &mut Heuristics,
    caches: &mut Caches,
) -> Option<[u32; 8]>
    requires { Given instance.now (λ t. Ready t s) (λ t. Learnt t instance.now.rows caches.old.lateness caches.old.bounds) }
    ensures { Gives instance.now
        (λ t. Ready t s) (λ t. Learnt t instance.now.rows caches.old.lateness caches.old.bounds)
        (λ t. DecidedAs t (standing s.on) result × Learnt t instance.now.rows caches.new.lateness caches.new.bounds) }
{
    nogoods::forget(&mut caches.lateness);
    let no_list = [0u8; 3];
    let quiet = Mode {
        listing: false,
        limited: true,
    };
    let begin = narrowing::prepare(instance, s, quiet, &no_list, 0, &mut caches.lateness);
    heuristics.guide.nodes = 0;
    let mut fuel: u32 = 300;
    let mut run: u32 = 0;
    while fuel < 900000 {
        runs::begin_run(heuristics, fuel, run);
        match attempt(instance, begin, true, heuristics, caches) {
            Outcome::Found(on) => return Some(on),
            Outcome::Nothing => return None,
            Outcome::GaveUp => {}
        }
        fuel += fuel / 2;
        run += 1;
    }
    runs::begin_run(heuristics, fuel, run);
    match attempt(instance, begin, false, heuristics, caches) {
        Outcome::Found(on) => Some(on),
        _ => None, // a run without a limit does not give up
    }
}

// The conflicts of the region below a state, by a replay of the run that found no good placement.
fn replay(
    instance: &Instance,
    s: State,
    list: &mut [u8],
    count: usize,
    heuristics: &mut Heuristics,
    caches: &mut Caches,
) -> Listed
    requires { Given instance.now (λ t. Begins t lists s list.old count) (λ t. Learnt t instance.now.rows caches.old.lateness caches.old.bounds) }
    ensures { Gives instance.now
        (λ t. Begins t lists s list.old count) (λ t. Learnt t instance.now.rows caches.old.lateness caches.old.bounds)
        (λ t. CoveringAs t (standing s.on) list.old count list.new result × Learnt t instance.now.rows caches.new.lateness caches.new.bounds) }
{
    runs::bring_back(heuristics);
    nogoods::forget(&mut caches.lateness);
    let mode = Mode {
        listing: true,
        limited: false,
    };
    let begin = narrowing::prepare(instance, s, mode, list, count, &mut caches.lateness);
    let replayed = backtrack::backtrack(instance, begin, mode, list, count, heuristics, caches);
    Listed {
        cut: matches!(replayed.outcome, Outcome::Found(_)),
        count: replayed.count,
    }
}

// The region below a state without a good placement: its conflicts are listed, by the recursion over the late sets where that pays, else by a replay.
pub fn cover(
    instance: &Instance,
    s: State,
    list: &mut [u8],
    count: usize,
    heuristics: &mut Heuristics,
    caches: &mut Caches,
) -> Listed
    requires { Given instance.now
        (λ t. Begins t lists s list.old count × NoneGood t (standing s.on)) (λ t. Learnt t instance.now.rows caches.old.lateness caches.old.bounds) }
    ensures { Gives instance.now
        (λ t. Begins t lists s list.old count × NoneGood t (standing s.on)) (λ t. Learnt t instance.now.rows caches.old.lateness caches.old.bounds)
        (λ t. CoveringAs t (standing s.on) list.old count list.new result × Learnt t instance.now.rows caches.new.lateness caches.new.bounds) }
{
    let covering = late_listing::list_late_sets(
        instance,
        s,
        list,
        count,
        heuristics,
        &mut caches.lateness,
    );
    if covering.complete {
        return Listed {
            cut: false,
            count: covering.count,
        };
    }
    replay(instance, s, list, covering.count, heuristics, caches)
}
