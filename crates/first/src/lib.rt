// The search of document 01 for the first placement: task by task, processors in rising number.
#![tactic(auto)]

ghost use Rattle.std.specs.Prelude.{◌<◌, T};
ghost use Rattle.mask.specs.Mask.{has};
ghost use Rattle.rules.specs.Placement.{and_task};
ghost use Rattle.rules.specs.Sets.{standing};
ghost use Rattle.nogoods.specs.Nogoods.{lists};
ghost use Rattle.region.specs.Begins.{Stands, Ready};
ghost use Rattle.region.specs.Given.{Given, Gives};
ghost use Rattle.restarts.specs.Restarts.{NoneGood, DecidedAs, CoveringAs};
ghost use Rattle.bound_cache.specs.BoundCache.{Learnt};
ghost use Rattle.first.specs.First.{Placing, Trying, TriedAs, FirstOf};

use bound_cache::Caches;
use heuristics::Heuristics;
use nogoods::Mode;
use partial::{Instance, State};
use restarts::Listed;

// A task on a processor: the sets of a good placement if it is taken, and what is listed then.
#[derive(Clone, Copy)]
struct Tried {
    placement: Option<[u32; 8]>,
    listed: Listed,
}

// The sets of the first placement, and what is listed then.
#[derive(Clone, Copy)]
pub struct Reached {
    pub on: [u32; 8],
    pub listed: Listed,
}

// The sets of a good placement that has task k on processor p, if there is one.
fn decide_on(
    instance: &Instance,
    s: State,
    k: usize,
    p: usize,
    heuristics: &mut Heuristics,
    caches: &mut Caches,
) -> Option<[u32; 8]>
    requires { Given instance.now (λ t. Ready t s) (λ t. Learnt t instance.now.rows caches.old.lateness caches.old.bounds)
        × T (has s.left k) × (p < instance.now.sizes.processors) }
    ensures { Gives instance.now
        (λ t. Ready t s) (λ t. Learnt t instance.now.rows caches.old.lateness caches.old.bounds)
        (λ t. DecidedAs t (and_task (standing s.on) k p) result × Learnt t instance.now.rows caches.new.lateness caches.new.bounds) }
{
    nogoods::forget(&mut caches.lateness);
    // Deciding lists nothing: it is lent a list without room.
    let mut no_list = [0u8; 3];
    let mode = Mode {
        listing: false,
        limited: true,
    };
    let entered = entering::admit(
        instance,
        s,
        k,
        p,
        mode,
        &mut no_list,
        0,
        &mut caches.lateness,
    );
    let Some(next) = entered.next else {
        return None;
    };
    restarts::decide(instance, next, heuristics, caches)
}

// The region of task k on processor p, which has no good placement, is passed over: its conflicts are listed.
fn pass_over(
    instance: &Instance,
    s: State,
    k: usize,
    p: usize,
    list: &mut [u8],
    count: usize,
    heuristics: &mut Heuristics,
    caches: &mut Caches,
) -> Listed
    requires { Given instance.now
        (λ t. Stands t lists s list.old count × NoneGood t (and_task (standing s.on) k p)) (λ t. Learnt t instance.now.rows caches.old.lateness caches.old.bounds)
        × T (has s.left k) × (p < instance.now.sizes.processors) }
    ensures { Gives instance.now
        (λ t. Stands t lists s list.old count × NoneGood t (and_task (standing s.on) k p))
        (λ t. Learnt t instance.now.rows caches.old.lateness caches.old.bounds)
        (λ t. CoveringAs t (and_task (standing s.on) k p) list.old count list.new result × Learnt t instance.now.rows caches.new.lateness caches.new.bounds) }
{
    let mode = Mode {
        listing: true,
        limited: false,
    };
    nogoods::forget(&mut caches.lateness);
    let entered = entering::admit(instance, s, k, p, mode, list, count, &mut caches.lateness);
    let Some(next) = entered.next else {
        return Listed {
            cut: false,
            count: entered.count,
        };
    };
    restarts::cover(instance, next, list, entered.count, heuristics, caches)
}

// Task k on processor p. It is taken where a good placement has it there: the one at hand, or one that is found.
// Otherwise the region is passed over, and its conflicts are listed unless the list is cut already.
// Where p is interchangeable with a lower processor, which was passed over, that holds of p too.
fn try_processor(
    instance: &Instance,
    s: State,
    k: usize,
    p: usize,
    witness: [u32; 8],
    list: &mut [u8],
    listed: Listed,
    heuristics: &mut Heuristics,
    caches: &mut Caches,
) -> Tried
    requires { Given instance.now (λ t. Trying t s k p witness list.old listed) (λ t. Learnt t instance.now.rows caches.old.lateness caches.old.bounds)
        × (k < instance.now.sizes.tasks) × (p < instance.now.sizes.processors) }
    ensures { Gives instance.now
        (λ t. Trying t s k p witness list.old listed) (λ t. Learnt t instance.now.rows caches.old.lateness caches.old.bounds)
        (λ t. TriedAs t s k p witness list.old listed list.new result × Learnt t instance.now.rows caches.new.lateness caches.new.bounds) }
{
    if mask::has(witness[p], k) {
        return Tried {
            placement: Some(witness),
            listed,
        };
    }
    if symmetry::representative(&instance.rows, s, p) < p {
        return Tried {
            placement: None,
            listed,
        };
    }
    let placement = decide_on(instance, s, k, p, heuristics, caches);
    if placement.is_some() || listed.cut {
        return Tried { placement, listed };
    }
    let after = pass_over(instance, s, k, p, list, listed.count, heuristics, caches);
    Tried {
        placement: None,
        listed: after,
    }
}

// The search of document 01: task by task, processors in rising number, calling itself for the next task.
pub fn first(
    instance: &Instance,
    s: State,
    k: usize,
    witness: [u32; 8],
    list: &mut [u8],
    listed: Listed,
    heuristics: &mut Heuristics,
    caches: &mut Caches,
) -> Reached
    requires { Given instance.now (λ t. Placing t s k witness list.old listed.count) (λ t. Learnt t instance.now.rows caches.old.lateness caches.old.bounds) }
    ensures { Gives instance.now
        (λ t. Placing t s k witness list.old listed.count) (λ t. Learnt t instance.now.rows caches.old.lateness caches.old.bounds)
        (λ t. FirstOf t s list.old listed list.new result × Learnt t instance.now.rows caches.new.lateness caches.new.bounds) }
{
    let on = s.on;
    if k == instance.sizes.tasks {
        return Reached { on, listed };
    }
    let mut at = listed;
    for p in 0..instance.sizes.processors {
        let tried = try_processor(instance, s, k, p, witness, list, at, heuristics, caches);
        at = tried.listed;
        if let Some(held) = tried.placement {
            // The rules allow the task here, as a good placement has it here.
            let next = partial::step(instance, s, k, p).unwrap();
            return first(instance, next, k + 1, held, list, at, heuristics, caches);
        }
    }
    Reached { on, listed: at }
}
