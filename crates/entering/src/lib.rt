// One open task on one processor: tested by the rules, then for lateness.
#![tactic(auto)]

ghost use Rattle.std.specs.Prelude.{◌<◌, T};
ghost use Rattle.mask.specs.Mask.{has};
ghost use Rattle.timing.specs.Timing.{tasks_in};
ghost use Rattle.region.specs.Begins.{Stands, Begins};
ghost use Rattle.region.specs.Given.{Given, Gives};
ghost use Rattle.entering.specs.Entering.{AdmittedAs, EnteredAs};
ghost use Rattle.nogoods.specs.Nogoods.{KnownSets};

use late_cache::LateCache;
use nogoods::Mode;
use partial::{Instance, State};

// A task on a processor: the state to go on from, if any, and how many conflicts are listed then.
#[derive(Clone, Copy)]
pub struct Entered {
    pub next: Option<State>,
    pub count: usize,
}

// The open task k on processor p: tested by the rules, then for lateness.
pub fn admit(
    instance: &Instance,
    s: State,
    k: usize,
    p: usize,
    mode: Mode,
    list: &mut [u8],
    count: usize,
    lateness: &mut LateCache,
) -> Entered
    requires { Given instance.now (λ t. Stands t mode s list.old count) (λ t. KnownSets (tasks_in t) list.old count lateness.old)
        × T (has s.left k) × (p < instance.now.sizes.processors) }
    ensures { Gives instance.now
        (λ t. Stands t mode s list.old count) (λ t. KnownSets (tasks_in t) list.old count lateness.old)
        (λ t. AdmittedAs t mode s k p list.old count list.new result × KnownSets (tasks_in t) list.new result.count lateness.new) }
{
    let Some(next) = partial::step(instance, s, k, p) else {
        return Entered { next: None, count };
    };
    let tested = nogoods::test(
        &instance.timing,
        instance.sizes.tasks,
        next.on[p],
        mode,
        list,
        count,
        lateness,
    );
    let next = if tested.bad { None } else { Some(next) };
    Entered {
        next,
        count: tested.count,
    }
}

// The same, with the tasks that may then still stand on each processor.
pub fn enter(
    instance: &Instance,
    s: State,
    k: usize,
    p: usize,
    mode: Mode,
    list: &mut [u8],
    count: usize,
    lateness: &mut LateCache,
) -> Entered
    requires { Given instance.now (λ t. Begins t mode s list.old count) (λ t. KnownSets (tasks_in t) list.old count lateness.old)
        × T (has s.left k) × (p < instance.now.sizes.processors) }
    ensures { Gives instance.now
        (λ t. Begins t mode s list.old count) (λ t. KnownSets (tasks_in t) list.old count lateness.old)
        (λ t. EnteredAs t mode s k p list.old count list.new result × KnownSets (tasks_in t) list.new result.count lateness.new) }
{
    let admitted = admit(instance, s, k, p, mode, list, count, lateness);
    let Some(mut next) = admitted.next else {
        return admitted;
    };
    let may = narrowing::refresh(instance, next, k, p, mode, list, admitted.count, lateness);
    next.may = may;
    Entered {
        next: Some(next),
        count: admitted.count,
    }
}
