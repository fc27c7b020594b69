// Conflicts for every late set that could stand on a processor in a region, by recursion over the sets of tasks.
#![tactic(auto)]

ghost use Rattle.std.specs.Prelude.{◌<◌, T};
ghost use Rattle.timing.specs.Timing.{tasks_in};
ghost use Rattle.late_cache.specs.LateCache.{LateCache};
ghost use Rattle.nogoods.specs.Nogoods.{Nogoods, KnownSets};
ghost use Rattle.partial.specs.Partial.{Fits};
ghost use Rattle.rows.specs.declared.Messages.{Messages};
ghost use Rattle.region.specs.Given.{Given, Gives, with_links};
ghost use Rattle.late_sets.specs.LateSets.{Continues, Possible, InTime, BeginsWith, CoversAs};

use late_cache::LateCache;
use nogoods::Mode;
use partial::{Instance, State};
use subsets::Subset;

// Whether every late set holds a listed conflict; how many steps are left, and how many conflicts are listed then.
#[derive(Clone, Copy)]
pub struct Covering {
    pub complete: bool,
    pub steps: u32,
    pub count: usize,
}

// The late sets that have the subset, its next task, and beside them only later tasks. A set that can stand nowhere is passed over with all that hold
// it. Of a late set a conflict within it is listed, which lies within all that hold it.
#[cycle(cover_supersets_cover_with_next)]
fn cover_with_next(
    instance: &Instance,
    s: State,
    subset: Subset,
    steps: u32,
    list: &mut [u8],
    count: usize,
    lateness: &mut LateCache,
) -> Covering
    requires { ((links : Messages) × Given (with_links instance.now links)
        (λ t. Continues t subset list.old count) (λ t. KnownSets (tasks_in t) list.old count lateness.old))
        × (subset.next < instance.now.sizes.tasks) }
    ensures { (links : Messages) → Gives (with_links instance.now links)
        (λ t. Continues t subset list.old count) (λ t. KnownSets (tasks_in t) list.old count lateness.old)
        (λ t. (Fits t s → Possible t instance.now.rows s subset → CoversAs t s (λ x. BeginsWith subset x × T (x subset.next)) list.old count list.new result)
        × Nogoods (tasks_in t) list.new result.count × KnownSets (tasks_in t) list.new result.count lateness.new) }
{
    let wider = subsets::with_next(&instance.rows, instance.sizes.processors, s, subset);
    let set = wider.set;
    if wider.processors == 0 {
        return Covering {
            complete: true,
            steps,
            count,
        };
    }
    if !late_cache::is_late(&instance.timing, instance.sizes.tasks, set, lateness) {
        return cover_supersets(instance, s, wider, steps, list, count, lateness);
    }
    let mode = Mode {
        listing: true,
        limited: false,
    };
    let tested = nogoods::test(
        &instance.timing,
        instance.sizes.tasks,
        set,
        mode,
        list,
        count,
        lateness,
    );
    Covering {
        complete: tested.bad,
        steps,
        count: tested.count,
    }
}

// The late sets that have the subset, which is not late, and beside it only tasks from the next one on: those with the next task, then those without.
#[cycle(cover_supersets_cover_with_next)]
fn cover_supersets(
    instance: &Instance,
    s: State,
    subset: Subset,
    steps: u32,
    list: &mut [u8],
    count: usize,
    lateness: &mut LateCache,
) -> Covering
    requires { (links : Messages) × Given (with_links instance.now links)
        (λ t. Continues t subset list.old count) (λ t. KnownSets (tasks_in t) list.old count lateness.old) }
    ensures { (links : Messages) → Gives (with_links instance.now links)
        (λ t. Continues t subset list.old count) (λ t. KnownSets (tasks_in t) list.old count lateness.old)
        (λ t. (Fits t s → Possible t instance.now.rows s subset → InTime t subset → CoversAs t s (BeginsWith subset) list.old count list.new result)
        × Nogoods (tasks_in t) list.new result.count × KnownSets (tasks_in t) list.new result.count lateness.new) }
{
    if subset.next == instance.sizes.tasks {
        return Covering {
            complete: true,
            steps,
            count,
        };
    }
    if steps == 0 {
        return Covering {
            complete: false,
            steps,
            count,
        };
    }
    let with_it = cover_with_next(instance, s, subset, steps - 1, list, count, lateness);
    if !with_it.complete {
        return with_it;
    }
    let mut without = subset;
    without.next = subset.next + 1;
    cover_supersets(
        instance,
        s,
        without,
        with_it.steps,
        list,
        with_it.count,
        lateness,
    )
}

// The late sets that could stand on a processor in the region below a state: conflicts are listed until each of them holds one. It is not complete
// where the steps are used up or the list is full. Of a state that does not fit the table nothing is claimed.
pub fn cover_late_sets(
    instance: &Instance,
    s: State,
    steps: u32,
    list: &mut [u8],
    count: usize,
    lateness: &mut LateCache,
) -> Covering
    requires { (links : Messages) × Given (with_links instance.now links) (λ t. Nogoods (tasks_in t) list.old count) (λ t. LateCache (tasks_in t) lateness.old) }
    ensures { (links : Messages) → Gives (with_links instance.now links)
        (λ t. Nogoods (tasks_in t) list.old count) (λ t. LateCache (tasks_in t) lateness.old)
        (λ t. (Fits t s → CoversAs t s (λ x. Unit {0}) list.old count list.new result) × LateCache (tasks_in t) lateness.new) }
{
    nogoods::forget(lateness);
    let nothing = Subset {
        set: 0,
        next: 0,
        processors: mask::all_below(instance.sizes.processors),
        memory: 0,
        load: 0,
    };
    cover_supersets(instance, s, nothing, steps, list, count, lateness)
}
