// The conflicts of a region without a replay: by the recursion over the late sets, where the decision was long and all late sets of the table have a
// place in the list. When it is used is a heuristic: no answer rests on it.
#![tactic(auto)]

ghost use Rattle.std.specs.Prelude.{◌≡◌, ◌+◌, ◌*◌, ◌<◌, length};
ghost use Rattle.table.specs.declared.Table.{Table};
ghost use Rattle.timing.specs.Timing.{tasks_in};
ghost use Rattle.partial.specs.Partial.{Lent, Fits};
ghost use Rattle.late_cache.specs.LateCache.{LateCache};
ghost use Rattle.region.specs.Begins.{Opens};
ghost use Rattle.rows.specs.declared.Messages.{Messages};
ghost use Rattle.region.specs.Given.{Given, Gives, with_links};
ghost use Rattle.late_sets.specs.LateSets.{CoversAs};
ghost use Rattle.late_sets.specs.declared.Covering.{Covering};
ghost use Rattle.late_listing.specs.LateListing.{emptied_of, steps_for, worth_a_try, finding_of, examined, Examines};

use heuristics::Heuristics;
use late_cache::LateCache;
use late_sets::Covering;
use partial::{Instance, State};

// The state with no task placed: each processor has back what the tasks on it took. The network, and what may still stand on the processors, are not
// asked for here, and stay as they are.
fn emptied(instance: &Instance, s: State) -> State
    requires { (t : Table) × (links : Messages) × Lent t instance.now.sizes instance.now.rows links × Fits t s }
    ensures { result ≡ emptied_of instance.now.rows instance.now.sizes s }
{
    let mut memory = [0u64; 8];
    let mut load = [0u64; 8];
    for p in 0..instance.sizes.processors {
        memory[p] = s.memory[p] + subgradient::total(&instance.rows.memory, s.on[p]);
        load[p] = s.load[p] + subgradient::total(&instance.rows.load, s.on[p]);
    }
    State {
        on: [0; 8],
        left: mask::all_below(instance.sizes.tasks),
        may: s.may,
        memory,
        load,
        traffic: s.traffic,
    }
}

// How many steps the recursion may take: 100 for each node of the decision, so that it takes no longer than that did.
fn steps_for(nodes: u32) -> u32
    ensures { result ≡ steps_for nodes }
{
    if 40000000 <= nodes {
        return 4000000000;
    }
    100 * nodes
}

// Whether it is still to be found out that all late sets have a place, and the decision had more than twice as many nodes as when that failed last.
fn worth_a_try(heuristics: &Heuristics) -> bool
    ensures { result ≡ worth_a_try heuristics.now }
{
    heuristics.guide.listing.is_none() && heuristics.guide.tried < heuristics.guide.nodes / 2
}

// What a listing of all late sets tells: whether they have a place; nothing, where the steps did not suffice to tell.
fn finding_of(covering: Covering, places: usize) -> Option<bool>
    ensures { result ≡ finding_of covering places }
{
    if covering.complete {
        return Some(covering.count <= places);
    }
    if covering.steps == 0 {
        return None;
    }
    Some(false)
}

// Finds out whether all late sets of the table have a place in a list of so many: they are listed in a list of their own, from the empty placement on.
fn examine(
    instance: &Instance,
    s: State,
    places: usize,
    heuristics: &mut Heuristics,
    lateness: &mut LateCache,
)
    requires { (links : Messages) × Given (with_links instance.now links) (λ t. Fits t s) (λ t. LateCache (tasks_in t) lateness.old) }
    ensures { ((c : Covering) × (heuristics.new ≡ examined heuristics.old places c))
        × ((links : Messages) → Gives (with_links instance.now links)
        (λ t. Fits t s) (λ t. LateCache (tasks_in t) lateness.old) (λ t. LateCache (tasks_in t) lateness.new)) }
{
    let nodes = heuristics.guide.nodes;
    let empty = emptied(instance, s);
    let mut scratch = [0u8; 16383];
    let covering = late_sets::cover_late_sets(
        instance,
        empty,
        steps_for(nodes),
        &mut scratch,
        0,
        lateness,
    );
    match finding_of(covering, places) {
        None => heuristics::note_tried(heuristics, nodes),
        Some(all) => heuristics::note_listing(heuristics, all),
    }
}

// Lists conflicts until every late set that could stand in the region holds one. It is not complete, and has listed nothing, where the last decision was
// short or not all late sets of the table have a place.
pub fn list_late_sets(
    instance: &Instance,
    s: State,
    list: &mut [u8],
    count: usize,
    heuristics: &mut Heuristics,
    lateness: &mut LateCache,
) -> Covering
    requires { (links : Messages) × Given (with_links instance.now links) (λ t. Opens t s list.old count) (λ t. LateCache (tasks_in t) lateness.old) }
    ensures { Examines heuristics.old (length list.old) heuristics.new
        × ((links : Messages) → Gives (with_links instance.now links)
        (λ t. Opens t s list.old count) (λ t. LateCache (tasks_in t) lateness.old)
        (λ t. CoversAs t s (λ x. Unit {0}) list.old count list.new result × LateCache (tasks_in t) lateness.new)) }
{
    let nodes = heuristics.guide.nodes;
    let unlisted = Covering {
        complete: false,
        steps: 0,
        count,
    };
    if nodes < 200 {
        return unlisted;
    }
    if worth_a_try(heuristics) {
        examine(instance, s, (list.len() - 3) / 6, heuristics, lateness);
    }
    if heuristics.guide.listing != Some(true) {
        return unlisted;
    }
    late_sets::cover_late_sets(instance, s, steps_for(nodes), list, count, lateness)
}
