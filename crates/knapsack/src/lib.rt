// How much more a processor can take: a bound on the weight of the open tasks that it can still hold, by recursion over their subsets.
#![tactic(auto)]

ghost use Rattle.std.specs.Prelude.{◌≡◌, ◌+◌, ◌<◌, get_or};
ghost use Rattle.schedule.specs.Arrays.{tasks_of};
ghost use Rattle.knapsack.specs.Knapsack.{weight_of, has_room, Packs, Begun, PackedAs, TakenAs};
ghost use Rattle.nogoods.specs.Nogoods.{KnownSets};

use late_cache::LateCache;
use nogoods::Mode;
use numbers::wide;
use rows::{Measure, Rows};
use schedule::Timing;

// A processor and what it may still be given: the tasks on it, and the candidates, which are tried in a given order from `at` on; what is left of
// its memory (space) and load (spare); the weight taken so far, and what that comes to with all candidates (reach). Only what is below `stop` counts;
// `best` is reached by other candidates, and `best_set` is the heaviest set so far. `fuel` is how many calls of `most` may still try candidates.
#[derive(Clone, Copy)]
pub struct Pack {
    pub on: u32,
    pub candidates: u32,
    pub at: usize,
    pub space: u64,
    pub spare: u64,
    pub weight: u64,
    pub reach: u64,
    pub stop: u64,
    pub best: u64,
    pub best_set: u32,
    pub fuel: u32,
}

// The weights by which sets of tasks are compared, the order in which tasks are tried, and what the weights are.
#[derive(Clone, Copy)]
pub struct Weighting {
    pub weights: [u32; 24],
    pub order: [u32; 24],
    pub measure: Measure,
}

// No less than the most weight that a processor can take; the tasks on it and those taken in the heaviest set that was found, of which nothing is
// claimed, as it only guides the search; how many conflicts are listed then, and the fuel that is left.
#[derive(Clone, Copy)]
pub struct Packed {
    pub most: u64,
    pub set: u32,
    pub count: usize,
    pub fuel: u32,
}

// Whether task k fits what is left of memory (space) and load (spare), and none of the tasks there is excluded from it.
fn room(rows: &Rows, on: u32, space: u64, spare: u64, k: usize) -> bool
    requires { k < 24 }
    ensures { result ≡ has_room rows.now.memory rows.now.exclusions rows.now.load on space spare k }
{
    if space < wide(rows.memory[k]) {
        return false;
    }
    if spare < wide(rows.load[k]) {
        return false;
    }
    rows.exclusions[k] & on == 0
}

// The candidate k taken, beside those of `pack`: the most weight with it, where it can stand there; else the best so far.
#[cycle(most_take)]
fn take<'a>(
    timing: &'a Timing,
    rows: &'a Rows,
    weighting: &'a Weighting,
    n: usize,
    pack: Pack,
    k: usize,
    mode: Mode,
    list: &mut [u8],
    count: usize,
    lateness: &mut LateCache,
) -> Packed
    requires { Packs n timing.now pack list.old count
        × (k < n) × (pack.reach ≡ pack.weight + get_or weighting.now.weights k 0 + weight_of n weighting.now.weights pack.candidates) × KnownSets (tasks_of n timing.now) list.old count lateness.old }
    ensures { TakenAs n (tasks_of n timing.now) mode rows.now.memory rows.now.exclusions
        rows.now.load weighting.now.weights pack k list.old count list.new result × KnownSets (tasks_of n timing.now) list.new result.count lateness.new }
{
    if !room(rows, pack.on, pack.space, pack.spare, k) {
        return Packed {
            most: pack.best,
            set: pack.best_set,
            count,
            fuel: pack.fuel,
        };
    }
    let set = mask::insert(pack.on, k);
    let tested = nogoods::test(timing, n, set, mode, list, count, lateness);
    if tested.bad {
        return Packed {
            most: pack.best,
            set: pack.best_set,
            count: tested.count,
            fuel: pack.fuel,
        };
    }
    let mut with_k = pack;
    with_k.on = set;
    with_k.space = pack.space - wide(rows.memory[k]);
    with_k.spare = pack.spare - wide(rows.load[k]);
    with_k.weight = pack.weight + wide(weighting.weights[k]);
    most(
        timing,
        rows,
        weighting,
        n,
        with_k,
        mode,
        list,
        tested.count,
        lateness,
    )
}

// What a call of `most` begins with: the weight so far is the best where that is more, and a unit of fuel is used. Without fuel no candidate is tried.
fn begin(pack: Pack) -> Pack
    ensures { Begun pack result }
{
    let mut begun = pack;
    if pack.best < pack.weight {
        begun.best = pack.weight;
        begun.best_set = pack.on;
    }
    if pack.fuel == 0 {
        begun.at = 24;
        return begun;
    }
    begun.fuel = pack.fuel - 1;
    begun
}

// No less than the most weight that the processor can come to, of what is below `stop`. The candidates that the order leaves out count in full, and
// so do those that are not tried for want of fuel.
#[cycle(most_take)]
pub fn most<'a>(
    timing: &'a Timing,
    rows: &'a Rows,
    weighting: &'a Weighting,
    n: usize,
    pack: Pack,
    mode: Mode,
    list: &mut [u8],
    count: usize,
    lateness: &mut LateCache,
) -> Packed
    requires { Packs n timing.now pack list.old count
        × (pack.reach ≡ pack.weight + weight_of n weighting.now.weights pack.candidates) × KnownSets (tasks_of n timing.now) list.old count lateness.old }
    ensures { PackedAs n (tasks_of n timing.now) mode rows.now.memory rows.now.exclusions
        rows.now.load weighting.now.weights pack list.old count list.new result × KnownSets (tasks_of n timing.now) list.new result.count lateness.new }
{
    let mut left = begin(pack);
    let mut listed = count;
    while left.at < 24 && left.best < left.stop && left.best < left.reach {
        let at = left.at;
        // The remainder costs nothing, and below 32 is all that `has` asks: a candidate is below n anyway.
        let k = (weighting.order[at] % 32) as usize;
        left.at = at + 1;
        if mask::has(left.candidates, k) {
            left.candidates = mask::remove(left.candidates, k);
            let taken = take(
                timing, rows, weighting, n, left, k, mode, list, listed, lateness,
            );
            left.best = taken.most;
            left.best_set = taken.set;
            left.fuel = taken.fuel;
            listed = taken.count;
            left.reach -= wide(weighting.weights[k]);
        }
    }
    if left.best < left.stop && left.best < left.reach {
        left.best = left.reach;
    }
    Packed {
        most: left.best,
        set: left.best_set,
        count: listed,
        fuel: left.fuel,
    }
}
