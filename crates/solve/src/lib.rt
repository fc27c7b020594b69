// The search on a table: its rows, and those that guide the search, are made once; then the first placement, or the conflicts of all.
#![tactic(auto)]

ghost use Rattle.std.specs.Prelude.{◌≤◌, length};
ghost use Rattle.table.specs.Sound.{Sound};
ghost use Rattle.partial.specs.Start.{Started};
ghost use Rattle.region.specs.Given.{InstanceOf, Given, Gives};
ghost use Rattle.bound_cache.specs.BoundCache.{Learnt};
ghost use Rattle.solve.specs.Solve.{SizesOf, SolvedAs};

use bound_cache::{Caches, EMPTY};
use heuristics::{Guide, Heuristics};
use partial::{Instance, Sizes, State};
use restarts::Listed;
use table::Table;

// The sets of the first placement, if there is one, and what is listed.
#[derive(Clone, Copy)]
pub struct Solved {
    pub placement: Option<[u32; 8]>,
    pub listed: Listed,
}

// The search from the empty placement s: the first good one, or the conflicts of all.
fn solve_from(
    instance: &Instance,
    s: State,
    list: &mut [u8],
    heuristics: &mut Heuristics,
    caches: &mut Caches,
) -> Solved
    requires { Given instance.now (λ t. Started t s) (λ t. Learnt t instance.now.rows caches.old.lateness caches.old.bounds)
        × (3 ≤ length list.old) }
    ensures { Gives instance.now
        (λ t. Started t s) (λ t. Learnt t instance.now.rows caches.old.lateness caches.old.bounds)
        (λ t. SolvedAs t list.old list.new result) }
{
    if let Some(witness) = restarts::decide(instance, s, heuristics, caches) {
        let nothing = Listed {
            cut: false,
            count: 0,
        };
        let reached = first::first(instance, s, 0, witness, list, nothing, heuristics, caches);
        let on = reached.on;
        let listed = reached.listed;
        return Solved {
            placement: Some(on),
            listed,
        };
    }
    let listed = restarts::cover(instance, s, list, 0, heuristics, caches);
    Solved {
        placement: None,
        listed,
    }
}

// How many there are of each in the table.
fn sizes_of(table: Table) -> Sizes
    ensures { SizesOf table result }
{
    let tasks = table.tasks;
    let processors = table.processors;
    let messages = table.messages;
    Sizes {
        tasks: tasks.count,
        processors: processors.count,
        messages: messages.count,
    }
}

// What the search of a table is lent. The rows that guide it are made from the others and from a state, the one that the search begins with.
fn instance_of(table: Table, s: State) -> Instance
    requires { Sound table }
    ensures { InstanceOf table result }
{
    let timing = timing::timing_of(table);
    let rows = rows::rows_of(table);
    let messages = rows::messages_of(table);
    let sizes = sizes_of(table);
    let unordered = Instance {
        timing,
        rows,
        messages,
        sizes,
    };
    let guided = static_order::ordered(&unordered, s);
    let mut instance = unordered;
    instance.rows = guided;
    instance
}

// The search on a table that was read: its instance is made once and lent. The list is the answer's part after the head.
pub fn solve(table: Table, list: &mut [u8]) -> Solved
    requires { Sound table × (3 ≤ length list.old) }
    ensures { SolvedAs table list.old list.new result }
{
    let s = partial::start(table);
    let instance = instance_of(table, s);
    // The search's own numbers: where the random numbers begin, and one try for the bound.
    let guide = Guide {
        failures: [0; 24],
        random: 2463534242,
        credit: 1,
        skips: 0,
        fuel: 0,
        weighted: false,
        nodes: 0,
        listing: None,
        tried: 0,
    };
    let mut heuristics = Heuristics {
        guide,
        kept: guide,
        weights: [[0; 24]; 26],
    };
    let mut caches = Caches {
        lateness: [0; 81921],
        bounds: [EMPTY; 2048],
    };
    solve_from(&instance, s, list, &mut heuristics, &mut caches)
}
