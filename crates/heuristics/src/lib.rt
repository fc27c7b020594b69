// What guides the search, and changes as it goes: failure weights, the state of its random numbers, weights for the capacity bound. No answer rests on
// them.
#![tactic(auto)]

ghost use Rattle.std.specs.Prelude.{◌≡◌, ◌/◌, ◌<◌};
ghost use Rattle.heuristics.specs.Heuristics.{heavier, next_state, one_more, after_blame, after_noise, after_node, tried_noted, listing_noted};

use numbers::wide;

// What guides a run.
#[derive(Clone, Copy)]
pub struct Guide {
    // The tasks' failure weights.
    pub failures: [u32; 24],
    // The state of the random numbers.
    pub random: u32,
    // The credit of the bound.
    pub credit: u32,
    // How often the bound was skipped.
    pub skips: u32,
    // How many steps the search may still take.
    pub fuel: u32,
    // Whether the weights of the bound adapt to the region; if not, they are those of the rows.
    pub weighted: bool,
    // How many nodes the last decision had.
    pub nodes: u32,
    // Whether all late sets of the table have a place in the list, where that is known.
    pub listing: Option<bool>,
    // How many nodes the decision had after which that was tried last and was not found out.
    pub tried: u32,
}

// What guides the run, a copy of what it began with, and weights for the capacity bound: for each number of open tasks from 0 to 25, the best that were
// found for a region with so many.
#[derive(Clone, Copy)]
pub struct Heuristics {
    pub guide: Guide,
    pub kept: Guide,
    pub weights: [[u32; 24]; 26],
}

// The last row of weights: the best that were found for the region of a whole decision.
pub const ROOT: usize = 25;

// A failure weight after one failure more. It stays where it has grown large.
fn heavier(weight: u32) -> u32
    ensures { result ≡ heavier weight }
{
    if 4000000000 <= weight {
        return weight;
    }
    weight + 16
}

// The failure weight of task k grows: no processor could take it.
pub fn blame(heuristics: &mut Heuristics, k: usize)
    requires { k < 24 }
    ensures { heuristics.new ≡ after_blame heuristics.old k }
{
    heuristics.guide.failures[k] = heavier(heuristics.guide.failures[k]);
}

// A pseudo-random number below 128: the high bits of a linear congruential generator.
pub fn noise(heuristics: &mut Heuristics) -> u64
    ensures { (result ≡ next_state heuristics.old.guide.random / 16777216) × (heuristics.new ≡ after_noise heuristics.old) }
{
    let next = (wide(heuristics.guide.random) * 1103515245 + 12345) % 2147483648;
    heuristics.guide.random = next as u32;
    next / 16777216
}

// A count after one more. It stays where it has grown large.
fn one_more(count: u32) -> u32
    ensures { result ≡ one_more count }
{
    if 4000000000 <= count {
        return count;
    }
    count + 1
}

// One more node of the decision.
pub fn count_node(heuristics: &mut Heuristics)
    ensures { heuristics.new ≡ after_node heuristics.old }
{
    heuristics.guide.nodes = one_more(heuristics.guide.nodes);
}

// After so many nodes it was not found out whether all late sets have a place. A replay does not take that back: it is written in the copy too.
pub fn note_tried(heuristics: &mut Heuristics, nodes: u32)
    ensures { heuristics.new ≡ tried_noted heuristics.old nodes }
{
    heuristics.guide.tried = nodes;
    heuristics.kept.tried = nodes;
}

// It was found out whether all late sets have a place. A replay does not take that back either.
pub fn note_listing(heuristics: &mut Heuristics, all: bool)
    ensures { heuristics.new ≡ listing_noted heuristics.old all }
{
    heuristics.guide.listing = Some(all);
    heuristics.kept.listing = Some(all);
}
