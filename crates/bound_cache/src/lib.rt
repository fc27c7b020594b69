// What is kept of the bounds on what a processor can take, so that they are seldom worked out twice.
#![tactic(auto)]

ghost use Rattle.std.specs.Prelude.{◌≡◌, ◌<◌};
ghost use Rattle.bound_cache.specs.BoundCache.{number_of, entry_of, recall_of, keep_of};

use late_cache::LateCache;
use numbers::wide;
use rows::Measure;

// What a bound was worked out from: the tasks on a processor, the candidates, the number of the row of weights, and the memory (space) and load (spare)
// left.
#[derive(Clone, Copy, PartialEq, Eq)]
pub struct Key {
    pub on: u32,
    pub candidates: u32,
    pub row: usize,
    pub space: u64,
    pub spare: u64,
}

// A bound that is kept.
#[derive(Clone, Copy)]
pub struct Entry {
    pub key: Key,
    pub top: u64,
}

// 2,048 bounds.
pub type BoundCache = [Entry; 2048];

// The bound without tasks and candidates, which is 0: with it the cache begins.
pub const EMPTY: Entry = Entry {
    key: Key {
        on: 0,
        candidates: 0,
        row: 0,
        space: 0,
        spare: 0,
    },
    top: 0,
};

// All that the search has learnt: which sets are late, and how much processors can take.
#[derive(Clone, Copy)]
pub struct Caches {
    pub lateness: LateCache,
    pub bounds: BoundCache,
}

// The number of the row of weights by a measure; 3 for weights that are no row.
pub fn number_of(measure: Measure) -> usize
    ensures { result ≡ number_of measure }
{
    match measure {
        Measure::Load => 0,
        Measure::Memory => 1,
        Measure::Both => 2,
        Measure::Other => 3,
    }
}

// The entry for these tasks, candidates, weights and memory left. Any entry would do: no answer rests on it.
fn entry_of(key: Key) -> usize
    ensures { (result ≡ entry_of key) × (result < 2048) }
{
    let tasks = wide(key.on) * 2654435761 % 4294967296;
    let open = wide(key.candidates) * 2246822519 % 4294967296;
    let left = key.space % 4294967296 * 3266489917 % 4294967296;
    let kind = (key.row % 4096) as u64 * 668265263;
    let mixed = (tasks + open + left + kind) % 4294967296;
    (mixed / 2097152) as usize
}

// The bound that is kept for these tasks, candidates and weights, with that much memory and load left.
pub fn recall(key: Key, bounds: &BoundCache) -> Option<u64>
    ensures { result ≡ recall_of bounds.now key }
{
    let entry = bounds[entry_of(key)];
    if entry.key == key {
        return Some(entry.top);
    }
    None
}

// Keeps a bound, in the place of another.
pub fn keep(key: Key, top: u64, bounds: &mut BoundCache)
    ensures { bounds.new ≡ keep_of bounds.old key top }
{
    bounds[entry_of(key)] = Entry { key, top };
}
