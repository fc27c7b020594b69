// Sets of tasks that could stand on a processor in a region, each made from a smaller one by its next task.
#![tactic(auto)]

ghost use Rattle.std.specs.Prelude.{◌≡◌, ◌≤◌, ◌<◌};
ghost use Rattle.finite.specs.Finite.{only};
ghost use Rattle.mask.specs.Mask.{has};
ghost use Rattle.subsets.specs.Subsets.{can_stand, takes, processors_for, with_next, Small};

use numbers::wide;
use partial::State;
use rows::Rows;

// A set of tasks, and the task that may join it next, which is beyond them; the processors on which the set could stand in the region; and what its
// open tasks take of memory and load.
#[derive(Clone, Copy)]
pub struct Subset {
    pub set: u32,
    pub next: usize,
    pub processors: u32,
    pub memory: u64,
    pub load: u64,
}

// Whether task k can stand on processor p in the region below a state: only where it stands; while it is open, wherever it may reside.
fn can_stand(rows: &Rows, s: State, k: usize, p: usize) -> bool
    requires { (k < 24) × (p < 8) }
    ensures { result ≡ can_stand rows.now s k p }
{
    if mask::has(s.left, k) {
        return mask::has(rows.residence[k], p);
    }
    mask::has(s.on[p], k)
}

// Whether processor p can take the subset, to which task k was added: what is left there is enough for the open tasks, and k can stand there.
fn takes(rows: &Rows, s: State, subset: Subset, k: usize, p: usize) -> bool
    requires { (k < 24) × (p < 8) }
    ensures { result ≡ takes rows.now s subset k p }
{
    if !mask::has(subset.processors, p) {
        return false;
    }
    if s.memory[p] < subset.memory {
        return false;
    }
    if s.load[p] < subset.load {
        return false;
    }
    can_stand(rows, s, k, p)
}

// The processors that can take the subset, to which task k was added; none where a task of it is excluded from k.
fn processors_for(rows: &Rows, m: usize, s: State, subset: Subset, k: usize) -> u32
    requires { (k < 24) × (m ≤ 8) }
    ensures { result ≡ processors_for rows.now m s subset k }
{
    if rows.exclusions[k] & subset.set != 0 {
        return 0;
    }
    let mut found: u32 = 0;
    for p in 0..m {
        if takes(rows, s, subset, k, p) {
            found = mask::insert(found, p);
        }
    }
    found
}

// A task's number where the task is open, else 0: what stands on a processor has taken its part already.
fn share(left: u32, k: usize, number: u32) -> u64
    requires { k < 32 }
    ensures { (result ≡ only (has left k) number) × (result < 4294967296) }
{
    if mask::has(left, k) {
        return wide(number);
    }
    0
}

// The subset with its next task.
pub fn with_next(rows: &Rows, m: usize, s: State, subset: Subset) -> Subset
    requires { (subset.next < 24) × (m ≤ 8) × Small subset }
    ensures { (result ≡ with_next rows.now m s subset) × Small result }
{
    let k = subset.next;
    let mut wider = subset;
    wider.set = mask::insert(subset.set, k);
    wider.next = k + 1;
    wider.memory = subset.memory + share(s.left, k, rows.memory[k]);
    wider.load = subset.load + share(s.left, k, rows.load[k]);
    let processors = processors_for(rows, m, s, wider, k);
    wider.processors = processors;
    wider
}
