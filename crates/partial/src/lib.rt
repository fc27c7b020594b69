// A partial placement: the empty one, which rules one task more on a processor would break, and the state with it there.
#![tactic(auto)]

ghost use Rattle.std.specs.Prelude.{◌≡◌, ◌<◌, ◌≤◌, T};
ghost use Rattle.std.specs.Option.{is_some};
ghost use Rattle.mask.specs.Mask.{has};
ghost use Rattle.table.specs.declared.Table.{Table};
ghost use Rattle.table.specs.Sound.{Sound};
ghost use Rattle.schedule.specs.Arrays.{Says};
ghost use Rattle.rules.specs.Placement.{and_task};
ghost use Rattle.rules.specs.Rules.{Keeps};
ghost use Rattle.rules.specs.Sets.{standing};
ghost use Rattle.partial.specs.declared.State.{State};
ghost use Rattle.partial.specs.Partial.{Lent, site_of, Fits, StepOf};
ghost use Rattle.partial.specs.Start.{start_of};
ghost use Rattle.partial.specs.Tests.{neither, suits, joins, between, SmallMessages, trial_of, with_task, Enough, step_of};

use numbers::wide;
use rows::{Messages, Rows};
use schedule::Timing;
use table::Table;

// How many there are of each.
#[derive(Clone, Copy)]
pub struct Sizes {
    pub tasks: usize,
    pub processors: usize,
    pub messages: usize,
}

// What is lent to the search of a table, worked out once: the numbers of its tasks and messages, and how many there are of each.
#[derive(Clone, Copy)]
pub struct Instance {
    pub timing: Timing,
    pub rows: Rows,
    pub messages: Messages,
    pub sizes: Sizes,
}

// The tasks on each processor, the open tasks, those of them that may still stand on each processor, and what is left of each processor's
// memory and load and of the network.
#[derive(Clone, Copy)]
pub struct State {
    pub on: [u32; 8],
    pub left: u32,
    pub may: [u32; 8],
    pub memory: [u64; 8],
    pub load: [u64; 8],
    pub traffic: u64,
}

// A processor as a task finds it: the tasks on it, the open tasks, and what is left of its memory and load and of the network.
#[derive(Clone, Copy)]
pub struct Site {
    pub on: u32,
    pub left: u32,
    pub memory: u64,
    pub load: u64,
    pub traffic: u64,
}

impl State {
    // Processor p as a task finds it.
    pub fn site(&self, p: usize) -> Site
        requires { p < 8 }
        ensures { result ≡ site_of self.now p }
    {
        Site {
            on: self.on[p],
            left: self.left,
            memory: self.memory[p],
            load: self.load[p],
            traffic: self.traffic,
        }
    }
}

// The state that a search begins with: nothing is placed yet.
pub fn start(t: Table) -> State
    requires { Sound t }
    ensures { result ≡ start_of t }
{
    let processors = t.processors;
    let tasks = t.tasks;
    let m = processors.count;
    let h = t.hyperperiod;
    let mut memory = [0u64; 8];
    let mut load = [0u64; 8];
    for p in 0..m {
        memory[p] = wide(processors.memory[p]);
        load[p] = wide(processors.limit[p]) * h / 1000;
    }
    let all = mask::all_below(tasks.count);
    State {
        on: [0; 8],
        left: all,
        may: [all; 8],
        memory,
        load,
        traffic: wide(t.capacity) * h,
    }
}

// The tasks below n that are in neither set.
fn neither(n: usize, a: u32, b: u32) -> u32
    requires { n ≤ 24 }
    ensures { result ≡ neither n a b }
{
    mask::all_below(n) & !(a | b)
}

// Whether processor p is one of task k's, has its memory and load left, and has no task that may not stand beside it.
fn suits(rows: &Rows, site: Site, k: usize, p: usize) -> bool
    requires { (k < 24) × (p < 32) }
    ensures { result ≡ suits rows.now site k p }
{
    if !mask::has(rows.residence[k], p) {
        return false;
    }
    if site.memory < wide(rows.memory[k]) {
        return false;
    }
    if site.load < wide(rows.load[k]) {
        return false;
    }
    rows.exclusions[k] & site.on == 0
}

// Whether a message goes between task k and one of the others.
fn joins(k: usize, others: u32, from: usize, to: usize) -> bool
    requires { (from < 32) × (to < 32) }
    ensures { result ≡ joins k others from to }
{
    if from == k {
        if mask::has(others, to) {
            return true;
        }
    }
    if to == k {
        return mask::has(others, from);
    }
    false
}

// What the messages between task k and the others amount to.
fn between(messages: &Messages, count: usize, k: usize, others: u32) -> u64
    requires { SmallMessages messages.now count }
    ensures { result ≡ between messages.now count k others }
{
    let mut sum: u64 = 0;
    for j in 0..count {
        let from = messages.sender[j] as usize;
        let to = messages.receiver[j] as usize;
        if joins(k, others, from, to) {
            sum += messages.amount[j];
        }
    }
    sum
}

// What the open task k adds to the network on processor p, where the rules allow it there: the cheap tests first.
fn attempt(instance: &Instance, site: Site, k: usize, p: usize) -> Option<u64>
    requires { ((t : Table) × (s : State) × Lent t instance.now.sizes instance.now.rows instance.now.messages × Fits t s × (site ≡ site_of s p))
        × T (has site.left k) × (p < instance.now.sizes.processors) }
    ensures { result ≡ trial_of instance.now.rows instance.now.messages instance.now.sizes site k p }
{
    if !suits(&instance.rows, site, k, p) {
        return None;
    }
    let others = neither(instance.sizes.tasks, site.left, site.on);
    if instance.rows.partners[k] & others != 0 {
        return None;
    }
    let added = between(&instance.messages, instance.sizes.messages, k, others);
    if added > site.traffic {
        return None;
    }
    Some(added)
}

// Whether the open task k on processor p keeps the rules.
pub fn allows(instance: &Instance, site: Site, k: usize, p: usize) -> bool
    requires { ((t : Table) × (s : State) × Lent t instance.now.sizes instance.now.rows instance.now.messages × Fits t s × (site ≡ site_of s p))
        × T (has site.left k) × (p < instance.now.sizes.processors) }
    ensures { (result ≡ is_some (trial_of instance.now.rows instance.now.messages instance.now.sizes site k p))
        × ((t : Table) (s : State) → Lent t instance.now.sizes instance.now.rows instance.now.messages → Fits t s → site ≡ site_of s p → Says result (Keeps t (and_task (standing s.on) k p))) }
{
    attempt(instance, site, k, p).is_some()
}

// The state with task k on processor p, where it takes so much memory and load, and so much of the network.
fn follow(s: State, k: usize, p: usize, memory: u32, load: u32, added: u64) -> State
    requires { (k < 32) × (p < 8) × Enough s p memory load added }
    ensures { result ≡ with_task s k p memory load added }
{
    let mut next = s;
    next.on[p] = mask::insert(s.on[p], k);
    next.left = mask::remove(s.left, k);
    next.memory[p] = s.memory[p] - wide(memory);
    next.load[p] = s.load[p] - wide(load);
    next.traffic = s.traffic - added;
    next
}

// The state with the open task k on processor p, where the rules allow it there.
pub fn step(instance: &Instance, s: State, k: usize, p: usize) -> Option<State>
    requires { ((t : Table) × Lent t instance.now.sizes instance.now.rows instance.now.messages × Fits t s)
        × T (has s.left k) × (p < instance.now.sizes.processors) }
    ensures { (result ≡ step_of instance.now.rows instance.now.messages instance.now.sizes s k p)
        × ((t : Table) → Lent t instance.now.sizes instance.now.rows instance.now.messages → Fits t s → StepOf t s k p result) }
{
    let site = s.site(p);
    let added = attempt(instance, site, k, p)?;
    let next = follow(
        s,
        k,
        p,
        instance.rows.memory[k],
        instance.rows.load[k],
        added,
    );
    Some(next)
}
