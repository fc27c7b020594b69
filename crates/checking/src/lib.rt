// The first broken rule of a placement that is given by the set of tasks on each processor.
#![tactic(auto)]

ghost use Rattle.std.specs.Prelude.{◌≡◌, ◌*◌, ◌≤◌, ◌<◌, get_or};
ghost use Rattle.finite.specs.Finite.{some_below};
ghost use Rattle.table.specs.Sound.{Sound};
ghost use Rattle.rules.specs.Placement.{elsewhere, apart};
ghost use Rattle.rules.specs.Rules.{crosses, amount_of, traffic, concerned, broken, check_rule, first_broken};
ghost use Rattle.rules.specs.Sets.{standing, meets, two_of, outside_of, memory_of, Works, load_of, missed};

use load::Load;
use numbers::wide;
use rules::{Broken, Rule};
use table::{Table, Tasks};

// Whether a task of the group stands on a processor other than p.
fn stands_elsewhere(sets: [u32; 8], m: usize, p: usize, group: u32) -> bool
    requires { m ≤ 8 }
    ensures { result ≡ elsewhere m p (λ q. meets (get_or sets q 0) group) }
{
    for q in 0..m {
        if q != p && sets[q] & group != 0 {
            return true;
        }
    }
    false
}

// Whether a task of one group and a task of another stand on different processors.
fn stand_apart(sets: [u32; 8], m: usize, one: u32, other: u32) -> bool
    requires { m ≤ 8 }
    ensures { result ≡ apart m (λ p. meets (get_or sets p 0) one) (λ p. meets (get_or sets p 0) other) }
{
    for p in 0..m {
        if sets[p] & one != 0 && stands_elsewhere(sets, m, p, other) {
            return true;
        }
    }
    false
}

// Whether two tasks of the group stand on the same processor.
fn stand_together(sets: [u32; 8], m: usize, group: u32) -> bool
    requires { m ≤ 8 }
    ensures { result ≡ some_below m (λ p. two_of group (get_or sets p 0)) }
{
    for p in 0..m {
        if mask::at_least_two(sets[p] & group) {
            return true;
        }
    }
    false
}

// Whether task k stands on a processor that is not in the mask.
fn stands_outside(sets: [u32; 8], m: usize, k: usize, residence: u32) -> bool
    requires { (m ≤ 8) × (k < 32) }
    ensures { result ≡ outside_of sets m k residence }
{
    for p in 0..m {
        if mask::has(sets[p], k) && !mask::has(residence, p) {
            return true;
        }
    }
    false
}

// The memory of the tasks in the set.
fn memory_of(tasks: Tasks, set: u32) -> u64
    requires { tasks.count ≤ 24 }
    ensures { result ≡ memory_of tasks set }
{
    let n = tasks.count;
    let mut sum: u64 = 0;
    for k in 0..n {
        if mask::has(set, k) {
            sum += wide(tasks.memory[k]);
        }
    }
    sum
}

// The load of the tasks in the set.
fn load_of(tasks: Tasks, h: u64, set: u32) -> Load
    requires { Works tasks × (h ≤ 1000000000) }
    ensures { (result.0 ≡ load_of tasks h set) × (result.0 ≤ 24 * h) }
{
    let n = tasks.count;
    let mut load = Load::IDLE;
    for k in 0..n {
        if mask::has(set, k) {
            load = load.with_task(tasks.c[k], tasks.t[k], h);
        }
    }
    load
}

// Whether message j has its two tasks on different processors.
fn crosses(t: Table, sets: [u32; 8], j: usize) -> bool
    requires { Sound t × (j < t.messages.count) }
    ensures { result ≡ crosses t (standing sets) j }
{
    let processors = t.processors;
    let messages = t.messages;
    let sender = mask::insert(0, messages.sender[j] as usize);
    let receiver = mask::insert(0, messages.receiver[j] as usize);
    stand_apart(sets, processors.count, sender, receiver)
}

// What message j amounts to in one hyperperiod: amount × H / T.
fn amount_of(t: Table, j: usize) -> u64
    requires { Sound t × (j < t.messages.count) }
    ensures { (result ≡ amount_of t j) × (result ≤ 1000000000000000) }
{
    let messages = t.messages;
    let tasks = t.tasks;
    let sender = messages.sender[j] as usize;
    wide(messages.amount[j]) * t.hyperperiod / wide(tasks.t[sender])
}

// What the messages between processors amount to in one hyperperiod.
fn traffic_of(t: Table, sets: [u32; 8]) -> u64
    requires { Sound t }
    ensures { result ≡ traffic t (standing sets) }
{
    let messages = t.messages;
    let n = messages.count;
    let mut sum: u64 = 0;
    for j in 0..n {
        if crosses(t, sets, j) {
            sum += amount_of(t, j);
        }
    }
    sum
}

// Whether the rule is broken at the number k.
fn breaks(t: Table, sets: [u32; 8], responses: [u32; 24], rule: Rule, k: usize) -> bool
    requires { Sound t × (k < concerned t rule) }
    ensures { result ≡ broken t (standing sets) (missed responses) rule k }
{
    let processors = t.processors;
    let tasks = t.tasks;
    let co = t.co;
    let ex = t.ex;
    let m = processors.count;
    let h = t.hyperperiod;
    match rule {
        Rule::Residence => stands_outside(sets, m, k, tasks.residence[k]),
        Rule::CoResidence => stand_apart(sets, m, co.mask[k], co.mask[k]),
        Rule::Exclusion => stand_together(sets, m, ex.mask[k]),
        Rule::Memory => wide(processors.memory[k]) < memory_of(tasks, sets[k]),
        Rule::Utilisation => load_of(tasks, h, sets[k]).exceeds(processors.limit[k], h),
        Rule::Network => wide(t.capacity) * h < traffic_of(t, sets),
        Rule::Deadline => responses[k] == 0,
    }
}

// How many numbers the rule concerns.
fn concerned(t: Table, rule: Rule) -> usize
    ensures { result ≡ concerned t rule }
{
    let processors = t.processors;
    let tasks = t.tasks;
    let co = t.co;
    let ex = t.ex;
    match rule {
        Rule::Residence => tasks.count,
        Rule::CoResidence => co.count,
        Rule::Exclusion => ex.count,
        Rule::Memory => processors.count,
        Rule::Utilisation => processors.count,
        Rule::Network => 1,
        Rule::Deadline => tasks.count,
    }
}

// Whether the rule is kept; where it is broken, with the lowest number concerned.
fn check_rule(t: Table, sets: [u32; 8], responses: [u32; 24], rule: Rule) -> Result<(), Broken>
    requires { Sound t }
    ensures { result ≡ check_rule t (standing sets) (missed responses) rule }
{
    for number in 0..concerned(t, rule) {
        if breaks(t, sets, responses, rule, number) {
            return Err(Broken { rule, number });
        }
    }
    Ok(())
}

// The first broken rule, from the sets of tasks on the processors and the tasks' responses.
pub fn first_broken(t: Table, sets: [u32; 8], responses: [u32; 24]) -> Result<(), Broken>
    requires { Sound t }
    ensures { result ≡ first_broken t (standing sets) (missed responses) }
{
    check_rule(t, sets, responses, Rule::Residence)?;
    check_rule(t, sets, responses, Rule::CoResidence)?;
    check_rule(t, sets, responses, Rule::Exclusion)?;
    check_rule(t, sets, responses, Rule::Memory)?;
    check_rule(t, sets, responses, Rule::Utilisation)?;
    check_rule(t, sets, responses, Rule::Network)?;
    check_rule(t, sets, responses, Rule::Deadline)
}
