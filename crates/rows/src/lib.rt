// What is lent to the search of a table, worked out once, so that it need not divide or go through the groups again:
// rows of numbers, a place for each task or message.
#![tactic(auto)]

ghost use Rattle.std.specs.Prelude.{◌≡◌, ◌*◌, ◌/◌, ◌≤◌, ◌<◌, ltb, get_or};
ghost use Rattle.finite.specs.Finite.{only};
ghost use Rattle.table.specs.Sound.{Sound, SoundGroups};
ghost use Rattle.rules.specs.Rules.{amount_of};
ghost use Rattle.rows.specs.Rows.{loads_of, beside_of, neighbours_of, amounts_of, rows_of, messages_of};

use load::Load;
use numbers::wide;
use table::{Groups, Table};

// The rows of the tasks. The weight, the order and the base guide the search; of these nothing is claimed but that they are rows.
#[derive(Clone, Copy)]
pub struct Rows {
    pub residence: [u32; 24],
    pub load: [u32; 24],
    pub memory: [u32; 24],
    pub weight: [u32; 24],
    pub exclusions: [u32; 24],
    pub partners: [u32; 24],
    pub order: [u32; 24],
    pub base: [u32; 24],
}

// What the weights of the tasks are: their load, their memory, both, or any others, which stand in no row.
#[derive(Clone, Copy, PartialEq, Eq)]
pub enum Measure {
    Load,
    Memory,
    Both,
    Other,
}

// The rows of the messages.
#[derive(Clone, Copy)]
pub struct Messages {
    pub sender: [u32; 64],
    pub receiver: [u32; 64],
    pub amount: [u64; 64],
}

// The load of task k, 0 beyond the tasks.
fn load_at(t: Table, k: usize) -> u32
    requires { Sound t }
    ensures { result ≡ only (ltb k t.tasks.count) (get_or t.tasks.c k 0 * t.hyperperiod / get_or t.tasks.t k 0) }
{
    let tasks = t.tasks;
    if tasks.count <= k {
        return 0;
    }
    let load = Load::of_task(tasks.c[k], tasks.t[k], t.hyperperiod);
    load.0 as u32
}

// The load of each task.
fn loads_of(t: Table) -> [u32; 24]
    requires { Sound t }
    ensures { result ≡ loads_of t }
{
    let mut loads = [0u32; 24];
    for k in 0..24 {
        let load = load_at(t, k);
        loads[k] = load;
    }
    loads
}

// The tasks that share one of the groups with task k; none beyond the n tasks.
fn beside(groups: Groups, n: usize, k: usize) -> u32
    requires { SoundGroups n groups × (n ≤ 24) }
    ensures { result ≡ only (ltb k n) (beside_of groups n k) }
{
    if n <= k {
        return 0;
    }
    let count = groups.count;
    let mut set: u32 = 0;
    for g in 0..count {
        let group = groups.mask[g];
        if mask::has(group, k) {
            set |= group;
        }
    }
    mask::remove(set, k)
}

// The tasks that share a group with each task.
fn neighbours_of(groups: Groups, n: usize) -> [u32; 24]
    requires { SoundGroups n groups × (n ≤ 24) }
    ensures { result ≡ neighbours_of groups n }
{
    let mut neighbours = [0u32; 24];
    for k in 0..24 {
        let set = beside(groups, n, k);
        neighbours[k] = set;
    }
    neighbours
}

// What message j is to the network, amount × H / T; 0 beyond the messages.
fn amount_at(t: Table, j: usize) -> u64
    requires { Sound t }
    ensures { result ≡ only (ltb j t.messages.count) (amount_of t j) }
{
    let messages = t.messages;
    if messages.count <= j {
        return 0;
    }
    let tasks = t.tasks;
    let sender = messages.sender[j] as usize;
    wide(messages.amount[j]) * t.hyperperiod / wide(tasks.t[sender])
}

// What each message is to the network.
fn amounts_of(t: Table) -> [u64; 64]
    requires { Sound t }
    ensures { result ≡ amounts_of t }
{
    let mut amounts = [0u64; 64];
    for j in 0..64 {
        let amount = amount_at(t, j);
        amounts[j] = amount;
    }
    amounts
}

// The rows of the tasks; those that guide the search are still to be filled.
pub fn rows_of(t: Table) -> Rows
    requires { Sound t }
    ensures { result ≡ rows_of t }
{
    let tasks = t.tasks;
    let n = tasks.count;
    let residence = tasks.residence;
    let load = loads_of(t);
    let memory = tasks.memory;
    let exclusions = neighbours_of(t.ex, n);
    let partners = neighbours_of(t.co, n);
    Rows {
        residence,
        load,
        memory,
        weight: [0; 24],
        exclusions,
        partners,
        order: [0; 24],
        base: [0; 24],
    }
}

// The rows of the messages.
pub fn messages_of(t: Table) -> Messages
    requires { Sound t }
    ensures { result ≡ messages_of t }
{
    let messages = t.messages;
    let sender = messages.sender;
    let receiver = messages.receiver;
    let amount = amounts_of(t);
    Messages {
        sender,
        receiver,
        amount,
    }
}
