// The rows that guide the search: how large each task is, the tasks in that order, and how hard each is to place.
// No answer rests on these numbers, only how long the search takes.
#![tactic(auto)]

ghost use Rattle.std.specs.Prelude.{◌≡◌, ◌≤◌, ◌<◌, ltb};
ghost use Rattle.finite.specs.Finite.{only};
ghost use Rattle.schedule.specs.Arrays.{InLimits};
ghost use Rattle.static_order.specs.StaticOrder.{short, sum_of, millionths_of, weights_of, scaled_of, bulk_of, density_of};
ghost use Rattle.static_order.specs.StaticOrder.{message_weight, messages_weight, base_of, bases_of, ordered_of};

use numbers::{lower, wide};
use partial::{Instance, State};
use rows::{Messages, Rows};

// x as long as it is below 2^40, as every load, every memory and every room is.
fn short(x: u64) -> u64
    ensures { result ≡ short x }
{
    x % 1099511627776
}

// What all processors have together.
fn sum_of(rooms: [u64; 8]) -> u64
    ensures { (result ≡ sum_of rooms) × (result ≤ 8796093022208) }
{
    let mut sum: u64 = 0;
    for p in 0..8 {
        sum += short(rooms[p]);
    }
    sum
}

// x in millionths of all.
fn millionths(x: u64, all: u64) -> u64
    requires { all ≤ 8796093022208 }
    ensures { (result ≡ millionths_of x all) × (result ≤ 1000000) }
{
    lower(short(x) * 1000000 / (all + 1), 1000000)
}

// The millionths of all load and of all memory that each task takes, together.
fn weights_of(rows: &Rows, s: State) -> [u32; 24]
    ensures { result ≡ weights_of rows.now s }
{
    let memory_rooms = s.memory;
    let load_rooms = s.load;
    let all_memory = sum_of(memory_rooms);
    let all_load = sum_of(load_rooms);
    let mut weights = [0u32; 24];
    for k in 0..24 {
        let sum = millionths(wide(rows.load[k]), all_load)
            + millionths(wide(rows.memory[k]), all_memory);
        weights[k] = sum as u32;
    }
    weights
}

// Millionths of all processors, in 32nds of one.
fn scaled(part: u64, processors: usize) -> u64
    requires { (part ≤ 1000000) × (processors ≤ 8) }
    ensures { (result ≡ scaled_of part processors) × (result ≤ 256) }
{
    lower(part * (processors as u64) * 32 / 1000000, 256)
}

// The load or the memory of task k, whichever is the larger share.
fn bulk(rows: &Rows, s: State, processors: usize, k: usize) -> u64
    requires { (processors ≤ 8) × (k < 24) }
    ensures { (result ≡ bulk_of rows.now s processors k) × (result ≤ 256) }
{
    let memory_rooms = s.memory;
    let load_rooms = s.load;
    let by_load = scaled(
        millionths(wide(rows.load[k]), sum_of(load_rooms)),
        processors,
    );
    let by_memory = scaled(
        millionths(wide(rows.memory[k]), sum_of(memory_rooms)),
        processors,
    );
    if by_load < by_memory {
        by_memory
    } else {
        by_load
    }
}

// How much of its deadline a task works, in 16ths.
fn density(work: u32, deadline: u32) -> u64
    ensures { (result ≡ density_of work deadline) × (result ≤ 16) }
{
    if deadline == 0 {
        return 16;
    }
    lower(wide(work) * 16 / wide(deadline), 16)
}

// A message of the task as a share of the network, in 32nds.
fn message_weight(from: u64, to: u64, task: u64, amount: u64, capacity: u64) -> u64
    ensures { (result ≡ message_weight from to task amount capacity) × (result ≤ 4096) }
{
    if from != task {
        if to != task {
            return 0;
        }
    }
    lower(
        amount % 1125899906842624 * 32 / (capacity % 4611686018427387904 + 1),
        4096,
    )
}

// All messages of the task.
fn messages_weight(messages: &Messages, count: usize, capacity: u64, task: u64) -> u64
    requires { count ≤ 64 }
    ensures { (result ≡ messages_weight messages.now count capacity task) × (result ≤ 262144) }
{
    let mut sum: u64 = 0;
    for j in 0..count {
        let from = wide(messages.sender[j]);
        let to = wide(messages.receiver[j]);
        sum += message_weight(from, to, task, messages.amount[j], capacity);
    }
    sum
}

// How hard task k is to place, where nothing stands yet; 0 beyond the tasks.
fn base_of(instance: &Instance, s: State, k: usize) -> u32
    requires { InLimits instance.now.sizes.tasks instance.now.timing 0 × (instance.now.sizes.processors ≤ 8) × (instance.now.sizes.messages ≤ 64) }
    ensures { result ≡ only (ltb k instance.now.sizes.tasks) (base_of instance.now.timing instance.now.rows instance.now.messages instance.now.sizes s k) }
{
    if instance.sizes.tasks <= k {
        return 0;
    }
    let others = pairs::strangers(instance, s, k);
    let size = bulk(&instance.rows, s, instance.sizes.processors, k);
    let density = density(instance.timing.work[k], instance.timing.deadline[k]);
    let sent = messages_weight(
        &instance.messages,
        instance.sizes.messages,
        s.traffic,
        k as u64,
    );
    (16 + 16 * others + size + density + sent) as u32
}

// How hard each task is to place: the search places the hardest first.
fn bases_of(instance: &Instance, s: State) -> [u32; 24]
    requires { InLimits instance.now.sizes.tasks instance.now.timing 0 × (instance.now.sizes.processors ≤ 8) × (instance.now.sizes.messages ≤ 64) }
    ensures { result ≡ bases_of instance.now.timing instance.now.rows instance.now.messages instance.now.sizes s }
{
    let mut bases = [0u32; 24];
    for k in 0..24 {
        let base = base_of(instance, s, k);
        bases[k] = base;
    }
    bases
}

// The rows with the rows that guide the search.
pub fn ordered(instance: &Instance, s: State) -> Rows
    requires { InLimits instance.now.sizes.tasks instance.now.timing 0 × (instance.now.sizes.processors ≤ 8) × (instance.now.sizes.messages ≤ 64) }
    ensures { result ≡ ordered_of instance.now.timing instance.now.rows instance.now.messages instance.now.sizes s }
{
    let weights = weights_of(&instance.rows, s);
    let order = ordering::order_of(&weights, &weights);
    let bases = bases_of(instance, s);
    let mut filled = instance.rows;
    filled.weight = weights;
    filled.order = order;
    filled.base = bases;
    filled
}
