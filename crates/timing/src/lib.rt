// The numbers of a table's tasks as the tick run takes them.
#![tactic(auto)]

ghost use Rattle.std.specs.Prelude.{◌≡◌, ◌<◌, ◌≤◌};
ghost use Rattle.table.specs.Sound.{Sound};
ghost use Rattle.schedule.specs.Arrays.{higher_than, higher_of};
ghost use Rattle.timing.specs.Timing.{timing_of};

use schedule::Timing;
use table::Table;

// The tasks of larger priority than task i.
fn higher_than(priority: &[u32; 24], n: usize, i: usize) -> u32
    requires { (n ≤ 24) × (i < n) }
    ensures { result ≡ higher_than n priority.now i }
{
    let mut set: u32 = 0;
    for j in 0..n {
        if priority[i] < priority[j] {
            set = mask::insert(set, j);
        }
    }
    set
}

// The tasks of larger priority than each task.
fn higher(priority: &[u32; 24], n: usize) -> [u32; 24]
    requires { n ≤ 24 }
    ensures { result ≡ higher_of n priority.now }
{
    let mut rows = [0u32; 24];
    for i in 0..n {
        let row = higher_than(priority, n, i);
        rows[i] = row;
    }
    rows
}

// The rows that the response calculation is lent, made once for a table.
pub fn timing_of(table: Table) -> Timing
    requires { Sound table }
    ensures { result ≡ timing_of table }
{
    let tasks = table.tasks;
    let work = tasks.c;
    let period = tasks.t;
    let deadline = tasks.d;
    let priority = tasks.priority;
    let higher = higher(&priority, tasks.count);
    Timing {
        work,
        period,
        deadline,
        priority,
        higher,
    }
}
