// The response and the margin of a task, and whether a set of tasks is late. The tasks are lent as rows of numbers, a place for each task, and a set is a mask.
#![tactic(auto)]

ghost use Rattle.std.specs.Prelude.{◌≡◌, ◌*◌, ◌<◌, ◌≤◌, pos, ◌-ℤ◌, get_or};
ghost use Rattle.std.specs.Int.Signed.{mag};
ghost use Rattle.mask.specs.Mask.{has};
ghost use Rattle.schedule.specs.Periodic.{LateSet};
ghost use Rattle.schedule.specs.Response.{ceil, demand, least_solution, worst_response, up_to, response};
ghost use Rattle.schedule.specs.Arrays.{tasks_of, shares_of, SmallShares, InLimits, Says};
ghost use Rattle.schedule.specs.Margin.{margin_by};

use numbers::wide;

// The tasks' numbers, a place for each task: C, T, D, the priority, and the tasks of larger priority.
#[derive(Clone, Copy)]
pub struct Timing {
    pub work: [u32; 24],
    pub period: [u32; 24],
    pub deadline: [u32; 24],
    pub priority: [u32; 24],
    pub higher: [u32; 24],
}

// Deadline minus worst response, where that is at most the period; else none, and it is beyond.
pub type Margin = Option<i32>;

// x / t, rounded up.
fn rounded_up(x: u32, t: u32) -> u32
    requires { (x ≤ 1000000) × (0 < t) × (t ≤ 1000000) }
    ensures { result ≡ ceil x t }
{
    (x + (t - 1)) / t
}

// The share of a task with C c and T t in the demand at x.
fn share(x: u32, t: u32, c: u32) -> u64
    requires { (x ≤ 1000000) × (0 < t) × (t ≤ 1000000) × (c ≤ 1000000) }
    ensures { result ≡ ceil x t * c }
{
    wide(rounded_up(x, t)) * wide(c)
}

// The shares of the tasks in others. Only these are visited.
fn interference(timing: &Timing, others: u32, x: u32) -> u64
    requires { SmallShares timing.now others × (x ≤ 1000000) }
    ensures { (result ≡ shares_of timing.now others x) × (result ≤ 24 * 1000000000000) }
{
    let mut sum: u64 = 0;
    for j in mask::members(others) {
        sum += share(x, timing.period[j], timing.work[j]);
    }
    sum
}

// The demand at x on task i in the set. The priorities enter through the row of larger ones.
fn demand_at(timing: &Timing, n: usize, set: u32, i: usize, x: u32) -> u64
    requires { InLimits n timing.now set × (i < n) × (x ≤ 1000000) }
    ensures { result ≡ demand (tasks_of n timing.now) (has set) i x }
{
    wide(timing.work[i]) + interference(timing, set & timing.higher[i], x)
}

// The least solution of the response equation of task i in the set, where it is at most the limit; 0 where it is above that or there is none.
fn least_solution(timing: &Timing, n: usize, set: u32, i: usize, limit: u32) -> u32
    requires { InLimits n timing.now set × (i < n) × (get_or timing.now.work i 0 ≤ limit) × (limit ≤ 1000000) }
    ensures { result ≡ least_solution (demand (tasks_of n timing.now) (has set) i) limit }
{
    let most = wide(limit);
    let mut x = timing.work[i];
    let end = loop {
        let y = demand_at(timing, n, set, i, x);
        if y == wide(x) {
            break y;
        }
        if most < y {
            break y;
        }
        x = y as u32;
    };
    if most < end { 0 } else { end as u32 }
}

// The worst response of task i in the set, late or not: 0 where it is beyond the period or there is none.
pub fn worst_response(timing: &Timing, n: usize, set: u32, i: usize) -> u32
    requires { InLimits n timing.now set × (i < n) }
    ensures { (result ≡ worst_response (tasks_of n timing.now) (has set) i) × (result ≤ 1000000) }
{
    least_solution(timing, n, set, i, timing.period[i])
}

// The response by the deadline and the worst response: 0 where that is above the deadline.
pub fn response_by(deadline: u32, worst: u32) -> u32
    ensures { result ≡ up_to deadline worst }
{
    if deadline < worst { 0 } else { worst }
}

// x - y, below zero where y is larger.
fn difference(x: u32, y: u32) -> i32
    requires { (x ≤ 1000000) × (y ≤ 1000000) }
    ensures { (result ≡ pos x -ℤ pos y) × (mag result < 2147483648) }
{
    x as i32 - y as i32
}

// The margin by the deadline and the worst response.
pub fn margin_by(deadline: u32, worst: u32) -> Margin
    requires { (deadline ≤ 1000000) × (worst ≤ 1000000) }
    ensures { result ≡ margin_by deadline worst }
{
    if worst == 0 {
        return None;
    }
    Some(difference(deadline, worst))
}

// The response of task i in the set. The calculation ends at the deadline: nothing beyond it is asked for here.
fn response(timing: &Timing, n: usize, set: u32, i: usize) -> u32
    requires { InLimits n timing.now set × (i < n) }
    ensures { result ≡ response (tasks_of n timing.now) (has set) i }
{
    least_solution(timing, n, set, i, timing.deadline[i])
}

// Whether the set has a late job in the tick run.
pub fn is_late(timing: &Timing, n: usize, set: u32) -> bool
    requires { InLimits n timing.now set }
    ensures { Says result (LateSet (tasks_of n timing.now) (has set)) }
{
    for i in mask::members(set) {
        if response(timing, n, set, i) == 0 {
            return true;
        }
    }
    false
}
