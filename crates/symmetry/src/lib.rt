// An earlier processor that can stand in for another: below a state both allow the same, so only one of them need be searched.
#![tactic(auto)]

ghost use Rattle.std.specs.Prelude.{◌≡◌, ℕ, ◌<◌, T, leb, get_or};
ghost use Rattle.mask.specs.Mask.{below, sum_over};
ghost use Rattle.table.specs.declared.Table.{Table};
ghost use Rattle.schedule.specs.Arrays.{Says};
ghost use Rattle.symmetry.specs.Symmetry.{SameResidence, Interchangeable, Representative};
ghost use Rattle.symmetry.specs.Asks.{Asks, SaysAlike};

use numbers::{lower, wide};
use partial::State;
use rows::Rows;

// Whether what all tasks in the set need, by the row, fits the room; left at the first that does not.
fn ample(row: &[u32; 24], set: u32, room: u64) -> bool
    requires { T (below 24 set) }
    ensures { (n : ℕ) → T (below n set) → result ≡ leb (sum_over n set (λ k. get_or row.now k 0)) room }
{
    let mut free = room;
    for k in mask::members(set) {
        let x = wide(row[k]);
        if free < x {
            return false;
        }
        free -= x;
    }
    true
}

// Whether each task of the set may reside on both processors or on neither.
fn same_residence(residence: &[u32; 24], set: u32, p: usize, q: usize) -> bool
    requires { T (below 24 set) × (p < 32) × (q < 32) }
    ensures { Says result (SameResidence residence.now set p q) }
{
    for k in mask::members(set) {
        if mask::has(residence[k], p) != mask::has(residence[k], q) {
            return false;
        }
    }
    true
}

// Whether two rooms are alike to the tasks of the set: the sum is needed only where they differ.
fn alike(row: &[u32; 24], set: u32, a: u64, b: u64) -> bool
    requires { T (below 24 set) }
    ensures { SaysAlike result row.now set a b }
{
    if a == b {
        return true;
    }
    ample(row, set, lower(a, b))
}

// Whether processor q below the empty processor p is interchangeable with it: the cheap tests first.
fn interchangeable(rows: &Rows, s: State, q: usize, p: usize) -> bool
    requires { ((t : Table) × Asks t rows.now s p) × (get_or s.on p 0 ≡ 0) × (q < p) }
    ensures { (t : Table) → Asks t rows.now s p → Says result (Interchangeable t s q p) }
{
    if s.on[q] != 0 {
        return false;
    }
    if !alike(&rows.memory, s.left, s.memory[q], s.memory[p]) {
        return false;
    }
    if !alike(&rows.load, s.left, s.load[q], s.load[p]) {
        return false;
    }
    same_residence(&rows.residence, s.left, q, p)
}

// The lowest processor below p that is interchangeable with it; p where there is none.
pub fn representative(rows: &Rows, s: State, p: usize) -> usize
    requires { (t : Table) × Asks t rows.now s p }
    ensures { (t : Table) → Asks t rows.now s p → Representative t s p result }
{
    if s.on[p] != 0 {
        return p;
    }
    for q in 0..p {
        if interchangeable(rows, s, q, p) {
            return q;
        }
    }
    p
}
