// Conflicts: whether a late set of tasks is minimal, and a minimal one within a late set.
#![tactic(auto)]

ghost use Rattle.std.specs.Prelude.{◌≡◌, ◌≤◌};
ghost use Rattle.mask.specs.Mask.{has};
ghost use Rattle.schedule.specs.Periodic.{LateSet};
ghost use Rattle.schedule.specs.Arrays.{tasks_of, InLimits};
ghost use Rattle.table.specs.Sound.{Sound};
ghost use Rattle.conflict.specs.Conflict.{Checked, MinimalWithin};
ghost use Rattle.timing.specs.Timing.{tasks_in};
ghost use Rattle.conflict.specs.Entry.{Answered, AnsweredFor};
ghost use Rattle.conflict.specs.Count.{late_as_number, late_count, late_count_of};

use schedule::Timing;
use table::{Refusal, Table};
use verdict::Cause;

// What a conflict check finds. finding_number of specs/Conflict.antt gives its number.
#[derive(Clone, Copy)]
pub enum Finding {
    NoConflict,
    NotMinimal,
    MinimalConflict,
}

// Whether the set is late, and stays so with some task left out.
fn classify(timing: &Timing, n: usize, set: u32) -> Finding
    requires { InLimits n timing.now set }
    ensures { Checked (tasks_of n timing.now) set result }
{
    if !schedule::is_late(timing, n, set) {
        return Finding::NoConflict;
    }
    for k in mask::members(set) {
        let rest = mask::remove(set, k);
        if schedule::is_late(timing, n, rest) {
            return Finding::NotMinimal;
        }
    }
    Finding::MinimalConflict
}

// A minimal conflict within a late set: each task in turn is dropped if the rest stays late.
pub fn extract(timing: &Timing, n: usize, set: u32) -> u32
    requires { InLimits n timing.now set × LateSet (tasks_of n timing.now) (has set) }
    ensures { MinimalWithin (tasks_of n timing.now) set result }
{
    let mut kept = set;
    for k in mask::members(set) {
        let rest = mask::remove(kept, k);
        if schedule::is_late(timing, n, rest) {
            kept = rest;
        }
    }
    kept
}

// The check on a table that was read. A mask with an unknown task or fewer than two is refused.
fn check_table(table: Table, mask: u32) -> Result<Finding, Refusal>
    requires { Sound table }
    ensures { AnsweredFor table mask result }
{
    let tasks = table.tasks;
    let n = tasks.count;
    if !mask::is_group(mask, n) {
        return Err(Refusal {
            cause: Cause::NoConflictMask,
            place: 0,
        });
    }
    let timing = timing::timing_of(table);
    Ok(classify(&timing, n, mask))
}

// Whether a set of the file's tasks is a conflict, and a minimal one.
pub fn check_conflict(file: &[u8], mask: u32) -> Result<Finding, Refusal>
    ensures { Answered file.now mask result }
{
    let table = table::read(file)?;
    check_table(table, mask)
}

// 1 where the set names only tasks of the table and is late, else 0.
fn late_as_number(timing: &Timing, n: usize, set: u32) -> u64
    requires { InLimits n timing.now 0 }
    ensures { (result ≡ late_as_number (tasks_of n timing.now) set) × (result ≤ 1) }
{
    if mask::only_below(set, n) && schedule::is_late(timing, n, set) {
        return 1;
    }
    0
}

// How many of the sets are late, of a table that was read.
fn count_late_of(table: Table, sets: &[u32]) -> u64
    requires { Sound table }
    ensures { result ≡ late_count (tasks_in table) sets.now }
{
    let tasks = table.tasks;
    let n = tasks.count;
    let timing = timing::timing_of(table);
    let mut count: u64 = 0;
    for set in sets {
        count += late_as_number(&timing, n, *set);
    }
    count
}

// How many of the sets are late, 0 for a file that is refused: one lateness test for each set, for measuring.
pub fn count_late(file: &[u8], sets: &[u32]) -> u64
    ensures { result ≡ late_count_of file.now sets.now }
{
    match table::read(file) {
        Ok(table) => count_late_of(table, sets),
        Err(_) => 0,
    }
}
