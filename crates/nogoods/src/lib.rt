// The test of a set of tasks for one processor, and the list of conflicts that it fills.
#![tactic(auto)]

ghost use Rattle.std.specs.Prelude.{◌≡◌, ◌+◌, ◌*◌, ◌≤◌, ◌<◌, T, length, set};
ghost use Rattle.schedule.specs.Arrays.{tasks_of, InLimits};
ghost use Rattle.nogoods.specs.Nogoods.{Nogoods, full, count_with, list_with, covered_by, word_of, hinted, CoverCache, cleared, opened, tabled};
ghost use Rattle.nogoods.specs.Nogoods.{looked_for, KnownSets, cache_after, Noted};

use late_cache::LateCache;
use schedule::Timing;

// How the search runs: whether it lists conflicts, and whether it may give up.
#[derive(Clone, Copy)]
pub struct Mode {
    pub listing: bool,
    pub limited: bool,
}

// Whether the set may not stand on a processor, and how many conflicts are listed then.
#[derive(Clone, Copy)]
pub struct Tested {
    pub bad: bool,
    pub count: usize,
}

// Whether the list is full: one more record and the end do not fit.
pub fn is_full(list: &[u8], count: usize) -> bool
    requires { 6 * count ≤ length list.now }
    ensures { result ≡ full list.now count }
{
    list.len() < 6 * count + 9
}

// Where the word for a set stands, behind the cached sets.
fn word_of(set: u32) -> usize
    ensures { result ≡ word_of set }
{
    65536 + late_cache::place_of(set) / 4
}

// The table of covered sets is given up, so that another list may follow.
pub fn forget(lateness: &mut LateCache)
    ensures { lateness.new ≡ set lateness.old 81920 0 }
{
    lateness[81920] = 0;
}

// The hints make way for a table of covered sets, which is empty.
fn open_table(lateness: &mut LateCache)
    ensures { lateness.new ≡ set (cleared lateness.old 16384) 81920 1 }
{
    for n in 0..16384 {
        lateness[65536 + n] = 0;
    }
    lateness[81920] = 1;
}

// Whether a conflict of a full list is a subset of the set. Such a list no longer changes, so a table keeps the answer.
fn covered_by_full(list: &[u8], count: usize, set: u32, lateness: &mut LateCache) -> bool
    requires { (6 * count ≤ length list.now) × (set < 2147483648) × T (full list.now count) × CoverCache list.now count lateness.old }
    ensures { (result ≡ covered_by list.now count set) × (lateness.new ≡ tabled (opened lateness.old) list.now count set) }
{
    if lateness[81920] != 1 {
        open_table(lateness);
    }
    let at = word_of(set);
    let word = lateness[at];
    if 0 < word && word / 2 == set {
        return word % 2 == 1;
    }
    let found = answer::covering(list, count, set) < count;
    lateness[at] = 2 * set + found as u32;
    found
}

// The same of a list that can still grow. The conflict that it was the last time is looked at first: a hint, of which nothing is claimed.
// A conflict is a set of at most 24 tasks, so its number has 24 bits.
fn covered_by_growing(list: &[u8], count: usize, set: u32, lateness: &mut LateCache) -> bool
    requires { 6 * count ≤ length list.now }
    ensures { (result ≡ covered_by list.now count set) × (lateness.new ≡ hinted lateness.old list.now count set) }
{
    let at = word_of(set);
    let hint = (lateness[at] % 16777216) as usize;
    if hint < count && answer::holds(list, hint, set) {
        return true;
    }
    let number = answer::covering(list, count, set);
    lateness[at] = (number % 16777216) as u32;
    number < count
}

// Whether one of the first `count` conflicts is a subset of the set.
pub fn covered(list: &[u8], count: usize, set: u32, lateness: &mut LateCache) -> bool
    requires { (6 * count ≤ length list.now) × (set < 2147483648) × CoverCache list.now count lateness.old }
    ensures { (result ≡ covered_by list.now count set) × (lateness.new ≡ looked_for lateness.old list.now count set) }
{
    if !is_full(list, count) {
        return covered_by_growing(list, count, set, lateness);
    }
    covered_by_full(list, count, set, lateness)
}

// Puts a conflict behind the listed ones unless it is one of them, so that all stay different. How many are listed then.
fn append_unlisted(list: &mut [u8], count: usize, conflict: u32) -> usize
    requires { 6 * count + 6 ≤ length list.old }
    ensures { (result ≡ count_with list.old count conflict) × (list.new ≡ list_with list.old count conflict) }
{
    if answer::listed(list, count, conflict) {
        return count;
    }
    answer::append(list, count, conflict);
    count + 1
}

// Tests a set. Where conflicts are listed, a late set must hold a listed one: one of its own is appended while there is room.
pub fn test(
    timing: &Timing,
    n: usize,
    set: u32,
    mode: Mode,
    list: &mut [u8],
    count: usize,
    lateness: &mut LateCache,
) -> Tested
    requires { InLimits n timing.now set × Nogoods (tasks_of n timing.now) list.old count
        × KnownSets (tasks_of n timing.now) list.old count lateness.old }
    ensures { Noted (tasks_of n timing.now) mode set list.old count list.new result
        × KnownSets (tasks_of n timing.now) list.new result.count lateness.new
        × (lateness.new ≡ cache_after (tasks_of n timing.now) mode set list.old count lateness.old) }
{
    if !late_cache::is_late(timing, n, set, lateness) {
        return Tested { bad: false, count };
    }
    if !mode.listing {
        return Tested { bad: true, count };
    }
    if covered(list, count, set, lateness) {
        return Tested { bad: true, count }; // on whatever processor the conflict was seen
    }
    if is_full(list, count) {
        return Tested { bad: false, count };
    }
    let conflict = conflict::extract(timing, n, set);
    Tested {
        bad: true,
        count: append_unlisted(list, count, conflict),
    }
}
