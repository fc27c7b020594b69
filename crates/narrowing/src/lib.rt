// Which open tasks may still stand on each processor, as the state of the search keeps it. Nothing is listed.
#![tactic(auto)]

ghost use Rattle.std.specs.Prelude.{◌≡◌, ◌&&◌, ◌*◌, ◌≤◌, ◌<◌, T, length};
ghost use Rattle.mask.specs.Mask.{has, Subset};
ghost use Rattle.table.specs.declared.Table.{Table};
ghost use Rattle.schedule.specs.Arrays.{tasks_of, InLimits};
ghost use Rattle.timing.specs.Timing.{tasks_in};
ghost use Rattle.partial.specs.declared.State.{State};
ghost use Rattle.partial.specs.Partial.{Fits, site_of};
ghost use Rattle.nogoods.specs.Nogoods.{full, KnownSets};
ghost use Rattle.region.specs.Begins.{with_may};
ghost use Rattle.region.specs.Given.{InstanceOf, Given, Gives};
ghost use Rattle.narrowing.specs.Narrowing.{passed_over, may_stand, narrow_of, may_of, prepared_of, reaches, refreshed_of};

use late_cache::LateCache;
use nogoods::Mode;
use partial::{Instance, Site, State};
use schedule::Timing;

// Whether the search would pass over a set: it is late; or, with a full list of conflicts, it holds one of them.
fn passed_over<'a>(
    timing: &'a Timing,
    tasks: usize,
    set: u32,
    full: bool,
    list: &[u8],
    count: usize,
    lateness: &mut LateCache,
) -> bool
    requires { InLimits tasks timing.now set × (6 * count ≤ length list.now) × KnownSets (tasks_of tasks timing.now) list.now count lateness.old }
    ensures { (result ≡ passed_over (tasks_of tasks timing.now) full list.now count set)
        × KnownSets (tasks_of tasks timing.now) list.now count lateness.new }
{
    if full {
        return nogoods::covered(list, count, set, lateness);
    }
    late_cache::is_late(timing, tasks, set, lateness)
}

// Whether the open task k may stand on processor p: the rules allow it, and the search would not pass over the set. Nothing is listed.
fn may_stand(
    instance: &Instance,
    site: Site,
    k: usize,
    p: usize,
    full: bool,
    list: &[u8],
    count: usize,
    lateness: &mut LateCache,
) -> bool
    requires { ((t : Table) × (s : State) × InstanceOf t instance.now × Fits t s × (site ≡ site_of s p))
        × T (has site.left k) × (p < instance.now.sizes.processors) × (6 * count ≤ length list.now) × KnownSets (tasks_of instance.now.sizes.tasks instance.now.timing) list.now count lateness.old }
    ensures { (result ≡ may_stand instance.now.timing instance.now.rows instance.now.messages instance.now.sizes full list.now count site p k)
        × KnownSets (tasks_of instance.now.sizes.tasks instance.now.timing) list.now count lateness.new }
{
    if !partial::allows(instance, site, k, p) {
        return false;
    }
    let set = mask::insert(site.on, k);
    !passed_over(
        &instance.timing,
        instance.sizes.tasks,
        set,
        full,
        list,
        count,
        lateness,
    )
}

// Those of a set of open tasks that may stand on processor p.
fn narrow(
    instance: &Instance,
    site: Site,
    p: usize,
    set: u32,
    full: bool,
    list: &[u8],
    count: usize,
    lateness: &mut LateCache,
) -> u32
    requires { ((t : Table) × (s : State) × InstanceOf t instance.now × Fits t s × (site ≡ site_of s p))
        × Subset set site.left × (p < instance.now.sizes.processors) × (6 * count ≤ length list.now) × KnownSets (tasks_of instance.now.sizes.tasks instance.now.timing) list.now count lateness.old }
    ensures { (result ≡ narrow_of instance.now.timing instance.now.rows instance.now.messages instance.now.sizes full list.now count site p set)
        × KnownSets (tasks_of instance.now.sizes.tasks instance.now.timing) list.now count lateness.new }
{
    let mut kept = set;
    for k in mask::members(set) {
        if !may_stand(instance, site, k, p, full, list, count, lateness) {
            kept = mask::remove(kept, k);
        }
    }
    kept
}

// Of each set the open tasks; on the processors that are tested anew, those of them that may stand there.
fn narrow_all(
    instance: &Instance,
    s: State,
    sets: [u32; 8],
    anew: u32,
    full: bool,
    list: &[u8],
    count: usize,
    lateness: &mut LateCache,
) -> [u32; 8]
    requires { ((t : Table) × InstanceOf t instance.now × Fits t s)
        × (6 * count ≤ length list.now) × KnownSets (tasks_of instance.now.sizes.tasks instance.now.timing) list.now count lateness.old }
    ensures { (result ≡ may_of instance.now.timing instance.now.rows instance.now.messages instance.now.sizes full list.now count s sets anew)
        × KnownSets (tasks_of instance.now.sizes.tasks instance.now.timing) list.now count lateness.new }
{
    let mut may = [0u32; 8];
    for p in 0..instance.sizes.processors {
        let mut set = sets[p] & s.left;
        if mask::has(anew, p) {
            let site = s.site(p);
            set = narrow(instance, site, p, set, full, list, count, lateness);
        }
        may[p] = set;
    }
    may
}

// Whether conflicts are listed, and the list is full.
fn is_full(mode: Mode, list: &[u8], count: usize) -> bool
    requires { 6 * count ≤ length list.now }
    ensures { result ≡ (mode.listing && full list.now count) }
{
    if !mode.listing {
        return false;
    }
    nogoods::is_full(list, count)
}

// The state that a search begins with: the open tasks that may stand on each processor are worked out.
pub fn prepare(
    instance: &Instance,
    s: State,
    mode: Mode,
    list: &[u8],
    count: usize,
    lateness: &mut LateCache,
) -> State
    requires { Given instance.now (λ t. Fits t s) (λ t. KnownSets (tasks_in t) list.now count lateness.old) × (6 * count ≤ length list.now) }
    ensures { (result ≡ with_may s (prepared_of instance.now.timing instance.now.rows instance.now.messages instance.now.sizes s mode list.now count))
        × Gives instance.now
        (λ t. Fits t s) (λ t. KnownSets (tasks_in t) list.now count lateness.old) (λ t. KnownSets (tasks_in t) list.now count lateness.new) }
{
    let full = is_full(mode, list, count);
    let all = mask::all_below(instance.sizes.processors);
    let open = [s.left; 8];
    let may = narrow_all(instance, s, open, all, full, list, count, lateness);
    let mut next = s;
    next.may = may;
    next
}

// Whether task k on a processor changes what may stand on others: messages go between tasks, or it has partners.
fn reaches(instance: &Instance, k: usize) -> bool
    requires { k < 24 }
    ensures { result ≡ reaches instance.now.rows instance.now.sizes k }
{
    if instance.sizes.messages != 0 {
        return true;
    }
    instance.rows.partners[k] != 0
}

// The open tasks that may stand on each processor after task k was put on p, from those before.
// Only p is tested anew where the task does not reach the others: what stands there and what is left for them is then as it was.
pub fn refresh(
    instance: &Instance,
    s: State,
    k: usize,
    p: usize,
    mode: Mode,
    list: &[u8],
    count: usize,
    lateness: &mut LateCache,
) -> [u32; 8]
    requires { Given instance.now (λ t. Fits t s) (λ t. KnownSets (tasks_in t) list.now count lateness.old) × (6 * count ≤ length list.now)
        × (k < 24) × (p < 8) }
    ensures { (result ≡ refreshed_of instance.now.timing instance.now.rows instance.now.messages instance.now.sizes s k p mode list.now count)
        × Gives instance.now
        (λ t. Fits t s) (λ t. KnownSets (tasks_in t) list.now count lateness.old) (λ t. KnownSets (tasks_in t) list.now count lateness.new) }
{
    let all = mask::all_below(instance.sizes.processors);
    if is_full(mode, list, count) {
        let open = [s.left; 8];
        return narrow_all(instance, s, open, all, true, list, count, lateness);
    }
    let may = s.may;
    if reaches(instance, k) {
        return narrow_all(instance, s, may, all, false, list, count, lateness);
    }
    let only = mask::insert(0, p);
    narrow_all(instance, s, may, only, false, list, count, lateness)
}
