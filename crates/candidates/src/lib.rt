// Which open tasks each processor can take: those that the rules allow there and that make no late set with what it has. Conflicts may be listed.
#![tactic(auto)]

ghost use Rattle.std.specs.Prelude.{◌≡◌, ◌<◌, T};
ghost use Rattle.mask.specs.Mask.{has};
ghost use Rattle.table.specs.declared.Table.{Table};
ghost use Rattle.timing.specs.Timing.{tasks_in};
ghost use Rattle.partial.specs.declared.State.{State};
ghost use Rattle.partial.specs.Partial.{site_of};
ghost use Rattle.nogoods.specs.Nogoods.{KnownSets};
ghost use Rattle.region.specs.Begins.{Opens};
ghost use Rattle.region.specs.Given.{InstanceOf, Given, Gives};
ghost use Rattle.candidates.specs.Candidates.{JoinsAs, ChosenAs, CandidatesAs};

use late_cache::LateCache;
use nogoods::Mode;
use partial::{Instance, Site, State};

// Whether a task may join a processor, and how many conflicts are listed then.
#[derive(Clone, Copy)]
struct Joining {
    able: bool,
    count: usize,
}

// The candidates for a processor, and how many conflicts are listed then.
#[derive(Clone, Copy)]
struct Chosen {
    set: u32,
    count: usize,
}

// The candidates for each processor, and how many conflicts are listed then.
#[derive(Clone, Copy)]
pub struct Candidates {
    pub sets: [u32; 8],
    pub count: usize,
}

// The open task k on processor p: tested by the rules, then for lateness.
fn join(
    instance: &Instance,
    site: Site,
    k: usize,
    p: usize,
    mode: Mode,
    list: &mut [u8],
    count: usize,
    lateness: &mut LateCache,
) -> Joining
    requires { ((t : Table) × (s : State) × InstanceOf t instance.now × Opens t s list.old count × (site ≡ site_of s p)
        × KnownSets (tasks_in t) list.old count lateness.old) × T (has site.left k) × (p < instance.now.sizes.processors) }
    ensures { (t : Table) (s : State) → InstanceOf t instance.now
        → Opens t s list.old count → site ≡ site_of s p → KnownSets (tasks_in t) list.old count lateness.old
        → JoinsAs t mode s k p list.old count list.new result × KnownSets (tasks_in t) list.new result.count lateness.new }
{
    if !partial::allows(instance, site, k, p) {
        return Joining { able: false, count };
    }
    let set = mask::insert(site.on, k);
    let tested = nogoods::test(
        &instance.timing,
        instance.sizes.tasks,
        set,
        mode,
        list,
        count,
        lateness,
    );
    Joining {
        able: !tested.bad,
        count: tested.count,
    }
}

// The open tasks that may stand on processor p.
fn candidates_on(
    instance: &Instance,
    s: State,
    p: usize,
    mode: Mode,
    list: &mut [u8],
    count: usize,
    lateness: &mut LateCache,
) -> Chosen
    requires { Given instance.now (λ t. Opens t s list.old count) (λ t. KnownSets (tasks_in t) list.old count lateness.old)
        × (p < instance.now.sizes.processors) }
    ensures { Gives instance.now
        (λ t. Opens t s list.old count) (λ t. KnownSets (tasks_in t) list.old count lateness.old)
        (λ t. ChosenAs t mode s p list.old count list.new result × KnownSets (tasks_in t) list.new result.count lateness.new) }
{
    let site = s.site(p);
    let mut set: u32 = 0;
    let mut listed = count;
    for k in mask::members(s.left) {
        let joining = join(instance, site, k, p, mode, list, listed, lateness);
        listed = joining.count;
        if joining.able {
            set = mask::insert(set, k);
        }
    }
    Chosen { set, count: listed }
}

// The candidates for each processor.
pub fn candidates_of(
    instance: &Instance,
    s: State,
    mode: Mode,
    list: &mut [u8],
    count: usize,
    lateness: &mut LateCache,
) -> Candidates
    requires { Given instance.now (λ t. Opens t s list.old count) (λ t. KnownSets (tasks_in t) list.old count lateness.old) }
    ensures { Gives instance.now
        (λ t. Opens t s list.old count) (λ t. KnownSets (tasks_in t) list.old count lateness.old)
        (λ t. CandidatesAs t mode s list.old count list.new result × KnownSets (tasks_in t) list.new result.count lateness.new) }
{
    let mut sets = [0u32; 8];
    let mut listed = count;
    for p in 0..instance.sizes.processors {
        let chosen = candidates_on(instance, s, p, mode, list, listed, lateness);
        sets[p] = chosen.set;
        listed = chosen.count;
    }
    Candidates {
        sets,
        count: listed,
    }
}
