// The runs of a decision: what is kept of the heuristics for a replay, and how many steps each run may take. No answer rests on them.
#![tactic(auto)]

ghost use Rattle.std.specs.Prelude.{◌≡◌, ◌≤◌};
ghost use Rattle.runs.specs.Runs.{kept_of, brought_back_of, is_weighted, share_of, run_of};

use heuristics::Heuristics;

// What guides a run is kept as the run begins.
pub fn keep(heuristics: &mut Heuristics)
    ensures { heuristics.new ≡ kept_of heuristics.old }
{
    heuristics.kept = heuristics.guide;
}

// It is brought back, so that the run can be replayed. The weights of the bound need not be: the run left those that it began with, and makes the
// others anew from them.
pub fn bring_back(heuristics: &mut Heuristics)
    ensures { heuristics.new ≡ brought_back_of heuristics.old }
{
    heuristics.guide = heuristics.kept;
}

// Whether the weights of the bound adapt in a run: not in the first two, then in every second one.
fn is_weighted(run: u32) -> bool
    ensures { result ≡ is_weighted run }
{
    1 < run && run % 2 == 0
}

// How many steps a run may take: fewer where the weights adapt, as a step takes longer then; the runs between get more.
fn share(fuel: u32, run: u32) -> u32
    requires { fuel ≤ 1500000 }
    ensures { result ≡ share_of fuel run }
{
    if is_weighted(run) {
        return fuel / 2;
    }
    if run < 2 {
        return fuel;
    }
    4 * fuel
}

// A run is prepared: how many steps it may take, and whether the weights of the bound adapt.
pub fn begin_run(heuristics: &mut Heuristics, fuel: u32, run: u32)
    requires { fuel ≤ 1500000 }
    ensures { heuristics.new ≡ run_of heuristics.old fuel run }
{
    heuristics.guide.fuel = share(fuel, run);
    heuristics.guide.weighted = is_weighted(run);
}
