// Which open task the search places next. No answer rests on the choice: it decides only how long the search takes.
#![tactic(auto)]

ghost use Rattle.std.specs.Prelude.{◌≡◌, ◌<◌, ◌≤◌, T, get_or};
ghost use Rattle.mask.specs.Mask.{below};
ghost use Rattle.heuristics.specs.Heuristics.{after_noise};
ghost use Rattle.branching.specs.Branching.{choices_of, noise_of, score_of, pick_of};

use heuristics::Heuristics;
use numbers::wide;

// The lower, the sooner task k is placed: few choices, which count squared, and a large weight; and a little noise, so that a restart chooses anew.
fn score(base: u32, choices: u64, k: usize, heuristics: &mut Heuristics) -> u64
    requires { (choices ≤ 8) × (k < 24) }
    ensures { (result ≡ score_of base (get_or heuristics.old.guide.failures k 0) choices (noise_of heuristics.old))
        × (heuristics.new ≡ after_noise heuristics.old) }
{
    let weight = wide(base) + wide(heuristics.guide.failures[k]) + 1;
    let plain = choices * choices * 67108864 / weight;
    plain + plain / 1024 * heuristics::noise(heuristics) / 10
}

// How many of the processors may take task k.
fn choices(may: &[u32; 8], processors: usize, k: usize) -> u64
    requires { (processors ≤ 8) × (k < 24) }
    ensures { (result ≡ choices_of may.now processors k) × (result ≤ 8) }
{
    let mut found: u64 = 0;
    for p in 0..processors {
        if mask::has(may[p], k) {
            found += 1;
        }
    }
    found
}

// The open task with the lowest score. One that no processor may take is answered at once, and blamed.
pub fn pick<'a>(
    base: &'a [u32; 24],
    processors: usize,
    left: u32,
    may: &'a [u32; 8],
    heuristics: &mut Heuristics,
) -> usize
    requires { (processors ≤ 8) × T (below 24 left) × (0 < left) }
    ensures { (result ≡ (pick_of base.now processors left may.now heuristics.old).task)
        × (heuristics.new ≡ (pick_of base.now processors left may.now heuristics.old).heuristics) }
{
    let mut best = mask::lowest(left);
    let mut least: u64 = 18446744073709551615;
    for k in mask::members(left) {
        let found = choices(may, processors, k);
        if found == 0 {
            heuristics::blame(heuristics, k);
            return k;
        }
        let value = score(base[k], found, k, heuristics);
        if value < least {
            best = k;
            least = value;
        }
    }
    best
}
