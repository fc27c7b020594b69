// The judgement of a placement, from the bytes of the file and of the placement.
#![tactic(auto)]

ghost use Rattle.std.specs.Prelude.{◌≡◌};
ghost use Rattle.table.specs.Sound.{Sound};
ghost use Rattle.schedule.specs.Arrays.{tasks_of};
ghost use Rattle.rules.specs.Sets.{sets_of};
ghost use Rattle.judge.specs.Judge.{PlacementOf, first_unknown, refused_judgement, judged_on, judge_of};
ghost use Rattle.judge.specs.Arrays.{Placed, times_at, times_of};

use rules::Broken;
use schedule::{Margin, Timing};
use table::{Refusal, Table};
use verdict::Cause;

// A placement that was judged: the first broken rule, and the response and the margin of each task; places beyond the tasks hold 0 and a known 0.
#[derive(Clone, Copy)]
pub struct Judged {
    pub check: Result<(), Broken>,
    pub responses: [u32; 24],
    pub margins: [Margin; 24],
}

// What is worked out for one task.
#[derive(Clone, Copy)]
struct TaskTimes {
    response: u32,
    margin: Margin,
}

// What is worked out for all tasks.
#[derive(Clone, Copy)]
struct Times {
    responses: [u32; 24],
    margins: [Margin; 24],
}

// A refusal by the cause at its place.
fn refused(cause: Cause, place: usize) -> Result<Judged, Refusal>
    ensures { result ≡ refused_judgement cause place }
{
    Err(Refusal { cause, place })
}

// The index of the first byte that names none of the m processors.
#[tactic(auto, unfolding(crate::specs::Judge::first_unknown))]
fn first_unknown(placement: &[u8], m: usize) -> Option<usize>
    ensures { result ≡ first_unknown m placement.now }
{
    placement.iter().position(|p| m <= usize::from(*p))
}

// The response and the margin of task k among the tasks that stand on its processor, 0 and a known 0 beyond the n tasks.
fn times_at<'a>(
    timing: &'a Timing,
    placement: &'a [u8],
    n: usize,
    sets: [u32; 8],
    k: usize,
) -> TaskTimes
    requires { Placed n timing.now placement.now sets }
    ensures { result ≡ times_at n (tasks_of n timing.now) placement.now k }
{
    if n <= k {
        return TaskTimes {
            response: 0,
            margin: Some(0),
        };
    }
    let p = usize::from(placement[k]);
    let worst = schedule::worst_response(timing, n, sets[p], k);
    let deadline = timing.deadline[k];
    TaskTimes {
        response: schedule::response_by(deadline, worst),
        margin: schedule::margin_by(deadline, worst),
    }
}

// The responses and the margins of all tasks.
fn times_of(table: Table, placement: &[u8], sets: [u32; 8]) -> Times
    requires { Sound table × PlacementOf table placement.now × (sets ≡ sets_of placement.now) }
    ensures { result ≡ times_of table placement.now }
{
    let n = table.tasks.count;
    let timing = timing::timing_of(table);
    let mut responses = [0u32; 24];
    let mut margins = [Some(0); 24];
    for k in 0..24 {
        let times = times_at(&timing, placement, n, sets, k);
        responses[k] = times.response;
        margins[k] = times.margin;
    }
    Times { responses, margins }
}

// The judgement on a table that was read.
pub fn judge_table(t: Table, placement: &[u8]) -> Result<Judged, Refusal>
    requires { Sound t }
    ensures { result ≡ judged_on t placement.now }
{
    let n = t.tasks.count;
    let unknown = first_unknown(placement, t.processors.count);
    if placement.len() != n {
        return refused(Cause::PlacementLength, 0);
    }
    if let Some(place) = unknown {
        return refused(Cause::UnknownProcessor, place);
    }
    let sets = rules::sets_of(placement);
    let Times { responses, margins } = times_of(t, placement, sets);
    let check = checking::first_broken(t, sets, responses);
    Ok(Judged {
        check,
        responses,
        margins,
    })
}

// The judgement on a placement of a file's tasks.
pub fn judge(file: &[u8], placement: &[u8]) -> Result<Judged, Refusal>
    ensures { result ≡ judge_of file.now placement.now }
{
    judge_table(table::read(file)?, placement)
}
