// What other languages call. A refusal comes back in one number with its place: see `refused_as` in specs/.
#![tactic(auto)]

ghost use Rattle.std.specs.Prelude.{◌≡◌, ◌≤◌, length};
ghost use Rattle.layout.specs.Format.{longest};
ghost use Rattle.table.specs.Table.{read_of};
ghost use Rattle.judge.specs.Judge.{judge_of, judgement_number};
ghost use Rattle.conflict.specs.Count.{late_count_of};
ghost use Rattle.conflict.specs.Entry.{answer_of};
ghost use Rattle.task_report.specs.Report as reports;
ghost use Rattle.placement.specs.Answers.{refused_as, read_as, conflict_as, written_as, SearchedAs};

use table::Refusal;

// The refusal's number in the upper 32 bits, its place in the lower ones.
fn refused_as(refusal: Refusal) -> u64
    requires { refusal.place ≤ longest }
    ensures { result ≡ refused_as refusal }
{
    (codes::cause_number(refusal.cause) as u64) * 4294967296 + (refusal.place as u64)
}

#[unsafe(no_mangle)]
pub extern "C" fn placement_read(file: &[u8]) -> u64
    ensures { result ≡ read_as (read_of file.now) }
{
    match table::read(file) {
        Ok(_) => 0,
        Err(unread) => refused_as(unread),
    }
}

#[unsafe(no_mangle)]
pub extern "C" fn placement_conflict(file: &[u8], mask: u32) -> u64
    ensures { result ≡ conflict_as (answer_of file.now mask) }
{
    match conflict::check_conflict(file, mask) {
        Ok(finding) => codes::finding_number(finding),
        Err(unchecked) => refused_as(unchecked),
    }
}

// The buyer's configuration tool: the refusal's number, or 0, or the broken rule's.
#[unsafe(no_mangle)]
pub extern "C" fn placement_judge(file: &[u8], placement: &[u8]) -> u16
    ensures { result ≡ judgement_number (judge_of file.now placement.now) }
{
    let judged = judge::judge(file, placement);
    codes::judgement_number(judged)
}

// The judgement, the number concerned, and the response and the margin of each task, into the lent numbers: how many are written, or the refusal.
#[unsafe(no_mangle)]
pub extern "C" fn placement_judge_tasks(file: &[u8], placement: &[u8], out: &mut [i32]) -> u64
    ensures number { result ≡ written_as (reports.report_answer file.now placement.now (length out.old)) }
    ensures buffer { out.new ≡ reports.report_buffer file.now placement.now out.old }
{
    match task_report::judge_tasks(file, placement, out) {
        Ok(numbers) => numbers as u64,
        Err(unjudged) => refused_as(unjudged),
    }
}

// The first placement, the conflicts before it and the mark, into the answer buffer: the count of bytes written, or the refusal.
#[unsafe(no_mangle)]
pub extern "C" fn placement_search(file: &[u8], answer: &mut [u8]) -> u64
    ensures { SearchedAs file.now answer.old answer.new result }
{
    match search::search(file, answer) {
        Ok(bytes) => bytes as u64,
        Err(unsearched) => refused_as(unsearched),
    }
}

// For measuring: one lateness test for each set, on a file that is read once.
#[unsafe(no_mangle)]
pub extern "C" fn placement_late_sets(file: &[u8], sets: &[u32]) -> u64
    ensures { result ≡ late_count_of file.now sets.now }
{
    conflict::count_late(file, sets)
}
