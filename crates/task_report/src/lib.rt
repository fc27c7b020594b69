// The judgement of a placement, task by task, in the caller's buffer: the number, the number concerned, and the response and the margin of each task.
#![tactic(auto)]

ghost use Rattle.std.specs.Prelude.{◌≡◌, ◌++◌, map, ◌+◌, ◌*◌, ◌≤◌, ◌<◌, length, take, drop};
ghost use Rattle.std.proofs.lemmas.List.Edits.{sets};
ghost use Rattle.std.specs.Int.Signed.{mag};
ghost use Rattle.table.specs.Sound.{Sound};
ghost use Rattle.judge.specs.Judge.{check_concerned, judged_on};
ghost use Rattle.task_report.specs.Report.{margin_number, numbers_of, report_on, report_buffer_on, report_answer, report_buffer};
ghost use Rattle.task_report.specs.Small.{Small};

use judge::Judged;
use rules::Broken;
use schedule::Margin;
use table::{Refusal, Table};
use verdict::Cause;

// The number concerned, 0 where no rule is broken.
fn number_concerned(check: Result<(), Broken>) -> usize
    ensures { result ≡ check_concerned check }
{
    match check {
        Ok(()) => 0,
        Err(broken) => broken.number,
    }
}

// A margin as a number. For "beyond" it is the least of 32 bits, which lies far below every margin.
fn margin_number(margin: Margin) -> i32
    ensures { (result ≡ margin_number margin) × (mag result < 2147483648) }
{
    match margin {
        Some(x) => x,
        None => -2147483648,
    }
}

// Puts the margins of n tasks behind their responses.
fn put_margins(out: &mut [i32], margins: [Margin; 24], n: usize)
    requires { (n ≤ 24) × (2 * n + 2 ≤ length out.old) }
    ensures { out.new ≡ sets out.old (2 + n) (map margin_number (take n margins)) }
{
    for k in 0..n {
        out[2 + n + k] = margin_number(margins[k]);
    }
}

// Puts the numbers of a judgement on n tasks at the start of the buffer.
fn put_numbers(out: &mut [i32], judged: Judged, n: usize)
    requires { Small judged × (n ≤ 24) × (2 * n + 2 ≤ length out.old) }
    ensures { out.new ≡ numbers_of n judged ++ drop (2 * n + 2) out.old }
{
    out[0] = codes::check_number(judged.check) as i32;
    out[1] = number_concerned(judged.check) as i32;
    for k in 0..n {
        out[2 + k] = judged.responses[k] as i32;
    }
    put_margins(out, judged.margins, n);
}

// On a table that was read: 13 and 14, then 12, or the numbers are put; how many.
fn judge_tasks_of(table: Table, placement: &[u8], out: &mut [i32]) -> Result<usize, Refusal>
    requires { Sound table }
    ensures answer { result ≡ report_on table.tasks.count (judged_on table placement.now) (length out.old) }
    ensures buffer { out.new ≡ report_buffer_on table.tasks.count (judged_on table placement.now) out.old }
{
    let n = table.tasks.count;
    let judged = judge::judge_table(table, placement)?;
    let count = 2 * n + 2;
    if out.len() < count {
        return Err(Refusal {
            cause: Cause::ShortAnswer,
            place: 0,
        });
    }
    put_numbers(out, judged, n);
    Ok(count)
}

// Judges a placement of a file's tasks, and puts the judgement and the response and the margin of each task into the buffer; how many numbers.
pub fn judge_tasks(file: &[u8], placement: &[u8], out: &mut [i32]) -> Result<usize, Refusal>
    ensures answer { result ≡ report_answer file.now placement.now (length out.old) }
    ensures buffer { out.new ≡ report_buffer file.now placement.now out.old }
{
    let table = table::read(file)?;
    judge_tasks_of(table, placement, out)
}
