// The search: the first placement in order of task then processor, the conflicts before it, and the mark.
#![tactic(auto)]

ghost use Rattle.std.specs.Prelude.{◌≡◌, ◌++◌, ◌+◌, ◌≤◌, length, drop};
ghost use Rattle.table.specs.Sound.{Sound};
ghost use Rattle.goal.specs.Goal.{head_of};
ghost use Rattle.search.specs.Search.{AnsweredOn, Searched};
ghost use Rattle.search.specs.Steps.{HeadBy};

use table::{Refusal, Table};
use verdict::Cause;

// Puts the head: the processors of the placement, or that there is none.
fn put_head(table: Table, placement: Option<[u32; 8]>, buffer: &mut [u8])
    requires { Sound table × HeadBy table placement × (table.tasks.count + 2 ≤ length buffer.old) }
    ensures { buffer.new ≡ head_of table ++ drop (table.tasks.count + 2) buffer.old }
{
    let tasks = table.tasks;
    let processors = table.processors;
    match placement {
        Some(on) => {
            let named = rules::placement_of(on, tasks.count, processors.count);
            answer::put_found(buffer, &named, tasks.count);
        }
        None => answer::put_none(buffer, tasks.count),
    }
}

// The search on a table that was read: 12, or how many bytes of the buffer are written.
fn search_table(table: Table, buffer: &mut [u8]) -> Result<usize, Refusal>
    requires { Sound table }
    ensures { AnsweredOn table buffer.old buffer.new result }
{
    let tasks = table.tasks;
    let n = tasks.count;
    if buffer.len() < n + 5 {
        return Err(Refusal {
            cause: Cause::ShortAnswer,
            place: 0,
        });
    }
    let solved = solve::solve(table, &mut buffer[n + 2..]);
    let listed = solved.listed;
    let cut = listed.cut;
    answer::put_end(&mut buffer[n + 2..], listed.count, !cut);
    put_head(table, solved.placement, buffer);
    Ok(n + 5 + 6 * listed.count)
}

// The first placement of a file's tasks, the conflicts before it and the mark, into the answer buffer; how many bytes are written.
pub fn search(file: &[u8], buffer: &mut [u8]) -> Result<usize, Refusal>
    ensures { Searched file.now buffer.old buffer.new result }
{
    search_table(table::read(file)?, buffer)
}
