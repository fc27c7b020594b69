// The lines of a search answer, from its bytes in the buffer.
#![tactic(auto)]

ghost use Rattle.std.specs.Prelude.{◌≡◌, ◌+◌, ◌*◌, ◌≤◌, length};
ghost use Rattle.table.specs.Sound.{Sound};
ghost use Rattle.rules.specs.Placement.{placed};
ghost use Rattle.rules.specs.Rules.{load_on};
ghost use Rattle.wire.specs.Wire.{Put};
ghost use Rattle.report.specs.Report.{task_lines, load_lines, placement_lines, head_lines, conflict_lines, last_line, answer_lines};

use judge::Judged;
use lines::Stand;
use load::Load;
use table::Table;

const FOUND: [u8; 6] = *b"found\n";

const NONE: [u8; 5] = *b"none\n";

const COMPLETE: [u8; 9] = *b"complete\n";

const CUT: [u8; 4] = *b"cut\n";

// What is printed of a placement that is not judged: no response, and a known 0 for each margin, as if there were no task.
const NOTHING: Judged = Judged {
    check: Ok(()),
    responses: [0; 24],
    margins: [Some(0); 24],
};

// The lines of the tasks.
fn put_tasks<'a>(
    text: &mut [u8],
    at: usize,
    placement: &'a [u8],
    judged: Judged,
    deadlines: &'a [u32; 24],
) -> usize
    requires { (at + 4608 ≤ length text.old) × (length placement.now ≤ 24) }
    ensures { Put text.old at (task_lines placement.now judged deadlines.now) text.new result × (result ≤ at + 4608) }
{
    let mut end = at;
    for (k, processor) in placement.iter().enumerate() {
        let stand = Stand {
            task: k,
            processor: *processor,
            response: judged.responses[k],
            deadline: deadlines[k],
            margin: judged.margins[k],
        };
        end = lines::task_line(text, end, stand);
    }
    end
}

// The load of processor p.
fn load_on(table: Table, placement: &[u8], p: usize) -> Load
    requires { Sound table × (length placement.now ≡ table.tasks.count) }
    ensures { (result.0 ≡ load_on table (placed placement.now) p) × (result.0 ≤ 24 * 1000000000) }
{
    let tasks = table.tasks;
    let mut load = Load::IDLE;
    for (k, byte) in placement.iter().enumerate() {
        if usize::from(*byte) == p {
            load = load.with_task(tasks.c[k], tasks.t[k], table.hyperperiod);
        }
    }
    load
}

// The lines of the processors.
fn put_loads(text: &mut [u8], at: usize, table: Table, placement: &[u8]) -> usize
    requires { (at + 1024 ≤ length text.old) × Sound table × (length placement.now ≡ table.tasks.count) }
    ensures { Put text.old at (load_lines table placement.now) text.new result × (result ≤ at + 1024) }
{
    let mut end = at;
    for p in 0..table.processors.count {
        let load = load_on(table, placement, p);
        end = lines::load_line(text, end, p, load.thousandths(table.hyperperiod));
    }
    end
}

// The lines of a placement.
fn put_placement(text: &mut [u8], at: usize, file: &[u8], table: Table, placement: &[u8]) -> usize
    requires { (at + 5632 ≤ length text.old) × Sound table × (length placement.now ≡ table.tasks.count) }
    ensures { Put text.old at (placement_lines file.now table placement.now) text.new result × (result ≤ at + 5632) }
{
    let judged = judge::judge(file, placement).unwrap_or(NOTHING);
    let end = put_tasks(text, at, placement, judged, &table.tasks.d);
    put_loads(text, end, table, placement)
}

// The first line, and the lines of the placement where there is one.
fn put_head(text: &mut [u8], file: &[u8], table: Table, found: bool, placement: &[u8]) -> usize
    requires { (5760 ≤ length text.old) × Sound table × (length placement.now ≡ table.tasks.count) }
    ensures { Put text.old 0 (head_lines found file.now table placement.now) text.new result × (result ≤ 5760) }
{
    if !found {
        return text::put(text, 0, &NONE);
    }
    let end = text::put(text, 0, &FOUND);
    put_placement(text, end, file, table, placement)
}

// The lines of the conflicts: the first `count` records of the list.
fn put_conflicts(text: &mut [u8], at: usize, n: usize, list: &[u8], count: usize) -> usize
    requires { (at + 128 * count ≤ length text.old) × (n ≤ 24) × (6 * count ≤ length list.now) }
    ensures { Put text.old at (conflict_lines n list.now count) text.new result × (result ≤ at + 128 * count) }
{
    let mut end = at;
    for j in 0..count {
        end = lines::conflict_line(text, end, n, answer::mask_at(list, j));
    }
    end
}

// The last line: whether the list of conflicts is complete.
fn last_line(text: &mut [u8], at: usize, complete: bool) -> usize
    requires { at + 128 ≤ length text.old }
    ensures { Put text.old at (last_line complete) text.new result }
{
    if complete {
        return text::put(text, at, &COMPLETE);
    }
    text::put(text, at, &CUT)
}

// The lines of the first `count` bytes of an answer; returns where they end.
pub fn put_answer(
    text: &mut [u8; 358400],
    file: &[u8],
    table: Table,
    answer: &[u8; 16384],
    count: usize,
) -> usize
    requires { Sound table × (table.tasks.count + 5 ≤ count) × (count ≤ 16384) }
    ensures { Put text.old 0 (answer_lines file.now table answer.now count) text.new result }
{
    let n = table.tasks.count;
    let bytes = &answer[..];
    let found = wire::has_mark(bytes, 0, b"AL");
    let head = put_head(text, file, table, found, &bytes[2..n + 2]);
    let end = put_conflicts(text, head, n, &bytes[n + 2..], (count - n - 5) / 6);
    last_line(text, end, bytes[count - 1] == 1)
}
