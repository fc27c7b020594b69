// The table file: read whole, or refused with the first cause and its place.
#![tactic(auto)]

ghost use Rattle.std.specs.Prelude.{◌≡◌, ◌+◌, ◌≤◌, ◌<◌, ltb, length};
ghost use Rattle.finite.specs.Finite.{only};
ghost use Rattle.wire.specs.Wire.{number};
ghost use Rattle.layout.specs.Format.{row, size, count, Counted};
ghost use Rattle.verdict.specs.Reached.{Reached};
ghost use Rattle.table.specs.Scan.{no_records, with_record, at_end, scan_of};
ghost use Rattle.table.specs.Table.{column, width_of, processor_columns, task_columns, message_columns, table_of, read_of};
ghost use Rattle.table.specs.Columns.{FieldIn, field_at, group_masks};
ghost use Rattle.table.specs.declared.Width.TheVariants as Width;

use layout::{Kind, Progress};
use verdict::{Cause, Taken};

// Why something is refused: the first cause, and its place.
#[derive(Clone, Copy)]
pub struct Refusal {
    pub cause: Cause,
    pub place: usize,
}

#[derive(Clone, Copy)]
pub struct Processors {
    pub count: usize,
    pub memory: [u32; 8],
    pub limit: [u32; 8],
}

#[derive(Clone, Copy)]
pub struct Tasks {
    pub count: usize,
    pub c: [u32; 24],
    pub t: [u32; 24],
    pub d: [u32; 24],
    pub memory: [u32; 24],
    pub priority: [u32; 24],
    pub residence: [u32; 24],
}

#[derive(Clone, Copy)]
pub struct Groups {
    pub count: usize,
    pub mask: [u32; 16],
}

#[derive(Clone, Copy)]
pub struct Messages {
    pub count: usize,
    pub sender: [u32; 64],
    pub receiver: [u32; 64],
    pub amount: [u32; 64],
}

// The numbers of a file by kind; places beyond a count hold 0.
#[derive(Clone, Copy)]
pub struct Table {
    pub capacity: u32,
    pub processors: Processors,
    pub tasks: Tasks,
    pub co: Groups,
    pub ex: Groups,
    pub messages: Messages,
    pub hyperperiod: u64,
}

// The bytes of a number.
#[derive(Clone, Copy)]
pub enum Width {
    One,
    Two,
    Four,
}

fn no_records() -> Progress
    ensures { result ≡ no_records }
{
    Progress {
        counts: [0; 6],
        next: 0,
        hyperperiod: 1,
    }
}

fn with_record(x: Progress, taken: Taken) -> Progress
    requires { Counted x × (count x taken.kind < (row taken.kind).most) }
    ensures { result ≡ with_record x taken.kind taken.hyperperiod }
{
    let shape = layout::shape_of(taken.kind);
    let order = shape.order;
    let before = x.counts[order];
    let mut next = x;
    next.counts[order] = before + 1;
    next.next = shape.next;
    next.hyperperiod = taken.hyperperiod;
    next
}

// Where the file ends, there must be a record of each of the first three kinds.
#[tactic(auto, unfolding(crate::specs::Scan::at_end, crate::specs::Scan::missing))]
fn at_end(at: usize, x: Progress) -> Result<Progress, Refusal>
    ensures { result ≡ at_end at x }
{
    if x.counts[0] == 0 || x.counts[1] == 0 || x.counts[2] == 0 {
        return Err(Refusal {
            cause: Cause::Missing,
            place: at,
        });
    }
    Ok(x)
}

// The records from the left, up to the first that is refused.
fn scan(file: &[u8]) -> Result<Progress, Refusal>
    ensures { result ≡ scan_of file.now }
{
    let mut at: usize = 0;
    let mut x = no_records();
    while at < file.len() {
        let taken = verdict::verdict_at(file, at, x).map_err(|cause| Refusal { cause, place: at })?;
        let shape = layout::shape_of(taken.kind);
        x = with_record(x, taken);
        at += shape.size;
    }
    at_end(at, x)
}

fn number_at(file: &[u8], at: usize, width: Width) -> u32
    requires { at + width_of width ≤ length file.now }
    ensures { result ≡ number file.now at (width_of width) }
{
    match width {
        Width::One => wire::byte_at(file, at),
        Width::Two => wire::half_at(file, at),
        Width::Four => wire::word_at(file, at),
    }
}

// A field of record j of a kind, 0 where there are no more than j records.
fn entry(file: &[u8], x: Progress, kind: Kind, offset: usize, width: Width, j: usize) -> u32
    requires { FieldIn file.now x kind offset width }
    ensures { result ≡ only (ltb j (count x kind)) (field_at file.now x kind offset width j) }
{
    if layout::count_of(x, kind) <= j {
        return 0;
    }
    number_at(file, layout::place_of(x, kind, j) + offset, width)
}

// A field of the records of a kind into an array, zeros behind them.
fn fill(file: &[u8], x: Progress, kind: Kind, offset: usize, width: Width, out: &mut [u32])
    requires { FieldIn file.now x kind offset width }
    ensures { out.new ≡ column (length out.old) (count x kind) (field_at file.now x kind offset width) }
{
    for j in 0..out.len() {
        out[j] = entry(file, x, kind, offset, width, j);
    }
}

fn processors_of(file: &[u8], x: Progress) -> Processors
    requires { Reached file.now (length file.now) x }
    ensures { result ≡ processor_columns file.now x }
{
    let n = x.counts[1];
    let mut memory = [0u32; 8];
    let mut limit = [0u32; 8];
    fill(file, x, Kind::Processor, 2, Width::Four, &mut memory);
    fill(file, x, Kind::Processor, 6, Width::Two, &mut limit);
    Processors {
        count: n,
        memory,
        limit,
    }
}

fn tasks_of(file: &[u8], x: Progress) -> Tasks
    requires { Reached file.now (length file.now) x }
    ensures { result ≡ task_columns file.now x }
{
    let n = x.counts[2];
    let mut c = [0u32; 24];
    let mut t = [0u32; 24];
    let mut d = [0u32; 24];
    let mut memory = [0u32; 24];
    let mut priority = [0u32; 24];
    let mut residence = [0u32; 24];
    fill(file, x, Kind::Task, 2, Width::Four, &mut c);
    fill(file, x, Kind::Task, 6, Width::Four, &mut t);
    fill(file, x, Kind::Task, 10, Width::Four, &mut d);
    fill(file, x, Kind::Task, 14, Width::Four, &mut memory);
    fill(file, x, Kind::Task, 18, Width::Two, &mut priority);
    fill(file, x, Kind::Task, 20, Width::Two, &mut residence);
    Tasks {
        count: n,
        c,
        t,
        d,
        memory,
        priority,
        residence,
    }
}

// The groups of one of the two kinds.
fn groups_of(file: &[u8], x: Progress, kind: Kind) -> Groups
    requires { FieldIn file.now x kind 2 Width.Four }
    ensures { result ≡ group_masks file.now x kind }
{
    let n = layout::count_of(x, kind);
    let mut mask = [0u32; 16];
    fill(file, x, kind, 2, Width::Four, &mut mask);
    Groups { count: n, mask }
}

fn messages_of(file: &[u8], x: Progress) -> Messages
    requires { Reached file.now (length file.now) x }
    ensures { result ≡ message_columns file.now x }
{
    let n = x.counts[5];
    let mut sender = [0u32; 64];
    let mut receiver = [0u32; 64];
    let mut amount = [0u32; 64];
    fill(file, x, Kind::Message, 2, Width::One, &mut sender);
    fill(file, x, Kind::Message, 3, Width::One, &mut receiver);
    fill(file, x, Kind::Message, 4, Width::Four, &mut amount);
    Messages {
        count: n,
        sender,
        receiver,
        amount,
    }
}

fn table_of(file: &[u8], x: Progress) -> Table
    requires { Reached file.now (length file.now) x × (size Kind.Network ≤ length file.now) }
    ensures { result ≡ table_of file.now x }
{
    let capacity = wire::word_at(file, 2);
    let processors = processors_of(file, x);
    let tasks = tasks_of(file, x);
    let co = groups_of(file, x, Kind::CoResident);
    let ex = groups_of(file, x, Kind::Exclusive);
    let messages = messages_of(file, x);
    Table {
        capacity,
        processors,
        tasks,
        co,
        ex,
        messages,
        hyperperiod: x.hyperperiod,
    }
}

// The table of a file, or the first cause to refuse the file and its place.
pub fn read(file: &[u8]) -> Result<Table, Refusal>
    ensures { result ≡ read_of file.now }
{
    let x = scan(file)?;
    Ok(table_of(file, x))
}
