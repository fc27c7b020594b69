// One record of a table file: whether it can be taken after the records before it, or the first cause against it.
#![tactic(auto)]

ghost use Rattle.std.specs.Prelude.{◌≡◌, ◌+◌, ◌≤◌, ◌<◌, eqb, length};
ghost use Rattle.finite.specs.Finite.{some_below};
ghost use Rattle.wire.specs.Wire.{number};
ghost use Rattle.layout.specs.Format.{size, period, count, place, end, Counted};
ghost use Rattle.verdict.specs.Faults.{in_range, out_of_range, bad_residence, bad_pair, content_verdict, record_verdict, verdict};
ghost use Rattle.verdict.specs.Reached.{Reached, group_verdict, pair_verdict};

use layout::{Kind, Progress};

// The causes of a refusal, in document 01's order; the last four concern what is asked of a file that can be read.
#[derive(Clone, Copy)]
pub enum Cause {
    Cut,
    UnknownMark,
    OutOfOrder,
    TooMany,
    OutOfRange,
    NotInFile,
    PriorityUsed,
    PeriodsDiffer,
    MessageRepeated,
    HyperperiodTooLarge,
    Missing,
    ShortAnswer,
    PlacementLength,
    UnknownProcessor,
    NoConflictMask,
}

// What a record that is taken says: its kind, and the hyperperiod from then on.
#[derive(Clone, Copy)]
pub struct Taken {
    pub kind: Kind,
    pub hyperperiod: u64,
}

fn is_in_range(low: u32, high: u32, v: u32) -> bool
    ensures { result ≡ in_range low high v }
{
    (low..=high).contains(&v)
}

// 1 ≤ C ≤ D ≤ T ≤ 1,000,000 does not hold of the task at a place.
#[tactic(auto, unfolding(crate::specs::Faults::out_of_range))]
fn task_out_of_range(file: &[u8], at: usize) -> bool
    requires { at + size Kind.Task ≤ length file.now }
    ensures { result ≡ out_of_range file.now at Kind.Task }
{
    let c = wire::word_at(file, at + 2);
    let t = wire::word_at(file, at + 6);
    let d = wire::word_at(file, at + 10);
    !(1 <= c && c <= d && d <= t && t <= 1000000)
}

#[tactic(auto, unfolding(crate::specs::Faults::bad_residence))]
fn bad_residence(processors: usize, residence: u32) -> bool
    requires { processors < 32 }
    ensures { result ≡ bad_residence processors residence }
{
    residence == 0 || !mask::only_below(residence, processors)
}

#[tactic(auto, unfolding(crate::specs::Faults::bad_pair))]
fn bad_pair(tasks: usize, from: u32, to: u32) -> bool
    ensures { result ≡ bad_pair tasks from to }
{
    tasks <= from as usize || tasks <= to as usize || from == to
}

// Whether one of the records of a kind has the two bytes at `offset` that the record at a place has there.
fn repeated(file: &[u8], at: usize, x: Progress, kind: Kind, offset: usize) -> bool
    requires { Reached file.now at x × (at + size kind ≤ length file.now) × (offset + 2 ≤ size kind) }
    ensures { result ≡ some_below (count x kind) (λ j. eqb (number file.now (place x kind j + offset) 2) (number file.now (at + offset) 2)) }
{
    let sought = wire::half_at(file, at + offset);
    let n = layout::count_of(x, kind);
    let series = layout::series_of(x, kind);
    for j in 0..n {
        if wire::half_at(file, layout::place_in(series, j) + offset) == sought {
            return true;
        }
    }
    false
}

// The period of task `j`.
fn period_of(file: &[u8], x: Progress, j: u32) -> u32
    requires { Counted x × (end x ≤ length file.now) × (j < count x Kind.Task) }
    ensures { result ≡ period file.now (place x Kind.Task j) }
{
    wire::word_at(file, layout::place_of(x, Kind::Task, j as usize) + 6)
}

fn processor_verdict(file: &[u8], at: usize, x: Progress) -> Result<Taken, Cause>
    requires { at + size Kind.Processor ≤ length file.now }
    ensures { result ≡ content_verdict file.now at x Kind.Processor }
{
    if !is_in_range(1, 1000, wire::half_at(file, at + 6)) {
        return Err(Cause::OutOfRange);
    }
    Ok(Taken {
        kind: Kind::Processor,
        hyperperiod: x.hyperperiod,
    })
}

fn task_verdict(file: &[u8], at: usize, x: Progress) -> Result<Taken, Cause>
    requires { Reached file.now at x × (at + size Kind.Task ≤ length file.now) }
    ensures { result ≡ content_verdict file.now at x Kind.Task }
{
    if task_out_of_range(file, at) {
        return Err(Cause::OutOfRange);
    }
    let processors = x.counts[1];
    if bad_residence(processors, wire::half_at(file, at + 20)) {
        return Err(Cause::NotInFile);
    }
    if repeated(file, at, x, Kind::Task, 18) {
        return Err(Cause::PriorityUsed);
    }
    let hyperperiod = lcm::least_common_multiple(x.hyperperiod, wire::word_at(file, at + 6));
    if 1000000000 < hyperperiod {
        return Err(Cause::HyperperiodTooLarge);
    }
    Ok(Taken {
        kind: Kind::Task,
        hyperperiod,
    })
}

// A group of either kind.
fn group_verdict(file: &[u8], at: usize, x: Progress, kind: Kind) -> Result<Taken, Cause>
    requires { Reached file.now at x × (at + 6 ≤ length file.now) }
    ensures { result ≡ group_verdict file.now at x kind }
{
    if !mask::is_group(wire::word_at(file, at + 2), x.counts[2]) {
        return Err(Cause::NotInFile);
    }
    Ok(Taken {
        kind,
        hyperperiod: x.hyperperiod,
    })
}

fn message_verdict(file: &[u8], at: usize, x: Progress) -> Result<Taken, Cause>
    requires { Reached file.now at x × (at + size Kind.Message ≤ length file.now) }
    ensures { result ≡ content_verdict file.now at x Kind.Message }
{
    if !is_in_range(1, 1000000, wire::word_at(file, at + 4)) {
        return Err(Cause::OutOfRange);
    }
    pair_verdict(file, at, x)
}

// The sender and the receiver of the message at a place.
fn pair_verdict(file: &[u8], at: usize, x: Progress) -> Result<Taken, Cause>
    requires { Reached file.now at x × (at + size Kind.Message ≤ length file.now) }
    ensures { result ≡ pair_verdict file.now at x }
{
    let from = wire::byte_at(file, at + 2);
    let to = wire::byte_at(file, at + 3);
    if bad_pair(x.counts[2], from, to) {
        return Err(Cause::NotInFile);
    }
    if period_of(file, x, from) != period_of(file, x, to) {
        return Err(Cause::PeriodsDiffer);
    }
    if repeated(file, at, x, Kind::Message, 2) {
        return Err(Cause::MessageRepeated);
    }
    Ok(Taken {
        kind: Kind::Message,
        hyperperiod: x.hyperperiod,
    })
}

// What the record holds, 5 to 10.
fn content_verdict(file: &[u8], at: usize, x: Progress, kind: Kind) -> Result<Taken, Cause>
    requires { Reached file.now at x × (at + size kind ≤ length file.now) }
    ensures { result ≡ content_verdict file.now at x kind }
{
    match kind {
        Kind::Network => Ok(Taken {
            kind: Kind::Network,
            hyperperiod: x.hyperperiod,
        }),
        Kind::Processor => processor_verdict(file, at, x),
        Kind::Task => task_verdict(file, at, x),
        Kind::CoResident => group_verdict(file, at, x, kind),
        Kind::Exclusive => group_verdict(file, at, x, kind),
        Kind::Message => message_verdict(file, at, x),
    }
}

// The record's length, place and number, 1, 3 and 4, then what it holds.
fn record_verdict(file: &[u8], at: usize, x: Progress, kind: Kind) -> Result<Taken, Cause>
    requires { Reached file.now at x }
    ensures { result ≡ record_verdict file.now at x kind }
{
    let shape = layout::shape_of(kind);
    let order = shape.order;
    if file.len() - at < shape.size {
        return Err(Cause::Cut);
    }
    if order < x.next {
        return Err(Cause::OutOfOrder);
    }
    if shape.most <= x.counts[order] {
        return Err(Cause::TooMany);
    }
    content_verdict(file, at, x, kind)
}

// Whether the record at a place can be taken after those of `x`, or the first cause against it.
pub fn verdict_at(file: &[u8], at: usize, x: Progress) -> Result<Taken, Cause>
    requires { Reached file.now at x }
    ensures { result ≡ verdict file.now at x }
{
    if file.len() - at < 2 {
        return Err(Cause::Cut);
    }
    let kind = layout::kind_at(file, at).ok_or(Cause::UnknownMark)?;
    record_verdict(file, at, x, kind)
}
