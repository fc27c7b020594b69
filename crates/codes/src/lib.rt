// Document 01's numbers: of a refusal's cause, a broken rule, a judgement, and a conflict check.
#![tactic(auto)]

ghost use Rattle.std.specs.Prelude.{◌≡◌, ◌≤◌};
ghost use Rattle.table.specs.Refusal.{cause_number};
ghost use Rattle.rules.specs.Rules.{rule_number};
ghost use Rattle.judge.specs.Judge.{check_number, judgement_number};
ghost use Rattle.conflict.specs.Conflict as conflicts;

use conflict::Finding;
use judge::Judged;
use rules::{Broken, Rule};
use table::Refusal;
use verdict::Cause;

// The number of a cause.
pub fn cause_number(cause: Cause) -> u16
    ensures { (result ≡ cause_number cause) × (result ≤ 15) }
{
    match cause {
        Cause::Cut => 1,
        Cause::UnknownMark => 2,
        Cause::OutOfOrder => 3,
        Cause::TooMany => 4,
        Cause::OutOfRange => 5,
        Cause::NotInFile => 6,
        Cause::PriorityUsed => 7,
        Cause::PeriodsDiffer => 8,
        Cause::MessageRepeated => 9,
        Cause::HyperperiodTooLarge => 10,
        Cause::Missing => 11,
        Cause::ShortAnswer => 12,
        Cause::PlacementLength => 13,
        Cause::UnknownProcessor => 14,
        Cause::NoConflictMask => 15,
    }
}

// The number of a rule.
fn rule_number(rule: Rule) -> u16
    ensures { result ≡ rule_number rule }
{
    match rule {
        Rule::Residence => 101,
        Rule::CoResidence => 102,
        Rule::Exclusion => 103,
        Rule::Memory => 104,
        Rule::Utilisation => 105,
        Rule::Network => 106,
        Rule::Deadline => 107,
    }
}

// The number of a check: 0, or the broken rule's.
pub fn check_number(check: Result<(), Broken>) -> u16
    ensures { result ≡ check_number check }
{
    match check {
        Ok(()) => 0,
        Err(broken) => rule_number(broken.rule),
    }
}

// The number that the buyer's configuration tool takes back: the refusal's, or 0, or the broken rule's.
pub fn judgement_number(judgement: Result<Judged, Refusal>) -> u16
    ensures { result ≡ judgement_number judgement }
{
    match judgement {
        Ok(judged) => check_number(judged.check),
        Err(refusal) => cause_number(refusal.cause),
    }
}

// The number of a conflict check's finding.
pub fn finding_number(finding: Finding) -> u64
    ensures { result ≡ conflicts.finding_number finding }
{
    match finding {
        Finding::NoConflict => 0,
        Finding::NotMinimal => 1,
        Finding::MinimalConflict => 2,
    }
}
