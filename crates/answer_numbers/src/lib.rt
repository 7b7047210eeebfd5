// The eight numbers of each answer, for the C interface.
#![tactic(auto)]

ghost use Rattle.std.specs.Prelude.{◌≡◌};
ghost use Rattle.answer_numbers.specs.Numbers.{eight, refused_numbers, values_numbers, count_numbers, pair_numbers, full_numbers, verdict_numbers, evidence_numbers, trace_numbers};

use evidence::Evidence;
use packet::{Refusal, Tested};
use traces::TraceChecked;
use verdict::Verdict;

fn numbers(a: u64, b: u64, c: u64, d: u64) -> [u64; 8]
    ensures { result ≡ eight a b c d }
{
    [a, b, c, d, 0, 0, 0, 0]
}

#[tactic(auto, unfolding(crate::specs::Numbers::refused_numbers))]
fn of_refusal(r: Refusal) -> [u64; 8]
    ensures { result ≡ refused_numbers r }
{
    numbers(9, u64::from(r.number), u64::from(r.side), r.place)
}

#[tactic(auto, unfolding(crate::specs::Numbers::full_numbers))]
fn of_full(r: Refusal, depth: usize) -> [u64; 8]
    ensures { result ≡ full_numbers r depth }
{
    [
        9,
        u64::from(r.number),
        u64::from(r.side),
        r.place,
        depth as u64,
        0,
        0,
        0,
    ]
}

// Inner, as all below: the numbers of an answer.
#[tactic(auto, unfolding(crate::specs::Numbers::values_numbers))]
pub fn of_values(answer: Tested) -> [u64; 8]
    ensures { result ≡ values_numbers answer }
{
    match answer {
        Ok(()) => numbers(0, 0, 0, 0),
        Err(r) => of_refusal(r),
    }
}

// An answer of one number.
#[tactic(auto, unfolding(crate::specs::Numbers::count_numbers))]
pub fn of_count(answer: Result<u64, Refusal>) -> [u64; 8]
    ensures { result ≡ count_numbers answer }
{
    match answer {
        Ok(n) => numbers(0, n, 0, 0),
        Err(r) => of_refusal(r),
    }
}

#[tactic(auto, unfolding(crate::specs::Numbers::pair_numbers))]
pub fn of_pair(answer: Result<(u8, u8), Refusal>) -> [u64; 8]
    ensures { result ≡ pair_numbers answer }
{
    match answer {
        Ok((left, right)) => numbers(0, u64::from(left), u64::from(right), 0),
        Err(r) => of_refusal(r),
    }
}

#[tactic(auto, unfolding(crate::specs::Numbers::verdict_numbers))]
pub fn of_verdict(answer: Verdict) -> [u64; 8]
    ensures { result ≡ verdict_numbers answer }
{
    match answer {
        Verdict::Equal(rows) => numbers(0, rows as u64, 0, 0),
        Verdict::Left(n, alpha) => numbers(1, n as u64, u64::from(alpha), 0),
        Verdict::Right(n, alpha) => numbers(2, n as u64, u64::from(alpha), 0),
        Verdict::Full(r, depth) => of_full(r, depth),
        Verdict::Refused(r) => of_refusal(r),
    }
}

#[tactic(auto, unfolding(crate::specs::Numbers::evidence_numbers))]
pub fn of_evidence(answer: Evidence) -> [u64; 8]
    ensures { result ≡ evidence_numbers answer }
{
    match answer {
        Evidence::Accepted => numbers(0, 0, 0, 0),
        Evidence::RuleA(row) => numbers(5, 1, row as u64, 0),
        Evidence::RuleB(alpha) => numbers(5, 2, u64::from(alpha), 0),
        Evidence::RuleC(row) => numbers(5, 3, row as u64, 0),
        Evidence::RuleD(row, gamma) => numbers(5, 4, row as u64, u64::from(gamma)),
        Evidence::Refused(r) => of_refusal(r),
    }
}

#[tactic(auto, unfolding(crate::specs::Numbers::trace_numbers))]
pub fn of_trace(answer: TraceChecked) -> [u64; 8]
    ensures { result ≡ trace_numbers answer }
{
    match answer {
        TraceChecked::Left => numbers(1, 0, 0, 0),
        TraceChecked::Right => numbers(2, 0, 0, 0),
        TraceChecked::Both => numbers(3, 0, 0, 0),
        TraceChecked::Neither => numbers(4, 0, 0, 0),
        TraceChecked::Refused(r) => of_refusal(r),
    }
}
