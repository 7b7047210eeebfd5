// What the search answers where the row order has ended, and the telling trace (document 01, "States and rows"; document 02, A.3). All
// functions here are inner; `Verdict` is the public answer.
#![tactic(auto)]

ghost use Rattle.std.specs.Prelude.{cond, ◌≡◌, length};
ghost use Rattle.pair.specs.Sides.{left, right};
ghost use Rattle.pair.specs.Search.{rows_full};
ghost use Rattle.verdict.specs.InnerEnding.{CanRead, Readable, telling_answer, ended_answer};
ghost use Rattle.verdict.specs.Verdicts.{verdict_of, Told};

use index::RowLists;
use packet::Refusal;

// How the row order ends. Inner.
#[derive(Drop)]
pub enum Ended {
    // all rows are handled, so many
    Done(usize),
    // a row tells: the lowest packet that the left policy alone has in its output, or the right
    Left(u16),
    Right(u16),
    // a row must be appended and the lent lists are full
    Full,
    // the starting rows don't fit
    Unstarted,
}

// Where the row order has ended: the row being handled, and how many rows were listed before its turn; both 0 where it has not started. Inner.
#[derive(Drop)]
pub struct Stop {
    pub row: usize,
    pub listed: usize,
    pub ended: Ended,
}

// What the search answers; four cases, which document 01 lists, so no Result.
#[derive(Drop)]
pub enum Verdict {
    // the row count
    Equal(usize),
    // the policy that has the trace: the trace's length and the entering packet
    Left(usize, u16),
    Right(usize, u16),
    // refusal 11, and how far the two agree: they have the same traces of so many packets or fewer
    Full(Refusal, usize),
    // any other refusal
    Refused(Refusal),
}

// Inner: the trace that ends at the row with the packet `last` is written, if there is room.
fn tell(
    packets: &[u16],
    parents: &[u16],
    listed: usize,
    row: usize,
    left_has: bool,
    last: u16,
    trace: &mut [u16],
) -> Verdict
    requires { CanRead packets.now parents.now row listed }
    ensures { Told (telling_answer (length trace.old) packets.now parents.now row (cond left_has left right) last) trace.old result trace.new }
{
    let needed = parent_traces::depth(parents, listed, row) + 1;
    if trace.len() < needed {
        return Verdict::Refused(Refusal {
            number: 12,
            side: 0,
            place: needed as u64,
        });
    }
    parent_traces::write_trace(packets, parents, listed, row, last, trace);
    let alpha = parent_traces::entering(packets, parents, listed, row);
    if left_has {
        Verdict::Left(needed, alpha)
    } else {
        Verdict::Right(needed, alpha)
    }
}

// Inner: refusal 11 with so many rows lent, and the depth of the row being handled.
fn full(rows: usize, depth: usize) -> Verdict
    ensures { result ≡ verdict_of (rows_full rows depth) }
{
    let refusal = Refusal {
        number: 11,
        side: 0,
        place: rows as u64,
    };
    Verdict::Full(refusal, depth)
}

// Inner: the verdict where the row order has ended, and the trace.
pub fn conclude(packets: &[u16], parents: &[u16], stop: Stop, trace: &mut [u16]) -> Verdict
    requires { Readable packets.now parents.now stop }
    ensures { Told (ended_answer (length packets.now) (length trace.old) packets.now parents.now stop) trace.old result trace.new }
{
    match stop.ended {
        Ended::Done(rows) => Verdict::Equal(rows),
        Ended::Left(last) => tell(packets, parents, stop.listed, stop.row, true, last, trace),
        Ended::Right(last) => tell(packets, parents, stop.listed, stop.row, false, last, trace),
        Ended::Full => full(
            packets.len(),
            parent_traces::depth(parents, stop.listed, stop.row),
        ),
        Ended::Unstarted => full(packets.len(), 0),
    }
}

// Inner: the same of the row lists. (What a `&mut` lends is not lent again in part by a caller that has the struct behind a reference.)
pub fn conclude_rows(rows: &RowLists, stop: Stop, trace: &mut [u16]) -> Verdict
    requires { Readable rows.now.packets.now rows.now.parents.now stop }
    ensures { let packets = rows.now.packets.now in Told (ended_answer (length packets) (length trace.old) packets rows.now.parents.now stop) trace.old result trace.new }
{
    conclude(rows.packets, rows.parents, stop, trace)
}
