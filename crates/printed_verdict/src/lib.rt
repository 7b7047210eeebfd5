// A verdict as the program prints it (document 01, "The program"): its line, then the rows or the trace.
#![tactic(auto)]

ghost use Rattle.std.specs.Prelude.{◌++◌, ◌≤◌, length, take};
ghost use Rattle.packet.specs.Refusals.{refusal};
ghost use Rattle.printing.specs.ThreeFields.{verdict_line, row_lines, trace_lines};
ghost use Rattle.printing.specs.InnerWrote.{Wrote};
ghost use Rattle.printed_verdict.specs.Output.{word_equal, refusal_line};
ghost use Rattle.printed_verdict.specs.Inner.{output_room, verdict_lines, Fits};

use index::Columns;
use packet::{Refusal, unsided};
use verdict::Verdict;

// A refusal's line.
fn refused(out: &mut [u8], r: Refusal) -> usize
    requires { output_room ≤ length out.old }
    ensures { Wrote out.old out.new 0 result (refusal_line r) }
{
    printing::verdict(out, b"refused", u64::from(r.number), r.place)
}

// The first n rows are all rows. They fit: 4,097 lines of at most 64 bytes.
fn equal(out: &mut [u8], n: usize, rows: Columns) -> usize
    requires { (output_room ≤ length out.old) × (n ≤ 4096) × (n ≤ length rows.packets.now) × (n ≤ length rows.left.now) × (n ≤ length rows.right.now) }
    ensures { let rows = rows.entry in Wrote out.old out.new 0 result (verdict_line word_equal n 0 ++ row_lines (take n rows.packets.now) (take n rows.left.now) (take n rows.right.now)) }
{
    let at = printing::verdict(out, b"equal", n as u64, 0);
    printing::rows(
        out,
        at,
        &rows.packets[..n],
        &rows.left[..n],
        &rows.right[..n],
    )
}

// The first n packets of the trace list tell the texts apart.
fn telling(out: &mut [u8], word: &[u8], n: usize, entering: u16, trace: &[u16]) -> usize
    requires { (output_room ≤ length out.old) × (length word.now ≤ 7) × (n ≤ 4096) × (n ≤ length trace.now) }
    ensures { Wrote out.old out.new 0 result (verdict_line word.now n entering ++ trace_lines 0 (take n trace.now)) }
{
    let at = printing::verdict(out, word, n as u64, u64::from(entering));
    printing::trace(out, at, &trace[..n])
}

// Inner: a verdict with its rows or its trace.
pub fn show(out: &mut [u8], verdict: Verdict, rows: Columns, trace: &[u16]) -> usize
    requires { (output_room ≤ length out.old) × Fits verdict rows.packets.now rows.left.now rows.right.now trace.now }
    ensures { let rows = rows.entry in Wrote out.old out.new 0 result (verdict_lines verdict rows.packets.now rows.left.now rows.right.now trace.now) }
{
    match verdict {
        Verdict::Equal(n) => equal(out, n, rows),
        Verdict::Left(n, entering) => telling(out, b"left", n, entering, trace),
        Verdict::Right(n, entering) => telling(out, b"right", n, entering, trace),
        Verdict::Full(r, _) => refused(out, r),
        Verdict::Refused(r) => refused(out, r),
    }
}

// Inner: cause 18.
pub fn malformed(out: &mut [u8]) -> usize
    requires { output_room ≤ length out.old }
    ensures { Wrote out.old out.new 0 result (refusal_line (refusal 18 0 0)) }
{
    refused(out, unsided(18, 0))
}
