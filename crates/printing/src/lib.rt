// The lines of the output: three fields, split by commas, ended by CRLF.
#![tactic(auto)]

ghost use Rattle.std.specs.Prelude.{◌≡◌, [], ◌∷◌, ◌+◌, ◌*◌, ◌<◌, ◌≤◌, length};
ghost use Rattle.printing.specs.ThreeFields.{numeral, line_rest, number_line, verdict_line, row_lines, trace_lines};
ghost use Rattle.printing.specs.InnerWrote.{Wrote};

use packet_set::Mask;

// Writes a byte at a place, and returns the next place; so do all that write here.
fn byte(out: &mut [u8], at: usize, b: u8) -> usize
    requires { at < length out.old }
    ensures { Wrote out.old out.new at result (b ∷ []) }
{
    out[at] = b;
    at + 1
}

// Inner: writes the bytes from a place on.
pub fn bytes(out: &mut [u8], at: usize, xs: &[u8]) -> usize
    requires { at + length xs.now ≤ length out.old }
    ensures { Wrote out.old out.new at result xs.now }
{
    let end = at + xs.len();
    out[at..end].copy_from_slice(xs);
    end
}

// A number in decimal, of at most 20 digits.
fn number(out: &mut [u8], at: usize, n: u64) -> usize
    requires { at + 20 ≤ length out.old }
    ensures wrote { Wrote out.old out.new at result (numeral n) }
    ensures short { result ≤ at + 20 }
{
    let mut text = [0u8; 20];
    let k = io::decimal(n, &mut text);
    bytes(out, at, &text[..k])
}

// The second and third field, and the line's end.
fn rest(out: &mut [u8], at: usize, b: u64, c: u64) -> usize
    requires { at + 44 ≤ length out.old }
    ensures wrote { Wrote out.old out.new at result (line_rest b c) }
    ensures short { result ≤ at + 44 }
{
    let b_at = byte(out, at, 44);
    let b_end = number(out, b_at, b);
    let c_at = byte(out, b_end, 44);
    let c_end = number(out, c_at, c);
    let lf = byte(out, c_end, 13);
    byte(out, lf, 10)
}

// A line of three numbers, at most 64 bytes.
fn number_line(out: &mut [u8], at: usize, a: u64, b: u64, c: u64) -> usize
    requires { at + 64 ≤ length out.old }
    ensures wrote { Wrote out.old out.new at result (number_line a b c) }
    ensures short { result ≤ at + 64 }
{
    let end = number(out, at, a);
    rest(out, end, b, c)
}

// Inner: the first line.
pub fn verdict(out: &mut [u8], word: &[u8], b: u64, c: u64) -> usize
    requires { length word.now + 44 ≤ length out.old }
    ensures wrote { Wrote out.old out.new 0 result (verdict_line word.now b c) }
    ensures short { result ≤ length word.now + 44 }
{
    let end = bytes(out, 0, word);
    rest(out, end, b, c)
}

// Inner: the rows.
pub fn rows(out: &mut [u8], from: usize, packets: &[u16], lefts: &[Mask], rights: &[Mask]) -> usize
    requires { (length lefts.now ≡ length packets.now) × (length rights.now ≡ length packets.now) × (from + 64 * length packets.now ≤ length out.old) }
    ensures { Wrote out.old out.new from result (row_lines packets.now lefts.now rights.now) }
{
    let mut at = from;
    for (i, packet) in packets.iter().enumerate() {
        at = number_line(out, at, u64::from(*packet), lefts[i], rights[i]);
    }
    at
}

// Inner: the packets of a trace, each with its place, and 1 for the last, else 0.
pub fn trace(out: &mut [u8], from: usize, packets: &[u16]) -> usize
    requires { from + 64 * length packets.now ≤ length out.old }
    ensures { Wrote out.old out.new from result (trace_lines 0 packets.now) }
{
    let mut at = from;
    for (i, packet) in packets.iter().enumerate() {
        let place = i + 1;
        let last = u64::from(place == packets.len());
        at = number_line(out, at, place as u64, u64::from(*packet), last);
    }
    at
}
