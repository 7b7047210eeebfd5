// The program (document 01, "The program"): reads standard input to its end and writes the answer.
#![tactic(auto)]

ghost use Rattle.std.specs.Prelude.{◌-◌, ◌≤◌, IfOk, length, take};
ghost use Rattle.printing.specs.InnerWrote.{Wrote};
ghost use Rattle.netkat.specs.InnerReading.{AfterRead, ReadOnce, ReadAll};

use std::io::{Read, Stdin};
use std::ops::ControlFlow;

// Keeps what there is room for behind the first bytes.
fn keep(input: &mut [u8], len: usize, chunk: &[u8]) -> usize
    requires { len ≤ length input.old }
    ensures { Wrote input.old input.new len result (take (length input.old - len) chunk.now) }
{
    let n = chunk.len().min(input.len() - len);
    printing::bytes(input, len, &chunk[..n])
}

// What happens to the bytes of one read, which answered `got`: how many bytes are kept then, and whether there may be more. After
// a read that fails nothing is kept: half an input must not get a verdict, and an empty one is malformed.
fn take_in(
    input: &mut [u8],
    len: usize,
    chunk: &[u8],
    got: std::io::Result<usize>,
) -> ControlFlow<usize, usize>
    requires { (len ≤ length input.old) × IfOk got (λ n. n ≤ length chunk.now) }
    ensures { AfterRead input.old len chunk.now got result input.new }
{
    let Ok(n) = got else {
        return ControlFlow::Break(0);
    };
    let kept = keep(input, len, &chunk[..n]);
    if n == 0 {
        return ControlFlow::Break(kept);
    }
    ControlFlow::Continue(kept)
}

// One read.
fn read_some(stdin: Stdin, input: &mut [u8], len: usize) -> ControlFlow<usize, usize>
    requires { len ≤ length input.old }
    ensures { ReadOnce input.old len result input.new }
{
    let mut reader = stdin;
    let mut chunk = [0u8; 4096];
    let got = reader.read(&mut chunk);
    take_in(input, len, &chunk, got)
}

// Reads to the end of the input and keeps the first bytes. A proved loop has to end, and nothing says that an input
// does: the turns are more than any run uses up.
fn read_all(stdin: Stdin, input: &mut [u8]) -> usize
    ensures { (result ≤ length input.new) × ReadAll input.old result input.new }
{
    let mut len = 0;
    for _ in 0..u64::MAX {
        match read_some(stdin, input, len) {
            ControlFlow::Continue(n) => len = n,
            ControlFlow::Break(n) => return n,
        }
    }
    0
}

fn main(rt: HostRuntime) {
    // one byte more than an input may have: that it is too long is all that counts then
    let mut input = [0u8; 32769];
    let n = read_all(rt.stdin(), &mut input);
    let mut output = [0u8; 262208];
    let written = console::answer(&input[..n], &mut output);
    // a cut answer shows: the first line says how many follow
    let _ = rt.write_all(&output[..written]);
}
