// Runs the cases of its input through the program as a function of bytes. A case is the number of parts of the program's
// input, and for each part how often it stands there, its length and its bytes. Every byte of the output is 7 before the
// call. What is written is held to the stored output; after it stands the verdict word that the output starts with, and
// whether the bytes beyond are kept.
#![tactic(auto)]

use harness::Input;
use std::io::Stdout;

// Whether the output starts with the word and a comma.
fn starts(output: &[u8], word: &[u8]) -> bool {
    matches!(output.strip_prefix(word), Some([b',', ..]))
}

// Names the word if the output starts with it.
fn name(stdout: Stdout, output: &[u8], word: &[u8]) {
    if starts(output, word) {
        harness::write(stdout, b"starts with ");
        harness::write(stdout, word);
    }
}

// What the call wrote, what the output starts with, and whether the bytes beyond are all 7.
fn show(stdout: Stdout, output: &[u8], n: usize) {
    let (said, beyond) = output.split_at(n.min(output.len()));
    harness::write(stdout, said);
    name(stdout, said, b"equal");
    name(stdout, said, b"left");
    name(stdout, said, b"right");
    name(stdout, said, b"refused");
    harness::write(stdout, b", bytes ");
    harness::number(stdout, n as u64);
    if beyond.iter().all(|b| *b == 7) {
        harness::write(stdout, b", beyond as before");
    }
    harness::line_end(stdout);
}

fn one_case(stdout: Stdout, input: &mut Input, given: &mut [u8]) {
    let mut output = [7u8; 262208];
    let n = console::answer(input.build(given), &mut output);
    show(stdout, &output, n);
}

fn run(stdout: Stdout, bytes: &[u8], given: &mut [u8]) {
    let mut input = Input { rest: bytes };
    for _ in 0..bytes.len() {
        if !input.next_digit() {
            return;
        }
        one_case(stdout, &mut input, given);
    }
}

fn main(rt: HostRuntime) {
    let mut input = [0u8; 65536];
    let input = harness::read_full(rt.stdin(), &mut input);
    let mut given = [0u8; 40000];
    run(rt.stdout(), input, &mut given);
}
