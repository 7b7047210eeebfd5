// Runs the calls of its input through the C interface, and writes of each the eight numbers of the answer, then a sum over each
// list that the call may write, as it stands after the call. What it must write is worked out by the scripts tools/*_cases.py
// and by the second implementation (reference/).
//
// A call is its number (0 values, 1 number, 2 policy, 3 read, 4 search, 5 evidence, 6 trace, 7 search on texts, 8 policies), then
// what it takes, in the order of include/netkat.h, its tables first. A list that the call may write is its length; each entry is 7 before the call. A
// list that it only reads is the number of its parts, and for each part how often it stands there, at least once, how many
// entries it has, at least one, and these. An entry of 64 bits is its four quarters, the highest first.
#![tactic(auto)]

ghost use Rattle.std.specs.Prelude.{◌≤◌, length};

use harness::{Entry, Input};
use std::io::{Stdin, Stdout};

// The tables of a call.
#[derive(Clone, Copy)]
struct Tables<'a> {
    left_names: &'a [u8],
    left_sizes: &'a [u16],
    right_names: &'a [u8],
    right_sizes: &'a [u16],
}

// The two policies of a call.
#[derive(Clone, Copy)]
struct Pair<'a> {
    left_kind: &'a [u8],
    left_first: &'a [u16],
    left_second: &'a [u16],
    right_kind: &'a [u8],
    right_first: &'a [u16],
    right_second: &'a [u16],
}

// What is called.
enum Call {
    Values,
    Number,
    Policy,
    Read,
    Search,
    Evidence,
    Trace,
    Texts,
    Policies,
}

// By its number; each further number is a trace's.
impl From<u32> for Call {
    fn from(number: u32) -> Call {
        match number {
            0 => Call::Values,
            1 => Call::Number,
            2 => Call::Policy,
            3 => Call::Read,
            4 => Call::Search,
            5 => Call::Evidence,
            7 => Call::Texts,
            8 => Call::Policies,
            _ => Call::Trace,
        }
    }
}

// A list that a call only reads, at the front of the one given. What the input has beyond that is not read.
fn fill<'l, T: Entry + Copy>(input: &mut Input, list: &'l mut [T]) -> &'l [T]
    ensures { length result.now ≤ length list.old }
{
    let parts = input.scan();
    if list.is_empty() {
        return list;
    }
    let mut len = 0;
    for _ in 0..parts {
        let turns = input.scan().max(1);
        let count = input.scan().max(1);
        let part = *input;
        for _ in 0..turns {
            *input = part;
            for _ in 0..count {
                list[len] = T::scan(input);
                len += 1;
                if len == list.len() {
                    return list;
                }
            }
        }
    }
    &list[..len]
}

fn added(sum: u64, x: u64) -> u64 {
    (sum % 4294967296 * 65599 + x % 4294967296) % 4294967291
}

// An entry of a list that a call writes.
trait Summed: Copy {
    // The sum with the entry.
    fn onto(self, sum: u64) -> u64;
}

impl Summed for u8 {
    fn onto(self, sum: u64) -> u64 {
        added(sum, u64::from(self))
    }
}

impl Summed for u16 {
    fn onto(self, sum: u64) -> u64 {
        added(sum, u64::from(self))
    }
}

impl Summed for u32 {
    fn onto(self, sum: u64) -> u64 {
        added(sum, u64::from(self))
    }
}

// Its halves, the upper half first.
impl Summed for u64 {
    fn onto(self, sum: u64) -> u64 {
        added(added(sum, self / 4294967296), self)
    }
}

fn show_sum(stdout: Stdout, sum: u64) {
    harness::space(stdout);
    harness::number(stdout, sum);
}

// The sum over the entries.
fn sum<T: Summed>(stdout: Stdout, list: &[T]) {
    show_sum(stdout, list.iter().fold(1, |sum, x| x.onto(sum)));
}

fn show(stdout: Stdout, answer: &[u64; 8]) {
    for number in answer {
        show_sum(stdout, *number);
    }
}

fn values(stdout: Stdout, input: &mut Input, t: Tables, p: Pair) {
    let number = u16::scan(input);
    let mut values = [7u16; 66000];
    let values = input.lent(&mut values);
    let mut answer = [7u64; 8];
    exports::netkat_values(
        t.left_names,
        t.left_sizes,
        t.right_names,
        t.right_sizes,
        p.left_kind,
        p.left_first,
        p.left_second,
        p.right_kind,
        p.right_first,
        p.right_second,
        number,
        values,
        &mut answer,
    );
    show(stdout, &answer);
    sum(stdout, values);
}

fn number(stdout: Stdout, input: &mut Input, t: Tables, p: Pair) {
    let mut values = [0u16; 32];
    let values = fill(input, &mut values);
    let mut answer = [7u64; 8];
    exports::netkat_number(
        t.left_names,
        t.left_sizes,
        t.right_names,
        t.right_sizes,
        p.left_kind,
        p.left_first,
        p.left_second,
        p.right_kind,
        p.right_first,
        p.right_second,
        values,
        &mut answer,
    );
    show(stdout, &answer);
}

fn policy(stdout: Stdout, input: &mut Input, t: Tables) {
    let mut kind = [0u8; 600];
    let kind = input.build(&mut kind);
    let mut first = [0u16; 600];
    let first = fill(input, &mut first);
    let mut second = [0u16; 600];
    let second = fill(input, &mut second);
    let mut answer = [7u64; 8];
    exports::netkat_policy(
        t.left_names,
        t.left_sizes,
        t.right_names,
        t.right_sizes,
        kind,
        first,
        second,
        &mut answer,
    );
    show(stdout, &answer);
}

fn read(stdout: Stdout, input: &mut Input, t: Tables) {
    let side = u8::scan(input);
    let mut text = [0u8; 8192];
    let text = input.build(&mut text);
    let mut kind = [7u8; 600];
    let kind = input.lent(&mut kind);
    let mut first = [7u16; 66000];
    let first = input.lent(&mut first);
    let mut second = [7u16; 66000];
    let second = input.lent(&mut second);
    let mut answer = [7u64; 8];
    exports::netkat_read(
        t.left_names,
        t.left_sizes,
        t.right_names,
        t.right_sizes,
        side,
        text,
        kind,
        first,
        second,
        &mut answer,
    );
    show(stdout, &answer);
    sum(stdout, kind);
    sum(stdout, first);
    sum(stdout, second);
}

// The lists that a search writes, lent to it and shown.
fn searched<
    F: FnOnce(
        &mut [u16],
        &mut [u64],
        &mut [u64],
        &mut [u16],
        &mut [u16],
        &mut [u32],
        &mut [u64; 8],
    ),
>(stdout: Stdout, input: &mut Input, search: F)
    requires { F.IsAlwaysCallable search }
{
    let mut packet = [7u16; 66000];
    let packet = input.lent(&mut packet);
    let mut left = [7u64; 66000];
    let left = input.lent(&mut left);
    let mut right = [7u64; 66000];
    let right = input.lent(&mut right);
    let mut parent = [7u16; 66000];
    let parent = input.lent(&mut parent);
    let mut trace = [7u16; 66000];
    let trace = input.lent(&mut trace);
    let mut work = [7u32; 66000];
    let work = input.lent(&mut work);
    let mut answer = [7u64; 8];
    search(packet, left, right, parent, trace, work, &mut answer);
    show(stdout, &answer);
    sum(stdout, packet);
    sum(stdout, left);
    sum(stdout, right);
    sum(stdout, parent);
    sum(stdout, trace);
    sum(stdout, work);
}

fn search(stdout: Stdout, input: &mut Input, t: Tables, p: Pair) {
    searched(
        stdout,
        input,
        |packet, left, right, parent, trace, work, answer| {
            exports::netkat_search(
                t.left_names,
                t.left_sizes,
                t.right_names,
                t.right_sizes,
                p.left_kind,
                p.left_first,
                p.left_second,
                p.right_kind,
                p.right_first,
                p.right_second,
                packet,
                left,
                right,
                parent,
                trace,
                work,
                answer,
            )
        },
    );
}

fn texts(stdout: Stdout, input: &mut Input, t: Tables) {
    let mut left_text = [0u8; 8192];
    let left_text = input.build(&mut left_text);
    let mut right_text = [0u8; 8192];
    let right_text = input.build(&mut right_text);
    searched(
        stdout,
        input,
        |packet, left, right, parent, trace, work, answer| {
            exports::netkat_search_texts(
                t.left_names,
                t.left_sizes,
                t.right_names,
                t.right_sizes,
                left_text,
                right_text,
                packet,
                left,
                right,
                parent,
                trace,
                work,
                answer,
            )
        },
    );
}

fn evidence(stdout: Stdout, input: &mut Input, t: Tables, p: Pair) {
    let mut packet = [0u16; 66000];
    let packet = fill(input, &mut packet);
    let mut left = [0u64; 66000];
    let left = fill(input, &mut left);
    let mut right = [0u64; 66000];
    let right = fill(input, &mut right);
    let mut work = [7u32; 66000];
    let work = input.lent(&mut work);
    let mut answer = [7u64; 8];
    exports::netkat_evidence(
        t.left_names,
        t.left_sizes,
        t.right_names,
        t.right_sizes,
        p.left_kind,
        p.left_first,
        p.left_second,
        p.right_kind,
        p.right_first,
        p.right_second,
        packet,
        left,
        right,
        work,
        &mut answer,
    );
    show(stdout, &answer);
    sum(stdout, work);
}

fn trace(stdout: Stdout, input: &mut Input, t: Tables, p: Pair) {
    let entering = u16::scan(input);
    let mut trace = [0u16; 66000];
    let trace = fill(input, &mut trace);
    let mut work = [7u32; 66000];
    let work = input.lent(&mut work);
    let mut answer = [7u64; 8];
    exports::netkat_trace(
        t.left_names,
        t.left_sizes,
        t.right_names,
        t.right_sizes,
        p.left_kind,
        p.left_first,
        p.left_second,
        p.right_kind,
        p.right_first,
        p.right_second,
        entering,
        trace,
        work,
        &mut answer,
    );
    show(stdout, &answer);
    sum(stdout, work);
}

fn policies(stdout: Stdout, _input: &mut Input, t: Tables, p: Pair) {
    let mut answer = [7u64; 8];
    exports::netkat_policies(
        t.left_names,
        t.left_sizes,
        t.right_names,
        t.right_sizes,
        p.left_kind,
        p.left_first,
        p.left_second,
        p.right_kind,
        p.right_first,
        p.right_second,
        &mut answer,
    );
    show(stdout, &answer);
}

// A call on two policies.
fn of_pair<F: FnOnce(Stdout, &mut Input, Tables, Pair)>(
    stdout: Stdout,
    input: &mut Input,
    tables: Tables,
    call: F,
)
    requires { F.IsAlwaysCallable call }
{
    let mut left_kind = [0u8; 600];
    let left_kind = input.build(&mut left_kind);
    let mut left_first = [0u16; 600];
    let left_first = fill(input, &mut left_first);
    let mut left_second = [0u16; 600];
    let left_second = fill(input, &mut left_second);
    let mut right_kind = [0u8; 600];
    let right_kind = input.build(&mut right_kind);
    let mut right_first = [0u16; 600];
    let right_first = fill(input, &mut right_first);
    let mut right_second = [0u16; 600];
    let right_second = fill(input, &mut right_second);
    let pair = Pair {
        left_kind,
        left_first,
        left_second,
        right_kind,
        right_first,
        right_second,
    };
    call(stdout, input, tables, pair);
}

// A call has its tables first.
fn one_call(stdout: Stdout, input: &mut Input) {
    let call = Call::from(input.scan());
    let mut left_names = [0u8; 66000];
    let left_names = input.build(&mut left_names);
    let mut left_sizes = [0u16; 4200];
    let left_sizes = fill(input, &mut left_sizes);
    let mut right_names = [0u8; 66000];
    let right_names = input.build(&mut right_names);
    let mut right_sizes = [0u16; 4200];
    let right_sizes = fill(input, &mut right_sizes);
    let tables = Tables {
        left_names,
        left_sizes,
        right_names,
        right_sizes,
    };
    match call {
        Call::Values => of_pair(stdout, input, tables, values),
        Call::Number => of_pair(stdout, input, tables, number),
        Call::Policy => policy(stdout, input, tables),
        Call::Read => read(stdout, input, tables),
        Call::Search => of_pair(stdout, input, tables, search),
        Call::Evidence => of_pair(stdout, input, tables, evidence),
        Call::Trace => of_pair(stdout, input, tables, trace),
        Call::Texts => texts(stdout, input, tables),
        Call::Policies => of_pair(stdout, input, tables, policies),
    }
}

fn run(stdout: Stdout, bytes: &[u8]) {
    let mut input = Input { rest: bytes };
    for _ in 0..bytes.len() {
        if !input.next_digit() {
            return;
        }
        one_call(stdout, &mut input);
        harness::line_end(stdout);
    }
}

// A block of the input is 65,536 bytes, the last one may be shorter; no call goes over a block's end.
fn block(stdin: Stdin, stdout: Stdout) {
    let mut input = [0u8; 65536];
    run(stdout, harness::read_full(stdin, &mut input));
}

fn main(rt: HostRuntime) {
    for _ in 0..64 {
        block(rt.stdin(), rt.stdout());
    }
}
