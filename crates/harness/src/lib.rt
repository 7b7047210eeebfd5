// Reading the numbers of cases from standard input and writing the answers, for the programs that run cases. What such a
// program writes is held to its stored output.
#![tactic(auto)]

ghost use Rattle.std.specs.Prelude.{◌≤◌, length};

use std::io::{Read, Stdin, Stdout};

// What is left to read of an input: numbers, and between them bytes that are no digits.
#[derive(Clone, Copy)]
pub struct Input<'a> {
    pub rest: &'a [u8],
}

// An entry of a list of the input.
pub trait Entry {
    // The next one.
    fn scan(input: &mut Input) -> Self;
}

impl Entry for u8 {
    fn scan(input: &mut Input) -> u8 {
        (input.scan() % 256) as u8
    }
}

impl Entry for u16 {
    fn scan(input: &mut Input) -> u16 {
        (input.scan() % 65536) as u16
    }
}

// Its four quarters, the highest first.
impl Entry for u64 {
    fn scan(input: &mut Input) -> u64 {
        let mut value = 0;
        for _ in 0..4 {
            value = value % 281474976710656 * 65536 + u64::from(u16::scan(input));
        }
        value
    }
}

impl<'a> Input<'a> {
    // Goes on to the next digit; false at the input's end.
    pub fn next_digit(&mut self) -> bool {
        while let [b, rest @ ..] = self.rest {
            if b.is_ascii_digit() {
                return true;
            }
            self.rest = rest;
        }
        false
    }

    // The next number, of which the last nine digits count; 0 at the input's end.
    pub fn scan(&mut self) -> u32 {
        self.next_digit();
        let mut value = 0;
        while let [b, rest @ ..] = self.rest {
            if !b.is_ascii_digit() {
                return value;
            }
            value = value % 100000000 * 10 + u32::from(*b - b'0');
            self.rest = rest;
        }
        value
    }

    // As many entries at the front of a list as the input says, at most all.
    pub fn lent<'l, T>(&mut self, list: &'l mut [T]) -> &'l mut [T]
        ensures { length result.now ≤ length list.old }
    {
        let wanted = self.scan() as usize;
        let n = wanted.min(list.len());
        &mut list[..n]
    }

    // A list of the input: its length, then its entries.
    pub fn scan_list<'l, T: Entry + Copy>(&mut self, list: &'l mut [T]) -> &'l [T]
        ensures { length result.now ≤ length list.old }
    {
        let list = self.lent(list);
        for entry in list.iter_mut() {
            *entry = T::scan(self);
        }
        list
    }

    // A text of the input: the number of its parts, and for each part how often it stands there, its length and its bytes.
    pub fn build<'l>(&mut self, text: &'l mut [u8]) -> &'l [u8]
        ensures { length result.now ≤ length text.old }
    {
        let parts = self.scan();
        let mut len = 0;
        for _ in 0..parts {
            let turns = self.scan();
            let count = self.scan();
            let part = *self;
            for _ in 0..turns {
                *self = part;
                for _ in 0..count {
                    let b = u8::scan(self);
                    if len < text.len() {
                        text[len] = b;
                        len += 1;
                    }
                }
            }
        }
        &text[..len]
    }
}

// Reads until the list is full, the input ends or a read fails, and lends what it read, which is at the start of the list.
pub fn read_full(stdin: Stdin, list: &mut [u8]) -> &[u8]
    ensures { length result.now ≤ length list.old }
{
    let mut input = stdin;
    let mut done = 0;
    while done < list.len() {
        let Ok(n) = input.read(&mut list[done..]) else {
            break;
        };
        if n == 0 {
            break;
        }
        done += n;
    }
    &list[..done]
}

// What a failed write leaves out is missing from the output, which is held to the stored one.
pub fn write(stdout: Stdout, bytes: &[u8]) {
    let _ = stdout.write_all(bytes);
}

pub fn number(stdout: Stdout, n: u64) {
    let _ = stdout.print(n);
}

pub fn space(stdout: Stdout) {
    write(stdout, b" ");
}

pub fn line_end(stdout: Stdout) {
    write(stdout, b"\n");
}
