// A table line: entries `name=size`, split by commas.
ghost use Rattle.std.specs.Prelude.{◌≡◌, ◌≤◌, ◌<◌, ◌+◌, length};
ghost use Rattle.std.proofs.Math.Seq.{paste};
ghost use Rattle.input.specs.Input.{cell_of};
ghost use Rattle.input.specs.Inner.{PartFrom, size_of, EntryOf, EntryStored, TableRead};

use tokens::words;

// An entry: its name and its size.
#[derive(Clone, Copy)]
struct Entry<'a> {
    name: &'a [u8],
    size: u16,
}

// The value of a size, if the word is one.
fn size_of(w: &[u8]) -> Option<u16>
    ensures { result ≡ size_of w.now }
{
    if w.is_empty() || words::leading_zero(w) {
        return None;
    }
    words::number_from(w)
}

// The end of the part that starts at a byte: the next separating byte, or the end of the word.
fn part_end(w: &[u8], by: u8, from: usize) -> usize
    requires { from ≤ length w.now }
    ensures { PartFrom by w.now from result }
{
    for at in from..w.len() {
        if w[at] == by {
            return at;
        }
    }
    w.len()
}

// The word as an entry: just one `=`, and a size after it.
fn entry_of(w: &[u8]) -> Option<Entry<'_>>
    ensures { EntryOf w.now result }
{
    let equals = part_end(w, b'=', 0);
    if equals == w.len() {
        return None;
    }
    let start = equals + 1;
    if part_end(w, b'=', start) < w.len() {
        return None;
    }
    let size = size_of(&w[start..])?;
    Some(Entry {
        name: &w[..equals],
        size,
    })
}

// Writes the cell that holds a name: its length, or 16 where the cell has no room for it, the name's bytes, then zeros.
fn write_cell(name: &[u8], cells: &mut [u8], at: usize)
    requires { at + 16 ≤ length cells.old }
    ensures { cells.new ≡ paste cells.old at (cell_of name.now) 16 }
{
    let n = name.len().min(15);
    let end = n + 1;
    let mut cell = [0u8; 16];
    cell[0] = name.len().min(16) as u8;
    cell[1..end].copy_from_slice(&name[..n]);
    let end = at + 16;
    cells[at..end].copy_from_slice(&cell);
}

// Stores the word as entry n, if it is one.
fn store(w: &[u8], cells: &mut [u8], sizes: &mut [u16], n: usize) -> bool
    requires { (n < 10923) × (174768 ≤ length cells.old) × (10923 ≤ length sizes.old) }
    ensures { EntryStored w.now n result cells.old sizes.old cells.new sizes.new }
{
    let Some(entry) = entry_of(w) else {
        return false;
    };
    write_cell(entry.name, cells, n * 16);
    sizes[n] = entry.size;
    true
}

// Inner: reads the entries of a line to the front of two lists, and counts them; none where one is malformed. An entry has at least two bytes, and all but the last a comma: 10,923 at most.
pub fn read(line: &[u8], cells: &mut [u8], sizes: &mut [u16]) -> Option<usize>
    requires { (length line.now ≤ 32768) × (174768 ≤ length cells.old) × (10923 ≤ length sizes.old) }
    ensures { TableRead line.now result cells.new sizes.new }
{
    if line.is_empty() {
        return Some(0);
    }
    let mut count = 0;
    let mut at = 0;
    loop {
        let end = part_end(line, b',', at);
        if !store(&line[at..end], cells, sizes, count) {
            return None;
        }
        count += 1;
        if end == line.len() {
            return Some(count);
        }
        at = end + 1;
    }
}
