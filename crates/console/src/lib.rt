// The program as a function of bytes (document 01, "The program"; document 02, A.4).
#![tactic(auto)]

ghost use Rattle.std.specs.Prelude.{◌≡◌, ◌≤◌, length};
ghost use Rattle.fields.specs.Tables.{lent_table};
ghost use Rattle.printed_verdict.specs.Inner.{output_room};
ghost use Rattle.console.specs.Answer.{Printed, Answered};

use fields::{FieldTable, Tables};
use index::RowLists;

// The search on two texts with 4,096 rows and as long a trace, printed.
fn searched(tables: Tables, left: &[u8], right: &[u8], out: &mut [u8]) -> usize
    requires { output_room ≤ length out.old }
    ensures { Printed (lent_table tables.entry.left) (lent_table tables.entry.right) left.now right.now out.old result out.new }
{
    let mut packets = [0u16; 4096];
    let mut lefts = [0; 4096];
    let mut rights = [0; 4096];
    let mut parents = [0u16; 4096];
    let mut trace = [0u16; 4096];
    let mut work = [0u32; 16384];
    let mut rows = RowLists {
        packets: &mut packets,
        left: &mut lefts,
        right: &mut rights,
        parents: &mut parents,
    };
    let verdict = search_texts::search(tables, left, right, &mut rows, &mut trace, &mut work);
    printed_verdict::show(out, verdict, rows.columns(), &trace)
}

// The lines of the input, read and answered. A table line has at most 10,923 entries, and a name's cell 16 bytes.
fn asked(input: &[u8], out: &mut [u8]) -> usize
    requires { (length input.now ≤ 32768) × (output_room ≤ length out.old) }
    ensures { Answered input.now out.old result out.new }
{
    let Some(lines) = input::lines::four_lines(input) else {
        return printed_verdict::malformed(out);
    };
    let mut left_names = [0u8; 174768];
    let mut left_sizes = [0u16; 10923];
    let mut right_names = [0u8; 174768];
    let mut right_sizes = [0u16; 10923];
    let Some(m) = input::tables::read(lines.left_table, &mut left_names, &mut left_sizes) else {
        return printed_verdict::malformed(out);
    };
    let Some(n) = input::tables::read(lines.right_table, &mut right_names, &mut right_sizes) else {
        return printed_verdict::malformed(out);
    };
    let left_end = m * 16;
    let right_end = n * 16;
    let left = FieldTable {
        names: &left_names[..left_end],
        sizes: &left_sizes[..m],
    };
    let right = FieldTable {
        names: &right_names[..right_end],
        sizes: &right_sizes[..n],
    };
    searched(Tables { left, right }, lines.left, lines.right, out)
}

// The program: the input's bytes are answered at the front of the output; returns how many bytes were written.
pub fn answer(input: &[u8], output: &mut [u8; 262208]) -> usize
    ensures answers { Answered input.now output.old result output.new }
    ensures fits { (result ≤ output_room) × (output_room ≡ length output.new) }
{
    if 32768 < input.len() {
        return printed_verdict::malformed(output);
    }
    asked(input, output)
}
