// The rows of the search: starting rows and successors appended (document 01, "States and rows"). All functions here are inner.
#![tactic(auto)]

ghost use Rattle.std.specs.Prelude.{◌≡◌, ◌+◌, ◌<◌, ◌≤◌, length};
ghost use Rattle.index.specs.Columns.{left_of, right_of};
ghost use Rattle.index.specs.Index.{RoomFor};
ghost use Rattle.index.specs.Lent.{SameLists};
ghost use Rattle.index.specs.Appending.{lists_in, IndexedIn};
ghost use Rattle.marks.specs.Marks.{Marking};
ghost use Rattle.listed_rows.specs.Standing.{Started, NextAppended};

use index::{POLICIES, Row, RowLists, append};
use marks::Next;

// Inner: lists the starting rows (α, 1, 1), each its own parent. It answers how many rows are listed, or nothing where they don't fit.
pub fn start(rows: &mut RowLists, count: u16, trees: &mut [u16]) -> Option<usize>
    requires indexed { IndexedIn (lists_in rows.old trees.old) count 0 }
    requires parents_len { length rows.old.parents.now ≡ length rows.old.packets.now }
    ensures same_lists { SameLists rows.old rows.new }
    ensures starts { Started (lists_in rows.old trees.old) (lists_in rows.new trees.new) count result }
{
    let mut n = 0;
    for packet in 0..count {
        let row = Row {
            packet,
            states: [1; POLICIES],
        };
        n = append(rows, n, count, trees, row, packet)?;
    }
    Some(n)
}

// How far the row order has come: of `listed` rows `handled` are handled; there are `count` packets. Inner.
#[derive(Clone, Copy)]
pub struct Progress {
    pub count: u16,
    pub listed: usize,
    pub handled: usize,
}

// Inner: row `handled` has been handled; the rows next of it, whose masks the two next lists hold, are appended to the first `listed`. It
// answers how many rows are listed then, or nothing where a row must be appended and the columns are full.
// A packet without marks has no row: only marked packets are visited.
pub fn append_next(
    rows: &mut RowLists,
    trees: &mut [u16],
    progress: Progress,
    next: &[Next; POLICIES],
) -> Option<usize>
    requires indexed { IndexedIn (lists_in rows.old trees.old) progress.count progress.listed }
    requires parents_len { length rows.old.parents.now ≡ length rows.old.packets.now }
    requires room_for { RoomFor rows.old.packets.now progress.listed progress.count trees.old }
    requires marking { (Marking progress.count (left_of next.now)) × (Marking progress.count (right_of next.now)) × (progress.count ≤ 1024) × (progress.handled < 65536) }
    ensures same_lists { SameLists rows.old rows.new }
    ensures appends { NextAppended (lists_in rows.old trees.old) (lists_in rows.new trees.new) progress.count progress.listed progress.handled (left_of next.now) (right_of next.now) result }
{
    let count = progress.count;
    let handled = progress.handled as u16;
    let set = marks::either(&next[0], &next[1]);
    let words = packet_set::words_for(usize::from(count));
    let mut n = progress.listed;
    let mut from = 0;
    while let Some(packet) = packet_set::next_member(&set, from, words) {
        let i = usize::from(packet);
        let row = Row {
            packet,
            states: [next[0][i], next[1][i]],
        };
        n = append(rows, n, count, trees, row, handled)?;
        from = packet + 1;
    }
    Some(n)
}
