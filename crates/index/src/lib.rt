// The row columns and their index (document 01, "States and rows"): is this row listed?
#![tactic(auto)]

ghost use Rattle.std.specs.Prelude.{◌≡◌, ◌+◌, ◌<◌, ◌≤◌, length, get_or, set};
ghost use Rattle.index.specs.Columns.{policy_count, EvenColumns, row_at, listed_below};
ghost use Rattle.index.specs.Lent.{rows_of, IndexedRows, SameLists};
ghost use Rattle.index.specs.Index.{hash_prime, mixed, mixed_upper, hash_of, bucket_of, side_at, Indexable, RoomFor, LookEnds};
ghost use Rattle.index.specs.Appending.{NewPlaced, lists_in, IndexedIn, Appending};

use packet_set::Mask;

// How many policies a row follows.
pub const POLICIES: usize = 2;

// A row: a packet and a state of each policy.
#[derive(Clone, Copy, PartialEq, Eq)]
pub struct Row {
    pub packet: u16,
    pub states: [Mask; POLICIES],
}

// Inner: lent columns that are read. `row` and `RowLists::put` alone know which column is whose.
#[derive(Clone, Copy)]
pub struct Columns<'a> {
    pub packets: &'a [u16],
    pub left: &'a [Mask],
    pub right: &'a [Mask],
}

impl<'a> Columns<'a> {
    // Inner: row i of the columns.
    pub fn row(self, i: usize) -> Row
        requires even_columns { EvenColumns self.packets.now self.left.now self.right.now }
        requires i_in_bounds { i < length self.packets.now }
        ensures { result ≡ rows_of self.entry i }
    {
        Row {
            packet: self.packets[i],
            states: [self.left[i], self.right[i]],
        }
    }
}

// Inner: the lent row lists that are written, the columns and the parents.
#[derive(Drop)]
pub struct RowLists<'a> {
    pub packets: &'a mut [u16],
    pub left: &'a mut [Mask],
    pub right: &'a mut [Mask],
    pub parents: &'a mut [u16],
}

impl<'a> RowLists<'a> {
    // Inner: the columns, to be read.
    pub fn columns(&self) -> Columns<'_>
        ensures packets { result.packets.now ≡ self.now.packets.now }
        ensures left { result.left.now ≡ self.now.left.now }
        ensures right { result.right.now ≡ self.now.right.now }
    {
        Columns {
            packets: self.packets,
            left: self.left,
            right: self.right,
        }
    }

    // Inner: writes row i with its parent.
    pub fn put(&mut self, i: usize, row: Row, parent: u16)
        requires even_columns { EvenColumns self.old.packets.now self.old.left.now self.old.right.now }
        requires i_in_bounds { i < length self.old.packets.now }
        requires parents_len { length self.old.parents.now ≡ length self.old.packets.now }
        ensures same_lists { SameLists self.old self.new }
        ensures packets_after { self.new.packets.now ≡ set self.old.packets.now i row.packet }
        ensures left_after { self.new.left.now ≡ set self.old.left.now i (get_or row.states 0 0) }
        ensures right_after { self.new.right.now ≡ set self.old.right.now i (get_or row.states 1 0) }
        ensures parents_after { self.new.parents.now ≡ set self.old.parents.now i parent }
    {
        self.packets[i] = row.packet;
        self.left[i] = row.states[0];
        self.right[i] = row.states[1];
        self.parents[i] = parent;
    }
}

// A prime modulus makes every bit of every mask count, also where the number of buckets is a power of 2.
const HASH_FACTOR: usize = 1640531527;

const HASH_PRIME: usize = 4294967291;

// Half a state goes into a hash: the product of a sum of two numbers below 2 ^ 32 and the factor does not overflow.
fn mix(h: usize, half: usize) -> usize
    requires { (h < hash_prime) × (half < 4294967296) }
    ensures { (result ≡ mixed h half) × (result < hash_prime) }
{
    (h + half) * HASH_FACTOR % HASH_PRIME
}

// The upper half goes in if it has a bit: with up to 31 dups a state costs no more than its lower half.
fn mix_upper(h: usize, upper: usize) -> usize
    requires { (h < hash_prime) × (upper < 4294967296) }
    ensures { result ≡ mixed_upper h upper }
{
    if upper == 0 { h } else { mix(h, upper) }
}

fn hash(states: [Mask; POLICIES]) -> usize
    ensures { result ≡ hash_of policy_count states }
{
    let mut h = 0;
    for mask in states {
        let state = mask as usize;
        h = mix_upper(mix(h, state % 4294967296), state / 4294967296);
    }
    h
}

// The row's bucket. Each packet has its own range of buckets, so the successors of one row, whose packets differ, share no tree.
fn bucket(size: usize, count: u16, row: Row) -> usize
    requires packet_lt_count { row.packet < count }
    requires count_le_size { count ≤ size }
    ensures { (result ≡ bucket_of size count row) × (result < size) }
{
    let width = size / usize::from(count);
    usize::from(row.packet) * width + hash(row.states) % width
}

// Which child a look goes on to: a bit of a state, the policies in turn. The rows of a bucket have one packet, and those that agree in all
// 128 bits too are the same, so a look passes at most 128 rows, whoever chose them.
fn side_at(states: [Mask; POLICIES], depth: usize) -> usize
    ensures { (result ≡ side_at depth states) × (result < 2) }
{
    (states[depth % POLICIES] >> (depth / POLICIES % 64)) as usize % 2
}

// Inner: looks for the row among the first n. It ends at the row, listed with this number, or, as an error, at a slot of the trees where it
// would be attached. (Inlined: a caller that goes from row to row works out once what the trees and the packet count decide.)
#[inline(always)]
pub fn place(
    columns: Columns,
    n: usize,
    count: u16,
    trees: &[u16],
    row: Row,
) -> Result<usize, usize>
    requires indexed { IndexedRows columns count n trees.now }
    requires packet_lt_count { row.packet < count }
    ensures { LookEnds (rows_of columns.entry) count n trees.now row result }
{
    let size = trees.len() / 3;
    let mut slot = bucket(size, count, row);
    let mut depth = 0;
    loop {
        let entry = usize::from(trees[slot]);
        if entry == 0 {
            return Err(slot);
        }
        let i = entry - 1;
        if columns.row(i) == row {
            return Ok(i);
        }
        slot = size + 2 * i + side_at(row.states, depth);
        depth += 1;
    }
}

// Inner: is the row one of the first n?
pub fn find(columns: Columns, n: usize, count: u16, trees: &[u16], row: Row) -> bool
    requires indexed { IndexedRows columns count n trees.now }
    requires packet_lt_count { row.packet < count }
    ensures { result ≡ listed_below (rows_of columns.entry) n row }
{
    place(columns, n, count, trees, row).is_ok()
}

// Attaches row n at a slot.
fn attach(trees: &mut [u16], slot: usize, n: usize)
    requires slot_in_bounds { slot < length trees.old }
    requires n_bound { n < 65535 }
    ensures { trees.new ≡ set trees.old slot (n + 1) }
{
    trees[slot] = (n + 1) as u16;
}

// Inner: indexes the first n rows of the columns. A row that is listed already is not attached again.
pub fn index_rows(columns: Columns, n: usize, count: u16, trees: &mut [u16])
    requires indexed { IndexedRows columns count 0 trees.old }
    requires indexable { Indexable columns.packets.now count n trees.old }
    ensures { IndexedRows columns.entry count n trees.new }
{
    for i in 0..n {
        if let Err(slot) = place(columns, i, count, trees, columns.row(i)) {
            attach(trees, slot, i);
        }
    }
}

// The slot where the row must be attached; none if nothing must be appended, since all its states are 0 or it is listed already.
fn place_new(columns: Columns, n: usize, count: u16, trees: &[u16], row: Row) -> Option<usize>
    requires indexed { IndexedRows columns count n trees.now }
    requires packet_lt_count { row.packet < count }
    ensures { NewPlaced (rows_of columns.entry) count n trees.now row result }
{
    if row.states == [0; POLICIES] {
        return None;
    }
    place(columns, n, count, trees, row).err()
}

// Inner: appends the row with its parent as row n, unless all its states are 0 or it is listed already. It answers how many rows are listed
// then, or nothing where the row must be appended and the columns are full.
pub fn append(
    rows: &mut RowLists,
    n: usize,
    count: u16,
    trees: &mut [u16],
    row: Row,
    parent: u16,
) -> Option<usize>
    requires indexed { IndexedIn (lists_in rows.old trees.old) count n }
    requires parents_len { length rows.old.parents.now ≡ length rows.old.packets.now }
    requires room_for { RoomFor rows.old.packets.now n 1 trees.old }
    requires packet_lt_count { row.packet < count }
    ensures same_lists { SameLists rows.old rows.new }
    ensures appends { Appending (lists_in rows.old trees.old) (lists_in rows.new trees.new) count n row parent result }
{
    let Some(slot) = place_new(rows.columns(), n, count, trees, row) else {
        return Some(n);
    };
    if rows.packets.len() <= n {
        return None;
    }
    rows.put(n, row, parent);
    attach(trees, slot, n);
    Some(n + 1)
}
