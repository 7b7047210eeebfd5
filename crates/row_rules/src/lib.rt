// Row rules (a), (b) and (d) of the evidence checker, one by one, over lent columns (document 01, "Row rules for evidence"), and whether
// a row repeats an earlier one. All functions here are inner.
// They need no policy: rule (c), the next states and the order of the rules are in `evidence`.
#![tactic(auto)]

ghost use Rattle.std.specs.Prelude.{◌≡◌, true, [], ◌∷◌, ◌<◌, ◌≤◌, length, get_or};
ghost use Rattle.packet.specs.Lowest.{lowest};
ghost use Rattle.packet_set.specs.Bits.{mask_bits};
ghost use Rattle.index.specs.Columns.{policy_count, left_of, right_of, EvenColumns, Small};
ghost use Rattle.index.specs.Lent.{IndexedRows};
ghost use Rattle.marks.specs.Marks.{Marking};
ghost use Rattle.row_rules.specs.Presence.{mask_row, states_in_range, row_in_range, DupsFit, stray_after, before, zero_states, strays, start_missing, next_missing, Repeated};

use index::{Columns, POLICIES, Row};
use marks::Next;
use packet_set::Mask;

fn states_fit(states: [Mask; POLICIES], dups: [u32; POLICIES]) -> bool
    requires { DupsFit dups }
    ensures { result ≡ states_in_range policy_count dups states }
{
    for k in 0..POLICIES {
        if !packet_set::in_range(states[k], dups[k]) {
            return false;
        }
    }
    true
}

// Inner: rule (a) at one row.
pub fn row_fits(row: Row, count: u16, dups: [u32; POLICIES]) -> bool
    requires { DupsFit dups }
    ensures { result ≡ row_in_range count dups row }
{
    row.packet < count && states_fit(row.states, dups)
}

// Inner: rule (a): the lowest row that breaks it.
pub fn first_stray(columns: Columns, count: u16, dups: [u32; POLICIES]) -> Option<u16>
    requires even_columns { EvenColumns columns.packets.now columns.left.now columns.right.now }
    requires packets_len_bound { length columns.packets.now ≤ 65535 }
    requires dups_fit { DupsFit dups }
    ensures { let rows = columns.entry in result ≡ lowest (strays rows.packets.now rows.left.now rows.right.now count dups) (length rows.packets.now) }
{
    for i in 0..columns.packets.len() {
        if !row_fits(columns.row(i), count, dups) {
            return Some(i as u16);
        }
    }
    None
}

// Inner: rule (a) at row i by its numbers: the first of `end` rows that breaks it, or `end`, where `found` is that of the rows before. All are
// plain numbers, so that the list of records is no business of theirs.
pub fn stray_after(
    end: usize,
    found: usize,
    i: usize,
    packet: u16,
    left: Mask,
    right: Mask,
    count: u16,
    left_dups: u32,
    right_dups: u32,
) -> usize
    requires { (left_dups < mask_bits) × (right_dups < mask_bits) }
    ensures { result ≡ stray_after end found i (row_in_range count (left_dups ∷ right_dups ∷ []) (mask_row packet left right)) }
{
    let row = Row {
        packet,
        states: [left, right],
    };
    if row_fits(row, count, [left_dups, right_dups]) {
        return found;
    }
    if found < end { found } else { i }
}

// Inner: the spot of the first row that breaks rule (a), from its number.
pub fn stray_spot(end: usize, stray: usize) -> Option<u16>
    requires { end ≤ 65535 }
    ensures { result ≡ before end stray }
{
    if stray < end {
        Some(stray as u16)
    } else {
        None
    }
}

// Inner: rule (b): the lowest packet whose starting row is missing. Rows are looked up in the search's index.
pub fn first_start_missing(columns: Columns, count: u16, trees: &[u16]) -> Option<u16>
    requires { IndexedRows columns count (length columns.packets.now) trees.now }
    ensures { let rows = columns.entry in result ≡ lowest (start_missing rows.packets.now rows.left.now rows.right.now) count }
{
    for alpha in 0..count {
        let row = Row {
            packet: alpha,
            states: [1; POLICIES],
        };
        if !index::find(columns, columns.packets.len(), count, trees, row) {
            return Some(alpha);
        }
    }
    None
}

fn zero_states(left: Mask, right: Mask) -> bool
    ensures { result ≡ zero_states left right }
{
    left == 0 && right == 0
}

// Rule (d) at one packet: the next row has a state that is not 0 and is missing.
fn next_missing(
    columns: Columns,
    count: u16,
    trees: &[u16],
    packet: u16,
    left: Mask,
    right: Mask,
) -> bool
    requires indexed { IndexedRows columns count (length columns.packets.now) trees.now }
    requires packet_lt_count { packet < count }
    ensures { let rows = columns.entry in result ≡ next_missing rows.packets.now rows.left.now rows.right.now packet left right }
{
    if zero_states(left, right) {
        return false;
    }
    let row = Row {
        packet,
        states: [left, right],
    };
    !index::find(columns, columns.packets.len(), count, trees, row)
}

// Inner: rule (d) at a row, from its next states: the lowest packet whose next row is missing. A packet without marks asks for no row:
// only marked packets are visited.
pub fn first_next_missing(
    columns: Columns,
    count: u16,
    trees: &[u16],
    next: &[Next; POLICIES],
) -> Option<u16>
    requires indexed { IndexedRows columns count (length columns.packets.now) trees.now }
    requires marking { (Marking count (left_of next.now)) × (Marking count (right_of next.now)) × (count ≤ 1024) }
    ensures { let rows = columns.entry in result ≡ lowest (λ γ. next_missing rows.packets.now rows.left.now rows.right.now γ (get_or (left_of next.now) γ 0) (get_or (right_of next.now) γ 0)) count }
{
    let set = marks::either(&next[0], &next[1]);
    let words = packet_set::words_for(usize::from(count));
    let mut from = 0;
    while let Some(gamma) = packet_set::next_member(&set, from, words) {
        let i = usize::from(gamma);
        if next_missing(columns, count, trees, gamma, next[0][i], next[1][i]) {
            return Some(gamma);
        }
        from = gamma + 1;
    }
    None
}

// Inner: is row i the same as a row before it? It then keeps rules (c) and (d) if that row does. Nothing is promised where the answer is
// no: the row is checked then, which costs time and nothing else.
pub fn repeated(columns: Columns, i: usize, count: u16, trees: &[u16]) -> bool
    requires indexed { IndexedRows columns count (length columns.packets.now) trees.now }
    requires i_in_bounds { (i < length columns.packets.now) × Small columns.packets.now count }
    ensures { let rows = columns.entry in result ≡ true → Repeated rows.packets.now rows.left.now rows.right.now i }
{
    match index::place(columns, columns.packets.len(), count, trees, columns.row(i)) {
        Ok(j) => j < i,
        Err(_) => false,
    }
}
