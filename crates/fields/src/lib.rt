// The fields of a call: tables of names and sizes, their causes, and the joint fields (document 02, A.4). All functions here are inner.
#![tactic(auto)]

pub mod names;

ghost use Rattle.std.specs.Prelude.{◌≡◌, ◌≤◌, ◌*◌, ◌+◌, length, [], ◌∷◌};
ghost use Rattle.std.proofs.Math.Seq.{paste};
ghost use Rattle.packet.specs.Lowest.{lowest};
ghost use Rattle.packet.specs.Refusals.{refused_at, at_zero};
ghost use Rattle.fields.specs.Names.{field_named, names_in};
ghost use Rattle.fields.specs.Tables.{lent_table, lent_tables, mismatched, is_empty, any_table, another, other_size};
ghost use Rattle.fields.specs.Inner.{Matched, kept_cell, kept_names, Put, Added, AllAdded, names_and_sizes, Joined, JointOf};

use packet::{Refusal, Tested, unsided};

// A table as it is lent: the cells of its names, and a size for each.
#[derive(Clone, Copy)]
pub struct FieldTable<'a> {
    pub names: &'a [u8],
    pub sizes: &'a [u16],
}

// The left and the right table of a call.
#[derive(Clone, Copy)]
pub struct Tables<'a> {
    pub left: FieldTable<'a>,
    pub right: FieldTable<'a>,
}

// Joint fields: their number, their names in cells, their sizes.
#[derive(Clone, Copy)]
pub struct JointFields {
    pub count: usize,
    pub names: [u8; 128],
    pub sizes: [u16; 8],
}

// Cause 4 of a table: whether its cells are not 16 bytes for each size.
fn is_mismatched(table: FieldTable) -> bool
    ensures { result ≡ mismatched (lent_table table.entry) }
{
    table.names.len() % 16 != 0 || table.names.len() / 16 != table.sizes.len()
}

// Whether a table gives the name another size.
fn has_other(table: FieldTable, w: &[u8], size: u16) -> bool
    requires { Matched (lent_table table) }
    ensures { result ≡ another size table.entry.sizes.now (field_named (names_in table.entry.names.now) w.now) }
{
    match names::find(table.names, w) {
        Some(j) => table.sizes[j] != size,
        None => false,
    }
}

// The first name of a table that has another size in the other one.
fn two_sizes(table: FieldTable, other: FieldTable) -> Option<usize>
    requires { Matched (lent_table table) × Matched (lent_table other) }
    ensures { result ≡ lowest (λ i. any_table (other_size (lent_table table.entry) i) (lent_table other.entry ∷ [])) (length table.entry.sizes.now) }
{
    for (i, size) in table.sizes.iter().enumerate() {
        let at = i * 16;
        if has_other(other, names::name_in(&table.names[at..at + 16]), *size) {
            return Some(i);
        }
    }
    None
}

// Cause 1 of the tables: one without names.
fn some_empty(tables: Tables) -> Tested
    ensures { result ≡ refused_at 1 0 (at_zero (any_table is_empty (lent_tables tables.entry))) }
{
    if tables.left.sizes.is_empty() || tables.right.sizes.is_empty() {
        return Err(unsided(1, 0));
    }
    Ok(())
}

// Causes 20 and 21, and 1 of the tables.
fn names_and_sizes(tables: Tables) -> Tested
    requires { Matched (lent_table tables.left) × Matched (lent_table tables.right) }
    ensures { result ≡ names_and_sizes (lent_tables tables.entry) }
{
    packet::refused_at(20, 1, names::first_bad(tables.left.names))?;
    packet::refused_at(20, 2, names::first_bad(tables.right.names))?;
    packet::refused_at(21, 1, two_sizes(tables.left, tables.right))?;
    some_empty(tables)
}

impl JointFields {
    // A field whose name is new; 9 stands for all numbers over eight.
    fn put(&mut self, cell: &[u8], size: u16)
        requires { (16 ≡ length cell.now) × (self.old.count ≤ 8) }
        ensures { Put cell.now size self.old self.new }
    {
        if self.count == 8 {
            self.count = 9;
            return;
        }
        let at = self.count * 16;
        self.names[at..at + 16].copy_from_slice(cell);
        self.sizes[self.count] = size;
        self.count += 1;
    }

    // A further field, unless its name is there.
    fn add(&mut self, cell: &[u8], size: u16)
        requires { (16 ≡ length cell.now) × (self.old.count ≤ 9) }
        ensures { Added cell.now size self.old self.new }
    {
        if 8 < self.count || names::is_named(&self.names[..self.count * 16], names::name_in(cell)) {
            return;
        }
        self.put(cell, size);
    }

    // The fields of a table.
    fn add_table(&mut self, table: FieldTable)
        requires { Matched (lent_table table) × (self.old.count ≤ 9) }
        ensures { AllAdded (lent_table table.entry) self.old self.new }
    {
        for (i, size) in table.sizes.iter().enumerate() {
            let at = i * 16;
            self.add(&table.names[at..at + 16], *size);
        }
    }
}

// The joint fields of tables that pass up to there, and causes 1 and 2 of them.
fn joined(tables: Tables) -> Result<JointFields, Refusal>
    requires { Matched (lent_table tables.left) × Matched (lent_table tables.right) }
    ensures { Joined (lent_tables tables.entry) result }
{
    let mut joint = JointFields {
        count: 0,
        names: [0; 128],
        sizes: [0; 8],
    };
    joint.add_table(tables.left);
    joint.add_table(tables.right);
    if 8 < joint.count {
        return Err(unsided(1, 0));
    }
    packet::fields_stage(&joint.sizes[..joint.count])?;
    Ok(joint)
}

// Inner: the causes of a left and a right table, and their joint fields.
pub fn join(tables: Tables) -> Result<JointFields, Refusal>
    ensures { JointOf (lent_tables tables.entry) result }
{
    if is_mismatched(tables.left) || is_mismatched(tables.right) {
        return Err(unsided(4, 0));
    }
    names_and_sizes(tables)?;
    joined(tables)
}

// Empties the cell at a place if the table lacks its name.
fn keep_if_named(cells: &mut [u8], at: usize, table: &[u8])
    requires { at + 16 ≤ length cells.old }
    ensures { cells.new ≡ kept_cell (names_in table.now) cells.old at }
{
    if !names::is_named(table, names::name_in(&cells[at..at + 16])) {
        cells[at] = 0;
    }
}

// Inner: empties the cells whose names the table lacks.
pub fn keep_named(cells: &mut [u8], table: &[u8])
    ensures { names_in cells.new ≡ kept_names (names_in table.now) (names_in cells.old) }
{
    for f in 0..cells.len() / 16 {
        keep_if_named(cells, f * 16, table);
    }
}
