// The evidence checker (document 01, "Row rules for evidence"): do rows that anybody made show that two policies are equal?
#![tactic(auto)]

ghost use Rattle.std.specs.Prelude.{[], ◌∷◌, ◌≡◌, ◌<◌, length};
ghost use Rattle.fields.specs.Tables.{lent_tables};
ghost use Rattle.policy.specs.AsLists.{lists_of};
ghost use Rattle.compare.specs.Comparison.{BothBlank};
ghost use Rattle.evidence.specs.Calls.{CheckedRows};
ghost use Rattle.evidence.specs.InnerSteps.{BoundsOf, ReadTable, ReadChecked, StrayIs, LentTable, Cleared, Vacant, TableReady, RowChecked, RowsChecked, StartsChecked, TableChecked};

use compare::{Compared, LoadedPolicies};
use fields::Tables;
use index::{Columns, POLICIES};
use marks::Next;
use packet::Refusal;
use policy::lent::PolicyLists;

// Accepted; or the broken rule with its spot: (a) row, (b) packet, (c) row, (d) row and packet; or a refusal. Document 01 lists these cases, so no Result.
#[derive(Drop)]
pub enum Evidence {
    Accepted,
    RuleA(u16),
    RuleB(u16),
    RuleC(u16),
    RuleD(u16, u16),
    Refused(Refusal),
}

// A row keeps (c) and (d), breaks (c), or breaks (d) at a packet. Inner.
#[derive(Drop)]
pub enum RowAnswer {
    Keeps,
    Outputs,
    Next(u16),
}

// One row: (c), then (d). The next lists are empty before and, where the row keeps both rules, after.
fn row_checked(
    policies: LoadedPolicies,
    count: u16,
    columns: Columns,
    i: usize,
    trees: &[u16],
    next: &mut [Next; POLICIES],
    work: &mut [u32],
) -> RowAnswer
    requires table_ready { TableReady policies.sizes.now policies.nodes.now policies.tests.now columns.packets.now columns.left.now columns.right.now count trees.now work.old }
    requires i_in_bounds { (i < length columns.packets.now) × BothBlank next.old }
    ensures { let p = policies.entry in let rows = columns.entry in RowChecked p.sizes.now p.nodes.now p.tests.now rows.packets.now rows.left.now rows.right.now i work.old result next.new work.new }
{
    match compare::compare(policies, columns.row(i), next, work) {
        Compared::Left(_) | Compared::Right(_) => RowAnswer::Outputs,
        Compared::Same => {
            match row_rules::first_next_missing(columns, count, trees, next) {
                Some(gamma) => RowAnswer::Next(gamma),
                None => {
                    compare::forget(next, count);
                    RowAnswer::Keeps
                }
            }
        }
    }
}

// Row by row: (c), then (d); a repeat of a row is passed over.
fn rows_checked(
    policies: LoadedPolicies,
    count: u16,
    columns: Columns,
    trees: &[u16],
    work: &mut [u32],
) -> Evidence
    requires { TableReady policies.sizes.now policies.nodes.now policies.tests.now columns.packets.now columns.left.now columns.right.now count trees.now work.old }
    ensures { let p = policies.entry in let rows = columns.entry in RowsChecked p.sizes.now p.nodes.now p.tests.now rows.packets.now rows.left.now rows.right.now work.old result work.new }
{
    let mut next = [[0; 1056]; POLICIES];
    for i in 0..columns.packets.len() {
        if row_rules::repeated(columns, i, count, trees) {
            continue;
        }
        match row_checked(policies, count, columns, i, trees, &mut next, work) {
            RowAnswer::Outputs => return Evidence::RuleC(i as u16),
            RowAnswer::Next(gamma) => return Evidence::RuleD(i as u16, gamma),
            RowAnswer::Keeps => {}
        }
    }
    Evidence::Accepted
}

// Rule (b), then row by row: the rows, which keep rule (a), are indexed; the policies are loaded once (b) is kept.
fn starts_checked(
    sizes: &[u16],
    left: PolicyLists,
    right: PolicyLists,
    columns: Columns,
    count: u16,
    trees: &mut [u16],
    work: &mut [u32],
) -> Evidence
    requires cleared { Cleared sizes.now (lists_of left) (lists_of right) columns.packets.now columns.left.now columns.right.now count work.old }
    requires vacant { Vacant columns.packets.now columns.left.now columns.right.now count trees.old }
    ensures { let rows = columns.entry in StartsChecked sizes.now (lists_of left.entry) (lists_of right.entry) rows.packets.now rows.left.now rows.right.now work.old result work.new }
{
    index::index_rows(columns, columns.packets.len(), count, trees);
    match row_rules::first_start_missing(columns, count, trees) {
        Some(alpha) => Evidence::RuleB(alpha),
        None => {
            let mut nodes = [[0; 576]; POLICIES];
            let mut tests = [[0; 8224]; POLICIES];
            compare::load(sizes, count, left, right, &mut nodes, &mut tests);
            let policies = LoadedPolicies {
                sizes,
                nodes: &nodes,
                tests: &tests,
            };
            rows_checked(policies, count, columns, trees, work)
        }
    }
}

// Rule (b), then row by row, on an index that is not much larger than the table: a large one takes longer to set to 0 than a short table
// to check.
fn index_chosen(
    sizes: &[u16],
    left: PolicyLists,
    right: PolicyLists,
    columns: Columns,
    count: u16,
    work: &mut [u32],
) -> Evidence
    requires { Cleared sizes.now (lists_of left) (lists_of right) columns.packets.now columns.left.now columns.right.now count work.old }
    ensures { let rows = columns.entry in StartsChecked sizes.now (lists_of left.entry) (lists_of right.entry) rows.packets.now rows.left.now rows.right.now work.old result work.new }
{
    if columns.packets.len() <= 4096 {
        let mut trees = [0; 12288];
        return starts_checked(sizes, left, right, columns, count, &mut trees, work);
    }
    let mut trees = [0; 196608];
    starts_checked(sizes, left, right, columns, count, &mut trees, work)
}

// The four row rules, (a) first: the lowest row that breaks it has been found.
fn table_checked(
    sizes: &[u16],
    left: PolicyLists,
    right: PolicyLists,
    columns: Columns,
    count: u16,
    stray: Option<u16>,
    work: &mut [u32],
) -> Evidence
    requires lent_table { LentTable sizes.now (lists_of left) (lists_of right) columns.packets.now columns.left.now columns.right.now count work.old }
    requires stray_is { StrayIs (lists_of left) (lists_of right) columns.packets.now columns.left.now columns.right.now count stray }
    ensures { let rows = columns.entry in TableChecked sizes.now (lists_of left.entry) (lists_of right.entry) rows.packets.now rows.left.now rows.right.now work.old result work.new }
{
    lent_lists::clear(work);
    match stray {
        Some(i) => Evidence::RuleA(i),
        None => index_chosen(sizes, left, right, columns, count, work),
    }
}

// Do the rows, whoever made them, keep the row rules for the two policies? The work list is all 0 on return, or as found on a refusal.
pub fn check(
    tables: Tables,
    left: PolicyLists,
    right: PolicyLists,
    columns: Columns,
    work: &mut [u32],
) -> Evidence
    ensures { let rows = columns.entry in CheckedRows (lent_tables tables.entry) (lists_of left.entry) (lists_of right.entry) rows.packets.now rows.left.now rows.right.now work.old result work.new }
{
    let lengths = [
        columns.packets.len(),
        columns.left.len(),
        columns.right.len(),
    ];
    let lists = lent_lists::lists_stage(&lengths, work.len());
    match legality::front(tables, 1, left, right, lists) {
        Err(r) => Evidence::Refused(r),
        Ok(found) => {
            let count = found.packets;
            let dups = [u32::from(found.left_dups), u32::from(found.right_dups)];
            let stray = row_rules::first_stray(columns, count, dups);
            let sizes = &found.core[..found.count];
            table_checked(sizes, left, right, columns, count, stray, work)
        }
    }
}

// The numbers that rule (a) compares a record with, and how many records are read. Inner.
#[derive(Drop)]
pub struct Bounds {
    pub rows: usize,
    pub count: u16,
    pub left_dups: u32,
    pub right_dups: u32,
}

// Inner: the bounds of so many records; none is read where a cause before 10 refuses, or there are too many. The work list is tested by
// `check_read`: here it counts as long enough.
pub fn bounds_of(tables: Tables, left: PolicyLists, right: PolicyLists, rows: usize) -> Bounds
    ensures { BoundsOf (lent_tables tables.entry) (lists_of left.entry) (lists_of right.entry) rows result }
{
    let lists = lent_lists::lists_stage(&[rows, rows, rows], 16384);
    match legality::front(tables, 1, left, right, lists) {
        Err(_) => Bounds {
            rows: 0,
            count: 0,
            left_dups: 0,
            right_dups: 0,
        },
        Ok(found) => Bounds {
            rows,
            count: found.packets,
            left_dups: u32::from(found.left_dups),
            right_dups: u32::from(found.right_dups),
        },
    }
}

// Inner: as `check`, of so many records, whose columns were read, with the first record that breaks rule (a).
pub fn check_read(
    tables: Tables,
    left: PolicyLists,
    right: PolicyLists,
    columns: Columns,
    rows: usize,
    stray: usize,
    work: &mut [u32],
) -> Evidence
    requires { ReadTable (lent_tables tables) (lists_of left) (lists_of right) columns.packets.now columns.left.now columns.right.now rows stray }
    ensures { let read = columns.entry in ReadChecked (lent_tables tables.entry) (lists_of left.entry) (lists_of right.entry) read.packets.now read.left.now read.right.now rows work.old result work.new }
{
    let lists = lent_lists::lists_stage(&[rows, rows, rows], work.len());
    match legality::front(tables, 1, left, right, lists) {
        Err(r) => Evidence::Refused(r),
        Ok(found) => {
            let sizes = &found.core[..found.count];
            let read = Columns {
                packets: &columns.packets[..rows],
                left: &columns.left[..rows],
                right: &columns.right[..rows],
            };
            let spot = row_rules::stray_spot(rows, stray);
            table_checked(sizes, left, right, read, found.packets, spot, work)
        }
    }
}
