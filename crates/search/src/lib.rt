// The search for a telling trace through the row order (document 01, "States and rows").
#![tactic(auto)]

ghost use Rattle.std.specs.Prelude.{ℕ, ◌+◌, ◌/◌, ◌<◌, ◌≤◌, true, false, [], ◌≡◌};
ghost use Rattle.fields.specs.Tables.{lent_tables};
ghost use Rattle.policy.specs.AsLists.{lists_of};
ghost use Rattle.index.specs.Lent.{SameLists};
ghost use Rattle.index.specs.Appending.{lists_in};
ghost use Rattle.search.specs.InnerRows.{RoundsReady, RoundsDone, RestReady, RestDone, RunReady, RunDone};
ghost use Rattle.search.specs.Call.{lent_in, Accepted, SearchDone, Searched};

use compare::LoadedPolicies;
use fields::Tables;
use index::{POLICIES, RowLists};
use listed_rows::Progress;
use policy::lent::PolicyLists;
use row_handling::Handled;
use verdict::{Ended, Stop, Verdict};

// Inner: whether an index of so many slots has room for all rows lent, or for a successor at each packet.
fn has_room(lent: usize, slots: usize, progress: Progress) -> bool
    requires { progress.listed ≤ 65535 }
    ensures { (result ≡ true → (i : ℕ) → i < lent → i < progress.listed + progress.count → i < slots / 3) × (result ≡ false → slots / 3 < lent) }
{
    let size = slots / 3;
    lent <= size || progress.listed + usize::from(progress.count) <= size
}

// Inner: handles row after row while the index has room. It ends where the row order does, or, as an error, where the index may have no room
// for the successors of the next row: how far the row order has come.
fn rounds(
    policies: LoadedPolicies,
    rows: &mut RowLists,
    trees: &mut [u16],
    start: Progress,
    work: &mut [u32],
) -> Result<Stop, Progress>
    requires { RoundsReady policies.sizes.now policies.nodes.now policies.tests.now (lists_in rows.old trees.old) start work.old }
    ensures same_lists { SameLists rows.old rows.new }
    ensures rounds { let p = policies.entry in RoundsDone p.sizes.now p.nodes.now p.tests.now (lists_in rows.old trees.old) (lists_in rows.new trees.new) start work.old result work.new }
{
    let mut next = [[0; 1056]; POLICIES];
    let mut progress = start;
    while has_room(rows.packets.len(), trees.len(), progress) {
        match row_handling::handle(policies, rows, trees, progress, &mut next, work) {
            Handled::Stopped(ended) => {
                return Ok(Stop {
                    row: progress.handled,
                    listed: progress.listed,
                    ended,
                });
            }
            Handled::Open(listed) => {
                progress.listed = listed;
                progress.handled += 1;
            }
        }
    }
    Err(progress)
}

// Inner: the rest of a row order, on an index for as many rows as can be lent.
fn run_on(
    policies: LoadedPolicies,
    rows: &mut RowLists,
    reached: Progress,
    work: &mut [u32],
) -> Stop
    requires { RestReady policies.sizes.now policies.nodes.now policies.tests.now (lists_in rows.old []) reached work.old }
    ensures same_lists { SameLists rows.old rows.new }
    ensures rest { let p = policies.entry in RestDone p.sizes.now p.nodes.now p.tests.now (lists_in rows.old []) (lists_in rows.new []) reached work.old result work.new }
{
    let mut trees = [0u16; 196608];
    index::index_rows(rows.columns(), reached.listed, reached.count, &mut trees);
    match rounds(policies, rows, &mut trees, reached, work) {
        Ok(stop) => stop,
        // this index is for 65,536 rows
        Err(_) => unreachable!(),
    }
}

// Inner: the row order from its start to its end. It starts on a small index, so that a search of few rows need not set a large one to 0.
fn run(policies: LoadedPolicies, count: u16, rows: &mut RowLists, work: &mut [u32]) -> Stop
    requires { RunReady policies.sizes.now policies.nodes.now policies.tests.now (lists_in rows.old []) count work.old }
    ensures same_lists { SameLists rows.old rows.new }
    ensures runs { let p = policies.entry in RunDone p.sizes.now p.nodes.now p.tests.now (lists_in rows.old []) (lists_in rows.new []) count work.old result work.new }
{
    let mut trees = [0u16; 12288];
    let Some(listed) = listed_rows::start(rows, count, &mut trees) else {
        return Stop {
            row: 0,
            listed: 0,
            ended: Ended::Unstarted,
        };
    };
    let progress = Progress {
        count,
        listed,
        handled: 0,
    };
    match rounds(policies, rows, &mut trees, progress, work) {
        Ok(stop) => stop,
        Err(reached) => run_on(policies, rows, reached, work),
    }
}

// Inner: the search where no cause up to 10 holds.
fn search_accepted(
    sizes: &[u16],
    count: u16,
    left: PolicyLists,
    right: PolicyLists,
    rows: &mut RowLists,
    trace: &mut [u16],
    work: &mut [u32],
) -> Verdict
    requires { Accepted sizes.now (lists_of left) (lists_of right) count (lent_in rows.old trace.old work.old) }
    ensures same_lists { SameLists rows.old rows.new }
    ensures done { SearchDone sizes.now (lists_of left.entry) (lists_of right.entry) (lent_in rows.old trace.old work.old) result (lent_in rows.new trace.new work.new) }
{
    lent_lists::clear(work);
    let mut nodes = [[0; 576]; POLICIES];
    let mut tests = [[0; 8224]; POLICIES];
    compare::load(sizes, count, left, right, &mut nodes, &mut tests);
    let policies = LoadedPolicies {
        sizes,
        nodes: &nodes,
        tests: &tests,
    };
    let stop = run(policies, count, rows, work);
    verdict::conclude_rows(rows, stop, trace)
}

// Whether two policies have the same traces from every packet: equal, or a shortest trace that one of them alone has, written to the trace list.
// The row lists hold the rows of the row order listed so far, the work list is 0; refusals up to 10 leave all lists as they were.
pub fn search(
    tables: Tables,
    left: PolicyLists,
    right: PolicyLists,
    rows: &mut RowLists,
    trace: &mut [u16],
    work: &mut [u32],
) -> Verdict
    ensures same_lists { SameLists rows.old rows.new }
    ensures searched { Searched (lent_tables tables.entry) (lists_of left.entry) (lists_of right.entry) (lent_in rows.old trace.old work.old) result (lent_in rows.new trace.new work.new) }
{
    let lists = lent_lists::lists_stage(
        &[
            rows.packets.len(),
            rows.left.len(),
            rows.right.len(),
            rows.parents.len(),
        ],
        work.len(),
    );
    match legality::front(tables, 1, left, right, lists) {
        Err(r) => Verdict::Refused(r),
        Ok(found) => search_accepted(
            &found.core[..found.count],
            found.packets,
            left,
            right,
            rows,
            trace,
            work,
        ),
    }
}
