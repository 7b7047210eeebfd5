// One row of the search is handled (document 01, "States and rows"). All functions here are inner.
#![tactic(auto)]

ghost use Rattle.std.specs.Prelude.{◌≡◌};
ghost use Rattle.index.specs.Lent.{SameLists};
ghost use Rattle.index.specs.Appending.{lists_in};
ghost use Rattle.row_handling.specs.Step.{open_or_done, HandleReady, StepDone};

use compare::{Compared, LoadedPolicies};
use index::{POLICIES, RowLists};
use listed_rows::Progress;
use marks::Next;
use verdict::Ended;

// What a step of the search answers. Inner.
#[derive(Drop)]
pub enum Handled {
    // there are rows to handle among so many listed
    Open(usize),
    Stopped(Ended),
}

// Inner: whether all rows are handled.
fn goes_on(handled: usize, listed: usize) -> Handled
    ensures { result ≡ open_or_done handled listed }
{
    if handled < listed {
        Handled::Open(listed)
    } else {
        Handled::Stopped(Ended::Done(listed))
    }
}

// Inner: handles row `handled` of the `listed` rows: two steps and a lookup for each successor; a lookup passes at most 128 rows of the
// index. The next lists are empty before, and after where the search goes on.
pub fn handle(
    policies: LoadedPolicies,
    rows: &mut RowLists,
    trees: &mut [u16],
    progress: Progress,
    next: &mut [Next; POLICIES],
    work: &mut [u32],
) -> Handled
    requires { HandleReady policies.sizes.now policies.nodes.now policies.tests.now (lists_in rows.old trees.old) progress next.old work.old }
    ensures same_lists { SameLists rows.old rows.new }
    ensures step { let p = policies.entry in StepDone p.sizes.now p.nodes.now p.tests.now (lists_in rows.old trees.old) (lists_in rows.new trees.new) progress work.old result next.new work.new }
{
    let row = rows.columns().row(progress.handled);
    match compare::compare(policies, row, next, work) {
        Compared::Left(gamma) => Handled::Stopped(Ended::Left(gamma)),
        Compared::Right(gamma) => Handled::Stopped(Ended::Right(gamma)),
        Compared::Same => {
            let Some(n) = listed_rows::append_next(rows, trees, progress, next) else {
                return Handled::Stopped(Ended::Full);
            };
            compare::forget(next, progress.count);
            goes_on(progress.handled + 1, n)
        }
    }
}
