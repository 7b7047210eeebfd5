// The lists lent to a call: cause 10, and the work list set to 0 (document 01, "Causes, in the order tested"). All functions
// here are inner.
#![tactic(auto)]

ghost use Rattle.std.specs.Prelude.{◌≡◌, length, replicate};
ghost use Rattle.lent_lists.specs.LentLists.{rows_misfit, lists_stage};

use packet::{Tested, unsided};

// Row lists of these lengths don't serve: they are unequal, or over 65,535.
fn rows_misfit(rows: &[usize]) -> bool
    ensures { result ≡ rows_misfit rows.now }
{
    let Some((first, others)) = rows.split_first() else {
        return false;
    };
    for n in others {
        if n != first {
            return true;
        }
    }
    65535 < *first
}

// Inner: stage "lists", from the lengths of the row lists and of the work list. The trace checker is lent no row list.
pub fn lists_stage(rows: &[usize], work: usize) -> Tested
    ensures { result ≡ lists_stage rows.now work }
{
    if rows_misfit(rows) || work < 16384 {
        return Err(unsided(10, 0));
    }
    Ok(())
}

// Inner: the work list is all 0, to its last word.
pub fn clear(work: &mut [u32])
    ensures { work.new ≡ replicate (length work.old) 0 }
{
    work.fill(0);
}
