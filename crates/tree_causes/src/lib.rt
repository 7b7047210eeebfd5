// Causes 8 and 9 of document 01 and 19 of document 02 on one policy: children and dups are counted, tests told from the rest.
#![tactic(auto)]

pub mod alone;

ghost use Rattle.std.specs.Prelude.{◌≡◌, ◌&&◌, ◌<◌, pred, eqb, length, get_or};
ghost use Rattle.packet.specs.Lowest.{lowest};
ghost use Rattle.policy.specs.AsLists.{lists_of};
ghost use Rattle.policy.specs.NodeLists.{children};
ghost use Rattle.policy.specs.Legality.{not_once, bad_negation};
ghost use Rattle.tree_causes.specs.Counting.{CountableChildren, ChildCounts, Countable, with_child, with_children, DupCountOf};

use policy::Node;
use policy::lent::PolicyLists;

// One more child is counted.
fn count_child(counts: &mut [u16], child: u16)
    requires child_in_bounds { child < length counts.old }
    requires child_bound { get_or counts.old child 0 < 65535 }
    ensures { counts.new ≡ with_child counts.old child }
{
    counts[usize::from(child)] += 1;
}

// The children of one more node are counted.
#[tactic(auto, using(crate::proofs::CountLaws::with_child_length, crate::proofs::CountLaws::with_child_most), unfolding(policy::specs::NodeLists::children, policy::specs::InnerEach::Each, crate::specs::Counting::with_children))]
fn count_children(counts: &mut [u16], node: Node)
    requires { Countable counts.old (children node) }
    ensures { counts.new ≡ with_children counts.old (children node) }
{
    match node {
        Node::Sum(l, r) | Node::Seq(l, r) => {
            count_child(counts, l);
            count_child(counts, r);
        }
        Node::Star(c) | Node::Neg(c) => count_child(counts, c),
        Node::Drop | Node::Id | Node::Field(_) | Node::Dup => {}
    }
}

// How often each node is a child.
fn times_child(policy: PolicyLists) -> [u16; 512]
    requires { CountableChildren (lists_of policy) }
    ensures { ChildCounts (lists_of policy.entry) result (length policy.entry.kind.now) }
{
    let mut counts = [0u16; 512];
    for i in 0..policy.kind.len() {
        count_children(&mut counts, policy.node(i));
    }
    counts
}

// Inner: cause 8, the lowest node but the last that is not a child exactly once.
pub fn not_once(policy: PolicyLists) -> Option<usize>
    requires { CountableChildren (lists_of policy) }
    ensures { result ≡ lowest (not_once (lists_of policy.entry)) (pred (length policy.entry.kind.now)) }
{
    let counts = times_child(policy);
    for i in 0..policy.kind.len().saturating_sub(1) {
        if counts[i] != 1 {
            return Some(i);
        }
    }
    None
}

// Cause 19 at a node of this kind, by the flag of its tree.
fn refused_negation(kind: u8, alone: u16) -> bool
    ensures { result ≡ (eqb kind 9 && eqb alone 0) }
{
    kind == 9 && alone == 0
}

// Inner: cause 19, the lowest negation of anything but tests.
pub fn bad_negation(policy: PolicyLists) -> Option<usize>
    requires { CountableChildren (lists_of policy) }
    ensures { result ≡ lowest (bad_negation (lists_of policy.entry)) (length policy.entry.kind.now) }
{
    // most policies have no negation, and need no flags
    if !policy.kind.contains(&9) {
        return None;
    }
    let alone = alone::tests_alone(policy);
    for (i, kind) in policy.kind.iter().enumerate() {
        if refused_negation(*kind, alone[i]) {
            return Some(i);
        }
    }
    None
}

// Inner: cause 9, the first dup that is one too many; else the number of dups. It is seen from the kinds alone.
pub fn dups(kind: &[u8]) -> Result<u8, usize>
    ensures { DupCountOf kind.now result }
{
    let mut count: u8 = 0;
    for (i, kind) in kind.iter().enumerate() {
        count += u8::from(*kind == 5);
        if 63 < count {
            return Err(i);
        }
    }
    Ok(count)
}
