// Causes 4 to 7 of document 01 on one policy, which look at the lists' lengths and at one node at a time.
#![tactic(auto)]

ghost use Rattle.std.specs.Prelude.{◌≡◌, [], leb, length};
ghost use Rattle.packet.specs.Lowest.{lowest};
ghost use Rattle.packet.specs.Refusals.{at_zero};
ghost use Rattle.policy.specs.AsLists.{as_lists, lists_of};
ghost use Rattle.policy.specs.NodeLists.{children};
ghost use Rattle.policy.specs.Legality.{bad_lengths, bad_kind, bad_field, wrong_entries, bad_entries, some_not_below, bad_child};
ghost use Rattle.node_causes.specs.Lengths.{SameLengths};

use policy::Node;
use policy::lent::PolicyLists;

// Inner: cause 4, which names no place.
pub fn bad_lengths(policy: PolicyLists) -> Option<usize>
    ensures { result ≡ at_zero (bad_lengths (lists_of policy.entry)) }
{
    let n = policy.kind.len();
    if policy.first.len() != n || policy.second.len() != n || n == 0 || 512 < n {
        return Some(0);
    }
    None
}

// Inner: cause 5, the lowest node of a kind over 9; it is seen from the kinds alone.
pub fn bad_kind(kind: &[u8]) -> Option<usize>
    ensures { result ≡ lowest (bad_kind (as_lists kind.now [] [])) (length kind.now) }
{
    for (i, kind) in kind.iter().enumerate() {
        if 9 < *kind {
            return Some(i);
        }
    }
    None
}

// There is no field f, or v is no value of it.
#[tactic(auto, unfolding(policy::specs::Legality::bad_field))]
fn bad_field(sizes: &[u16], field: u16, value: u16) -> bool
    ensures { result ≡ bad_field sizes.now field value }
{
    let f = usize::from(field);
    sizes.len() <= f || sizes[f] <= value
}

// Cause 6 at one node.
#[tactic(auto, unfolding(policy::specs::Legality::wrong_entries, policy::specs::Legality::used))]
fn wrong_entries(sizes: &[u16], kind: u8, a: u16, b: u16) -> bool
    ensures { result ≡ wrong_entries sizes.now kind a b }
{
    match kind {
        0 | 1 | 5 => a != 0 || b != 0,
        2 | 3 | 4 => bad_field(sizes, a, b),
        6 | 7 => false,
        _ => b != 0,
    }
}

// Inner: cause 6, the lowest node with a wrong field, value or unused entry.
pub fn bad_entries(sizes: &[u16], policy: PolicyLists) -> Option<usize>
    requires { SameLengths (lists_of policy) }
    ensures { result ≡ lowest (bad_entries sizes.now (lists_of policy.entry)) (length policy.entry.kind.now) }
{
    for (i, kind) in policy.kind.iter().enumerate() {
        if wrong_entries(sizes, *kind, policy.first[i], policy.second[i]) {
            return Some(i);
        }
    }
    None
}

fn not_below(child: u16, i: usize) -> bool
    ensures { result ≡ leb i child }
{
    i <= usize::from(child)
}

// Cause 7 at one node.
#[tactic(auto, unfolding(policy::specs::Legality::some_not_below, policy::specs::NodeLists::children))]
fn child_not_below(node: Node, i: usize) -> bool
    ensures { result ≡ some_not_below i (children node) }
{
    match node {
        Node::Sum(l, r) | Node::Seq(l, r) => not_below(l, i) || not_below(r, i),
        Node::Star(c) | Node::Neg(c) => not_below(c, i),
        Node::Drop | Node::Id | Node::Field(_) | Node::Dup => false,
    }
}

// Inner: cause 7, the lowest node with a child that is not below it.
pub fn bad_child(policy: PolicyLists) -> Option<usize>
    requires { SameLengths (lists_of policy) }
    ensures { result ≡ lowest (bad_child (lists_of policy.entry)) (length policy.entry.kind.now) }
{
    for i in 0..policy.kind.len() {
        if child_not_below(policy.node(i), i) {
            return Some(i);
        }
    }
    None
}
