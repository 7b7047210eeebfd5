// Which nodes have trees made of tests alone: what may be negated, and what the engine holds as one packet set.
ghost use Rattle.policy.specs.AsLists.{lists_of};
ghost use Rattle.std.specs.Prelude.{◌<◌, ◌≡◌, get_or};
ghost use Rattle.tree_causes.specs.Alone.{ChildrenPlaced, and_flag, alone_of, Alone};
ghost use Rattle.tree_causes.specs.Counting.{CountableChildren};

use policy::lent::PolicyLists;
use policy::{FieldAction, Node};

// Whether two nodes are both tests alone.
#[tactic(auto, unfolding(crate::specs::Alone::and_flag))]
fn both(alone: &[u16; 512], l: u16, r: u16) -> u16
    requires { (l < 512) × (r < 512) }
    ensures { result ≡ and_flag (get_or alone.now l 0) (get_or alone.now r 0) }
{
    if alone[usize::from(l)] == 0 {
        return 0;
    }
    alone[usize::from(r)]
}

// Inner. Whether a node is tests alone, from what is known of its children.
#[tactic(auto, unfolding(crate::specs::Alone::alone_of, crate::specs::Alone::ChildrenPlaced, policy::specs::NodeLists::children, policy::specs::InnerEach::Each))]
fn flag_of(node: Node, alone: &[u16; 512]) -> u16
    requires { ChildrenPlaced node }
    ensures { result ≡ alone_of alone.now node }
{
    match node {
        Node::Drop
        | Node::Id
        | Node::Field(FieldAction::Equals(_, _) | FieldAction::Differs(_, _)) => 1,
        Node::Field(FieldAction::Set(_, _)) | Node::Dup | Node::Star(_) => 0,
        Node::Sum(l, r) | Node::Seq(l, r) => both(alone, l, r),
        Node::Neg(c) => alone[usize::from(c)],
    }
}

// Inner. The nodes that are tests alone.
pub fn tests_alone(policy: PolicyLists) -> [u16; 512]
    requires { CountableChildren (lists_of policy) }
    ensures { Alone (lists_of policy.entry) result }
{
    let mut alone = [0u16; 512];
    for n in 0..policy.kind.len() {
        alone[n] = flag_of(policy.node(n), &alone);
    }
    alone
}
