// The nodes that keep a slot: stars, and second parts of sequences that are a sum or a sequence and not tests alone.
ghost use Rattle.std.specs.Prelude.{ℕ, ◌≤◌, ◌≡◌};
ghost use Rattle.policy.specs.AsLists.{lists_of};
ghost use Rattle.policy.specs.declared.Node.TheVariants.{Star};
ghost use Rattle.loaded.specs.Loading.{Formed, Flags, seconded};
ghost use Rattle.tree_causes.specs.Alone.{ChildrenPlaced};

use policy::Node;
use policy::lent::PolicyLists;

// Inner. A sequence flags its second part.
fn flag_second(node: Node, parts: &mut [u16; 512])
    requires { ChildrenPlaced node }
    ensures { parts.new ≡ seconded parts.old node }
{
    if let Node::Seq(_, r) = node {
        parts[usize::from(r)] = 1;
    }
}

// Inner. The second parts of sequences.
pub fn second_parts(policy: PolicyLists) -> [u16; 512]
    requires { Formed (lists_of policy) }
    ensures { Flags result }
{
    let mut parts = [0u16; 512];
    for n in 0..policy.kind.len() {
        flag_second(policy.node(n), &mut parts);
    }
    parts
}

// Inner. Whether a node keeps a slot, by the flags of tests alone and of second parts.
pub fn keeps_slot(node: Node, alone: u16, part: u16) -> u16
    requires { part ≤ 1 }
    ensures { (result ≤ 1) × ((c : ℕ) → node ≡ Star c → result ≡ 1) }
{
    match node {
        Node::Star(_) => 1,
        Node::Sum(_, _) | Node::Seq(_, _) if alone == 0 => part,
        _ => 0,
    }
}
