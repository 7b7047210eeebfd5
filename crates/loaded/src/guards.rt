// The guard of a node: a packet set that holds every packet which the node lets through or leads to a dup.
ghost use Rattle.std.specs.Prelude.{◌≡◌};
ghost use Rattle.policy.specs.AsLists.{lists_of};
ghost use Rattle.loaded.specs.Loading.{Formed, guard_of, Guards};
ghost use Rattle.tree_causes.specs.Alone.{ChildrenPlaced};

use policy::Node;
use policy::lent::PolicyLists;

// Inner. The guard of a node with this flag and this set, from the guards of its children.
fn guard_of(node: Node, flag: u16, set: u16, guards: &[u16; 512]) -> u16
    requires { ChildrenPlaced node }
    ensures { result ≡ guard_of guards.now flag set node }
{
    if flag != 0 {
        return set;
    }
    match node {
        Node::Seq(l, _) => guards[usize::from(l)],
        _ => 0,
    }
}

// Inner. The guards of the nodes.
pub fn guards_of(policy: PolicyLists, alone: &[u16; 512], sets: &[u16; 512]) -> [u16; 512]
    requires { Formed (lists_of policy) }
    ensures { Guards (lists_of policy.entry) alone.now sets.now result }
{
    let mut guards = [0u16; 512];
    for n in 0..policy.kind.len() {
        let node = policy.node(n);
        guards[n] = guard_of(node, alone[n], sets[n], &guards);
    }
    guards
}
