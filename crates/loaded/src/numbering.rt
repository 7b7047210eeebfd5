// The sets of the tests: each maximal subtree of tests alone gets the next.
ghost use Rattle.std.specs.Prelude.{◌<◌, ◌≡◌, length, get_or};
ghost use Rattle.std.specs.Option.{ForSome};
ghost use Rattle.policy.specs.AsLists.{lists_of};
ghost use Rattle.loaded.specs.Loading.{Loading, TestNode, pick, test_under, Gave, TestSets};
ghost use Rattle.tree_causes.specs.Alone.{Alone, ChildrenPlaced};

use crate::{Tests, sets};
use packet_set::PacketWords;
use policy::Node;
use policy::lent::PolicyLists;

// Inner. Node c where it is tests alone, and else d.
fn pick_test(alone: &[u16; 512], c: usize, d: Option<usize>) -> Option<usize>
    requires { c < 512 }
    ensures { result ≡ pick (get_or alone.now c 0) c d }
{
    if alone[c] == 0 { d } else { Some(c) }
}

// Inner. The child that is tests alone, of a node that is not: there is at most one.
fn test_under(node: Node, flag: u16, alone: &[u16; 512]) -> Option<usize>
    requires { ChildrenPlaced node }
    ensures { result ≡ test_under alone.now flag node }
{
    if flag != 0 {
        return None;
    }
    match node {
        Node::Sum(l, r) | Node::Seq(l, r) => {
            let rest = pick_test(alone, usize::from(r), None);
            pick_test(alone, usize::from(l), rest)
        }
        Node::Star(c) => pick_test(alone, usize::from(c), None),
        _ => None,
    }
}

// Inner. The node, if there is one, gets the next set after k; as many are given as the answer says.
fn give(
    sizes: &[u16],
    count: u16,
    policy: PolicyLists,
    all: &PacketWords,
    node: Option<usize>,
    k: usize,
    sets: &mut [u16; 512],
    tests: &mut Tests,
) -> usize
    requires { Loading sizes.now (lists_of policy) count all.now × (length tests.old ≡ 8224) × ForSome node (λ c. TestNode (lists_of policy) c × (k < 256)) }
    ensures { Gave sizes.now (lists_of policy.entry) node k sets.old tests.old result sets.new tests.new }
{
    let Some(c) = node else {
        return k;
    };
    let set = sets::test_set(sizes, count, &policy, all, c);
    let next = k + 1;
    sets::keep(tests, next, &set);
    sets[c] = next as u16;
    next
}

// Inner. The numbers of the sets, and the sets.
pub fn number(
    sizes: &[u16],
    count: u16,
    policy: PolicyLists,
    alone: &[u16; 512],
    all: &PacketWords,
    tests: &mut Tests,
) -> [u16; 512]
    requires { Loading sizes.now (lists_of policy) count all.now × Alone (lists_of policy) alone.now × (length tests.old ≡ 8224) }
    ensures { TestSets sizes.now (lists_of policy.entry) result tests.new }
{
    let mut sets = [0u16; 512];
    let mut k = 0;
    for n in 0..policy.kind.len() {
        let node = test_under(policy.node(n), alone[n], alone);
        k = give(sizes, count, policy, all, node, k, &mut sets, tests);
    }
    let root = pick_test(alone, policy.kind.len() - 1, None);
    give(sizes, count, policy, all, root, k, &mut sets, tests);
    sets
}
