// Where what comes out of a node goes on.
ghost use Rattle.std.specs.Prelude.{◌<◌, ◌≡◌};
ghost use Rattle.policy.specs.AsLists.{lists_of};
ghost use Rattle.loaded.specs.Loading.{Formed, ways_told, Ways};
ghost use Rattle.tree_causes.specs.Alone.{Alone, ChildrenPlaced};

use policy::Node;
use policy::lent::PolicyLists;

// Inner. Node n, with this flag, tells its children where what comes out of them goes on.
fn tell(node: Node, n: usize, flag: u16, ups: &mut [u16; 512])
    requires { ChildrenPlaced node × (n < 512) }
    ensures { ups.new ≡ ways_told flag n ups.old node }
{
    if flag != 0 {
        return;
    }
    let up = ups[n];
    let here = n as u16;
    match node {
        Node::Sum(l, r) => {
            ups[usize::from(l)] = up;
            ups[usize::from(r)] = up;
        }
        Node::Seq(part, rest) => {
            ups[usize::from(part)] = here;
            ups[usize::from(rest)] = up;
        }
        Node::Star(c) => {
            ups[usize::from(c)] = here;
        }
        _ => {}
    }
}

// Inner. The ways up, told from the root down.
pub fn ways_up(policy: PolicyLists, alone: &[u16; 512]) -> [u16; 512]
    requires { Formed (lists_of policy) × Alone (lists_of policy) alone.now }
    ensures { Ways (lists_of policy.entry) result }
{
    let mut ups = [512u16; 512];
    for n in (0..policy.kind.len()).rev() {
        tell(policy.node(n), n, alone[n], &mut ups);
    }
    ups
}
