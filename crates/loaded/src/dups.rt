// The numbers of the dups and the places of the remainders.
ghost use Rattle.std.specs.Prelude.{◌+◌, ◌<◌, ◌≡◌};
ghost use Rattle.policy.specs.AsLists.{lists_of};
ghost use Rattle.policy.specs.NodeLists.{is_dup, one};
ghost use Rattle.packet_set.specs.Bits.{mask_bits};
ghost use Rattle.loaded.specs.Loading.{Formed, Labels, dup_placed, Places};

use crate::Remainders;
use policy::Node;
use policy::lent::PolicyLists;

// Inner. The number of the dups up to and with a node, where there are d before it.
fn label_after(node: Node, d: u16) -> u16
    requires { d < mask_bits }
    ensures { result ≡ d + one (is_dup node) }
{
    if let Node::Dup = node { d + 1 } else { d }
}

// Inner. How many dups there are up to and with each node.
pub fn labels_of(policy: PolicyLists) -> [u16; 512]
    requires { Formed (lists_of policy) }
    ensures { Labels (lists_of policy.entry) result }
{
    let mut labels = [0u16; 512];
    let mut d = 0;
    for n in 0..policy.kind.len() {
        d = label_after(policy.node(n), d);
        labels[n] = d;
    }
    labels
}

// Inner. A dup is put at the place of its number.
fn put(node: Node, label: u16, n: usize, places: &mut Remainders)
    requires { (label < mask_bits) × (n < 512) }
    ensures { places.new ≡ dup_placed label n places.old node }
{
    if let Node::Dup = node {
        places[usize::from(label)] = n as u16;
    }
}

// Inner. The places of the remainders.
pub fn places_of(policy: PolicyLists, labels: &[u16; 512]) -> Remainders
    requires { Formed (lists_of policy) × Labels (lists_of policy) labels.now }
    ensures { Places (lists_of policy.entry) result }
{
    let mut places = [512u16; 64];
    places[0] = (policy.kind.len() - 1) as u16;
    for n in 0..policy.kind.len() {
        put(policy.node(n), labels[n], n, &mut places);
    }
    places
}
