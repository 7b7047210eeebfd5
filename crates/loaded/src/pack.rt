// The nodes packed one to a number.
ghost use Rattle.std.specs.Prelude.{◌<◌, ◌≡◌, length};
ghost use Rattle.policy.specs.AsLists.{lists_of};
ghost use Rattle.loaded.specs.Loading.{packed, Fitting, PackedAll, PlacedAll};

use crate::{Nodes, Remainders, slots};
use policy::lent::PolicyLists;

// Inner. The parts of a node as one number.
#[tactic(auto, unfolding(crate::specs::Loading::packed))]
fn packed_node(
    kind: u8,
    first: u16,
    second: u16,
    set: u16,
    alone: u16,
    label: u16,
    up: u16,
    keeps: u16,
) -> u64
    requires { (kind < 16) × (set < 512) × (alone < 2) × (label < 64) × (up < 1024) × (keeps < 2) }
    ensures { result ≡ packed kind first second set alone label up keeps }
{
    u64::from(kind)
        + 16 * u64::from(first)
        + 1048576 * u64::from(second)
        + 68719476736 * u64::from(set)
        + 35184372088832 * u64::from(alone)
        + 70368744177664 * u64::from(label)
        + 4503599627370496 * u64::from(up)
        + 4611686018427387904 * u64::from(keeps)
}

// Inner. The nodes of a policy, packed.
pub fn pack_nodes(
    policy: PolicyLists,
    guards: &[u16; 512],
    alone: &[u16; 512],
    labels: &[u16; 512],
    ups: &[u16; 512],
    parts: &[u16; 512],
    nodes: &mut Nodes,
)
    requires { Fitting (lists_of policy) guards.now alone.now labels.now ups.now parts.now × (length nodes.old ≡ 576) }
    ensures { PackedAll (lists_of policy.entry) guards.now alone.now labels.now ups.now nodes.old nodes.new }
{
    for n in 0..policy.kind.len() {
        let node = policy.node(n);
        let keeps = slots::keeps_slot(node, alone[n], parts[n]);
        nodes[n] = packed_node(
            policy.kind[n],
            policy.first[n],
            policy.second[n],
            guards[n],
            alone[n],
            labels[n],
            ups[n],
            keeps,
        );
    }
}

// Inner. The places of the remainders, after the nodes.
pub fn pack_places(places: &Remainders, nodes: &mut Nodes)
    requires { length nodes.old ≡ 576 }
    ensures { PlacedAll places.now nodes.old nodes.new }
{
    for (i, place) in places.iter().enumerate() {
        nodes[512 + i] = u64::from(*place);
    }
}
