// The packets that pass a policy made of tests alone.
ghost use Rattle.std.specs.Prelude.{◌+◌, ◌*◌, ◌≤◌, ◌<◌, false, ◌≡◌, length};
ghost use Rattle.packet.specs.Sizes.{product, LegalSizes};
ghost use Rattle.policy.specs.AsLists.{lists_of};
ghost use Rattle.policy.specs.Legality.{bad_field};
ghost use Rattle.policy.specs.Tree.{field};
ghost use Rattle.packet_set.specs.InnerMembers.{member};
ghost use Rattle.policy.specs.NodeLists.{tree_of};
ghost use Rattle.loaded.specs.Loading.{RangeAdded, HasMembers, Met, every_packet, with_value, Fielding, Loading, TestNode, SlotFilled};
ghost use Rattle.loaded.specs.Passing.{passing};

use crate::Tests;
use packet_set::PacketWords;
use policy::lent::PolicyLists;
use policy::{FieldAction, Node};

// Inner. The set takes the packets from `from` on that are below `to`.
fn insert_run(set: &mut PacketWords, from: u16, to: u16)
    requires { (from ≤ to) × (to ≤ 1024) × (length set.old ≡ 32) }
    ensures { RangeAdded from to set.old set.new }
{
    for packet in from..to {
        packet_set::insert(set, packet);
    }
}

// Inner. The packets below N.
pub fn every_packet(sizes: &[u16], count: u16) -> PacketWords
    requires { LegalSizes sizes.now × (count ≡ product sizes.now) }
    ensures { HasMembers result (every_packet sizes.now) }
{
    let mut set = packet_set::empty();
    insert_run(&mut set, 0, count);
    set
}

// Inner. The packets with a value in a field: runs as long as the field's stride, a period apart.
pub fn with_value(sizes: &[u16], count: u16, field: u16, value: u16) -> PacketWords
    requires { LegalSizes sizes.now × (count ≡ product sizes.now) × (bad_field sizes.now field value ≡ false) }
    ensures { HasMembers result (with_value sizes.now field value) }
{
    let at = usize::from(field);
    let stride = packet::stride_of(sizes, at);
    let period = stride * sizes[at];
    let mut set = packet_set::empty();
    for start in (value * stride..count).step_by(usize::from(period)) {
        insert_run(&mut set, start, start + stride);
    }
    set
}

// Inner. The first set keeps what is in the second.
fn intersect(a: &mut PacketWords, b: &PacketWords)
    requires { length a.old ≡ 32 }
    ensures { Met a.old b.now a.new }
{
    for i in 0..32 {
        a[i] &= b[i];
    }
}

// Inner. The packets that pass a test of one field; a change counts as a test that nothing passes.
fn field_set(sizes: &[u16], count: u16, all: &PacketWords, action: FieldAction) -> PacketWords
    requires { Fielding sizes.now count all.now action }
    ensures { HasMembers result (passing sizes.now (field action)) }
{
    match action {
        FieldAction::Equals(f, v) => with_value(sizes, count, f, v),
        FieldAction::Differs(f, v) => {
            let mut set = with_value(sizes, count, f, v);
            packet_set::exclusive_or(&mut set, all, 32);
            set
        }
        FieldAction::Set(_, _) => packet_set::empty(),
    }
}

// Inner. The packets that pass node n, which is tests alone. (The policy is lent: by value, each call below would have a copy on the stack.)
pub fn test_set(
    sizes: &[u16],
    count: u16,
    policy: &PolicyLists,
    all: &PacketWords,
    n: usize,
) -> PacketWords
    requires { Loading sizes.now (lists_of policy.now) count all.now × TestNode (lists_of policy.now) n }
    ensures { HasMembers result (passing sizes.now (tree_of (lists_of policy.now) n)) }
{
    match policy.node(n) {
        Node::Drop | Node::Dup | Node::Star(_) => packet_set::empty(),
        Node::Id => *all,
        Node::Field(action) => field_set(sizes, count, all, action),
        Node::Sum(l, r) => {
            let mut set = test_set(sizes, count, policy, all, usize::from(l));
            let other = test_set(sizes, count, policy, all, usize::from(r));
            packet_set::union(&mut set, &other, 32);
            set
        }
        Node::Seq(l, r) => {
            let mut set = test_set(sizes, count, policy, all, usize::from(l));
            let other = test_set(sizes, count, policy, all, usize::from(r));
            intersect(&mut set, &other);
            set
        }
        Node::Neg(c) => {
            let mut rest = test_set(sizes, count, policy, all, usize::from(c));
            packet_set::exclusive_or(&mut rest, all, 32);
            rest
        }
    }
}

// Inner. Set k of the tests becomes the set.
pub fn keep(tests: &mut Tests, k: usize, set: &PacketWords)
    requires { (k ≤ 256) × (length tests.old ≡ 8224) × (length set.now ≡ 32) }
    ensures { SlotFilled k (member set.now) tests.old tests.new }
{
    let start = 32 * k;
    tests[start..start + 32].copy_from_slice(set);
}
