// A policy loaded for evaluation: its nodes packed one to a number, with what each visit of a node asks, and its tests as packet sets.
// The loaded form stands for the tree of the node lists. All functions here are inner.
#![tactic(auto)]

ghost use Rattle.std.specs.Prelude.{◌≡◌, length};
ghost use Rattle.packet.specs.Sizes.{product, LegalSizes};
ghost use Rattle.policy.specs.AsLists.{lists_of};
ghost use Rattle.policy.specs.Legality.{Legal};
ghost use Rattle.loaded.specs.Loaded.{Loaded};
ghost use Rattle.loaded.specs.Nodes.{node_in, set_in, tests_in, label_in, up_in, slot_in};

mod dups;
mod guards;
mod numbering;
mod pack;
pub mod sets;
mod slots;
mod ways;

use policy::Node;
use policy::lent::PolicyLists;

// The nodes of a policy, then the places of its remainders: the root's and those of the dups.
pub type Nodes = [u64; 576];

// The places of a policy's remainders, by number.
pub type Remainders = [u16; 64];

// The packet sets of the tests: set k is slot k; slot 0 is not used.
pub type Tests = [u32; 8224];

// Inner. The node in a packed number.
#[tactic(auto, unfolding(crate::specs::Nodes::node_in))]
pub fn node_in(x: u64) -> Node
    ensures { result ≡ node_in x }
{
    let a = (x / 16 % 65536) as u16;
    let b = (x / 1048576 % 65536) as u16;
    policy::node_of((x % 16) as u8, a, b)
}

// Inner. The number of its packet set; 0: there is none.
#[tactic(auto, unfolding(crate::specs::Nodes::set_in))]
pub fn set_in(x: u64) -> usize
    ensures { result ≡ set_in x }
{
    (x / 68719476736 % 512) as usize
}

// Inner. Its tree is made of tests alone.
#[tactic(auto, unfolding(crate::specs::Nodes::tests_in))]
pub fn tests_in(x: u64) -> bool
    ensures { result ≡ tests_in x }
{
    x / 35184372088832 % 2 == 1
}

// Inner. The number of a dup.
#[tactic(auto, unfolding(crate::specs::Nodes::label_in))]
pub fn label_in(x: u64) -> u32
    ensures { result ≡ label_in x }
{
    (x / 70368744177664 % 64) as u32
}

// Inner. The node at which what comes out of it goes on; 512: nowhere.
#[tactic(auto, unfolding(crate::specs::Nodes::up_in))]
pub fn up_in(x: u64) -> usize
    ensures { result ≡ up_in x }
{
    (x / 4503599627370496 % 1024) as usize
}

// Inner. A slot is kept for it.
#[tactic(auto, unfolding(crate::specs::Nodes::slot_in))]
pub fn slot_in(x: u64) -> bool
    ensures { result ≡ slot_in x }
{
    x / 4611686018427387904 % 2 == 1
}

// Inner. Loads a policy: its nodes and the packet sets of its tests; count is the packet count.
pub fn load(sizes: &[u16], count: u16, policy: PolicyLists, nodes: &mut Nodes, tests: &mut Tests)
    requires { LegalSizes sizes.now × Legal sizes.now (lists_of policy) × (count ≡ product sizes.now) × (length nodes.old ≡ 576) × (length tests.old ≡ 8224) }
    ensures { Loaded sizes.now (lists_of policy.entry) nodes.new tests.new }
{
    let alone = tree_causes::alone::tests_alone(policy);
    let ups = ways::ways_up(policy, &alone);
    let labels = dups::labels_of(policy);
    let places = dups::places_of(policy, &labels);
    let all = sets::every_packet(sizes, count);
    let sets = numbering::number(sizes, count, policy, &alone, &all, tests);
    let guards = guards::guards_of(policy, &alone, &sets);
    let parts = slots::second_parts(policy);
    pack::pack_nodes(policy, &guards, &alone, &labels, &ups, &parts, nodes);
    pack::pack_places(&places, nodes);
}
