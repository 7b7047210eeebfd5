// One row of two policies evaluated and compared. All functions here are inner.
#![tactic(auto)]

ghost use Rattle.std.specs.Prelude.{[], ◌≡◌, ◌<◌, ◌≤◌, get_or};
ghost use Rattle.policy.specs.AsLists.{lists_of};
ghost use Rattle.compare.specs.Comparison.{compared_sets, LoadReady, BothLoaded, BothMarking, BothBlank, CompareReady, ComparedStates};

use engine::LoadedPolicy;
use index::{POLICIES, Row};
use loaded::{Nodes, Tests};
use marks::Next;
use packet_set::PacketWords;
use policy::lent::PolicyLists;
use spans::Span;

// The outputs are the same, or the lowest packet in exactly one of them and the policy that has it.
#[derive(Drop)]
pub enum Compared {
    Same,
    Left(u16),
    Right(u16),
}

// Inner. Two outputs compared.
fn told(left: &PacketWords, right: &PacketWords, words: usize) -> Compared
    requires { words ≤ 32 }
    ensures { result ≡ compared_sets words left.now right.now }
{
    let mut apart = *left;
    packet_set::exclusive_or(&mut apart, right, words);
    let Some(packet) = packet_set::lowest_member(&apart, words) else {
        return Compared::Same;
    };
    if packet_set::contains(left, packet) {
        Compared::Left(packet)
    } else {
        Compared::Right(packet)
    }
}

// Inner. Loads both policies, which are legal; count is the packet count.
pub fn load(
    sizes: &[u16],
    count: u16,
    left: PolicyLists,
    right: PolicyLists,
    nodes: &mut [Nodes; POLICIES],
    tests: &mut [Tests; POLICIES],
)
    requires { LoadReady sizes.now (lists_of left) (lists_of right) count nodes.old tests.old }
    ensures { BothLoaded sizes.now (lists_of left.entry) (lists_of right.entry) nodes.new tests.new }
{
    loaded::load(sizes, count, left, &mut nodes[0], &mut tests[0]);
    loaded::load(sizes, count, right, &mut nodes[1], &mut tests[1]);
}

// Both policies of a call, loaded.
#[derive(Clone, Copy)]
pub struct LoadedPolicies<'a> {
    pub sizes: &'a [u16],
    pub nodes: &'a [Nodes; POLICIES],
    pub tests: &'a [Tests; POLICIES],
}

impl<'a> LoadedPolicies<'a> {
    // The left policy at 0, the right one at 1.
    fn policy(self, i: usize) -> LoadedPolicy<'a>
        requires { i < 2 }
        ensures { let p = self.entry in (result.sizes.now ≡ p.sizes.now) × (result.nodes.now ≡ get_or p.nodes.now i []) × (result.tests.now ≡ get_or p.tests.now i []) }
    {
        LoadedPolicy {
            sizes: self.sizes,
            nodes: &self.nodes[i],
            tests: &self.tests[i],
        }
    }
}

// Inner. The outputs of one row's two states compared; next at each packet goes to the two next lists, which are empty before.
pub fn compare(
    policies: LoadedPolicies,
    row: Row,
    next: &mut [Next; POLICIES],
    work: &mut [u32],
) -> Compared
    requires { CompareReady policies.sizes.now policies.nodes.now policies.tests.now row.packet next.old work.old }
    ensures { let p = policies.entry in ComparedStates p.sizes.now p.nodes.now p.tests.now row work.old result next.new work.new }
{
    let mut left = [0; 32];
    let a = engine::step(
        &policies.policy(0),
        row.states[0],
        row.packet,
        Span { from: 0, to: 0 },
        &mut left,
        &mut next[0],
        work,
    );
    let mut right = [0; 32];
    let b = engine::step(
        &policies.policy(1),
        row.states[1],
        row.packet,
        Span { from: 0, to: 0 },
        &mut right,
        &mut next[1],
        work,
    );
    let both = spans::hull(a, b);
    told(&left, &right, both.to)
}

// Inner. Empties both next lists: only what is touched is written.
pub fn forget(next: &mut [Next; POLICIES], count: u16)
    requires { (count ≤ 1024) × BothMarking count next.old }
    ensures { BothBlank next.new }
{
    let words = packet_set::words_for(usize::from(count));
    marks::forget(&mut next[0], words);
    marks::forget(&mut next[1], words);
}
