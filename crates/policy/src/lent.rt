// A policy lent as three lists.
ghost use Rattle.std.specs.Prelude.{◌≡◌, ◌<◌, length};
ghost use Rattle.policy.specs.AsLists.{lists_of};
ghost use Rattle.policy.specs.NodeLists.{node_at};

use crate::{Node, node_of};

// The kind, the first and the second entry of each node.
#[derive(Clone, Copy)]
pub struct PolicyLists<'a> {
    pub kind: &'a [u8],
    pub first: &'a [u16],
    pub second: &'a [u16],
}

impl PolicyLists<'_> {
    // Inner. Node i.
    pub fn node(self, i: usize) -> Node
        requires { (i < length self.kind.now) × (i < length self.first.now) × (i < length self.second.now) }
        ensures { result ≡ node_at (lists_of self.entry) i }
    {
        node_of(self.kind[i], self.first[i], self.second[i])
    }
}
