// Policies as node lists (document 01, "Policies").
#![tactic(auto)]

pub mod lent;

ghost use Rattle.std.specs.Prelude.{◌≡◌};
ghost use Rattle.policy.specs.NodeLists.{node_of};

// A test or a change of one field, with the field's number and the value.
#[derive(Clone, Copy)]
pub enum FieldAction {
    Equals(u16, u16),
    Differs(u16, u16),
    Set(u16, u16),
}

// A node of a policy; sum, sequence, star and negation carry the numbers of their children.
#[derive(Clone, Copy)]
pub enum Node {
    Drop,
    Id,
    Field(FieldAction),
    Dup,
    Sum(u16, u16),
    Seq(u16, u16),
    Star(u16),
    Neg(u16),
}

// Inner. The node of a kind with its two entries; a kind over 9, which no legal policy has, reads as drop.
#[tactic(auto, unfolding(crate::specs::NodeLists::node_of))]
pub fn node_of(kind: u8, first: u16, second: u16) -> Node
    ensures { result ≡ node_of kind first second }
{
    match kind {
        1 => Node::Id,
        2 => Node::Field(FieldAction::Equals(first, second)),
        3 => Node::Field(FieldAction::Differs(first, second)),
        4 => Node::Field(FieldAction::Set(first, second)),
        5 => Node::Dup,
        6 => Node::Sum(first, second),
        7 => Node::Seq(first, second),
        8 => Node::Star(first),
        9 => Node::Neg(first),
        _ => Node::Drop,
    }
}
