// Which node lists are legal: the causes of a policy in their order, the front of all calls but the reader, and the public calls that say so.
#![tactic(auto)]

ghost use Rattle.std.specs.Prelude.{◌≡◌, [], ◌∷◌};
ghost use Rattle.packet.specs.Sizes.{counted};
ghost use Rattle.fields.specs.Tables.{lent_tables};
ghost use Rattle.policy.specs.AsLists.{lists_of};
ghost use Rattle.policy.specs.NodeLists.{node_count, dups_below};
ghost use Rattle.policy.specs.Order.{sided, policies_stage, cause_place};
ghost use Rattle.node_causes.specs.Lengths.{SameLengths};
ghost use Rattle.tree_causes.specs.Counting.{CountableChildren};
ghost use Rattle.legality.specs.Answers.{nodes_stage, tree_stage, both_legal, FrontOf, policy_legality, pair_legality};

use fields::Tables;
use packet::{Refusal, Tested};
use policy::lent::PolicyLists;

// What a call is told where its causes pass: the joint sizes, the core sizes, N and the dups of each policy.
#[derive(Clone, Copy)]
pub struct LegalCall {
    pub count: usize,
    pub sizes: [u16; 8],
    pub core: [u16; 8],
    pub packets: u16,
    pub left_dups: u8,
    pub right_dups: u8,
}

// Causes 5 to 7 of one policy, which look at one node at a time.
fn nodes_tested(sizes: &[u16], side: u8, policy: PolicyLists) -> Tested
    requires { SameLengths (lists_of policy) }
    ensures { result ≡ nodes_stage sizes.now side (lists_of policy.entry) }
{
    packet::refused_at(5, side, node_causes::bad_kind(policy.kind))?;
    packet::refused_at(6, side, node_causes::bad_entries(sizes, policy))?;
    packet::refused_at(7, side, node_causes::bad_child(policy))
}

// Causes 8, 19 and 9 of one policy, which look at the tree; the number of dups where they pass.
fn tree_tested(side: u8, policy: PolicyLists) -> Result<u8, Refusal>
    requires { CountableChildren (lists_of policy) }
    ensures { result ≡ counted (tree_stage side (lists_of policy.entry)) (dups_below (lists_of policy.entry) (node_count (lists_of policy.entry))) }
{
    packet::refused_at(8, side, tree_causes::not_once(policy))?;
    packet::refused_at(19, side, tree_causes::bad_negation(policy))?;
    match tree_causes::dups(policy.kind) {
        Ok(dups) => Ok(dups),
        Err(place) => Err(Refusal {
            number: 9,
            side,
            place: place as u64,
        }),
    }
}

// Inner: stage "policies" of one policy, with its number of dups where it passes.
pub fn policy_stage(sizes: &[u16], side: u8, policy: PolicyLists) -> Result<u8, Refusal>
    ensures { result ≡ counted (policies_stage sizes.now (sided side (lists_of policy.entry) ∷ [])) (dups_below (lists_of policy.entry) (node_count (lists_of policy.entry))) }
{
    packet::refused_at(4, side, node_causes::bad_lengths(policy))?;
    nodes_tested(sizes, side, policy)?;
    tree_tested(side, policy)
}

// The place of a policy's cause in the list, from 1 on.
#[tactic(auto, unfolding(policy::specs::Order::cause_place, policy::specs::Order::causes, policy::specs::Order::place_among, policy::specs::Order::one_or))]
fn cause_place(number: u8) -> u8
    ensures { result ≡ cause_place number }
{
    match number {
        4 => 1,
        5 => 2,
        6 => 3,
        7 => 4,
        8 => 5,
        19 => 6,
        9 => 7,
        _ => 8,
    }
}

// Of what the two policies' causes say the one that comes first in the list, of the same cause the left; the dups of both where neither refuses.
#[tactic(auto, unfolding(crate::specs::Answers::both_legal))]
fn both_legal(left: Result<u8, Refusal>, right: Result<u8, Refusal>) -> Result<(u8, u8), Refusal>
    ensures { result ≡ both_legal left right }
{
    match (left, right) {
        (Ok(l), Ok(r)) => Ok((l, r)),
        (Ok(_), Err(q)) => Err(q),
        (Err(p), Ok(_)) => Err(p),
        (Err(p), Err(q)) => {
            if cause_place(q.number) < cause_place(p.number) {
                return Err(q);
            }
            Err(p)
        }
    }
}

// Inner: the causes of a call in their order, `side` being what the left policy's refusals name and `lists` what stage "lists" says. Every call
// but the reader goes through here: one with fewer policies hands over drop, which is legal, and one with packets tests them after.
pub fn front(
    tables: Tables,
    side: u8,
    left: PolicyLists,
    right: PolicyLists,
    lists: Tested,
) -> Result<LegalCall, Refusal>
    ensures { FrontOf (lent_tables tables.entry) side (lists_of left.entry) (lists_of right.entry) lists result }
{
    let joint = fields::join(tables)?;
    let count = joint.count;
    let sizes = &joint.sizes[..count];
    let policies = both_legal(
        policy_stage(sizes, side, left),
        policy_stage(sizes, 2, right),
    );
    let (left_dups, right_dups) = policies?;
    let core = mentions::core_sizes(sizes, left, right);
    let packets = packet::packet_count(&core[..count])?;
    lists?;
    Ok(LegalCall {
        count,
        sizes: joint.sizes,
        core,
        packets,
        left_dups,
        right_dups,
    })
}

// Whether the lists are a legal policy over the joint fields of the tables, side 0: its number of dups, or the first cause that refuses it.
pub fn policy_legality(tables: Tables, policy: PolicyLists) -> Result<u8, Refusal>
    ensures { result ≡ policy_legality (lent_tables tables.entry) (lists_of policy.entry) }
{
    let drop = PolicyLists {
        kind: &[0],
        first: &[0],
        second: &[0],
    };
    let found = front(tables, 0, policy, drop, Ok(()))?;
    Ok(found.left_dups)
}

// Whether the lists are two legal policies over the joint fields of the tables, sides 1 and 2: the number of dups of each, or the first cause
// that refuses one.
pub fn pair_legality(
    tables: Tables,
    left: PolicyLists,
    right: PolicyLists,
) -> Result<(u8, u8), Refusal>
    ensures { result ≡ pair_legality (lent_tables tables.entry) (lists_of left.entry) (lists_of right.entry) }
{
    let found = front(tables, 1, left, right, Ok(()))?;
    Ok((found.left_dups, found.right_dups))
}
