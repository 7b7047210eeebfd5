// Which fields the policies of a call mention: the core sizes, over which packets are numbered (document 02, A.6).
#![tactic(auto)]

ghost use Rattle.std.specs.Prelude.{◌≤◌, ◌≡◌, length};
ghost use Rattle.policy.specs.AsLists.{lists_of};
ghost use Rattle.mentions.specs.Noting.{FieldNoted, NodeNoted, PolicyNoted, CoreSizesOf};

use policy::lent::PolicyLists;

// A field that is mentioned gets its size; a number that is no field's has none.
fn note_field(sizes: &[u16], field: u16, core: &mut [u16; 8])
    requires { length sizes.now ≤ 8 }
    ensures { FieldNoted sizes.now field core.old core.new }
{
    let f = usize::from(field);
    if f < sizes.len() {
        core[f] = sizes[f];
    }
}

// One node: kinds 2, 3 and 4 are tests and changes of a field.
fn note_node(sizes: &[u16], kind: u8, first: u16, core: &mut [u16; 8])
    requires { length sizes.now ≤ 8 }
    ensures { NodeNoted sizes.now kind first core.old core.new }
{
    if 2 <= kind && kind <= 4 {
        note_field(sizes, first, core);
    }
}

// All nodes of a policy whose lists are equally long.
fn note_policy(sizes: &[u16], policy: PolicyLists, core: &mut [u16; 8])
    requires { length sizes.now ≤ 8 }
    ensures { length policy.entry.first.now ≡ length policy.entry.kind.now → PolicyNoted sizes.now policy.entry.kind.now policy.entry.first.now (length policy.entry.kind.now) core.old core.new }
{
    for i in 0..policy.kind.len().min(policy.first.len()) {
        note_node(sizes, policy.kind[i], policy.first[i], core);
    }
}

// Inner: the core sizes of two policies.
pub fn core_sizes(sizes: &[u16], left: PolicyLists, right: PolicyLists) -> [u16; 8]
    requires { length sizes.now ≤ 8 }
    ensures { CoreSizesOf sizes.now (lists_of left.entry) (lists_of right.entry) result }
{
    let mut core = [1u16; 8];
    note_policy(sizes, left, &mut core);
    note_policy(sizes, right, &mut core);
    core
}
