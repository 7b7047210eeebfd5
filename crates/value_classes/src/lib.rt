// The classes of each field's values, worked out (document 02, A.7; nothing uses it yet): what the policies of a call name, sorted, and by it class counts, the class of a
// value, the value shown for a class, and a policy's values by their classes. All functions here are inner.
#![tactic(auto)]

ghost use Rattle.std.specs.Prelude.{ℕ, ◌<◌, ◌≤◌, ◌+◌, [], ◌∷◌, ◌≡◌, length, slice_index, slice_range};
ghost use Rattle.policy.specs.AsLists.{as_lists, lists_of};
ghost use Rattle.policy.specs.NodeLists.{node_of};
ghost use Rattle.policy.specs.InnerAscending.{Ascending};
ghost use Rattle.classes.specs.Named.{place_in, unnamed_from};
ghost use Rattle.value_classes.specs.Names.{key_of, node_keys, keys_below, count_of, InEight, KeysAdded, StartsOf, NamesOf, SomeNames, SomeStarts, Listed, Formed, ClassIs, ShownIs, EntryIs, CoreSizesOf, SecondsOf, ClassesOf, ShownFor};

use policy::lent::PolicyLists;

// What is named, in ascending order: 65,536 times the field and the value.
pub type Keys = [u32; 1024];

// Where the keys of each field start; the last entry is where those of field 7 end.
pub type Starts = [usize; 9];

// What two policies name; `named`: there are policies that name just this.
#[derive(Drop)]
pub struct Names {
    pub keys: Keys,
    pub starts: Starts,
    ghost named: { ∥ SomeNames keys starts ∥₁ },
}

// The key of a field's value.
fn key(field: u16, value: u16) -> u32
    ensures { result ≡ key_of field value }
{
    u32::from(field) * 65536 + u32::from(value)
}

// One node's key behind the n that were there, if it is a test or change; answers how many there are then.
fn note_node(kind: u8, first: u16, second: u16, keys: &mut Keys, n: usize) -> usize
    requires { (n < 1024) × (length keys.old ≡ 1024) }
    ensures { KeysAdded (node_keys (node_of kind first second)) keys.old n keys.new result × (second < 65536) }
{
    match kind {
        2 | 3 | 4 => {
            keys[n] = key(first, second);
            n + 1
        }
        _ => n,
    }
}

// The keys of all nodes of a policy, behind the n that were there.
fn note_policy(policy: PolicyLists, keys: &mut Keys, n: usize) -> usize
    requires { Listed (lists_of policy) × (n ≤ 512) × (length keys.old ≡ 1024) }
    ensures { let lists = lists_of policy.entry in KeysAdded (keys_below lists (length lists.kind)) keys.old n keys.new result × ((i : ℕ) → i < length lists.kind → slice_index lists.second i < 65536) }
{
    let mut count = n;
    for i in 0..policy.kind.len() {
        count = note_node(
            policy.kind[i],
            policy.first[i],
            policy.second[i],
            keys,
            count,
        );
    }
    count
}

// Where the keys of each field start.
fn starts_of(keys: &[u32]) -> Starts
    requires { Ascending keys.now }
    ensures { StartsOf keys.now result }
{
    let mut starts = [0; 9];
    for field in 0..9 {
        starts[usize::from(field)] = ascending::rank(keys, key(field, 0));
    }
    starts
}

// Inner: what two policies name.
pub fn names_of(
    left_kind: &[u8],
    left_first: &[u16],
    left_second: &[u16],
    right_kind: &[u8],
    right_first: &[u16],
    right_second: &[u16],
    keys: &mut Keys,
) -> Starts
    requires { Listed (as_lists left_kind.now left_first.now left_second.now) × Listed (as_lists right_kind.now right_first.now right_second.now) × (length keys.old ≡ 1024) }
    ensures { NamesOf (as_lists left_kind.now left_first.now left_second.now ∷ as_lists right_kind.now right_first.now right_second.now ∷ []) keys.new result }
{
    let left = PolicyLists {
        kind: left_kind,
        first: left_first,
        second: left_second,
    };
    let right = PolicyLists {
        kind: right_kind,
        first: right_first,
        second: right_second,
    };
    let mut found = [0u32; 1024];
    let n = note_policy(left, &mut found, 0);
    let both = note_policy(right, &mut found, n);
    let count = ascending::sort(&found[..both], keys);
    starts_of(&keys[..count])
}

// Inner: how many classes each field has.
pub fn core_sizes(sizes: &[u16], starts: &Starts) -> [u16; 8]
    requires { (length sizes.now ≤ 8) × ∥ SomeStarts starts.now ∥₁ }
    ensures { CoreSizesOf sizes.now starts.now result }
{
    let mut core = [1u16; 8];
    for (f, size) in sizes.iter().enumerate() {
        core[f] = class_count(*size, (starts[f + 1] - starts[f]) as u16);
    }
    core
}

// The classes of a field with so many values, of which so many are named: the others are one more, if there are any.
fn class_count(size: u16, named: u16) -> u16
    ensures { result ≡ count_of size named }
{
    if named < size { named + 1 } else { named }
}

// The place of a field's value among the keys of its named values, or their number.
fn place_in(part: &[u32], k: u32) -> u16
    requires { Ascending part.now × (length part.now ≤ 1024) }
    ensures { result ≡ place_in k part.now }
{
    part.binary_search(&k).unwrap_or(part.len()) as u16
}

// The lowest value of a field that is not among the keys of its named values.
fn unnamed(part: &[u32], field: u16) -> u16
    requires { length part.now ≤ 1024 }
    ensures { key_of field result ≡ unnamed_from (key_of field 0) part.now }
{
    let mut lowest = 0;
    for k in part {
        if *k != key(field, lowest) {
            return lowest;
        }
        lowest += 1;
    }
    lowest
}

// The keys of a field's named values.
fn part<'a>(keys: &'a Keys, starts: &Starts, field: u16) -> &'a [u32]
    requires { ∥ SomeNames keys.now starts.now ∥₁ × (field < 8) }
    ensures { result.now ≡ slice_range keys.now (slice_index starts.now field) (slice_index starts.now (field + 1)) }
{
    let f = usize::from(field);
    let all = &keys[..];
    &all[starts[f]..starts[f + 1]]
}

// Inner: the class of a field's value.
pub fn class_of(keys: &Keys, starts: &Starts, field: u16, value: u16) -> u16
    requires { ∥ SomeNames keys.now starts.now ∥₁ × (field < 8) }
    ensures { ClassIs keys.now starts.now field value result }
{
    place_in(part(keys, starts, field), key(field, value))
}

// Inner: the value shown for a field's class.
pub fn shown_of(keys: &Keys, starts: &Starts, field: u16, class: u16) -> u16
    requires { ∥ SomeNames keys.now starts.now ∥₁ × (field < 8) }
    ensures { ShownIs keys.now starts.now field class result }
{
    let part = part(keys, starts, field);
    match part.get(usize::from(class)) {
        Some(k) => (*k % 65536) as u16,
        None => unnamed(part, field),
    }
}

// The second entry of a node on classes.
fn class_entry(keys: &Keys, starts: &Starts, kind: u8, first: u16, second: u16) -> u16
    requires { ∥ SomeNames keys.now starts.now ∥₁ × InEight (node_of kind first second) }
    ensures { EntryIs keys.now starts.now (node_of kind first second) second result }
{
    match kind {
        2 | 3 | 4 => class_of(keys, starts, first, second),
        _ => second,
    }
}

// Inner: the second entries of a policy on classes.
pub fn seconds_of(
    kind: &[u8],
    first: &[u16],
    second: &[u16],
    keys: &Keys,
    starts: &Starts,
) -> [u16; 512]
    requires { Formed (as_lists kind.now first.now second.now) × ∥ SomeNames keys.now starts.now ∥₁ }
    ensures { SecondsOf (as_lists kind.now first.now second.now) keys.now starts.now result }
{
    let mut seconds = [0u16; 512];
    for n in 0..kind.len() {
        seconds[n] = class_entry(keys, starts, kind[n], first[n], second[n]);
    }
    seconds
}

// Inner: the class of each field's value.
pub fn classes_of(keys: &Keys, starts: &Starts, values: &[u16]) -> [u16; 8]
    requires { ∥ SomeNames keys.now starts.now ∥₁ × (length values.now ≤ 8) }
    ensures { ClassesOf keys.now starts.now values.now result }
{
    let mut classes = [0u16; 8];
    for (f, value) in values.iter().enumerate() {
        classes[f] = class_of(keys, starts, f as u16, *value);
    }
    classes
}

// Inner: each field's class gives way to the value shown for it.
pub fn show(keys: &Keys, starts: &Starts, values: &mut [u16])
    requires { ∥ SomeNames keys.now starts.now ∥₁ × (length values.old ≤ 8) }
    ensures { ShownFor keys.now starts.now values.old values.new }
{
    for (f, value) in values.iter_mut().enumerate() {
        *value = shown_of(keys, starts, f as u16, *value);
    }
}

impl Names {
    // Inner: `names_of` of two policies, with its keys.
    pub fn of(left: PolicyLists, right: PolicyLists) -> Names
        requires { Listed (lists_of left) × Listed (lists_of right) }
        ensures { NamesOf (lists_of left.entry ∷ lists_of right.entry ∷ []) result.keys result.starts }
    {
        let mut keys = [0u32; 1024];
        let starts = names_of(
            left.kind,
            left.first,
            left.second,
            right.kind,
            right.first,
            right.second,
            &mut keys,
        );
        Names { keys, starts }
    }

    // Inner: how many classes each field has.
    pub fn core_sizes(&self, sizes: &[u16]) -> [u16; 8]
        requires { length sizes.now ≤ 8 }
        ensures { CoreSizesOf sizes.now self.now.starts result }
    {
        core_sizes(sizes, &self.starts)
    }

    // Inner: the class of a field's value.
    pub fn class_of(&self, field: u16, value: u16) -> u16
        requires { field < 8 }
        ensures { ClassIs self.now.keys self.now.starts field value result }
    {
        class_of(&self.keys, &self.starts, field, value)
    }

    // Inner: the value shown for a field's class.
    pub fn shown_of(&self, field: u16, class: u16) -> u16
        requires { field < 8 }
        ensures { ShownIs self.now.keys self.now.starts field class result }
    {
        shown_of(&self.keys, &self.starts, field, class)
    }

    // Inner: the second entries of a policy on classes.
    pub fn seconds_of(&self, policy: PolicyLists) -> [u16; 512]
        requires { Formed (lists_of policy) }
        ensures { SecondsOf (lists_of policy.entry) self.now.keys self.now.starts result }
    {
        seconds_of(
            policy.kind,
            policy.first,
            policy.second,
            &self.keys,
            &self.starts,
        )
    }

    // Inner: the class of each field's value.
    pub fn classes_of(&self, values: &[u16]) -> [u16; 8]
        requires { length values.now ≤ 8 }
        ensures { ClassesOf self.now.keys self.now.starts values.now result }
    {
        classes_of(&self.keys, &self.starts, values)
    }

    // Inner: each field's class gives way to the value shown for it.
    pub fn show(&self, values: &mut [u16])
        requires { length values.old ≤ 8 }
        ensures { ShownFor self.now.keys self.now.starts values.old values.new }
    {
        show(&self.keys, &self.starts, values)
    }
}
