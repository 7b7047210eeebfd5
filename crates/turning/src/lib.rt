// Turning packet numbers into field values and back (document 01, "Packets"): the public calls.
#![tactic(auto)]

ghost use Rattle.std.specs.Prelude.{◌≡◌, ◌<◌, length};
ghost use Rattle.packet.specs.Lowest.{lowest};
ghost use Rattle.packet.specs.Sizes.{LegalSizes, product};
ghost use Rattle.packet.specs.Packets.{Declared, values_of, number_of};
ghost use Rattle.fields.specs.Tables.{lent_tables};
ghost use Rattle.policy.specs.AsLists.{lists_of};
ghost use Rattle.turning.specs.Turning.{length_test, number_stage, values_stage, values_tests, values_left, bad_value, number_call, class_in, classes_in};

use fields::Tables;
use packet::{Refusal, Tested, unsided};
use policy::lent::PolicyLists;

// Cause 13 for a value list of another length than k.
fn length_test(k: usize, values: usize) -> Tested
    ensures { result ≡ length_test k values }
{
    if values != k {
        return Err(unsided(13, k));
    }
    Ok(())
}

// Cause 13 of a number turned into so many values: the list's length, then the number, which is N or more.
fn number_stage(k: usize, count: u16, number: u16, values: usize) -> Tested
    ensures { result ≡ number_stage k count number values }
{
    length_test(k, values)?;
    if count <= number {
        return Err(unsided(13, 0));
    }
    Ok(())
}

// Writes the values of a packet, from field 0 on; count is the packet count.
fn write_values(sizes: &[u16], count: u16, number: u16, values: &mut [u16])
    requires legal_sizes { LegalSizes sizes.now }
    requires count_value { count ≡ product sizes.now }
    requires number_lt_count { number < count }
    requires values_len { length values.old ≡ length sizes.now }
    ensures { values.new ≡ values_of sizes.now number }
{
    let mut block = count;
    let mut rest = number;
    for (i, size) in sizes.iter().enumerate() {
        block /= *size;
        values[i] = rest / block;
        rest %= block;
    }
}

// The values of the packet's fields from its number, into the lent list; an unmentioned field shows 0.
pub fn values_of(
    tables: Tables,
    left: PolicyLists,
    right: PolicyLists,
    number: u16,
    values: &mut [u16],
) -> Tested
    ensures answer { result ≡ values_tests (lent_tables tables.entry) (lists_of left.entry) (lists_of right.entry) number (length values.old) }
    ensures list { values.new ≡ values_left (lent_tables tables.entry) (lists_of left.entry) (lists_of right.entry) number values.old }
{
    let found = legality::front(tables, 1, left, right, Ok(()))?;
    number_stage(found.count, found.packets, number, values.len())?;
    write_values(&found.core[..found.count], found.packets, number, values);
    Ok(())
}

// The lowest field whose value is out of range.
fn lowest_bad(sizes: &[u16], values: &[u16]) -> Option<usize>
    requires { length values.now ≡ length sizes.now }
    ensures { result ≡ lowest (bad_value sizes.now values.now) (length sizes.now) }
{
    for (i, size) in sizes.iter().enumerate() {
        if *size <= values[i] {
            return Some(i);
        }
    }
    None
}

// Cause 13 of values turned into a number: the list's length, then the lowest field whose value is out of range.
fn values_stage(sizes: &[u16], values: &[u16]) -> Tested
    ensures { result ≡ values_stage sizes.now values.now }
{
    length_test(sizes.len(), values.len())?;
    packet::refused_at(13, 0, lowest_bad(sizes, values))
}

// The class of a value of a field with so many classes: an unmentioned field has one, and its value does not count.
fn class_in(count: u16, value: u16) -> u16
    ensures { result ≡ class_in count value }
{
    if count == 1 {
        return 0;
    }
    value
}

// The number of the packet of classes to which the values belong.
fn number_from(core: &[u16], values: &[u16]) -> u16
    requires legal_sizes { LegalSizes core.now }
    requires values_len { length values.now ≡ length core.now }
    requires declared { Declared core.now (classes_in core.now values.now) }
    ensures { result ≡ number_of core.now (classes_in core.now values.now) }
{
    let mut number: u16 = 0;
    for (i, count) in core.iter().enumerate() {
        number = number * *count + class_in(*count, values[i]);
    }
    number
}

// The number of the packet with the values given; those of unmentioned fields are tested and not counted.
pub fn number_of(
    tables: Tables,
    left: PolicyLists,
    right: PolicyLists,
    values: &[u16],
) -> Result<u16, Refusal>
    ensures { result ≡ number_call (lent_tables tables.entry) (lists_of left.entry) (lists_of right.entry) values.now }
{
    let found = legality::front(tables, 1, left, right, Ok(()))?;
    values_stage(&found.sizes[..found.count], values)?;
    Ok(number_from(&found.core[..found.count], values))
}
