// Row records, as a console's own code holds rows (document 02, A.2): the thin reader. It takes each record apart and hands its numbers
// to the covered row check; the row rules then go over columns.
#![tactic(auto)]

ghost use Rattle.std.specs.Prelude.{[], ◌∷◌, ◌≡◌, ◌<◌, ◌≤◌, length};
ghost use Rattle.packet_set.specs.Bits.{mask_bits};
ghost use Rattle.records.specs.Records.{packets_of, lefts_of, rights_of, over, stray_in};

use packet_set::Mask;

// A row with its parent; 32 bytes in C.
#[repr(C)]
#[derive(Clone, Copy)]
pub struct RowRecord {
    pub packet: u16,
    pub left: Mask,
    pub right: Mask,
    pub parent: u16,
}

// Inner: the columns of the first `end` records, and the first of these that breaks rule (a), or `end`. Parents are not read.
pub fn read_records(
    rows: &[RowRecord],
    end: usize,
    count: u16,
    left_dups: u32,
    right_dups: u32,
    packets: &mut [u16],
    lefts: &mut [Mask],
    rights: &mut [Mask],
) -> usize
    requires { (end ≤ length rows.now) × (end ≤ length packets.old) × (end ≤ length lefts.old) × (end ≤ length rights.old) × (left_dups < mask_bits) × (right_dups < mask_bits) }
    ensures { (result ≡ stray_in end count (left_dups ∷ right_dups ∷ []) rows.now end)
        × (packets.new ≡ over (packets_of rows.now) end packets.old)
        × (lefts.new ≡ over (lefts_of rows.now) end lefts.old)
        × (rights.new ≡ over (rights_of rows.now) end rights.old) }
{
    let mut found = end;
    for i in 0..end {
        let row = rows[i];
        found = row_rules::stray_after(
            end, found, i, row.packet, row.left, row.right, count, left_dups, right_dups,
        );
        packets[i] = row.packet;
        lefts[i] = row.left;
        rights[i] = row.right;
    }
    found
}
