// The C interface (include/netkat.h): each public call, its answer as eight numbers. C lends each list by itself, so the parameters stay apart here.
#![tactic(auto)]

ghost use Rattle.std.specs.Prelude.{◌≡◌, length};
ghost use Rattle.fields.specs.Tables.{table, tables, lent_tables};
ghost use Rattle.policy.specs.AsLists.{as_lists, lists_of};
ghost use Rattle.legality.specs.Answers.{policy_legality, pair_legality};
ghost use Rattle.turning.specs.Turning.{values_tests, values_left, number_call};
ghost use Rattle.search.specs.Call.{lent_at_entry, lent_at_exit};
ghost use Rattle.records.specs.Records.{packets_of, lefts_of, rights_of};
ghost use Rattle.answer_numbers.specs.Numbers.{values_numbers, count_numbers, pair_numbers};
ghost use Rattle.exports.specs.Promises.{ReadOut, SearchedOut, TextsOut, EvidenceOut, TraceOut};

use fields::{FieldTable, Tables};
use index::{Columns, RowLists};
use packet_set::Mask;
use policy::lent::PolicyLists;
use records::RowRecord;

// The tables of a call, as its lists.
fn tables<'a>(
    left_names: &'a [u8],
    left_sizes: &'a [u16],
    right_names: &'a [u8],
    right_sizes: &'a [u16],
) -> Tables<'a>
    ensures { lent_tables result ≡ tables left_names.now left_sizes.now right_names.now right_sizes.now }
{
    Tables {
        left: FieldTable {
            names: left_names,
            sizes: left_sizes,
        },
        right: FieldTable {
            names: right_names,
            sizes: right_sizes,
        },
    }
}

// A policy, as its lists.
fn policy<'a>(kind: &'a [u8], first: &'a [u16], second: &'a [u16]) -> PolicyLists<'a>
    ensures { lists_of result ≡ as_lists kind.now first.now second.now }
{
    PolicyLists {
        kind,
        first,
        second,
    }
}

// A packet's number turned into its values.
pub fn netkat_values(
    left_names: &[u8],
    left_sizes: &[u16],
    right_names: &[u8],
    right_sizes: &[u16],
    left_kind: &[u8],
    left_first: &[u16],
    left_second: &[u16],
    right_kind: &[u8],
    right_first: &[u16],
    right_second: &[u16],
    number: u16,
    values: &mut [u16],
    answer: &mut [u64; 8],
)
    ensures numbers { answer.new ≡ values_numbers (values_tests (tables left_names.now left_sizes.now right_names.now right_sizes.now) (as_lists left_kind.now left_first.now left_second.now) (as_lists right_kind.now right_first.now right_second.now) number (length values.old)) }
    ensures list { values.new ≡ values_left (tables left_names.now left_sizes.now right_names.now right_sizes.now) (as_lists left_kind.now left_first.now left_second.now) (as_lists right_kind.now right_first.now right_second.now) number values.old }
{
    *answer = answer_numbers::of_values(turning::values_of(
        tables(left_names, left_sizes, right_names, right_sizes),
        policy(left_kind, left_first, left_second),
        policy(right_kind, right_first, right_second),
        number,
        values,
    ));
}

// Values turned into a packet's number.
pub fn netkat_number(
    left_names: &[u8],
    left_sizes: &[u16],
    right_names: &[u8],
    right_sizes: &[u16],
    left_kind: &[u8],
    left_first: &[u16],
    left_second: &[u16],
    right_kind: &[u8],
    right_first: &[u16],
    right_second: &[u16],
    values: &[u16],
    answer: &mut [u64; 8],
)
    ensures { answer.new ≡ count_numbers (number_call (tables left_names.now left_sizes.now right_names.now right_sizes.now) (as_lists left_kind.now left_first.now left_second.now) (as_lists right_kind.now right_first.now right_second.now) values.now) }
{
    *answer = answer_numbers::of_count(turning::number_of(
        tables(left_names, left_sizes, right_names, right_sizes),
        policy(left_kind, left_first, left_second),
        policy(right_kind, right_first, right_second),
        values,
    )
    .map(u64::from));
}

// One policy tested.
pub fn netkat_policy(
    left_names: &[u8],
    left_sizes: &[u16],
    right_names: &[u8],
    right_sizes: &[u16],
    kind: &[u8],
    first: &[u16],
    second: &[u16],
    answer: &mut [u64; 8],
)
    ensures { answer.new ≡ count_numbers (policy_legality (tables left_names.now left_sizes.now right_names.now right_sizes.now) (as_lists kind.now first.now second.now)) }
{
    *answer = answer_numbers::of_count(legality::policy_legality(
        tables(left_names, left_sizes, right_names, right_sizes),
        policy(kind, first, second),
    )
    .map(u64::from));
}

// Two policies tested.
pub fn netkat_policies(
    left_names: &[u8],
    left_sizes: &[u16],
    right_names: &[u8],
    right_sizes: &[u16],
    left_kind: &[u8],
    left_first: &[u16],
    left_second: &[u16],
    right_kind: &[u8],
    right_first: &[u16],
    right_second: &[u16],
    answer: &mut [u64; 8],
)
    ensures { answer.new ≡ pair_numbers (pair_legality (tables left_names.now left_sizes.now right_names.now right_sizes.now) (as_lists left_kind.now left_first.now left_second.now) (as_lists right_kind.now right_first.now right_second.now)) }
{
    *answer = answer_numbers::of_pair(legality::pair_legality(
        tables(left_names, left_sizes, right_names, right_sizes),
        policy(left_kind, left_first, left_second),
        policy(right_kind, right_first, right_second),
    ));
}

// One text read.
pub fn netkat_read(
    left_names: &[u8],
    left_sizes: &[u16],
    right_names: &[u8],
    right_sizes: &[u16],
    side: u8,
    text: &[u8],
    kind: &mut [u8],
    first: &mut [u16],
    second: &mut [u16],
    answer: &mut [u64; 8],
)
    ensures { ReadOut (table left_names.now left_sizes.now) (table right_names.now right_sizes.now) side text.now kind.old first.old second.old answer.new kind.new first.new second.new }
{
    *answer = answer_numbers::of_count(text::read(
        tables(left_names, left_sizes, right_names, right_sizes),
        side,
        text,
        kind,
        first,
        second,
    )
    .map(|n| n as u64));
}

// Two policies searched.
pub fn netkat_search(
    left_names: &[u8],
    left_sizes: &[u16],
    right_names: &[u8],
    right_sizes: &[u16],
    left_kind: &[u8],
    left_first: &[u16],
    left_second: &[u16],
    right_kind: &[u8],
    right_first: &[u16],
    right_second: &[u16],
    packet: &mut [u16],
    left: &mut [Mask],
    right: &mut [Mask],
    parent: &mut [u16],
    trace: &mut [u16],
    work: &mut [u32],
    answer: &mut [u64; 8],
)
    ensures { SearchedOut (tables left_names.now left_sizes.now right_names.now right_sizes.now) (as_lists left_kind.now left_first.now left_second.now) (as_lists right_kind.now right_first.now right_second.now) (lent_at_entry packet left right parent trace work) answer.new (lent_at_exit packet left right parent trace work) }
{
    let mut rows = RowLists {
        packets: packet,
        left,
        right,
        parents: parent,
    };
    *answer = answer_numbers::of_verdict(search::search(
        tables(left_names, left_sizes, right_names, right_sizes),
        policy(left_kind, left_first, left_second),
        policy(right_kind, right_first, right_second),
        &mut rows,
        trace,
        work,
    ));
}

// Two texts searched.
pub fn netkat_search_texts(
    left_names: &[u8],
    left_sizes: &[u16],
    right_names: &[u8],
    right_sizes: &[u16],
    left_text: &[u8],
    right_text: &[u8],
    packet: &mut [u16],
    left: &mut [Mask],
    right: &mut [Mask],
    parent: &mut [u16],
    trace: &mut [u16],
    work: &mut [u32],
    answer: &mut [u64; 8],
)
    ensures { TextsOut (table left_names.now left_sizes.now) (table right_names.now right_sizes.now) left_text.now right_text.now (lent_at_entry packet left right parent trace work) answer.new (lent_at_exit packet left right parent trace work) }
{
    let mut rows = RowLists {
        packets: packet,
        left,
        right,
        parents: parent,
    };
    *answer = answer_numbers::of_verdict(search_texts::search(
        tables(left_names, left_sizes, right_names, right_sizes),
        left_text,
        right_text,
        &mut rows,
        trace,
        work,
    ));
}

// A row table checked.
pub fn netkat_evidence(
    left_names: &[u8],
    left_sizes: &[u16],
    right_names: &[u8],
    right_sizes: &[u16],
    left_kind: &[u8],
    left_first: &[u16],
    left_second: &[u16],
    right_kind: &[u8],
    right_first: &[u16],
    right_second: &[u16],
    packet: &[u16],
    left: &[Mask],
    right: &[Mask],
    work: &mut [u32],
    answer: &mut [u64; 8],
)
    ensures { EvidenceOut (tables left_names.now left_sizes.now right_names.now right_sizes.now) (as_lists left_kind.now left_first.now left_second.now) (as_lists right_kind.now right_first.now right_second.now) packet.now left.now right.now work.old answer.new work.new }
{
    *answer = answer_numbers::of_evidence(evidence::check(
        tables(left_names, left_sizes, right_names, right_sizes),
        policy(left_kind, left_first, left_second),
        policy(right_kind, right_first, right_second),
        Columns {
            packets: packet,
            left,
            right,
        },
        work,
    ));
}

// A table of row records checked: as `netkat_evidence` on the columns of the records. Their columns are read to lists of its own, where
// the index looks rows up.
pub fn netkat_evidence_rows(
    left_names: &[u8],
    left_sizes: &[u16],
    right_names: &[u8],
    right_sizes: &[u16],
    left_kind: &[u8],
    left_first: &[u16],
    left_second: &[u16],
    right_kind: &[u8],
    right_first: &[u16],
    right_second: &[u16],
    rows: &[RowRecord],
    work: &mut [u32],
    answer: &mut [u64; 8],
)
    ensures { EvidenceOut (tables left_names.now left_sizes.now right_names.now right_sizes.now) (as_lists left_kind.now left_first.now left_second.now) (as_lists right_kind.now right_first.now right_second.now) (packets_of rows.now) (lefts_of rows.now) (rights_of rows.now) work.old answer.new work.new }
{
    let mut packets = [0u16; 65535];
    let mut lefts = [0; 65535];
    let mut rights = [0; 65535];
    let tables = tables(left_names, left_sizes, right_names, right_sizes);
    let left = policy(left_kind, left_first, left_second);
    let right = policy(right_kind, right_first, right_second);
    let bounds = evidence::bounds_of(tables, left, right, rows.len());
    let stray = records::read_records(
        rows,
        bounds.rows,
        bounds.count,
        bounds.left_dups,
        bounds.right_dups,
        &mut packets,
        &mut lefts,
        &mut rights,
    );
    let columns = Columns {
        packets: &packets,
        left: &lefts,
        right: &rights,
    };
    *answer = answer_numbers::of_evidence(evidence::check_read(
        tables,
        left,
        right,
        columns,
        rows.len(),
        stray,
        work,
    ));
}

// A trace checked.
pub fn netkat_trace(
    left_names: &[u8],
    left_sizes: &[u16],
    right_names: &[u8],
    right_sizes: &[u16],
    left_kind: &[u8],
    left_first: &[u16],
    left_second: &[u16],
    right_kind: &[u8],
    right_first: &[u16],
    right_second: &[u16],
    entering: u16,
    trace: &[u16],
    work: &mut [u32],
    answer: &mut [u64; 8],
)
    ensures { TraceOut (tables left_names.now left_sizes.now right_names.now right_sizes.now) (as_lists left_kind.now left_first.now left_second.now) (as_lists right_kind.now right_first.now right_second.now) entering trace.now work.old answer.new work.new }
{
    *answer = answer_numbers::of_trace(traces::check(
        tables(left_names, left_sizes, right_names, right_sizes),
        policy(left_kind, left_first, left_second),
        policy(right_kind, right_first, right_second),
        entering,
        trace,
        work,
    ));
}
