// What C links as libexports.a (include/netkat.h): each function of `exports` under its own name, with its clauses.
#![tactic(auto)]

ghost use Rattle.std.specs.Prelude.{◌≡◌, length};
ghost use Rattle.fields.specs.Tables.{table, tables};
ghost use Rattle.policy.specs.AsLists.{as_lists};
ghost use Rattle.legality.specs.Answers.{policy_legality, pair_legality};
ghost use Rattle.turning.specs.Turning.{values_tests, values_left, number_call};
ghost use Rattle.search.specs.Call.{lent_at_entry, lent_at_exit};
ghost use Rattle.records.specs.Records.{packets_of, lefts_of, rights_of};
ghost use Rattle.answer_numbers.specs.Numbers.{values_numbers, count_numbers, pair_numbers};
ghost use Rattle.exports.specs.Promises.{ReadOut, SearchedOut, TextsOut, EvidenceOut, TraceOut};

use packet_set::Mask;
use records::RowRecord;

// A packet's number turned into its values.
#[unsafe(no_mangle)]
pub extern "C" fn netkat_values(
    left_names: &[u8],
    left_sizes: &[u16],
    right_names: &[u8],
    right_sizes: &[u16],
    left_kind: &[u8],
    left_first: &[u16],
    left_second: &[u16],
    right_kind: &[u8],
    right_first: &[u16],
    right_second: &[u16],
    number: u16,
    values: &mut [u16],
    answer: &mut [u64; 8],
)
    ensures numbers { answer.new ≡ values_numbers (values_tests (tables left_names.now left_sizes.now right_names.now right_sizes.now) (as_lists left_kind.now left_first.now left_second.now) (as_lists right_kind.now right_first.now right_second.now) number (length values.old)) }
    ensures list { values.new ≡ values_left (tables left_names.now left_sizes.now right_names.now right_sizes.now) (as_lists left_kind.now left_first.now left_second.now) (as_lists right_kind.now right_first.now right_second.now) number values.old }
{
    exports::netkat_values(
        left_names,
        left_sizes,
        right_names,
        right_sizes,
        left_kind,
        left_first,
        left_second,
        right_kind,
        right_first,
        right_second,
        number,
        values,
        answer,
    );
}

// Values turned into a packet's number.
#[unsafe(no_mangle)]
pub extern "C" fn netkat_number(
    left_names: &[u8],
    left_sizes: &[u16],
    right_names: &[u8],
    right_sizes: &[u16],
    left_kind: &[u8],
    left_first: &[u16],
    left_second: &[u16],
    right_kind: &[u8],
    right_first: &[u16],
    right_second: &[u16],
    values: &[u16],
    answer: &mut [u64; 8],
)
    ensures { answer.new ≡ count_numbers (number_call (tables left_names.now left_sizes.now right_names.now right_sizes.now) (as_lists left_kind.now left_first.now left_second.now) (as_lists right_kind.now right_first.now right_second.now) values.now) }
{
    exports::netkat_number(
        left_names,
        left_sizes,
        right_names,
        right_sizes,
        left_kind,
        left_first,
        left_second,
        right_kind,
        right_first,
        right_second,
        values,
        answer,
    );
}

// One policy tested.
#[unsafe(no_mangle)]
pub extern "C" fn netkat_policy(
    left_names: &[u8],
    left_sizes: &[u16],
    right_names: &[u8],
    right_sizes: &[u16],
    kind: &[u8],
    first: &[u16],
    second: &[u16],
    answer: &mut [u64; 8],
)
    ensures { answer.new ≡ count_numbers (policy_legality (tables left_names.now left_sizes.now right_names.now right_sizes.now) (as_lists kind.now first.now second.now)) }
{
    exports::netkat_policy(
        left_names,
        left_sizes,
        right_names,
        right_sizes,
        kind,
        first,
        second,
        answer,
    );
}

// Two policies tested.
#[unsafe(no_mangle)]
pub extern "C" fn netkat_policies(
    left_names: &[u8],
    left_sizes: &[u16],
    right_names: &[u8],
    right_sizes: &[u16],
    left_kind: &[u8],
    left_first: &[u16],
    left_second: &[u16],
    right_kind: &[u8],
    right_first: &[u16],
    right_second: &[u16],
    answer: &mut [u64; 8],
)
    ensures { answer.new ≡ pair_numbers (pair_legality (tables left_names.now left_sizes.now right_names.now right_sizes.now) (as_lists left_kind.now left_first.now left_second.now) (as_lists right_kind.now right_first.now right_second.now)) }
{
    exports::netkat_policies(
        left_names,
        left_sizes,
        right_names,
        right_sizes,
        left_kind,
        left_first,
        left_second,
        right_kind,
        right_first,
        right_second,
        answer,
    );
}

// One text read.
#[unsafe(no_mangle)]
pub extern "C" fn netkat_read(
    left_names: &[u8],
    left_sizes: &[u16],
    right_names: &[u8],
    right_sizes: &[u16],
    side: u8,
    text: &[u8],
    kind: &mut [u8],
    first: &mut [u16],
    second: &mut [u16],
    answer: &mut [u64; 8],
)
    ensures { ReadOut (table left_names.now left_sizes.now) (table right_names.now right_sizes.now) side text.now kind.old first.old second.old answer.new kind.new first.new second.new }
{
    exports::netkat_read(
        left_names,
        left_sizes,
        right_names,
        right_sizes,
        side,
        text,
        kind,
        first,
        second,
        answer,
    );
}

// Two policies searched.
#[unsafe(no_mangle)]
pub extern "C" fn netkat_search(
    left_names: &[u8],
    left_sizes: &[u16],
    right_names: &[u8],
    right_sizes: &[u16],
    left_kind: &[u8],
    left_first: &[u16],
    left_second: &[u16],
    right_kind: &[u8],
    right_first: &[u16],
    right_second: &[u16],
    packet: &mut [u16],
    left: &mut [Mask],
    right: &mut [Mask],
    parent: &mut [u16],
    trace: &mut [u16],
    work: &mut [u32],
    answer: &mut [u64; 8],
)
    ensures { SearchedOut (tables left_names.now left_sizes.now right_names.now right_sizes.now) (as_lists left_kind.now left_first.now left_second.now) (as_lists right_kind.now right_first.now right_second.now) (lent_at_entry packet left right parent trace work) answer.new (lent_at_exit packet left right parent trace work) }
{
    exports::netkat_search(
        left_names,
        left_sizes,
        right_names,
        right_sizes,
        left_kind,
        left_first,
        left_second,
        right_kind,
        right_first,
        right_second,
        packet,
        left,
        right,
        parent,
        trace,
        work,
        answer,
    );
}

// Two texts searched.
#[unsafe(no_mangle)]
pub extern "C" fn netkat_search_texts(
    left_names: &[u8],
    left_sizes: &[u16],
    right_names: &[u8],
    right_sizes: &[u16],
    left_text: &[u8],
    right_text: &[u8],
    packet: &mut [u16],
    left: &mut [Mask],
    right: &mut [Mask],
    parent: &mut [u16],
    trace: &mut [u16],
    work: &mut [u32],
    answer: &mut [u64; 8],
)
    ensures { TextsOut (table left_names.now left_sizes.now) (table right_names.now right_sizes.now) left_text.now right_text.now (lent_at_entry packet left right parent trace work) answer.new (lent_at_exit packet left right parent trace work) }
{
    exports::netkat_search_texts(
        left_names,
        left_sizes,
        right_names,
        right_sizes,
        left_text,
        right_text,
        packet,
        left,
        right,
        parent,
        trace,
        work,
        answer,
    );
}

// A row table checked.
#[unsafe(no_mangle)]
pub extern "C" fn netkat_evidence(
    left_names: &[u8],
    left_sizes: &[u16],
    right_names: &[u8],
    right_sizes: &[u16],
    left_kind: &[u8],
    left_first: &[u16],
    left_second: &[u16],
    right_kind: &[u8],
    right_first: &[u16],
    right_second: &[u16],
    packet: &[u16],
    left: &[Mask],
    right: &[Mask],
    work: &mut [u32],
    answer: &mut [u64; 8],
)
    ensures { EvidenceOut (tables left_names.now left_sizes.now right_names.now right_sizes.now) (as_lists left_kind.now left_first.now left_second.now) (as_lists right_kind.now right_first.now right_second.now) packet.now left.now right.now work.old answer.new work.new }
{
    exports::netkat_evidence(
        left_names,
        left_sizes,
        right_names,
        right_sizes,
        left_kind,
        left_first,
        left_second,
        right_kind,
        right_first,
        right_second,
        packet,
        left,
        right,
        work,
        answer,
    );
}

// A table of row records checked: as `netkat_evidence` on the columns of the records. Their columns are read to lists of its own, where
// the index looks rows up.
#[unsafe(no_mangle)]
pub extern "C" fn netkat_evidence_rows(
    left_names: &[u8],
    left_sizes: &[u16],
    right_names: &[u8],
    right_sizes: &[u16],
    left_kind: &[u8],
    left_first: &[u16],
    left_second: &[u16],
    right_kind: &[u8],
    right_first: &[u16],
    right_second: &[u16],
    rows: &[RowRecord],
    work: &mut [u32],
    answer: &mut [u64; 8],
)
    ensures { EvidenceOut (tables left_names.now left_sizes.now right_names.now right_sizes.now) (as_lists left_kind.now left_first.now left_second.now) (as_lists right_kind.now right_first.now right_second.now) (packets_of rows.now) (lefts_of rows.now) (rights_of rows.now) work.old answer.new work.new }
{
    exports::netkat_evidence_rows(
        left_names,
        left_sizes,
        right_names,
        right_sizes,
        left_kind,
        left_first,
        left_second,
        right_kind,
        right_first,
        right_second,
        rows,
        work,
        answer,
    );
}

// A trace checked.
#[unsafe(no_mangle)]
pub extern "C" fn netkat_trace(
    left_names: &[u8],
    left_sizes: &[u16],
    right_names: &[u8],
    right_sizes: &[u16],
    left_kind: &[u8],
    left_first: &[u16],
    left_second: &[u16],
    right_kind: &[u8],
    right_first: &[u16],
    right_second: &[u16],
    entering: u16,
    trace: &[u16],
    work: &mut [u32],
    answer: &mut [u64; 8],
)
    ensures { TraceOut (tables left_names.now left_sizes.now right_names.now right_sizes.now) (as_lists left_kind.now left_first.now left_second.now) (as_lists right_kind.now right_first.now right_second.now) entering trace.now work.old answer.new work.new }
{
    exports::netkat_trace(
        left_names,
        left_sizes,
        right_names,
        right_sizes,
        left_kind,
        left_first,
        left_second,
        right_kind,
        right_first,
        right_second,
        entering,
        trace,
        work,
        answer,
    );
}
