// The trace checker (document 01, "Row rules for evidence"): which of two policies has a trace. `check` is the public call.
#![tactic(auto)]

ghost use Rattle.std.specs.Prelude.{◌≡◌, suc, length};
ghost use Rattle.packet.specs.Lowest.{lowest};
ghost use Rattle.fields.specs.Tables.{lent_tables};
ghost use Rattle.policy.specs.AsLists.{lists_of};
ghost use Rattle.pair.specs.TraceCheck.{answer_of};
ghost use Rattle.traces.specs.Checking.{bad_packet, checked_as, CheckedTrace, FollowReady, Followed, LoadedReady, LoadedFollowed};

use engine::LoadedPolicy;
use fields::Tables;
use packet::Refusal;
use policy::lent::PolicyLists;
use spans::Span;

// The answer on a trace: which of the two policies have it, or the first cause that refuses. Document 01 lists these cases, so no Result.
#[derive(Drop)]
pub enum TraceChecked {
    Left,
    Right,
    Both,
    Neither,
    Refused(Refusal),
}

// Cause 13: the lowest place of a packet out of range; place 0 is the entering packet, place i the i-th of the trace.
fn lowest_bad(count: u16, entering: u16, trace: &[u16]) -> Option<usize>
    ensures { result ≡ lowest (bad_packet count entering trace.now) (suc (length trace.now)) }
{
    if count <= entering {
        return Some(0);
    }
    for (i, packet) in trace.iter().enumerate() {
        if count <= *packet {
            return Some(i + 1);
        }
    }
    None
}

// Has the loaded policy the trace? Its state is followed along the trace; count is the packet count.
// The work list is 0 in its first 16,384 words before, and as it was after.
fn follows(
    policy: &LoadedPolicy,
    count: u16,
    entering: u16,
    trace: &[u16],
    work: &mut [u32],
) -> bool
    requires { LoadedReady policy.now.sizes.now policy.now.nodes.now policy.now.tests.now count entering trace.now work.old }
    ensures { LoadedFollowed policy.now.sizes.now policy.now.nodes.now policy.now.tests.now entering trace.now work.old result work.new }
{
    let words = packet_set::words_for(usize::from(count));
    let mut next = [0; 1056];
    let mut state = 1;
    let mut packet = entering;
    for (i, entry) in trace.iter().enumerate() {
        let mut output = [0; 32];
        engine::step(
            policy,
            state,
            packet,
            Span { from: 0, to: 0 },
            &mut output,
            &mut next,
            work,
        );
        packet = *entry;
        if i + 1 == trace.len() {
            return packet_set::contains(&output, packet);
        }
        state = next[usize::from(packet)];
        if state == 0 {
            return false;
        }
        marks::forget(&mut next, words);
    }
    false
}

// Has the policy the trace? It is loaded, and its state followed; count is the packet count.
// The work list is 0 in its first 16,384 words before, and as it was after.
fn has_trace(
    sizes: &[u16],
    count: u16,
    policy: PolicyLists,
    entering: u16,
    trace: &[u16],
    work: &mut [u32],
) -> bool
    requires { FollowReady sizes.now (lists_of policy) count entering trace.now work.old }
    ensures { Followed sizes.now (lists_of policy.entry) entering trace.now work.old result work.new }
{
    let mut nodes = [0; 576];
    let mut tests = [0; 8224];
    loaded::load(sizes, count, policy, &mut nodes, &mut tests);
    let policy = LoadedPolicy {
        sizes,
        nodes: &nodes,
        tests: &tests,
    };
    follows(&policy, count, entering, trace, work)
}

// The answer from what each policy has.
#[tactic(auto, unfolding(crate::specs::Checking::checked_as, pair::specs::TraceCheck::answer_of))]
fn named(left: bool, right: bool) -> TraceChecked
    ensures { result ≡ checked_as (answer_of left right) }
{
    match (left, right) {
        (true, true) => TraceChecked::Both,
        (true, false) => TraceChecked::Left,
        (false, true) => TraceChecked::Right,
        (false, false) => TraceChecked::Neither,
    }
}

// Which of the two policies have the trace from the entering packet: the causes up to 10, of 10 the work list alone, then 13.
// The work list is as found where a cause up to 10 refuses, and else all 0.
pub fn check(
    tables: Tables,
    left: PolicyLists,
    right: PolicyLists,
    entering: u16,
    trace: &[u16],
    work: &mut [u32],
) -> TraceChecked
    ensures { CheckedTrace (lent_tables tables.entry) (lists_of left.entry) (lists_of right.entry) entering trace.now work.old result work.new }
{
    let lists = lent_lists::lists_stage(&[], work.len());
    let found = match legality::front(tables, 1, left, right, lists) {
        Ok(found) => found,
        Err(r) => return TraceChecked::Refused(r),
    };
    lent_lists::clear(work);
    let count = found.packets;
    if let Err(r) = packet::refused_at(13, 0, lowest_bad(count, entering, trace)) {
        return TraceChecked::Refused(r);
    }
    let sizes = &found.core[..found.count];
    let left = has_trace(sizes, count, left, entering, trace, work);
    let right = has_trace(sizes, count, right, entering, trace, work);
    named(left, right)
}
