// One step of a state of a loaded policy at a packet (document 01, "States and rows"): one remainder at a time, by packet sets.
// All functions here are inner.
#![tactic(auto)]

ghost use Rattle.std.specs.Prelude.{ℕ, ◌<◌, ◌≤◌, false, ◌&&◌, ◌≡◌, length, get_or};
ghost use Rattle.policy.specs.Legality.{field_of, value_of};
ghost use Rattle.packet_set.specs.Bits.{mask_bits};
ghost use Rattle.packet_set.specs.InnerMembers.{member};
ghost use Rattle.spans.specs.Spans.{Spanned};
ghost use Rattle.loaded.specs.Nodes.{set_in, guard_at};
ghost use Rattle.changes.specs.Changes.{Changing};
ghost use Rattle.engine.specs.Stepping.{RemainderReady, RemainderStepped, Visited, StepReady, Stepped};
ghost use Rattle.engine.specs.Visiting.{Admitted, EnteredLists, Acted, onward, SameLists, SomeVisitReady, Sent};

use loaded::{Nodes, Tests};
use marks::Next;
use packet_set::{Mask, PacketWords};
use policy::{FieldAction, Node};
use spans::Span;

// A loaded policy, as a step reads it.
#[derive(Clone, Copy)]
pub struct LoadedPolicy<'a> {
    pub sizes: &'a [u16],
    pub nodes: &'a Nodes,
    pub tests: &'a Tests,
}

// What has been seen in a step: the nodes whose slots are not 0.
pub type Seen = [u32; 16];

// What a step writes as it goes: slots of the work list, the nodes whose slots are not 0, the marks of next.
#[derive(Drop)]
pub struct Progress<'w, 'n> {
    pub work: &'w mut [u32],
    pub seen: Seen,
    pub next: &'n mut Next,
}

// Inner. The set keeps what set k of the tests lets in, and set 0 lets in all; is any left?
fn admit(tests: &Tests, k: usize, span: Span, set: &mut PacketWords) -> bool
    requires { (k ≤ 256) × Spanned span.from span.to set.old }
    ensures { Admitted tests.now k span.from span.to set.old result set.new }
{
    k == 0 || spans::keep(tests, k, span, set)
}

// Inner. Does the guard of node n let in a packet of the set? (`false` says that it lets in none.)
fn lets_in(policy: &LoadedPolicy, n: u16, span: Span, set: &PacketWords) -> bool
    requires { (n < 512) × (set_in (get_or policy.now.nodes.now n 0) ≤ 256) × Spanned span.from span.to set.now }
    ensures { result ≡ false → (γ : ℕ) → (member set.now γ && guard_at policy.now.nodes.now policy.now.tests.now n γ) ≡ false }
{
    let k = loaded::set_in(policy.nodes[n as usize]);
    k == 0 || spans::meets(policy.tests, k, span, set)
}

// Inner. The set enters node n: where the node keeps a slot, what had entered before in this step stays behind. Is anything new?
fn enter(
    keeps: bool,
    n: u16,
    span: Span,
    set: &mut PacketWords,
    work: &mut [u32],
    seen: &mut Seen,
) -> bool
    requires { (n < 512) × (16384 ≤ length work.old) × (length seen.old ≡ 16) × Spanned span.from span.to set.old }
    ensures { EnteredLists keeps n span.from span.to set.old work.old seen.old result set.new work.new seen.new }
{
    !keeps || spans::note(work, seen, n, span, set)
}

// Inner. The set after a change of a field; tests are no business of this function.
fn act(sizes: &[u16], action: FieldAction, span: Span, set: &mut PacketWords) -> Span
    requires { Changing sizes.now (field_of action) (value_of action) span.from span.to set.old }
    ensures { Acted sizes.now action set.old result.from result.to set.new }
{
    match action {
        FieldAction::Set(f, v) => changes::change(sizes, f, v, span, set),
        FieldAction::Equals(_, _) | FieldAction::Differs(_, _) => span,
    }
}

// Inner. The set through node n, in place, and its span. Slots of the work list record what has entered the nodes that keep one: only
// what is new goes on, so that a packet enters such a node once in a step. Dups mark next. Only a sum of which both summands let packets
// in copies the set.
fn through(
    policy: &LoadedPolicy,
    n: u16,
    span: Span,
    set: &mut PacketWords,
    progress: &mut Progress,
) -> Span
    requires some_visit_ready { SomeVisitReady policy.now.sizes.now policy.now.nodes.now policy.now.tests.now n span.from span.to set.old progress.old.work.now }
    requires seen_len { (length progress.old.seen ≡ 16) × (length progress.old.next.now ≡ 1056) }
    ensures sent { Sent policy.now.sizes.now policy.now.nodes.now policy.now.tests.now n span.from span.to set.old progress.old.work.now progress.old.seen progress.old.next.now result.from result.to set.new progress.new.work.now progress.new.seen progress.new.next.now }
    ensures same_lists { SameLists progress.old progress.new }
{
    let packed = policy.nodes[n as usize];
    if !admit(policy.tests, loaded::set_in(packed), span, set) {
        return Span { from: 0, to: 0 };
    }
    if loaded::tests_in(packed) {
        return span;
    }
    if !enter(
        loaded::slot_in(packed),
        n,
        span,
        set,
        progress.work,
        &mut progress.seen,
    ) {
        return Span { from: 0, to: 0 };
    }
    match loaded::node_in(packed) {
        // ⊥, ⊤ and negations are tests alone, so never visited
        Node::Drop | Node::Id | Node::Neg(_) => span,
        Node::Field(action) => act(policy.sizes, action, span, set),
        Node::Dup => {
            spans::mark(progress.next, loaded::label_in(packed), span, set);
            spans::clear(set, span);
            Span { from: 0, to: 0 }
        }
        Node::Sum(l, r) => {
            if !lets_in(policy, r, span, set) {
                return through(policy, l, span, set, progress);
            }
            if !lets_in(policy, l, span, set) {
                return through(policy, r, span, set, progress);
            }
            let mut other = *set;
            let a = through(policy, l, span, set, progress);
            let b = through(policy, r, span, &mut other, progress);
            spans::join(set, a, &other, b)
        }
        Node::Seq(l, r) => {
            let a = through(policy, l, span, set, progress);
            if a.to <= a.from {
                return a;
            }
            through(policy, r, a, set, progress)
        }
        Node::Star(c) => {
            let mut delta = *set;
            let mut at = span;
            let mut out = span;
            loop {
                at = through(policy, c, at, &mut delta, progress);
                if !spans::note(progress.work, &mut progress.seen, n, at, &mut delta) {
                    return out;
                }
                out = spans::join(set, out, &delta, at);
            }
        }
    }
}

// Inner. Where what comes out of a part goes on at the node above it.
fn onward(node: Node, above: u16) -> u16
    ensures { result ≡ onward node above }
{
    match node {
        Node::Seq(_, r) => r,
        _ => above,
    }
}

// Inner. The whole policy from a packet: what comes out is added.
fn follow_whole(
    policy: &LoadedPolicy,
    packet: u16,
    span: Span,
    out: &mut PacketWords,
    progress: &mut Progress,
) -> Span
    requires { RemainderReady policy.now.sizes.now policy.now.nodes.now policy.now.tests.now packet span.from span.to out.old progress.old.work.now progress.old.seen progress.old.next.now }
    ensures stepped { RemainderStepped policy.now.sizes.now policy.now.nodes.now policy.now.tests.now 0 packet out.old progress.old.work.now progress.old.seen progress.old.next.now result.from result.to out.new progress.new.work.now progress.new.seen progress.new.next.now }
    ensures same_lists { SameLists progress.old progress.new }
{
    let mut set = packet_set::singleton(packet);
    let root = policy.nodes[512] as u16;
    let came = through(policy, root, spans::span_of(packet), &mut set, progress);
    spans::join(out, span, &set, came)
}

// Inner. What remains after dup i, from a packet: up from the dup to the root, through the second parts of sequences and through
// stars. What comes out is added.
fn follow_dup(
    policy: &LoadedPolicy,
    i: u32,
    packet: u16,
    span: Span,
    out: &mut PacketWords,
    progress: &mut Progress,
) -> Span
    requires { (0 < i) × (i < mask_bits) × RemainderReady policy.now.sizes.now policy.now.nodes.now policy.now.tests.now packet span.from span.to out.old progress.old.work.now progress.old.seen progress.old.next.now }
    ensures stepped { RemainderStepped policy.now.sizes.now policy.now.nodes.now policy.now.tests.now i packet out.old progress.old.work.now progress.old.seen progress.old.next.now result.from result.to out.new progress.new.work.now progress.new.seen progress.new.next.now }
    ensures same_lists { SameLists progress.old progress.new }
{
    let place = policy.nodes[512 + i as usize] as usize;
    if place == 512 {
        return span;
    }
    let mut set = packet_set::singleton(packet);
    let mut at = spans::span_of(packet);
    let mut n = place;
    loop {
        let above = loaded::up_in(policy.nodes[n]);
        if above == 512 {
            return spans::join(out, span, &set, at);
        }
        if at.to <= at.from {
            return span;
        }
        let target = onward(loaded::node_in(policy.nodes[above]), above as u16);
        at = through(policy, target, at, &mut set, progress);
        n = above;
    }
}

// Inner. One remainder from a packet, if the state marks it: 0 is the whole policy, i what remains after dup i.
fn follow(
    policy: &LoadedPolicy,
    state: Mask,
    i: u32,
    packet: u16,
    span: Span,
    out: &mut PacketWords,
    progress: &mut Progress,
) -> Span
    requires { (i < mask_bits) × RemainderReady policy.now.sizes.now policy.now.nodes.now policy.now.tests.now packet span.from span.to out.old progress.old.work.now progress.old.seen progress.old.next.now }
    ensures visited { Visited policy.now.sizes.now policy.now.nodes.now policy.now.tests.now state i packet out.old progress.old.work.now progress.old.seen progress.old.next.now result.from result.to out.new progress.new.work.now progress.new.seen progress.new.next.now }
    ensures same_lists { SameLists progress.old progress.new }
{
    if !packet_set::is_marked(state, i) {
        return span;
    }
    if i == 0 {
        return follow_whole(policy, packet, span, out, progress);
    }
    follow_dup(policy, i, packet, span, out, progress)
}

// Inner. One step of a state at a packet: the output is added to the set, whose span is answered, and the marks of next to the next list.
// The work list is 0 in its first 16,384 words before, and as it was after.
pub fn step(
    policy: &LoadedPolicy,
    state: Mask,
    packet: u16,
    span: Span,
    out: &mut PacketWords,
    next: &mut Next,
    work: &mut [u32],
) -> Span
    requires { StepReady policy.now.sizes.now policy.now.nodes.now policy.now.tests.now packet span.from span.to out.old work.old next.old }
    ensures { Stepped policy.now.sizes.now policy.now.nodes.now policy.now.tests.now state packet out.old next.old work.old result.from result.to out.new next.new work.new }
{
    let mut progress = Progress {
        work,
        seen: [0; 16],
        next,
    };
    let mut at = span;
    for i in 0..64 {
        if state >> i == 0 {
            break;
        }
        at = follow(policy, state, i, packet, at, out, &mut progress);
    }
    let seen = progress.seen;
    spans::unsee(progress.work, &seen);
    at
}
