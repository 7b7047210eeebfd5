// Packet sets with the span of words that they may occupy: a set of few packets costs few words, however many packets there are.
// Sets side by side in a list: slot n is the 32 words from word 32 n on. All functions here are inner.
#![tactic(auto)]

ghost use Rattle.std.specs.Prelude.{ℕ, ◌<◌, ◌≤◌, ◌≡◌, false, ◌&&◌, ◌||◌, T, length};
ghost use Rattle.packet_set.specs.Bits.{mask_bits};
ghost use Rattle.packet_set.specs.InnerMembers.{member, empty_set, with_packet};
ghost use Rattle.spans.specs.Spans.{slot, Spanned, Rewritten, cleared_word, marked_entry, Hull, Holds, Left, Noted, GotMark, Unseen};

use packet_set::{Mask, PacketWords};

// The words `from` to `to` - 1 of a set; its other words are 0.
#[derive(Clone, Copy)]
pub struct Span {
    pub from: usize,
    pub to: usize,
}

// Inner. The span of one packet.
pub fn span_of(packet: u16) -> Span
    requires { packet < 1024 }
    ensures { Spanned result.from result.to (with_packet empty_set packet) }
{
    let at = usize::from(packet / 32);
    Span {
        from: at,
        to: at + 1,
    }
}

// Inner. The span of two sets together.
pub fn hull(a: Span, b: Span) -> Span
    ensures { Hull a.from a.to b.from b.to result.from result.to }
{
    if b.to <= b.from {
        return a;
    }
    if a.to <= a.from {
        return b;
    }
    Span {
        from: a.from.min(b.from),
        to: a.to.max(b.to),
    }
}

// Inner. Has the set a packet that slot k of the tests has? (`false` says that it has none.)
pub fn meets(tests: &[u32; 8224], k: usize, span: Span, set: &PacketWords) -> bool
    requires { (k ≤ 256) × Spanned span.from span.to set.now }
    ensures { result ≡ false → (γ : ℕ) → (member set.now γ && slot tests.now k γ) ≡ false }
{
    let base = 32 * k;
    (span.from..span.to).any(|i| set[i] & tests[base + i] != 0)
}

// Inner. The set keeps the packets that slot k of the tests has; is any left?
pub fn keep(tests: &[u32; 8224], k: usize, span: Span, set: &mut PacketWords) -> bool
    requires { (k ≤ 256) × Spanned span.from span.to set.old }
    ensures { Holds span.from span.to set.new (λ γ. member set.old γ && slot tests.now k γ) × Left result set.new }
{
    let base = 32 * k;
    let mut any = false;
    for i in span.from..span.to {
        let word = set[i] & tests[base + i];
        set[i] = word;
        any |= word != 0;
    }
    any
}

// Inner. Slot n of the work list takes the set, and node n is seen; what was not there before stays in the set. Is anything new?
pub fn note(
    work: &mut [u32],
    seen: &mut [u32; 16],
    n: u16,
    span: Span,
    set: &mut PacketWords,
) -> bool
    requires { (n < 512) × (16384 ≤ length work.old) × (length seen.old ≡ 16) × Spanned span.from span.to set.old }
    ensures { Noted n span.from span.to work.old seen.old set.old result work.new seen.new set.new }
{
    seen[usize::from(n / 32)] |= 1 << (n % 32);
    let base = 32 * usize::from(n);
    let mut any = false;
    for i in span.from..span.to {
        let old = work[base + i];
        let new = set[i];
        let fresh = new & !old;
        work[base + i] = old | new;
        set[i] = fresh;
        any |= fresh != 0;
    }
    any
}

// Inner. The packets of word i of a set get the mark.
fn mark_word(next: &mut [Mask; 1056], label: u32, i: usize, word: u32)
    requires { (label < mask_bits) × (i < 32) × (length next.old ≡ 1056) }
    ensures { Rewritten (marked_entry next.old label i word) next.old next.new }
{
    let start = 32 * i;
    let mut rest = word;
    while rest != 0 {
        let at = start + rest.trailing_zeros() as usize;
        next[at] = packet_set::mark(next[at], label);
        rest &= rest - 1;
    }
}

// Inner. Each packet of the set gets the mark.
pub fn mark(next: &mut [Mask; 1056], label: u32, span: Span, set: &PacketWords)
    requires { (label < mask_bits) × (length next.old ≡ 1056) × Spanned span.from span.to set.now }
    ensures { GotMark label set.now next.old next.new }
{
    for i in span.from..span.to {
        let word = set[i];
        next[1024 + i] |= Mask::from(word);
        mark_word(next, label, i, word);
    }
}

// Inner. The first set becomes the union; its span.
pub fn join(a: &mut PacketWords, in_a: Span, b: &PacketWords, in_b: Span) -> Span
    requires { Spanned in_a.from in_a.to a.old × Spanned in_b.from in_b.to b.now }
    ensures { Holds result.from result.to a.new (λ γ. member a.old γ || member b.now γ) }
{
    for i in in_b.from..in_b.to {
        a[i] |= b[i];
    }
    hull(in_a, in_b)
}

// Inner. The set becomes empty.
pub fn clear(set: &mut PacketWords, span: Span)
    requires { Spanned span.from span.to set.old }
    ensures { set.new ≡ empty_set }
{
    for i in span.from..span.to {
        set[i] = 0;
    }
}

// Inner. The words of slot n become 0.
fn clear_slot(work: &mut [u32], n: usize)
    requires { (n < 512) × (16384 ≤ length work.old) }
    ensures { Rewritten (cleared_word work.old n) work.old work.new }
{
    let start = 32 * n;
    work[start..start + 32].fill(0);
}

// Inner. The slots of the nodes that were seen become 0.
pub fn unsee(work: &mut [u32], seen: &[u32; 16])
    requires { (16384 ≤ length work.old) × ((m γ : ℕ) → T (slot work.old m γ) → m < 512 → T (member seen.now m)) }
    ensures { Unseen work.old work.new }
{
    let mut from = 0;
    while let Some(n) = packet_set::next_member(seen, from, 16) {
        clear_slot(work, usize::from(n));
        from = n + 1;
    }
}
