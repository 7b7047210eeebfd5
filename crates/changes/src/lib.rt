// One field is changed in each packet of a set: of few packets one by one, of many packets by words. All functions here are inner.
#![tactic(auto)]

ghost use Rattle.std.specs.Prelude.{◌≡◌, ◌+◌, ◌-◌, ◌*◌, ◌/◌, ◌%◌, ◌≤◌, ◌<◌, length};
ghost use Rattle.spans.specs.Spans.{Spanned};
ghost use Rattle.changes.specs.Changes.{Changing, Changed, Added};
ghost use Rattle.changes.specs.Folding.{JoinedWord, Window, Padded, Gathered, Masked, Folded};

use packet_set::PacketWords;
use spans::Span;

// Inner. The packet with one field changed, by the field's stride and size; `goal` is what the new value comes to.
fn landing(packet: u16, stride: u16, size: u16, goal: u16) -> u16
    requires { (0 < stride) × (0 < size) × (packet < 1024) × (goal < 1024) }
    ensures { result ≡ packet - packet / stride % size * stride + goal }
{
    let old = packet / stride % size * stride;
    packet - old + goal
}

// Inner. The set takes the packet; its span.
fn add(set: &mut PacketWords, span: Span, packet: u16) -> Span
    requires { (packet < 1024) × Spanned span.from span.to set.old }
    ensures { Added packet set.old result.from result.to set.new }
{
    packet_set::insert(set, packet);
    let w = usize::from(packet) / 32;
    spans::hull(span, Span { from: w, to: w + 1 })
}

// Inner. `change`, packet by packet.
fn walk(sizes: &[u16], field: u16, value: u16, span: Span, set: &mut PacketWords) -> Span
    requires { Changing sizes.now field value span.from span.to set.old }
    ensures { Changed sizes.now field value set.old result.from result.to set.new }
{
    let start = span.from;
    let words = span.to;
    if words <= start {
        return span;
    }
    let at = usize::from(field);
    let stride = packet::stride_of(sizes, at);
    let size = sizes[at];
    let goal = value * stride;
    let before = *set;
    spans::clear(set, span);
    let mut out = Span { from: 0, to: 0 };
    let mut from = 32 * (start as u16);
    while let Some(alpha) = packet_set::next_member(&before, from, words) {
        out = add(set, out, landing(alpha, stride, size, goal));
        from = alpha + 1;
    }
    out
}

// Inner. The 32 bits of two words from bit b of the first on.
fn joined(low: u32, high: u32, b: u32) -> u32
    requires { b < 32 }
    ensures { JoinedWord low high b result }
{
    let both = u64::from(high) * 4294967296 + u64::from(low);
    ((both >> b) % 4294967296) as u32
}

// Inner. The 32 bits from bit `at` on.
fn bits_from(pad: &[u32; 96], at: usize) -> u32
    requires { at < 3040 }
    ensures { Window pad.now at result }
{
    let w = at / 32;
    joined(pad[w], pad[w + 1], (at % 32) as u32)
}

// Inner. The set between words of 0, so that what lies before it can be asked for.
fn padded(set: &PacketWords) -> [u32; 96]
    ensures { Padded set.now result }
{
    let mut pad = [0u32; 96];
    pad[32..64].copy_from_slice(set);
    pad
}

// Inner. The 32 bits from `at` on, and those from each stride on, as many as the field has values.
fn gather(pad: &[u32; 96], at: usize, stride: usize, size: usize) -> u32
    requires { (0 < stride) × (at + size * stride ≤ 3040) }
    ensures { Gathered pad.now at stride size result }
{
    let mut word = 0;
    for u in 0..size {
        word |= bits_from(pad, at + u * stride);
    }
    word
}

// Inner. What is gathered at `at` and in the mask; where the mask is 0 nothing need be gathered.
fn masked(pad: &[u32; 96], at: usize, stride: usize, size: usize, mask: u32) -> u32
    requires { (0 < stride) × (at + size * stride ≤ 3040) }
    ensures { Masked pad.now at stride size mask result }
{
    if mask == 0 {
        0
    } else {
        gather(pad, at, stride, size) & mask
    }
}

// Inner. The first words of the set become what is gathered there and in the mask.
fn fill(
    pad: &[u32; 96],
    mask: &PacketWords,
    words: usize,
    at: usize,
    stride: usize,
    size: usize,
    set: &mut PacketWords,
)
    requires { (words ≤ 32) × (at ≤ 1024) × (0 < stride) × (size * stride ≤ 1024) × (length set.old ≡ 32) }
    ensures { Folded pad.now mask.now words at stride size set.old set.new }
{
    for i in 0..words {
        set[i] = masked(pad, at + 32 * i, stride, size, mask[i]);
    }
}

// Inner. `change`, by words: the packets with the value that are so many strides away from a member as its value is from the new one.
fn fold(sizes: &[u16], field: u16, value: u16, span: Span, set: &mut PacketWords) -> Span
    requires { Changing sizes.now field value span.from span.to set.old }
    ensures { Changed sizes.now field value set.old result.from result.to set.new }
{
    let at = usize::from(field);
    let stride = packet::stride_of(sizes, at);
    let size = sizes[at];
    let goal = value * stride;
    let count = packet::stride_of(sizes, 0) * sizes[0];
    let mask = loaded::sets::with_value(sizes, count, field, value);
    let pad = padded(set);
    spans::clear(set, span);
    let words = packet_set::words_for(usize::from(count));
    fill(
        &pad,
        &mask,
        words,
        1024 - usize::from(goal),
        usize::from(stride),
        usize::from(size),
        set,
    );
    Span { from: 0, to: words }
}

// Inner. How many members the word has.
fn members_in(word: u32) -> u32
    ensures { result ≤ 32 }
{
    if word == 0 { 0 } else { word.count_ones() }
}

// Inner. Has the set more than `few` members?
fn more_than(set: &PacketWords, span: Span, few: u32) -> bool
    requires { (span.to ≤ 32) × (few ≤ 1024) }
{
    let mut count = 0;
    for i in span.from..span.to {
        count += members_in(set[i]);
        if few < count {
            return true;
        }
    }
    false
}

// Inner. How many shifts a word costs: one for each value, or fewer where the stride leaves most masks 0.
fn shifts_of(stride: u32, size: u32) -> u32
    requires { 0 < stride }
    ensures { result ≤ 32 }
{
    size.min(31 / stride + 1)
}

// Inner. So many members cost as much one by one as all words do.
fn fair_share(words: u32, shifts: u32) -> u32
    requires { (words ≤ 32) × (shifts ≤ 32) }
    ensures { result ≤ 1024 }
{
    words * shifts / 4 + 8
}

// Inner. Is it cheaper to go by words? The set is counted no further than it takes to tell.
fn by_words(sizes: &[u16], field: u16, value: u16, span: Span, set: &PacketWords) -> bool
    requires { Changing sizes.now field value span.from span.to set.now }
{
    if !more_than(set, span, 8) {
        return false;
    }
    let at = usize::from(field);
    let stride = packet::stride_of(sizes, at);
    let count = packet::stride_of(sizes, 0) * sizes[0];
    let words = packet_set::words_for(usize::from(count));
    let shifts = shifts_of(u32::from(stride), u32::from(sizes[at]));
    more_than(set, span, fair_share(words as u32, shifts))
}

// Inner. The set becomes the packets that the change makes of its members; its span.
pub fn change(sizes: &[u16], field: u16, value: u16, span: Span, set: &mut PacketWords) -> Span
    requires { Changing sizes.now field value span.from span.to set.old }
    ensures { Changed sizes.now field value set.old result.from result.to set.new }
{
    if by_words(sizes, field, value, span, set) {
        fold(sizes, field, value, span, set)
    } else {
        walk(sizes, field, value, span, set)
    }
}
