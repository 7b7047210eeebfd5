// Sets of packets as 32 words of 32 bits, and masks. All functions here are inner.
#![tactic(auto)]

ghost use Rattle.std.specs.Prelude.{◌≡◌, ◌+◌, ◌*◌, ◌<◌, ◌≤◌, length};
ghost use Rattle.packet_set.specs.Bits.{mask_bits, bit, marked, only_bits};
ghost use Rattle.packet_set.specs.InnerMembers.{member, words_for, empty_set, with_packet, union_of, exclusive_or_of, lowest_in};

pub type PacketWords = [u32; 32];

// A state: bit 0 stands for the whole policy, bit i for what remains after dup i.
pub type Mask = u64;

// Inner. The mask with bit i marked.
pub fn mark(mask: Mask, i: u32) -> Mask
    requires { i < mask_bits }
    ensures { result ≡ marked mask i }
{
    mask | (1 << i)
}

// Inner. Bit i is marked.
pub fn is_marked(mask: Mask, i: u32) -> bool
    requires { i < mask_bits }
    ensures { result ≡ bit mask i }
{
    (mask >> i) & 1 == 1
}

// Inner. The mask has only bits 0 to dups. (With all dups a shift by dups + 1 would be one by the width.)
pub fn in_range(mask: Mask, dups: u32) -> bool
    requires { dups < mask_bits }
    ensures { result ≡ only_bits mask dups }
{
    mask >> dups < 2
}

// Inner. How many words n packets need.
pub fn words_for(n: usize) -> usize
    requires { n ≤ 1024 }
    ensures { result ≡ words_for n }
{
    n.div_ceil(32)
}

// Inner.
pub fn empty() -> PacketWords
    ensures { result ≡ empty_set }
{
    [0; 32]
}

// Inner. Packet is in the set.
pub fn contains(set: &PacketWords, packet: u16) -> bool
    requires { packet < 1024 }
    ensures { result ≡ member set.now packet }
{
    let word = set[usize::from(packet / 32)];
    (word >> (packet % 32)) & 1 == 1
}

// Inner. The set takes the packet.
pub fn insert(set: &mut PacketWords, packet: u16)
    requires { packet < 1024 }
    ensures { set.new ≡ with_packet set.old packet }
{
    set[usize::from(packet / 32)] |= 1 << (packet % 32);
}

// Inner.
pub fn singleton(packet: u16) -> PacketWords
    requires { packet < 1024 }
    ensures { result ≡ with_packet empty_set packet }
{
    let mut set = empty();
    insert(&mut set, packet);
    set
}

// Inner. The first set becomes the union.
pub fn union(a: &mut PacketWords, b: &PacketWords, words: usize)
    requires { words ≤ 32 }
    ensures { a.new ≡ union_of words a.old b.now }
{
    for i in 0..words {
        a[i] |= b[i];
    }
}

// Inner. The first set becomes the exclusive or.
pub fn exclusive_or(a: &mut PacketWords, b: &PacketWords, words: usize)
    requires { words ≤ 32 }
    ensures { a.new ≡ exclusive_or_of words a.old b.now }
{
    for i in 0..words {
        a[i] ^= b[i];
    }
}

// Inner. The lowest packet in the words from start on: trailing zeros of the first of them that is not 0.
fn lowest_from(set: &[u32], start: usize, words: usize) -> Option<u16>
    requires { (words ≤ 32) × (words ≤ length set.now) }
    ensures { result ≡ lowest_in words (32 * start) set.now }
{
    for i in start..words {
        let word = set[i];
        if word != 0 {
            return Some(i as u16 * 32 + word.trailing_zeros() as u16);
        }
    }
    None
}

// Inner. The lowest packet in the first words.
pub fn lowest_member(set: &PacketWords, words: usize) -> Option<u16>
    requires { words ≤ 32 }
    ensures { result ≡ lowest_in words 0 set.now }
{
    lowest_from(set, 0, words)
}

// Inner. The lowest packet in the first words that is not below `from`: to walk a set, or a slot where it lies.
pub fn next_member(set: &[u32], from: u16, words: usize) -> Option<u16>
    requires { (words ≤ 32) × (words ≤ length set.now) }
    ensures { result ≡ lowest_in words from set.now }
{
    let start = usize::from(from / 32);
    if words <= start {
        return None;
    }
    let rest = set[start] >> (from % 32);
    if rest != 0 {
        return Some(from + rest.trailing_zeros() as u16);
    }
    lowest_from(set, start + 1, words)
}
