// A next list: the marks of each packet, and the packets that have some, so that a row costs its marked packets and not N. All functions
// here are inner.
#![tactic(auto)]

ghost use Rattle.std.specs.Prelude.{ℕ, ◌+◌, ◌*◌, ◌≤◌, ◌≡◌, ◌||◌, length};
ghost use Rattle.packet_set.specs.InnerMembers.{member};
ghost use Rattle.spans.specs.Spans.{touched};
ghost use Rattle.marks.specs.Marks.{Blank, Marking, Forgotten};

use packet_set::{Mask, PacketWords};

// The masks of 1,024 packets, then the set of those that are touched: 32 words, each in the lower half of an entry.
pub type Next = [Mask; 1056];

// Inner. The packets that have marks in one of two next lists.
pub fn either(left: &Next, right: &Next) -> PacketWords
    ensures { (γ : ℕ) → member result γ ≡ (touched left.now γ || touched right.now γ) }
{
    let mut set = [0; 32];
    for i in 0..32 {
        set[i] = ((left[1024 + i] | right[1024 + i]) % 4294967296) as u32;
    }
    set
}

// The masks of the 32 packets of one word become 0 where the word has them.
fn forget_word(next: &mut [Mask], start: usize, word: u32)
    requires { start + 32 ≤ length next.old }
    ensures { Forgotten start word next.old next.new }
{
    let mut rest = word;
    while rest != 0 {
        let b = rest.trailing_zeros() as usize;
        next[start + b] = 0;
        rest &= rest - 1;
    }
}

// Inner. All marks are forgotten: only what is touched is written.
pub fn forget(next: &mut Next, words: usize)
    requires words_bound { words ≤ 32 }
    requires marking { Marking (32 * words) next.old }
    ensures { Blank next.new }
{
    for i in 0..words {
        let word = (next[1024 + i] % 4294967296) as u32;
        next[1024 + i] = 0;
        forget_word(next, 32 * i, word);
    }
}
