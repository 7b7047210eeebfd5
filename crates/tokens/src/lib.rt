// Tokens of a text, one at a time, as the reader asks for them. All functions here are inner.
#![tactic(auto)]

mod bytes;
pub mod words;

ghost use Rattle.std.specs.Prelude.{◌≡◌, true, false, cond, List, ℕ, ◌+◌, ◌≤◌, ◌<◌, length, get_or, drop};
ghost use Rattle.fields.specs.Bytes.{in_word};
ghost use Rattle.fields.specs.Names.{names_in};
ghost use Rattle.grammar.specs.Tokens.{word_of, is_double, mark_token};
ghost use Rattle.tokens.specs.Inner.{Skipped, FrontAt, TokenFrom};

use grammar::{Comparison, Token};

// A token, with the byte at which it starts and the byte after it.
#[derive(Clone, Copy)]
pub struct Placed {
    pub token: Token,
    pub start: usize,
    pub next: usize,
}

// The first byte from one on that is no blank, or the end. (Inlined: see `token_from`.)
#[inline(always)]
fn skip(text: &[u8], at: usize) -> usize
    requires { at ≤ length text.now }
    ensures { Skipped text.now at result }
{
    for i in at..text.len() {
        if !bytes::is_blank(text[i]) {
            return i;
        }
    }
    text.len()
}

fn word_end(text: &[u8], at: usize) -> usize
    requires { at ≤ length text.now }
    ensures { result ≡ at + length (word_of (drop at text.now)) }
{
    for i in at..text.len() {
        if !bytes::in_word(text[i]) {
            return i;
        }
    }
    text.len()
}

// The word at a byte. (Not inlined: `token_from` would bring it to each of its callers.)
#[inline(never)]
fn word_at(names: &[u8], text: &[u8], at: usize) -> Placed
    requires { (length names.now ≤ 128) × (at < length text.now) × (in_word (get_or text.now at 0) ≡ true) }
    ensures { FrontAt (names_in names.now) text.now at result }
{
    let next = word_end(text, at);
    Placed {
        token: words::word_token(names, &text[at..next]),
        start: at,
        next,
    }
}

// The mark that a byte is on its own. By three ranges: of a chain of four tests the compiler makes a table.
#[tactic(auto, unfolding(grammar::specs::Tokens::mark_token, grammar::specs::Tokens::begins_double, grammar::specs::Tokens::double_mark, grammar::specs::Tokens::single_mark))]
fn lone(b: u8) -> Token
    ensures { result ≡ mark_token b 0 }
{
    if b < b'*' {
        if b == b'!' {
            return Token::Exclamation;
        }
        if b == b'(' {
            return Token::Opening;
        }
        if b == b')' {
            return Token::Closing;
        }
        return Token::Bad;
    }
    if b < b';' {
        if b == b'*' {
            return Token::Asterisk;
        }
        if b == b'+' {
            return Token::Plus;
        }
        return Token::Bad;
    }
    if b == b';' {
        return Token::Semicolon;
    }
    if b == b'=' {
        return Token::Operator(Comparison::Equal);
    }
    Token::Bad
}

// The mark at a byte, which the next byte may be a part of. (Inlined: see `token_from`.)
#[inline(always)]
fn mark_at(text: &[u8], at: usize) -> Placed
    requires { (at < length text.now) × (in_word (get_or text.now at 0) ≡ false) }
    ensures { (names : List (List ℕ)) → FrontAt names text.now at result }
{
    let b = text[at];
    let after = text.get(at + 1).copied().unwrap_or(0);
    if !bytes::is_double(b, after) {
        return Placed {
            token: lone(b),
            start: at,
            next: at + 1,
        };
    }
    let comparison = if b == b'!' {
        Comparison::Different
    } else {
        Comparison::Assigned
    };
    Placed {
        token: Token::Operator(comparison),
        start: at,
        next: at + 2,
    }
}

// Inner: the first token from a byte on, if there is one, over at most eight names in cells. (Inlined but for words: to hand a mark over
// takes longer than to read it.)
#[inline(always)]
pub fn token_from(names: &[u8], text: &[u8], at: usize) -> Option<Placed>
    requires { (length names.now ≤ 128) × (at ≤ length text.now) }
    ensures { TokenFrom (names_in names.now) text.now at result }
{
    let start = skip(text, at);
    if text.len() <= start {
        return None;
    }
    if bytes::in_word(text[start]) {
        return Some(word_at(names, text, start));
    }
    Some(mark_at(text, start))
}
