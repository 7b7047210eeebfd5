// Words: drop, id, dup, names of fields, and numbers.
ghost use Rattle.std.specs.Prelude.{◌≡◌, ◌≤◌, length};
ghost use Rattle.fields.specs.Names.{field_named, names_in};
ghost use Rattle.grammar.specs.Tokens.{leading_zero, number_token, field_token, word_token};
ghost use Rattle.tokens.specs.Inner.{number_from};

use fields::names::find;
use grammar::{Constant, Token};

// Inner: the value of the digits, where they are digits and make at most 65,535.
pub fn number_from(w: &[u8]) -> Option<u16>
    ensures { result ≡ number_from 0 w.now }
{
    let mut n: u32 = 0;
    for b in w {
        if !b.is_ascii_digit() {
            return None;
        }
        n = n * 10 + u32::from(*b - b'0');
        if n > 65535 {
            return None;
        }
    }
    Some(n as u16)
}

// Inner: whether the word begins with a zero that it does not consist of.
#[tactic(auto, unfolding(grammar::specs::Tokens::leading_zero))]
pub fn leading_zero(w: &[u8]) -> bool
    ensures { result ≡ leading_zero w.now }
{
    w.len() > 1 && w[0] == b'0'
}

fn number(w: &[u8]) -> Token
    ensures { result ≡ number_token w.now }
{
    if leading_zero(w) {
        return Token::Bad;
    }
    match number_from(w) {
        Some(n) => Token::Number(n),
        None => Token::Bad,
    }
}

fn field_or_number(names: &[u8], w: &[u8]) -> Token
    requires { length names.now ≤ 128 }
    ensures { result ≡ field_token (field_named (names_in names.now) w.now) w.now }
{
    match find(names, w) {
        Some(f) => Token::Field(f as u16),
        None => number(w),
    }
}

// Inner: the token of a word, over at most eight names in cells.
#[tactic(auto, unfolding(grammar::specs::Tokens::word_token))]
pub fn word_token(names: &[u8], w: &[u8]) -> Token
    requires { length names.now ≤ 128 }
    ensures { result ≡ word_token (names_in names.now) w.now }
{
    if w == b"drop".as_slice() {
        return Token::Keyword(Constant::Drop);
    }
    if w == b"id".as_slice() {
        return Token::Keyword(Constant::Id);
    }
    if w == b"dup".as_slice() {
        return Token::Keyword(Constant::Dup);
    }
    field_or_number(names, w)
}
