// What a text means (document 01, "Text"): tokens, grammar, reading, the order of its causes. Definitions and laws, the tokens, and the type of
// the answer.
#![tactic(auto)]

use packet::Refusal;

// What reading a text says: the number of its nodes, or a refusal.
pub type Answer = Result<usize, Refusal>;

// drop, id and dup.
#[derive(Clone, Copy, PartialEq, Eq)]
pub enum Constant {
    Drop,
    Id,
    Dup,
}

// =, != and <-.
#[derive(Clone, Copy, PartialEq, Eq)]
pub enum Comparison {
    Equal,
    Different,
    Assigned,
}

// What a text is made of; bad is a byte at which no token starts, or a word that is none of the words of a text.
#[derive(Clone, Copy, PartialEq, Eq)]
pub enum Token {
    Keyword(Constant),
    Field(u16),
    Number(u16),
    Operator(Comparison),
    Plus,
    Semicolon,
    Asterisk,
    Opening,
    Closing,
    Exclamation,
    Bad,
}
