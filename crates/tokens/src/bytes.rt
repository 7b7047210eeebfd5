// Classes of bytes, by ranges of the byte. All functions here are inner.
ghost use Rattle.std.specs.Prelude.{◌≡◌};
ghost use Rattle.fields.specs.Bytes.{is_blank, in_word};
ghost use Rattle.grammar.specs.Tokens.{is_double};

// Inner: space or tab.
#[tactic(auto, unfolding(fields::specs::Bytes::is_blank))]
pub fn is_blank(b: u8) -> bool
    ensures { result ≡ is_blank b }
{
    b == b' ' || b == b'\t'
}

// Inner: whether a word can have the byte.
#[tactic(auto, using(crate::proofs::WordLaws::or_turn), unfolding(fields::specs::Bytes::in_word, fields::specs::Bytes::is_letter, fields::specs::Bytes::is_capital, fields::specs::Bytes::is_small, fields::specs::Bytes::is_digit))]
pub fn in_word(b: u8) -> bool
    ensures { result ≡ in_word b }
{
    b.is_ascii_alphanumeric()
}

// Inner: whether two bytes are one mark.
#[tactic(auto, unfolding(grammar::specs::Tokens::is_double))]
pub fn is_double(b: u8, after: u8) -> bool
    ensures { result ≡ is_double b after }
{
    (b == b'!' && after == b'=') || (b == b'<' && after == b'-')
}
