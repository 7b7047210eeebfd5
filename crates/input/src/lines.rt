// Lines of the input.
ghost use Rattle.std.specs.Prelude.{◌≡◌, suc, [], ◌∷◌, ◌<◌, length, get_or, drop, MatchOption};
ghost use Rattle.input.specs.Lines.{is_cr, lines_of};
ghost use Rattle.input.specs.Input.{malformed, asked_by_lines};

// The four lines of an input: its tables and its texts.
#[derive(Clone, Copy)]
pub struct Lines<'a> {
    pub left_table: &'a [u8],
    pub right_table: &'a [u8],
    pub left: &'a [u8],
    pub right: &'a [u8],
}

// Whether the byte is a CR before an LF.
fn cr_at(input: &[u8], at: usize) -> bool
    requires { at < length input.now }
    ensures { result ≡ is_cr (get_or input.now at 0) (drop (suc at) input.now) }
{
    if at + 1 == input.len() {
        return false;
    }
    input[at] == 13 && input[at + 1] == 10
}

// The first line and what stands behind its end, if there is a byte.
fn next_line(input: &[u8]) -> Option<(&[u8], &[u8])>
    ensures { MatchOption result (lines_of input.now ≡ []) (λ l. lines_of input.now ≡ l.0.now ∷ lines_of l.1.now) }
{
    for (i, b) in input.iter().enumerate() {
        if *b == 10 {
            return Some((&input[..i], &input[i + 1..]));
        }
        if cr_at(input, i) {
            return Some((&input[..i], &input[i + 2..]));
        }
    }
    if input.is_empty() {
        return None;
    }
    Some((input, &[]))
}

// Inner: the four lines of the input, if it has just four.
pub fn four_lines(input: &[u8]) -> Option<Lines<'_>>
    ensures { MatchOption result (asked_by_lines (lines_of input.now) ≡ malformed) (λ l. lines_of input.now ≡ l.left_table.now ∷ l.right_table.now ∷ l.left.now ∷ l.right.now ∷ []) }
{
    let (left_table, rest) = next_line(input)?;
    let (right_table, rest) = next_line(rest)?;
    let (left, rest) = next_line(rest)?;
    let (right, rest) = next_line(rest)?;
    if !rest.is_empty() {
        return None;
    }
    Some(Lines {
        left_table,
        right_table,
        left,
        right,
    })
}
