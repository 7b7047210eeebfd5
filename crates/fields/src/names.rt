// Names in cells of 16 bytes: a length, then so many bytes. All functions here are inner.
ghost use Rattle.std.specs.Prelude.{◌≡◌, ◌==◌, not, ◌&&◌, ◌||◌, ◌/◌, length, bytes_eq};
ghost use Rattle.packet.specs.Lowest.{lowest};
ghost use Rattle.fields.specs.Names.{field_named, cell_name, names_in, is_named, is_constant, all_small_or_digit, well_formed, bad_name};

// Inner: the name in a cell; a length over 15 is no name's.
pub fn name_in(cell: &[u8]) -> &[u8]
    requires { 16 ≡ length cell.now }
    ensures { result.now ≡ cell_name cell.now }
{
    let n = usize::from(cell[0]);
    if 15 < n {
        return &cell[..0];
    }
    &cell[1..n + 1]
}

// Inner: the first cell that holds the word as its name.
pub fn find(cells: &[u8], w: &[u8]) -> Option<usize>
    ensures { result ≡ field_named (names_in cells.now) w.now }
{
    for f in 0..cells.len() / 16 {
        let at = f * 16;
        if w == name_in(&cells[at..at + 16]) {
            return Some(f);
        }
    }
    None
}

// Inner: whether the word is one of the names.
pub fn is_named(cells: &[u8], w: &[u8]) -> bool
    ensures { result ≡ is_named (names_in cells.now) w.now }
{
    find(cells, w).is_some()
}

// Whether the bytes are small letters and digits.
fn all_small_or_digit(w: &[u8]) -> bool
    ensures { result ≡ all_small_or_digit w.now }
{
    for b in w {
        if !b.is_ascii_lowercase() && !b.is_ascii_digit() {
            return false;
        }
    }
    true
}

// Inner: whether the word is small letters and digits, a letter first.
pub fn well_formed(w: &[u8]) -> bool
    ensures { result ≡ well_formed w.now }
{
    match w.split_first() {
        Some((first, rest)) => first.is_ascii_lowercase() && all_small_or_digit(rest),
        None => false,
    }
}

// Inner: whether the word is drop, id or dup.
pub fn is_constant(w: &[u8]) -> bool
    ensures { result ≡ is_constant w.now }
{
    w == b"drop".as_slice() || w == b"id".as_slice() || w == b"dup".as_slice()
}

// Inner: whether a word after these names is bad: malformed, drop, id or dup, or one of them.
pub fn is_bad(earlier: &[u8], w: &[u8]) -> bool
    ensures { result ≡ (not (well_formed w.now) || is_constant w.now || is_named (names_in earlier.now) w.now) }
{
    !well_formed(w) || is_constant(w) || is_named(earlier, w)
}

// Inner: the first name that is bad.
pub fn first_bad(cells: &[u8]) -> Option<usize>
    ensures { result ≡ lowest (bad_name (names_in cells.now)) (length cells.now / 16) }
{
    for i in 0..cells.len() / 16 {
        let at = i * 16;
        if is_bad(&cells[..at], name_in(&cells[at..at + 16])) {
            return Some(i);
        }
    }
    None
}
