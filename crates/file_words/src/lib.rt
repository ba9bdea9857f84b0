// The words of a names line: whether one can be new, and where one stands.
#![tactic(auto)]

ghost use Rattle.std.specs.Prelude.{◌≡◌, List, ℕ, ◌≤◌, length, ◌==◌, ◌||◌, if◌then◌else◌, nat_eq};
ghost use Rattle.std.specs.List.{filter, slice_split, starts_with};
ghost use Rattle.spec_orders.specs.Lists.{All, Distinct, elem};
ghost use Rattle.file_syntax.specs.RingFile.{alphabet, Name};
ghost use Rattle.file_syntax.specs.Words.{word_end, spaced, place_in};
ghost use Rattle.file_syntax.specs.Scanner.{room, is_new};

// Whether b may stand in a name.
pub fn letter(b: u8) -> bool
    ensures { result ≡ elem alphabet b }
{
    b.is_ascii_alphanumeric()
}

// Whether the begun name t can become a new name. x: the earlier names, a space after each.
pub fn has_room(x: &[u8], t: &[u8]) -> bool
    ensures { (ns : List (List ℕ)) → All Name ns → Distinct ns → x.now ≡ spaced ns → result ≡ room ns t.now }
{
    if t.len() < 7 {
        return true;
    }
    begin_with(x, t) < begun_so(t.len())
}

// How many of the parts of x, which is split at the spaces, begin with t.
fn begin_with(x: &[u8], t: &[u8]) -> usize
    ensures { result ≡ length (filter (λ part. starts_with nat_eq part t.now) (slice_split (λ b. b == 32) x.now)) }
{
    x.split(|b| *b == b' ')
        .filter(|part| part.starts_with(t))
        .count()
}

// How many names begin with the same so many bytes, 7 or more.
fn begun_so(bytes: usize) -> usize
    ensures { result ≡ (if bytes == 7 then 63 else (if bytes == 8 then 1 else 0)) }
{
    match bytes {
        7 => 63,
        8 => 1,
        _ => 0,
    }
}

// Whether w is a new name. x: the earlier names, a space after each.
pub fn is_new(x: &[u8], w: &[u8]) -> bool
    ensures { (ns : List (List ℕ)) → All Name ns → x.now ≡ spaced ns → result ≡ is_new ns w.now }
{
    w.len() != 0 && !x.split(|b| *b == b' ').any(|name| w == name)
}

// Whether b ends a word: a space or a line end.
fn ends_word(b: u8) -> bool
    ensures { result ≡ (b == 32) || (b == 10) }
{
    b == b' ' || b == b'\n'
}

// How many bytes stand before the first space or line end.
pub fn word_end(x: &[u8]) -> usize
    ensures { result ≡ word_end x.now }
{
    x.iter().position(|b| ends_word(*b)).unwrap_or(x.len())
}

// Where word number k, from 0, of the first line of x starts: after so many spaces. Past the last byte where there is no such word, as
// `place_in` says.
pub fn place(x: &[u8], k: usize) -> usize
    ensures { result ≡ place_in x.now k }
{
    let mut left = k;
    for (i, &b) in x.iter().enumerate() {
        if left == 0 {
            return i;
        }
        if b == b'\n' {
            return x.len() + 1;
        }
        if b == b' ' {
            left -= 1;
        }
    }
    if left == 0 { x.len() } else { x.len() + 1 }
}
