// Bytes and texts: the classes of bytes, the worth of a digit, and the one comparison of a text with given bytes.
ghost use Rattle.std.specs.Prelude.{◌≡◌, ◌≤◌, reverse, length};
ghost use Rattle.std.specs.List.{list_all, position, zip};
ghost use Rattle.std.proofs.Math.Seq.{slice};
ghost use Rattle.token_list.specs.Text.{all, member, same, digit, name_start, punctuation, digit_worth};
ghost use Rattle.token_list.specs.Pairs.{unequal};
ghost use Rattle.token_list.specs.Contract.{in_text, TextEnd, ComparedAs};

pub fn is_digit(b: u8) -> bool
    ensures { result ≡ digit b }
{
    b.is_ascii_digit()
}

// What a byte is worth as a digit; 16 where it is none.
#[tactic(auto, unfolding(crate::specs::Text::digit_worth))]
pub fn digit_worth(b: u8) -> usize
    ensures value { result ≡ digit_worth b }
    ensures upper_bound { result ≤ 16 }
{
    match b {
        b'0'..=b'9' => usize::from(b - b'0'),
        b'A'..=b'F' => usize::from(b - b'A') + 10,
        b'a'..=b'f' => usize::from(b - b'a') + 10,
        _ => 16,
    }
}

// A letter or `_`. By ranges, small letters first: `is_ascii_alphabetic` takes twice as many instructions in the loops.
pub fn is_name_start(b: u8) -> bool
    ensures { result ≡ name_start b }
{
    (b'a'..=b'z').contains(&b) || (b'A'..=b'Z').contains(&b) || b == b'_'
}

// The punctuation from `!` to `@`, a bit for each, `!` the lowest.
const PUNCTUATION: u32 = 0xFE00_7E7D;

// By bits, so that it is short enough to be copied into each caller; by ranges it is not.
pub fn is_punctuation(b: u8) -> bool
    ensures { result ≡ punctuation b }
{
    match b {
        b'!'..=b'@' => (PUNCTUATION >> (b - b'!')) % 2 == 1,
        b'^' | b'|' | b'~' => true,
        _ => false,
    }
}

// Whether b may stand in a name, or else in a literal.
fn in_text(names: bool, b: u8) -> bool
    ensures { result ≡ in_text names b }
{
    if names {
        is_name_start(b) || is_digit(b)
    } else {
        (b' '..=b'~').contains(&b)
    }
}

// The first place from `from` on whose byte may not stand in a name, or else in a literal; past the
// end where there is none.
pub fn text_end(s: &[u8], from: usize, names: bool) -> usize
    ensures { TextEnd s.now names from result }
{
    for i in from..s.len() {
        if !in_text(names, s[i]) {
            return i;
        }
    }
    from.max(s.len())
}

// Whether each byte of a text may stand in a name, or else in a literal.
pub(crate) fn fits(text: &[u8], names: bool) -> bool
    ensures { result ≡ list_all (in_text names) text.now }
{
    text.iter().all(|&b| in_text(names, b))
}

// Whether each byte from start to end may stand in a name, or else in a literal.
pub fn all_fit(s: &[u8], start: usize, end: usize, names: bool) -> bool
    requires { end ≤ length s.now }
    ensures { result ≡ all (in_text names) (slice start end s.now) }
{
    end <= start || fits(&s[start..end], names)
}

// Whether b is one of the bytes of `set`.
pub fn is_one_of(b: u8, set: &[u8]) -> bool
    ensures { result ≡ member b set.now }
{
    set.iter().any(|&x| x == b)
}

// Two texts compared: whether they are the same, and how many pairs of bytes were looked at for it.
#[derive(Clone, Copy)]
pub struct Compared {
    pub same: bool,
    pub pairs: usize,
}

// How many pairs from the last on are equal, where an unequal one is before them.
fn equal_pairs(a: &[u8], b: &[u8]) -> Option<usize>
    ensures { result ≡ position unequal (zip (reverse a.now) (reverse b.now)) }
{
    a.iter().rev().zip(b.iter().rev()).position(|(x, y)| x != y)
}

// From the last byte to the first, since names in one firmware begin alike.
pub fn compare(a: &[u8], b: &[u8]) -> Compared
    ensures { ComparedAs a.now b.now result }
{
    if a.len() != b.len() {
        return Compared {
            same: false,
            pairs: 0,
        };
    }
    match equal_pairs(a, b) {
        Some(equal) => Compared {
            same: false,
            pairs: equal + 1,
        },
        None => Compared {
            same: true,
            pairs: a.len(),
        },
    }
}

// Whether the text from start to end, or to the list's end, is `name`.
pub fn text_is(s: &[u8], start: usize, end: usize, name: &[u8]) -> bool
    ensures { result ≡ same (slice start end s.now) name.now }
{
    let to = end.min(s.len());
    let from = start.min(to);
    compare(&s[from..to], name).same
}
