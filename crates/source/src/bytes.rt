// Bytes of a source text, and runs of them.
ghost use Rattle.std.specs.Prelude.{◌≡◌, get_or};
ghost use Rattle.token_list.specs.Text.{name_part};
ghost use Rattle.source.specs.Bytes.{blank, in_doc, in_digits};
ghost use Rattle.source.specs.Contract.{in_class, RunEnd};

use token_list::text::{digit_worth, is_digit, is_name_start};

// The bytes that a run may have. `Digits` are those of this radix, and `_`.
#[derive(Clone, Copy, Debug, PartialEq, Eq)]
pub enum Class {
    Blank,
    Name,
    Line,
    Doc,
    Digits(usize),
}

// The byte at i, or 0 past the end.
pub fn byte_at(s: &[u8], i: usize) -> u8
    ensures { result ≡ get_or s.now i 0 }
{
    s.get(i).copied().unwrap_or(0)
}

#[tactic(auto, unfolding(crate::specs::Bytes::blank))]
pub fn is_blank(b: u8) -> bool
    ensures { result ≡ blank b }
{
    (9..=13).contains(&b) || b == b' '
}

fn is_name_part(b: u8) -> bool
    ensures { result ≡ name_part b }
{
    is_name_start(b) || is_digit(b)
}

#[tactic(auto, unfolding(crate::specs::Bytes::in_doc))]
fn is_in_doc(b: u8) -> bool
    ensures { result ≡ in_doc b }
{
    (b' '..=b'~').contains(&b) && b != b'"' && b != b'\\'
}

#[tactic(auto, unfolding(crate::specs::Bytes::in_digits))]
fn is_in_digits(radix: usize, b: u8) -> bool
    ensures { result ≡ in_digits radix b }
{
    b == b'_' || digit_worth(b) < radix
}

#[tactic(auto, unfolding(crate::specs::Bytes::in_line))]
fn is_in(class: Class, b: u8) -> bool
    ensures { result ≡ in_class class b }
{
    match class {
        Class::Blank => is_blank(b),
        Class::Name => is_name_part(b),
        Class::Line => b != b'\n',
        Class::Doc => is_in_doc(b),
        Class::Digits(radix) => is_in_digits(radix, b),
    }
}

// The first place from `from` on whose byte is not of the class, or the end.
pub fn run_end(s: &[u8], from: usize, class: Class) -> usize
    ensures { RunEnd (in_class class) s.now from result }
{
    // No chain: three proofs of `take_while` with a closure over `class` did not close.
    for i in from..s.len() {
        if !is_in(class, s[i]) {
            return i;
        }
    }
    from.max(s.len())
}
