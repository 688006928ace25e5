// What a line of a list is as a row.
ghost use Rattle.std.specs.Prelude.{◌≡◌, false, cond, Some, IfSome, [], ◌∷◌, ◌+◌, ◌≤◌, ◌<◌, length};
ghost use Rattle.std.proofs.Math.Seq.{slice};
ghost use Rattle.token_list.specs.Text.{name, plain_name, raw_name, never_raw, literal, literal_start, closer};
ghost use Rattle.token_list.specs.Row.{plain, wrong, form_of, mark_fits};
ghost use Rattle.token_list.specs.Contract.{LineEnd, RowShaped, ColumnShaped, shape_form, token};
ghost use Rattle.token_list.specs.Contract.{one_byte_lem, mark_stands_lem, TokenEnd};

use crate::layout::{MARK, MARKED_TEXT, MAX_TEXT, SHORT_ROW, TEXT};
use crate::text::{fits, is_digit, is_name_start, is_one_of, is_punctuation, text_end, text_is};

// What a row is: a token, or a group's opening or closing row with its delimiter.
#[derive(Clone, Copy)]
pub enum Shape {
    Plain,
    Opens(u8),
    Closed(u8),
}

// A row, and where the next line starts.
#[derive(Clone, Copy)]
pub struct Line {
    pub shape: Shape,
    pub next: usize,
}

// Where the first LF at or after `from` stands; past the end where there is none.
pub fn line_end(s: &[u8], from: usize) -> usize
    ensures { LineEnd s.now from result }
{
    for i in from..s.len() {
        if s[i] == b'\n' {
            return i;
        }
    }
    from.max(s.len())
}

// What closes a group that d opens.
pub fn closer(d: u8) -> u8
    ensures { result ≡ closer d }
{
    match d {
        b'(' => b')',
        b'[' => b']',
        b'{' => b'}',
        _ => d,
    }
}

fn plain_name(text: &[u8]) -> bool
    ensures { result ≡ plain_name text.now }
{
    match text {
        [first, rest @ ..] => is_name_start(*first) && fits(rest, true),
        [] => false,
    }
}

pub fn is_plain_name(s: &[u8], start: usize, end: usize) -> bool
    requires { end ≤ length s.now }
    ensures { result ≡ plain_name (slice start end s.now) }
{
    start < end && plain_name(&s[start..end])
}

// One test a name: of a match on the texts three ways were tried, and the proof of its default did not close.
pub fn is_never_raw(s: &[u8], start: usize, end: usize) -> bool
    requires { end ≤ length s.now }
    ensures { result ≡ never_raw (slice start end s.now) }
{
    text_is(s, start, end, b"crate")
        || text_is(s, start, end, b"self")
        || text_is(s, start, end, b"super")
        || text_is(s, start, end, b"Self")
        || text_is(s, start, end, b"_")
}

fn is_name(text: &[u8]) -> bool
    ensures { result ≡ name text.now }
{
    match text {
        [b'r', b'#', rest @ ..] => plain_name(rest) && !is_never_raw(rest, 0, rest.len()),
        _ => plain_name(text),
    }
}

fn starts_literal(b: u8) -> bool
    ensures { result ≡ literal_start b }
{
    is_digit(b) || is_one_of(b, b"\"'bcr")
}

fn is_literal(text: &[u8]) -> bool
    ensures { result ≡ literal text.now }
{
    match text {
        [first, ..] => starts_literal(*first) && fits(text, false),
        [] => false,
    }
}

// Whether a text that is not of one byte makes a row of this kind: a token.
#[tactic(auto, unfolding(crate::specs::Row::form_of))]
fn is_token(kind: u8, text: &[u8]) -> bool
    requires { length text.now ≡ 1 → ⊥ }
    ensures { cond result plain wrong ≡ form_of kind text.now }
{
    match kind {
        b'i' => is_name(text),
        b'l' => is_literal(text),
        _ => false,
    }
}

// What a row of this kind is whose text is the one byte b; None where it is no row.
#[tactic(auto, using(crate::proofs::Forms::literal_byte), unfolding(crate::specs::Row::form_of))]
fn byte_shape(kind: u8, b: u8) -> Option<Shape>
    ensures { shape_form result ≡ form_of kind (b ∷ []) }
{
    match kind {
        b'i' if is_name_start(b) => Some(Shape::Plain),
        b'l' if starts_literal(b) => Some(Shape::Plain),
        b'p' if is_punctuation(b) => Some(Shape::Plain),
        b'o' if is_one_of(b, b"([{0") => Some(Shape::Opens(b)),
        b'c' if is_one_of(b, b")]}0") => Some(Shape::Closed(b)),
        _ => None,
    }
}

// Where the line after the token starts whose text is at `start`, where each byte of it after the first may stand in a
// name, or else in a literal.
fn token_end(s: &[u8], start: usize, names: bool) -> Option<usize>
    requires { start < length s.now }
    ensures { IfSome result (λ n. TokenEnd s.now names start n) }
{
    let end = text_end(s, start + 1, names);
    if end < s.len() && s[end] == b'\n' && end <= start + MAX_TEXT {
        Some(end + 1)
    } else {
        None
    }
}

// What stands before a row's text ends with a column and a space: the column of the mark, or without marks
// that of the kind. From there on rows are alike with either names.

// Whether a space and a text of one byte stand behind the column at `column`.
fn one_byte(s: &[u8], column: usize) -> bool
    requires { column ≤ length s.now }
    ensures { result ≡ one_byte_lem s.now column }
{
    column + SHORT_ROW <= s.len() && s[column + 1] == b' ' && s[column + 3] == b'\n'
}

// Where the line after the name or literal behind `column` starts, where one look at each byte tells it, as of most.
fn quick_token(s: &[u8], kind: u8, column: usize) -> Option<usize>
    requires { column ≤ length s.now }
    ensures { IfSome result (λ n. ColumnShaped kind s.now column (token (Some n))) }
{
    let start = column + TEXT;
    if s.len() < column + SHORT_ROW || s[column + 1] != b' ' {
        return None;
    }
    match kind {
        b'i' if is_name_start(s[start]) => token_end(s, start, true),
        b'l' if starts_literal(s[start]) => token_end(s, start, false),
        _ => None,
    }
}

// The same of any token but one whose text is one byte. A call, since few rows come here, and each level of the list
// check's walk would have its locals on the stack.
#[inline(never)]
fn long_token(s: &[u8], kind: u8, column: usize) -> Option<usize>
    requires column_in_bounds { column ≤ length s.now }
    requires column_value { one_byte_lem s.now column ≡ false }
    ensures { ColumnShaped kind s.now column (token result) }
{
    let start = column + TEXT;
    if s.len() < start || s[column + 1] != b' ' {
        return None;
    }
    let end = line_end(s, start);
    if end < s.len() && end - start <= MAX_TEXT && is_token(kind, &s[start..end]) {
        Some(end + 1)
    } else {
        None
    }
}

// The row of this kind whose last column is at `column`.
fn column_line(s: &[u8], kind: u8, column: usize) -> Option<Line>
    requires { column ≤ length s.now }
    ensures { ColumnShaped kind s.now column result }
{
    if one_byte(s, column) {
        return Some(Line {
            shape: byte_shape(kind, s[column + TEXT])?,
            next: column + SHORT_ROW,
        });
    }
    let next = match quick_token(s, kind, column) {
        Some(next) => next,
        None => long_token(s, kind, column)?,
    };
    Some(Line {
        shape: Shape::Plain,
        next,
    })
}

// Whether j is a mark that a row of this kind may have: 0, or of punctuation 1.
fn mark_fits(kind: u8, j: u8) -> bool
    ensures { result ≡ mark_fits kind j }
{
    j == b'0' || kind == b'p' && j == b'1'
}

// Whether a kind, a space and a mark that fits stand at `at`, before another byte.
fn mark_stands(s: &[u8], at: usize) -> bool
    requires { at < length s.now }
    ensures { result ≡ mark_stands_lem s.now at }
{
    MARKED_TEXT <= s.len() - at && s[at + 1] == b' ' && mark_fits(s[at], s[at + MARK])
}

// The row at `at`; None where the line there is none.
pub fn line_shape(s: &[u8], marked: bool, at: usize) -> Option<Line>
    requires { at < length s.now }
    ensures { RowShaped marked s.now at result }
{
    let column = if !marked {
        at
    } else if mark_stands(s, at) {
        at + MARK
    } else {
        return None;
    };
    // One call, so that it is short enough to be copied into the walk.
    column_line(s, s[at], column)
}
