// Reading a list row by row: the token at a cursor, and the way past a group.
ghost use Rattle.std.specs.Prelude.{◌≡◌, true, false, ◌+◌, ◌^◌, ◌<◌, length, drop};
ghost use Rattle.token_list.specs.Layout.{PUNCT, NAMES_DIFFER};
ghost use Rattle.token_list.specs.Row.{mark_fits, mark_of};
ghost use Rattle.token_list.specs.Stream.{at, starts_punct};
ghost use Rattle.token_list.specs.Contract.{RightRows, RowEnd, InList, Looked, TokenAt, LeafAt, stands};
ghost use Rattle.token_list.specs.Contract.{deeper, skipped};

use crate::check::Cursor;
use crate::layout::{MARK, MARKED_TEXT, SHORT_MARKED_ROW, SHORT_ROW, TEXT, has_marks, text_offset};

// A row: its kind, its mark, the last byte of its text (a punctuation's byte, a group's delimiter: theirs is
// found with the row's end, whichever names the list has), where its text starts and ends, and where the next
// row starts. The kind is the list's own byte, as `TokenAt` says, and not an enum: it would be made anew at each row.
#[derive(Clone, Copy)]
pub struct Token {
    pub kind: u8,
    pub joint: bool,
    pub byte: u8,
    pub start: usize,
    pub end: usize,
    pub next: usize,
}

#[derive(Clone, Copy)]
pub struct Glance {
    pub kind: u8,
    pub first: u8,
}

// What stands at a cursor: nothing more in this stream, a token, or a group's opening row. Three cases of one match,
// and no Option of two, since most readers treat each apart.
#[derive(Clone, Copy)]
pub enum Peeked {
    Nothing,
    Leaf(Token),
    Group(Token),
}

// The kind of the row at c and the first byte of its text; 0 and 0 where the stream ends, so that one comparison tells
// a kind from another and from the end. The text is not looked through.
pub fn look(s: &[u8], c: Cursor) -> Glance
    requires { InList s.now c }
    ensures { Looked s.now c.at result }
{
    if s.len() <= c.at || s[c.at] == b'c' {
        return Glance { kind: 0, first: 0 };
    }
    Glance {
        kind: s[c.at],
        first: s[c.at + text_offset(has_marks(s))],
    }
}

// Where the row at `at` ends, at its LF. A kind, a space and a byte of text stand before it.
fn row_end(s: &[u8], at: usize) -> usize
    requires right_rows { RightRows s.now at }
    requires at_in_bounds { at < length s.now }
    requires in_bounds { NAMES_DIFFER < length s.now }
    ensures { RowEnd s.now at result }
{
    // A row stands here, so an LF is ahead: a `while` needs no look for the list's end at each byte, as a `for` has.
    let mut i = at + TEXT + 1;
    while s[i] != b'\n' {
        i += 1;
    }
    i
}

// The mark of the row at `at`: its column, or where there is none, whether it is a `'`.
fn mark(s: &[u8], marked: bool, at: usize) -> bool
    requires { at + 2 < length s.now }
    ensures { result ≡ mark_of marked (drop at s.now) }
{
    if marked {
        s[at + MARK] == b'1'
    } else {
        s[at] == b'p' && s[at + TEXT] == b'\''
    }
}

// The row at `at`, of any kind.
pub fn token_at(s: &[u8], at: usize) -> Token
    requires right_rows { RightRows s.now at }
    requires at_in_bounds { at < length s.now }
    requires in_bounds { NAMES_DIFFER < length s.now }
    ensures { TokenAt s.now at result }
{
    let end = row_end(s, at);
    let marked = has_marks(s);
    Token {
        kind: s[at],
        joint: mark(s, marked, at),
        byte: s[end - 1],
        start: at + text_offset(marked),
        end,
        next: end + 1,
    }
}

pub fn peek(s: &[u8], c: Cursor) -> Peeked
    requires { InList s.now c }
    ensures { stands s.now c.at result }
{
    if s.len() <= c.at {
        return Peeked::Nothing;
    }
    match s[c.at] {
        b'c' => Peeked::Nothing,
        b'o' => Peeked::Group(token_at(s, c.at)),
        _ => Peeked::Leaf(token_at(s, c.at)),
    }
}

// Whether the punctuation b stands at c. It is looked for first where it stands without marks; no mark is taken
// for it there.
pub fn has_punct(s: &[u8], c: Cursor, b: u8) -> bool
    requires in_list { InList s.now c }
    requires b_value { mark_fits PUNCT b ≡ false }
    ensures { result ≡ starts_punct b (at s.now c.at).here }
{
    if s.len() <= c.at || s[c.at] != b'p' {
        return false;
    }
    s[c.at + TEXT] == b || has_marks(s) && s[c.at + MARKED_TEXT] == b
}

// The punctuation b at c, where it was found: its text is one byte, so its end is not looked for.
pub fn punct_at(s: &[u8], c: Cursor, b: u8) -> Token
    requires in_list { InList s.now c }
    requires b_value { mark_fits PUNCT b ≡ false }
    requires at_value { starts_punct b (at s.now c.at).here ≡ true }
    ensures { LeafAt s.now c.at result }
{
    let size = if s[c.at + TEXT] == b {
        SHORT_ROW
    } else {
        SHORT_MARKED_ROW
    };
    let next = c.at + size;
    Token {
        kind: b'p',
        joint: mark(s, has_marks(s), c.at),
        byte: b,
        start: next - 2,
        end: next - 1,
        next,
    }
}

// How many groups are open after a row of this kind.
fn deeper(kind: u8, depth: usize) -> usize
    requires { (0 < depth) × (depth + 1 < 2 ^ 64) }
    ensures { result ≡ deeper kind depth }
{
    match kind {
        b'o' => depth + 1,
        b'c' => depth - 1,
        _ => depth,
    }
}

// Past the closing row of the group that c stands in, or to the end of the rows where it is in none.
pub fn skip(s: &[u8], c: Cursor) -> Cursor
    requires { InList s.now c }
    ensures { skipped (at s.now c.at).outer s.now c result }
{
    let Cursor { mut at, mut row } = c;
    let mut depth = 1;
    // By as many bytes as each row has: no iterator goes so.
    while 0 < depth && at < s.len() {
        depth = deeper(s[at], depth);
        at = row_end(s, at) + 1;
        row += 1;
    }
    Cursor { at, row }
}
