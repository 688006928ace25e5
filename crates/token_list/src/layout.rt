// The numbers of a token list: its names, offsets and limits. Who reads a list asks here for its columns.
ghost use Rattle.std.specs.Prelude.{◌≡◌, ◌<◌, length};
ghost use Rattle.token_list.specs.Layout.{NAMES_DIFFER, marked, first_row, text_offset};
ghost use Rattle.token_list.specs.Check.{named};

use crate::text::text_is;

// The first byte in which the two lines of names differ.
const NAMES_DIFFER: usize = 5;

// Whether the list has a column of marks, where it has one of the two lines of names.
pub fn is_marked(s: &[u8]) -> bool
    ensures { result ≡ marked s.now }
{
    NAMES_DIFFER < s.len() && has_marks(s)
}

// The same of a list that is long enough, as every one with a line of names is: a bound and no type, since it is asked
// of slices that callers lend.
#[tactic(auto, unfolding(crate::specs::Layout::marked))]
pub fn has_marks(s: &[u8]) -> bool
    requires { NAMES_DIFFER < length s.now }
    ensures { result ≡ marked s.now }
{
    s[NAMES_DIFFER] == b'j'
}

// Where the first row starts, past the line of names.
pub fn first_row(s: &[u8]) -> usize
    ensures { result ≡ first_row s.now }
{
    if is_marked(s) { 16 } else { 10 }
}

// Where a row's mark stands, past its kind and a space.
pub const MARK: usize = 2;

// Where the text starts in a row: past its kind and a space, and with marks its mark and a space.
pub const TEXT: usize = 2;

pub const MARKED_TEXT: usize = 4;

pub fn text_offset(marked: bool) -> usize
    ensures { result ≡ text_offset marked }
{
    if marked { MARKED_TEXT } else { TEXT }
}

// The bytes of a row whose text is one byte, without marks and with; no row has fewer.
pub const SHORT_ROW: usize = 4;

pub const SHORT_MARKED_ROW: usize = 6;

// Whether the list begins with its line of names.
pub fn has_names(s: &[u8]) -> bool
    ensures { result ≡ named s.now }
{
    let end = first_row(s);
    if is_marked(s) {
        text_is(s, 0, end, b"kind joint text\n")
    } else {
        text_is(s, 0, end, b"kind text\n")
    }
}

// The most that a list may have: bytes, rows, and groups open at once; and bytes in a row's text.
pub const MAX_BYTES: usize = 65536;

pub const MAX_ROWS: usize = 4096;

pub const MAX_DEPTH: usize = 32;

pub const MAX_TEXT: usize = 255;
