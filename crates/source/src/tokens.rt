// The token list of a source text, written into a lent output.
ghost use Rattle.std.specs.Prelude.{◌≡◌, true, false, List, ℕ, ◌+◌, ◌<◌, Option, Some, None, length, get_or};
ghost use Rattle.token_list.specs.Layout.{MAX_DEPTH, OPEN};
ghost use Rattle.token_list.specs.Row.{written};
ghost use Rattle.token_list.specs.Rows.{list_of};
ghost use Rattle.output.specs.Contract.{Appended};
ghost use Rattle.source.specs.Piece as piece;
ghost use Rattle.source.specs.Lex.{lex};
ghost use Rattle.source.specs.Answer.{rows_of, answer};
ghost use Rattle.source.specs.Contract.{PieceAs};
ghost use Rattle.source.specs.Tokens.{doc_line_rows, piece_rows, depth_after, row_more, rows_more_lem};
ghost use Rattle.source.specs.Tokens.{ScannedAs, Fitted, TokensAs};
ghost use Rattle.source.specs.declared.tokens.SourceError.TheVariants.{Refused};

use crate::brackets::{innermost, turn};
use crate::piece::{Piece, past_piece, piece_at, piece_end};
use output::put::{append, append_row};
use token_list::buffer::zeroed;
use token_list::check::{END, Refusal};
use token_list::layout::{MAX_BYTES, MAX_DEPTH, MAX_ROWS, MAX_TEXT};
use token_list::refusal;

// Why a source text is refused: 40 at an offset of the text, or another refusal.
#[derive(Clone, Copy, Debug, PartialEq, Eq)]
pub enum SourceError {
    FaultAt(usize),
    Refused(Refusal),
}

impl From<Refusal> for SourceError {
    ghost from_gives = { λ r e. e ≡ Refused r };

    fn from(refusal: Refusal) -> SourceError {
        SourceError::Refused(refusal)
    }
}

// How much of a list there is: its rows, its bytes, and the groups that are open behind it.
#[derive(Clone, Copy, Debug, PartialEq, Eq)]
pub struct Size {
    pub rows: usize,
    pub bytes: usize,
    pub depth: usize,
}

// The groups that are open behind a row of this kind.
fn depth_after(kind: u8, depth: usize) -> usize
    requires { kind ≡ OPEN → depth < MAX_DEPTH }
    ensures { result ≡ depth_after kind depth }
{
    match kind {
        b'o' => depth + 1,
        b'c' => depth.saturating_sub(1),
        _ => depth,
    }
}

// One row more, of this kind, with a text of so many bytes; None where the list passes a limit.
fn row_more(measured: Option<Size>, kind: u8, text: usize) -> Option<Size>
    ensures { result ≡ row_more measured kind text }
{
    let size = measured?;
    if MAX_TEXT < text || MAX_ROWS <= size.rows || MAX_BYTES < size.bytes {
        return None;
    }
    let bytes = size.bytes + text + 3;
    if MAX_BYTES < bytes || kind == b'o' && MAX_DEPTH <= size.depth {
        return None;
    }
    Some(Size {
        rows: size.rows + 1,
        bytes,
        depth: depth_after(kind, size.depth),
    })
}

// The rows of a doc line whose literal has so many bytes.
fn doc_more(measured: Option<Size>, literal: usize) -> Option<Size>
    ensures { (t : List ℕ) → length t + 2 ≡ literal → result ≡ rows_more_lem measured (doc_line_rows t) }
{
    let hash = row_more(measured, b'p', 1);
    let group = row_more(hash, b'o', 1);
    let name = row_more(group, b'i', 3);
    let equals = row_more(name, b'p', 1);
    let text = row_more(equals, b'l', literal);
    row_more(text, b'c', 1)
}

// The rows of the piece p, which begins at i.
fn piece_more(measured: Option<Size>, i: usize, p: Piece) -> Option<Size>
    requires { (s : List ℕ) × (t : piece.Piece) × PieceAs s i t (Some p) }
    ensures { (s : List ℕ) (t : piece.Piece) → PieceAs s i t (Some p)
        → result ≡ rows_more_lem measured (piece_rows s i p) }
{
    match p {
        Piece::Gap(_) => measured,
        Piece::Row(kind, e) => row_more(measured, kind, e - i),
        Piece::Lifetime(e) => {
            let quote = row_more(measured, b'p', 1);
            row_more(quote, b'i', e - i - 1)
        }
        Piece::Doc(e) => doc_more(measured, e - i - 1),
    }
}

// The rows of a doc line, behind what stands in the list.
fn append_doc(list: &mut [u8], at: usize, text: &[u8]) -> usize
    ensures { Appended list.old list.new at result
        (written false (doc_line_rows text.now)) }
{
    let start = append(list, at, b"p #\no [\ni doc\np =\nl \"");
    let end = append(list, start, text);
    append(list, end, b"\"\nc ]\n")
}

// The rows of the piece p, which begins at i, behind what stands in the list.
fn append_piece(list: &mut [u8], at: usize, s: &[u8], i: usize, p: Piece) -> usize
    requires { (t : piece.Piece) × PieceAs s.now i t (Some p) }
    ensures { Appended list.old list.new at result
        (written false (piece_rows s.now i p)) }
{
    // Past the list's end nothing fits any more.
    if list.len() < at {
        return at;
    }
    match p {
        Piece::Gap(_) => at,
        Piece::Row(kind, e) => append_row(list, at, kind, &s[i..e]),
        Piece::Lifetime(e) => {
            let name = append_row(list, at, b'p', b"'");
            append_row(list, name, b'i', &s[i + 1..e])
        }
        Piece::Doc(e) => append_doc(list, at, &s[i + 3..e]),
    }
}

// The list of a text, where it fits; behind a fault nothing is read.
fn append_list(out: &mut [u8], s: &[u8]) -> usize
    ensures { Appended out.old out.new 0 result (list_of false (rows_of (lex s.now))) }
{
    let mut at = append(out, 0, b"kind text\n");
    let mut i = 0;
    while let Some(p) = piece_at(s, i) {
        at = append_piece(out, at, s, i, p);
        i = piece_end(p);
    }
    at
}

// One round over a text: its brackets are matched, and its rows are counted and written into `list`, which has them all
// where they fit. Answers how much the list is, or nothing where it passes a limit; or the offset of a fault. The cells
// are 0 at first.
pub fn scan(s: &[u8], cells: &mut [u8], list: &mut [u8]) -> Result<Option<Size>, usize>
    requires { (c : ℕ) → get_or cells.old c 0 ≡ 0 }
    ensures { ScannedAs s.now list.new result }
{
    let mut at = append(list, 0, b"kind text\n");
    let mut i = 0;
    let mut depth = 0;
    let mut measured = Some(Size {
        rows: 0,
        bytes: 10,
        depth: 0,
    });
    while let Some(p) = piece_at(s, i) {
        let Some(d) = turn(s, cells, i, p, depth) else {
            return Err(i);
        };
        depth = d;
        measured = piece_more(measured, i, p);
        at = append_piece(list, at, s, i, p);
        i = past_piece(s, p);
    }
    if i < s.len() {
        return Err(i);
    }
    if depth != 0 {
        let open = innermost(s, s.len(), depth);
        return Err(open);
    }
    Ok(measured)
}

// Whether a list of n bytes has room for what was found.
pub fn has_room(scanned: Result<Option<Size>, usize>, n: usize) -> bool
    ensures fitted { result ≡ true → Fitted scanned n }
    ensures whole { Fitted scanned n → result ≡ true }
{
    match scanned {
        Ok(Some(size)) => size.bytes <= n,
        _ => true,
    }
}

// Room for the kinds of 65,536 open brackets.
pub const CELLS: usize = 16384;

// A short text, room for its list in most cases, and for the kinds of as many brackets as it has: little, since all of
// it is set to 0 first.
pub const SHORT: usize = 1024;

pub const SHORT_LIST: usize = 4096;

pub const SHORT_CELLS: usize = 256;

// Writes the token list of a source text at the start of the output.
pub fn write_tokens(s: &[u8], out: &mut [u8]) -> Result<usize, SourceError>
    ensures { TokensAs out.old out.new
        (answer (length out.old) s.now) result }
{
    let mut kinds = zeroed::<CELLS>();
    // First without a list: on a refusal the output stays as it is.
    match scan(s, &mut kinds, &mut []) {
        Err(offset) => Err(SourceError::FaultAt(offset)),
        Ok(None) => Err(SourceError::Refused(Refusal {
            number: refusal::OVER_LIMIT,
            place: END,
        })),
        Ok(Some(size)) => {
            if out.len() < size.bytes {
                return Err(SourceError::Refused(Refusal {
                    number: refusal::SHORT_BUFFER,
                    place: END,
                }));
            }
            Ok(append_list(out, s))
        }
    }
}
