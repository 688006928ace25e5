// What stands at a place of a text: whitespace, a comment, a token.
ghost use Rattle.std.specs.Prelude.{◌≡◌, true, ℕ, ◌+◌, ◌-◌, ◌≤◌, ◌<◌, Some, length, drop, get_or};
ghost use Rattle.token_list.specs.Text.{name_start, name_part};
ghost use Rattle.source.specs.Bytes.{SLASH, blank};
ghost use Rattle.source.specs.Taken.{Taken, run};
ghost use Rattle.source.specs.Piece.{suffix, literal, raw_name, prefixed, word, lifetime_of, quote, line_comment};
ghost use Rattle.source.specs.Piece.{slash, single, piece};
ghost use Rattle.source.specs.Contract.{RunEnd, EndsTo, PieceAs, SuffixEnd, piece_end, found_end};

use crate::bytes::{Class, byte_at, is_blank, run_end};
use crate::comment::{block_comment_end, doc_line_end, is_outer_line};
use crate::number::number_end;
use crate::quoted::{character_end, string_end};
use token_list::row::is_never_raw;
use token_list::text::{is_digit, is_name_start, is_one_of, is_punctuation};

// A piece with where it ends: whitespace or a comment that vanishes; a row, with its kind as the byte that the list
// writes; a lifetime, two rows; a doc line, six rows.
#[derive(Clone, Copy, Debug, PartialEq, Eq)]
pub enum Piece {
    Gap(usize),
    Row(u8, usize),
    Lifetime(usize),
    Doc(usize),
}

// Past a literal's suffix.
fn suffix_end(s: &[u8], i: usize) -> usize
    ensures { SuffixEnd s.now i result }
{
    let b = byte_at(s, i);
    if !is_name_start(b) {
        return i;
    }
    let end = run_end(s, i, Class::Name);
    if b == b'_' && end - i == 1 {
        return i;
    }
    end
}

// The literal whose main part ends at e.
fn literal(s: &[u8], e: usize) -> Piece
    ensures { (i : ℕ) (t : Taken) → EndsTo s.now i t e →
        PieceAs s.now i (literal (drop i s.now) t) (Some result) }
{
    Piece::Row(b'l', suffix_end(s, e))
}

// A raw name, from its `r#` on.
fn raw_name(s: &[u8], i: usize) -> Option<Piece>
    requires { i + 2 ≤ length s.now }
    ensures { PieceAs s.now i
        (raw_name (run name_part (drop 2 (drop i s.now))) (drop i s.now)) result }
{
    let start = i + 2;
    if !is_name_start(byte_at(s, start)) {
        return None;
    }
    let end = run_end(s, start, Class::Name);
    if is_never_raw(s, start, end) {
        return None;
    }
    Some(Piece::Row(b'i', end))
}

// The name from i to end, with a byte directly behind that no name but a prefix may have there.
fn prefixed(s: &[u8], i: usize, end: usize) -> Option<Piece>
    requires i_lt_end { i < end }
    requires end_in_bounds { end < length s.now }
    ensures { PieceAs s.now i (prefixed (end - i) (drop i s.now)) result }
{
    if end - i != 1 {
        return None;
    }
    match (s[i], s[end]) {
        (b'b', b'"') => Some(literal(s, string_end(s, i + 2, true)?)),
        (b'b', b'\'') => Some(literal(s, character_end(s, i + 2, true)?)),
        (b'r', b'#') => raw_name(s, i),
        _ => None,
    }
}

// A name, a keyword, `_`; or what begins with a prefix.
fn word(s: &[u8], i: usize) -> Option<Piece>
    requires { name_start (get_or s.now i 0) ≡ true }
    ensures { PieceAs s.now i (word (drop i s.now)) result }
{
    let end = run_end(s, i, Class::Name);
    if is_one_of(byte_at(s, end), b"\"'#") {
        return prefixed(s, i, end);
    }
    Some(Piece::Row(b'i', end))
}

// What begins with `'` and is no character.
fn lifetime(s: &[u8], i: usize) -> Option<Piece>
    requires { i < length s.now }
    ensures { PieceAs s.now i
        (lifetime_of (run name_part (drop 1 (drop i s.now))) (drop i s.now)) result }
{
    let start = i + 1;
    if !is_name_start(byte_at(s, start)) {
        return None;
    }
    let end = run_end(s, start, Class::Name);
    if byte_at(s, end) == b'\'' {
        return None;
    }
    Some(Piece::Lifetime(end))
}

// What begins with `'`.
fn quote(s: &[u8], i: usize) -> Option<Piece>
    requires { i < length s.now }
    ensures { PieceAs s.now i (quote (drop i s.now)) result }
{
    match character_end(s, i + 1, false) {
        Some(e) => Some(literal(s, e)),
        None => lifetime(s, i),
    }
}

// What begins with `//`.
fn line_comment(s: &[u8], i: usize) -> Option<Piece>
    requires i_value { get_or s.now i 0 ≡ SLASH }
    requires i_value_2 { get_or s.now (i + 1) 0 ≡ SLASH }
    ensures { PieceAs s.now i (line_comment (drop i s.now)) result }
{
    if byte_at(s, i + 2) == b'!' {
        return None;
    }
    if !is_outer_line(s, i) {
        return Some(Piece::Gap(run_end(s, i, Class::Line)));
    }
    let end = doc_line_end(s, i)?;
    Some(Piece::Doc(end))
}

// What begins with `/`.
fn slash(s: &[u8], i: usize) -> Option<Piece>
    requires { get_or s.now i 0 ≡ SLASH }
    ensures { PieceAs s.now i (slash (drop i s.now)) result }
{
    match byte_at(s, i + 1) {
        b'/' => line_comment(s, i),
        b'*' => {
            let end = block_comment_end(s, i)?;
            Some(Piece::Gap(end))
        }
        _ => Some(Piece::Row(b'p', i + 1)),
    }
}

// A token of one byte.
fn single(s: &[u8], i: usize) -> Option<Piece>
    requires { i < length s.now }
    ensures { PieceAs s.now i (single (get_or s.now i 0)) result }
{
    let b = s[i];
    if is_one_of(b, b"([{") {
        return Some(Piece::Row(b'o', i + 1));
    }
    if is_one_of(b, b")]}") {
        return Some(Piece::Row(b'c', i + 1));
    }
    if is_punctuation(b) {
        return Some(Piece::Row(b'p', i + 1));
    }
    None
}

// What stands at i; None where that is no token, or one that is postponed, and at the text's end.
pub fn piece_at(s: &[u8], i: usize) -> Option<Piece>
    ensures { PieceAs s.now i (piece (drop i s.now)) result }
{
    if s.len() <= i {
        return None;
    }
    let b = s[i];
    if is_blank(b) {
        return Some(Piece::Gap(run_end(s, i, Class::Blank)));
    }
    if is_name_start(b) {
        return word(s, i);
    }
    if is_digit(b) {
        let end = number_end(s, i)?;
        return Some(literal(s, end));
    }
    match b {
        b'"' => Some(literal(s, string_end(s, i + 1, false)?)),
        b'\'' => quote(s, i),
        b'/' => slash(s, i),
        _ => single(s, i),
    }
}

// Where the piece p ends.
pub fn piece_end(p: Piece) -> usize
    ensures { result ≡ piece_end p }
{
    match p {
        Piece::Gap(e) | Piece::Row(_, e) | Piece::Lifetime(e) | Piece::Doc(e) => e,
    }
}

// Where what was found at a place ends; behind a fault nothing is read.
pub fn found_end(s: &[u8], found: Option<Piece>) -> usize
    ensures { result ≡ found_end s.now found }
{
    match found {
        Some(p) => piece_end(p),
        None => s.len(),
    }
}

// Past what was found and the whitespace behind it.
pub fn past_found(s: &[u8], found: Option<Piece>) -> usize
    ensures { RunEnd blank s.now (found_end s.now found) result }
{
    run_end(s, found_end(s, found), Class::Blank)
}

// Past the piece p and the whitespace behind it.
pub fn past_piece(s: &[u8], p: Piece) -> usize
    ensures { RunEnd blank s.now (piece_end p) result }
{
    run_end(s, piece_end(p), Class::Blank)
}
