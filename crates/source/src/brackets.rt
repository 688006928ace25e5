// Brackets, matched at any depth. The kinds of the outermost open ones are kept in lent cells, four to a cell; the kind
// of one that stands deeper is found by reading the text again.
ghost use Rattle.std.specs.Prelude.{◌≡◌, true, List, [], ◌∷◌, ◌+◌, ◌≤◌, ◌<◌, length, drop};
ghost use Rattle.source.specs.Bytes.{opens};
ghost use Rattle.source.specs.Lex.{lex};
ghost use Rattle.source.specs.Brackets.{Open};
ghost use Rattle.source.specs.Contract.{piece_end};
ghost use Rattle.source.specs.Stack.{stack_to, InnermostAt, bits_of, delimiter_of, Held};
ghost use Rattle.source.specs.Stack.{Popped, DelimiterAt, Reached, StepAs, TurnedAs};

use crate::piece::{Piece, piece_at, piece_end};
use token_list::row::closer;

// Where the innermost of the brackets stands that are open at `end`, where they are `depth`: the last one before it
// with which so many were open.
pub fn innermost(s: &[u8], end: usize, depth: usize) -> usize
    requires end_in_bounds { end ≤ length s.now }
    requires s_len { length (stack_to end [] (lex s.now)) ≡ depth }
    requires depth_nonzero { 0 < depth }
    ensures { InnermostAt s.now end result }
{
    let mut i = 0;
    let mut count = 0;
    let mut found = 0;
    // By as many bytes as each piece has: no iterator goes so.
    while i < end {
        let Some(p) = piece_at(s, i) else {
            return found;
        };
        match p {
            Piece::Row(b'o', _) => {
                count += 1;
                if count == depth {
                    found = i;
                }
            }
            Piece::Row(b'c', _) => {
                count = count.saturating_sub(1);
            }
            _ => {}
        }
        i = piece_end(p);
    }
    found
}

// Two bits for the delimiter d.
fn bits_of(d: u8) -> u8
    ensures { result ≡ bits_of d }
{
    match d {
        b'(' => 0,
        b'[' => 1,
        _ => 2,
    }
}

// The delimiter of two bits.
fn delimiter_of(bits: u8) -> u8
    ensures { result ≡ delimiter_of bits }
{
    match bits {
        0 => b'(',
        1 => b'[',
        _ => b'{',
    }
}

// The delimiter d, over `depth` others.
fn push(cells: &mut [u8], depth: usize, d: u8)
    requires held { (os : List Open) × Held cells.old os × (length os ≡ depth) }
    requires d_value { opens d ≡ true }
    ensures { (os : List Open) (o : Open) → Held cells.old os → length os ≡ depth →
        o.delimiter ≡ d → Held cells.new (o ∷ os) }
{
    let cell = depth / 4;
    if cell < cells.len() {
        cells[cell] = cells[cell] * 4 + bits_of(d);
    }
}

// Takes the innermost delimiter, over `depth` others, out of the cells, if they hold it.
fn pop(cells: &mut [u8], depth: usize) -> Option<u8>
    ensures { (o : Open) (os : List Open) → Held cells.old (o ∷ os) → length os ≡ depth →
        Popped cells.new o os result }
{
    let cell = depth / 4;
    if cells.len() <= cell {
        return None;
    }
    let held = cells[cell];
    cells[cell] = held / 4;
    Some(delimiter_of(held % 4))
}

// The delimiter of the innermost of the `depth` brackets that are open at i: what the cells held, or else found again.
fn delimiter_at(s: &[u8], i: usize, depth: usize, held: Option<u8>) -> u8
    requires i_in_bounds { i ≤ length s.now }
    requires s_len { length (stack_to i [] (lex s.now)) ≡ depth }
    requires depth_nonzero { 0 < depth }
    ensures { DelimiterAt s.now i held result }
{
    match held {
        Some(d) => d,
        None => s[innermost(s, i, depth)],
    }
}

// How many brackets are open behind the piece p at i, where `depth` were open before; None at a close without its open.
pub fn turn(s: &[u8], cells: &mut [u8], i: usize, p: Piece, depth: usize) -> Option<usize>
    requires i_in_bounds { i < length s.now }
    requires step_as { StepAs s.now i p }
    requires reached { Reached s.now cells.old i depth }
    ensures { TurnedAs s.now cells.new i (piece_end p) result }
{
    match p {
        Piece::Row(b'o', _) => {
            push(cells, depth, s[i]);
            Some(depth + 1)
        }
        Piece::Row(b'c', _) => {
            if depth == 0 {
                return None;
            }
            let held = pop(cells, depth - 1);
            if closer(delimiter_at(s, i, depth, held)) != s[i] {
                return None;
            }
            Some(depth - 1)
        }
        _ => Some(depth),
    }
}
