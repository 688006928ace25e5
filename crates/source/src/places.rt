// Where a row's text stands in the source, and the line and column of an offset.
ghost use Rattle.std.specs.Prelude.{◌≡◌, List, ℕ, Some, ◌<◌, length};
ghost use Rattle.source.specs.Piece as piece;
ghost use Rattle.source.specs.Contract.{PieceAs};
ghost use Rattle.source.specs.Place.{row_span};
ghost use Rattle.source.specs.Places.{row_count, span_in, span_at, LineColumn};

use crate::piece::{Piece, piece_at, piece_end};

// The first byte, and how many.
#[derive(Clone, Copy, Debug, PartialEq, Eq)]
pub struct Place {
    pub offset: usize,
    pub length: usize,
}

// A line and a column, each counted from 1; columns are bytes.
#[derive(Clone, Copy, Debug, PartialEq, Eq)]
pub struct Position {
    pub line: usize,
    pub column: usize,
}

// How many rows a piece has.
fn row_count(p: Piece) -> usize
    ensures { result ≡ row_count p }
{
    match p {
        Piece::Gap(_) => 0,
        Piece::Row(_, _) => 1,
        Piece::Lifetime(_) => 2,
        Piece::Doc(_) => 6,
    }
}

// Where row n of the piece p stands, which begins at i.
fn place_in(i: usize, p: Piece, n: usize) -> Place
    requires { (s : List ℕ) × (t : piece.Piece) × PieceAs s i t (Some p) }
    ensures { n < row_count p → span_at result ≡ span_in i p n }
{
    match p {
        Piece::Lifetime(_) if n == 0 => Place {
            offset: i,
            length: 1,
        },
        Piece::Lifetime(e) => Place {
            offset: i + 1,
            length: e - (i + 1),
        },
        Piece::Gap(e) | Piece::Row(_, e) | Piece::Doc(e) => Place {
            offset: i,
            length: e - i,
        },
    }
}

// Where the text of row `row` stands; of a row that the list does not have, the text's end.
pub fn row_place(s: &[u8], row: usize) -> Place
    ensures { span_at result ≡ row_span s.now row }
{
    let mut i = 0;
    let mut left = row;
    while let Some(p) = piece_at(s, i) {
        let rows = row_count(p);
        if left < rows {
            return place_in(i, p, left);
        }
        left -= rows;
        i = piece_end(p);
    }
    Place {
        offset: s.len(),
        length: 0,
    }
}

// The line and the column of an offset.
pub fn position_of(s: &[u8], offset: usize) -> Position
    ensures { LineColumn s.now offset result }
{
    let mut line = 1;
    let mut column = 1;
    for b in &s[..offset.min(s.len())] {
        if *b == b'\n' {
            line += 1;
            column = 1;
        } else {
            column += 1;
        }
    }
    Position { line, column }
}
