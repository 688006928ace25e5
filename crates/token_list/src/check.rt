// The list check: refusals 1 to 7, in document 01's order.
ghost use Rattle.std.specs.Prelude.{◌≡◌};
ghost use Rattle.token_list.specs.Contract.{start_of, Within, Walked, CheckedAs};

use crate::layout::{MAX_BYTES, MAX_DEPTH, MAX_ROWS, first_row, has_names, is_marked};
use crate::refusal;
use crate::row::{Line, Shape, closer, line_shape};

// The end mark: the place of a refusal that has no row.
pub const END: usize = 65535;

// Where a row of a list starts, and its number.
// Without the list, and `InList` is no invariant of it: each answer would have to say of each of its cursors that it is
// still of this list, which the one slice that is lent to all readers says of itself.
#[derive(Clone, Copy, Debug, PartialEq, Eq)]
pub struct Cursor {
    pub at: usize,
    pub row: usize,
}

// A refusal's number and place.
#[derive(Clone, Copy, Debug, PartialEq, Eq)]
pub struct Refusal {
    pub number: u8,
    pub place: usize,
}

// What the rows at one level end with: the list's end after so many rows, or a closing row with its delimiter and what
// comes after it. Neither is an error of its own: what is above says whether it fits.
#[derive(Clone, Copy)]
pub enum LevelEnd {
    End(usize),
    Close(u8, usize, usize),
}

// Follows the rows from `from` to the end of their level; `levels` more may open.
fn walk(s: &[u8], marked: bool, from: Cursor, levels: usize) -> Result<LevelEnd, Refusal>
    requires { Within s.now from }
    ensures { Walked marked s.now from levels result }
{
    let Cursor { mut at, mut row } = from;
    // By as many bytes as each row has, and by a group at once: no iterator goes so.
    while at < s.len() {
        if MAX_ROWS <= row {
            return Err(Refusal {
                number: refusal::TOO_MANY_ROWS,
                place: MAX_ROWS,
            });
        }
        let Some(Line { shape, next }) = line_shape(s, marked, at) else {
            return Err(Refusal {
                number: refusal::ROW_FORM,
                place: row,
            });
        };
        let below = row + 1;
        match shape {
            Shape::Plain => {
                at = next;
                row = below;
            }
            Shape::Closed(d) => {
                return Ok(LevelEnd::Close(d, row, next));
            }
            Shape::Opens(d) => {
                if levels == 0 {
                    return Err(Refusal {
                        number: refusal::TOO_DEEP,
                        place: row,
                    });
                }
                let inside = Cursor {
                    at: next,
                    row: below,
                };
                match walk(s, marked, inside, levels - 1)? {
                    LevelEnd::End(_) => {
                        return Err(Refusal {
                            number: refusal::UNCLOSED_GROUP,
                            place: row,
                        });
                    }
                    LevelEnd::Close(e, close, past) => {
                        if closer(d) != e {
                            return Err(Refusal {
                                number: refusal::UNMATCHED_CLOSE,
                                place: close,
                            });
                        }
                        at = past;
                        row = close + 1;
                    }
                }
            }
        }
    }
    Ok(LevelEnd::End(row))
}

// Where the first row starts.
pub fn start(s: &[u8]) -> Cursor
    ensures { result ≡ start_of s.now }
{
    Cursor {
        at: first_row(s),
        row: 0,
    }
}

// Checks a list: the number of its rows, or the first refusal.
pub fn check(s: &[u8]) -> Result<usize, Refusal>
    ensures { CheckedAs s.now result }
{
    if MAX_BYTES < s.len() {
        return Err(Refusal {
            number: refusal::TOO_LONG,
            place: END,
        });
    }
    if !has_names(s) {
        return Err(Refusal {
            number: refusal::LINE_OF_NAMES,
            place: END,
        });
    }
    match walk(s, is_marked(s), start(s), MAX_DEPTH)? {
        LevelEnd::End(rows) => Ok(rows),
        LevelEnd::Close(_, row, _) => Err(Refusal {
            number: refusal::UNMATCHED_CLOSE,
            place: row,
        }),
    }
}
