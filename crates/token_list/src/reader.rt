// A reader that holds the lent list and its own row: it goes through the rows one by one, right or not. Each function
// is thin over one on the slice and numbers.
ghost use Rattle.std.specs.Prelude.{◌≡◌, ◌≤◌};
ghost use Rattle.token_list.specs.Reader.{cursor_of, Shows, GoesOn};

use crate::check::Cursor;
use crate::row::line_end;

// The list, a row of it, and where that row starts.
#[derive(Clone, Copy)]
pub struct Reader<'a> {
    pub list: &'a [u8],
    pub row: usize,
    pub at: usize,
}

// The row that starts at `at`: its start, and its LF or the list's end; none where no row is left.
pub fn row_from(list: &[u8], at: usize) -> Option<(usize, usize)>
    ensures { Shows list.now at result }
{
    if list.len() <= at {
        return None;
    }
    Some((at, line_end(list, at).min(list.len())))
}

// The row after row `row`, which starts at `at`; where no row is left, it stays.
pub fn row_after(list: &[u8], row: usize, at: usize) -> Cursor
    requires { row ≤ at }
    ensures { GoesOn list.now (record { at = at; row = row }) result }
{
    if list.len() <= at {
        return Cursor { at, row };
    }
    let end = line_end(list, at);
    let next = if end < list.len() {
        end + 1
    } else {
        list.len()
    };
    Cursor {
        at: next,
        row: row + 1,
    }
}

// The reader's row.
pub fn peek<'a>(r: Reader<'a>) -> Option<(usize, usize)>
    ensures { Shows r.entry.list.now r.entry.at result }
{
    row_from(r.list, r.at)
}

// The reader at the next row; at the end it stays.
pub fn next<'a>(r: Reader<'a>) -> Reader<'a>
    requires { r.row ≤ r.at }
    ensures { (result.list ≡ r.entry.list)
        × GoesOn r.entry.list.now (cursor_of r.entry) (cursor_of result) }
{
    let c = row_after(r.list, r.row, r.at);
    Reader {
        list: r.list,
        row: c.row,
        at: c.at,
    }
}

// What a reader of the list shows at a row that starts at `at`, for those who hold a plain slice and numbers.
pub fn peek_at(list: &[u8], row: usize, at: usize) -> Option<(usize, usize)>
    ensures { Shows list.now at result }
{
    peek(Reader { list, row, at })
}

// Where a reader of the list goes on from a row that starts at `at`.
pub fn next_at(list: &[u8], row: usize, at: usize) -> Cursor
    requires { row ≤ at }
    ensures { GoesOn list.now (record { at = at; row = row }) result }
{
    let r = next(Reader { list, row, at });
    Cursor {
        at: r.at,
        row: r.row,
    }
}
