// The rows of a list: each with its role, or those near a refusal's place.
ghost use Rattle.std.specs.Prelude.{◌≡◌, length};
ghost use Rattle.std.specs.Iterator.{YieldsFirstRef, item_count};
ghost use Rattle.token_list.specs.Layout.{first_row};
ghost use Rattle.token_list.specs.Reader.{bytes_from, AtRow, cursor_of};
ghost use Rattle.output.specs.Writes.{Writes};
ghost use Rattle.explanation.specs.Explanation.{role_line, role_rows, sign, near, near_line, near_rows};

use crate::row::{put_column, put_row};
use crate::words::put_role;
use output::writer::Writer;
use token_list::check::END;
use token_list::layout::first_row;
use token_list::reader::{Reader, next, peek};

// A well-formed row has at most so many bytes.
pub const MAX_ROW_BYTES: usize = 259;

// How many bytes of a row are shown where a list is refused.
pub const CUT: usize = 255;

// The rows of a list from a reader's on, right or not, each without its LF.
#[derive(Drop)]
struct Rows<'a> {
    reader: Reader<'a>,
    ghost counted: { AtRow reader.list.now (cursor_of reader) },
}

impl<'a> Iterator for Rows<'a> {
    type Item = &'a [u8];

    ghost next_gives = { YieldsFirstRef (λ s. bytes_from s.reader.list.now s.reader.at) };

    ghost remaining = { item_count (λ s. bytes_from s.reader.list.now s.reader.at) };

    fn next(&mut self) -> Option<&'a [u8]> {
        let (start, end) = peek(self.reader)?;
        let row = &self.reader.list[start..end];
        self.reader = next(self.reader);
        Some(row)
    }
}

// Those of a whole list.
fn rows_of(list: &[u8]) -> Rows<'_>
    ensures { bytes_from result.reader.list.now result.reader.at ≡ bytes_from list.now (first_row list.now) }
{
    Rows {
        reader: Reader {
            list,
            row: 0,
            at: first_row(list),
        },
    }
}

// How many rows begin in the list.
pub fn count_rows(list: &[u8]) -> usize
    ensures { result ≡ length (bytes_from list.now (first_row list.now)) }
{
    rows_of(list).count()
}

// A row's number, its role in words, its kind and its text.
fn put_role_line(w: &mut Writer, row: &[u8], n: usize, role: u8)
    ensures { Writes w.old w.new (role_line n role row.now) }
{
    put_column(w, n);
    w.bytes(b"  ");
    put_role(w, role);
    put_row(w, row, MAX_ROW_BYTES);
    w.byte(b'\n');
}

// A line for each role and the row that it is of.
pub fn put_roles(w: &mut Writer, list: &[u8], roles: &[u8])
    ensures { Writes w.old w.new (role_rows 0 roles.now (bytes_from list.now (first_row list.now))) }
{
    for (n, (row, role)) in rows_of(list).zip(roles).enumerate() {
        put_role_line(w, row, n, *role);
    }
}

// Whether row n of `count` is shown for a refusal at `place`: two rows before it, itself, and two after; for the end
// sign the last three.
fn is_near(place: usize, count: usize, n: usize) -> bool
    ensures { result ≡ near place count n }
{
    if place == END {
        count.saturating_sub(n) <= 3
    } else {
        place.abs_diff(n) <= 2
    }
}

fn put_sign(w: &mut Writer, place: usize, n: usize)
    ensures { Writes w.old w.new (sign place n) }
{
    w.bytes(if n == place { b"> " } else { b"  " });
}

// A row's number and its first bytes, with a sign where it is the place.
fn put_near_line(w: &mut Writer, row: &[u8], n: usize, place: usize)
    ensures { Writes w.old w.new (near_line place n row.now) }
{
    put_sign(w, place, n);
    put_column(w, n);
    w.bytes(b"  ");
    put_row(w, row, CUT);
    w.byte(b'\n');
}

// The rows near a place.
pub fn put_near(w: &mut Writer, list: &[u8], place: usize)
    ensures { Writes w.old w.new
        (near_rows place (length (bytes_from list.now (first_row list.now))) 0
        (bytes_from list.now (first_row list.now))) }
{
    let count = count_rows(list);
    for (n, row) in rows_of(list).enumerate() {
        if is_near(place, count, n) {
            put_near_line(w, row, n, place);
        }
    }
}
