// A variant's value: where its text stands, and that text.
ghost use Rattle.std.specs.Prelude.{◌≡◌, true, List, ℕ, ◌≤◌, length, Ok};
ghost use Rattle.std.proofs.Math.Seq.{slice};
ghost use Rattle.token_list.specs.Layout.{first_row, MAX_BYTES};
ghost use Rattle.token_list.specs.Stream.{at};
ghost use Rattle.token_list.specs.Place.{OneRefusal};
ghost use Rattle.token_list.specs.Contract.{InList, start_of};
ghost use Rattle.output.specs.Writes.{Writes};
ghost use Rattle.reading.specs.Token.{MAX_I64, negatable, worth};
ghost use Rattle.reading.specs.Declaration.{Value, Variant, Body};
ghost use Rattle.reading.specs.Took.{Point};
ghost use Rattle.reading.specs.Reading.{every, variant, body_of, item};
ghost use Rattle.reading.specs.Place.{start, inside, variant_at, value_row};
ghost use Rattle.reading.specs.Answer.{read_number};
ghost use Rattle.parse.specs.Contract.{point, kind_of, InsideAt, ValueOf};
ghost use Rattle.describe.specs.Value.{SCRATCH_BYTES, negative_text, value_at, body_value, value_answer, item_answer};
ghost use Rattle.describe.specs.Value.{refused, answer};
ghost use Rattle.describe.specs.Contract.{ValueAs, Placed, part_of};

use output::writer::Writer;
use parse::data_type::DataType;
use parse::item::{ItemAt, item};
use parse::utils::{Next, past};
use parse::variants::{ValueAt, variant};
use token_list::check::{Cursor, END, Refusal, check, start};
use token_list::layout::MAX_ROWS;
use token_list::refusal;
use token_list::stream::{Peeked, peek};

// The scratch must have so many bytes, enough for every list.
pub const SCRATCH_BYTES: usize = 20;

// Where a value's text stands: from one place of the list to another, or in so many bytes at the start of the scratch.
#[derive(Clone, Copy)]
pub enum ValuePlace {
    InList(usize, usize),
    InScratch(usize),
}

// The worth of a text of digits.
pub fn worth(s: &[u8], start: usize, end: usize) -> usize
    requires end_in_bounds { end ≤ length s.now }
    requires s_value { negatable (slice start end s.now) ≡ true }
    ensures value { result ≡ worth (slice start end s.now) }
    ensures upper_bound { result ≤ MAX_I64 }
{
    let mut n: usize = 0;
    for digit in &s[start.min(end)..end] {
        n = n * 10 + (*digit - b'0') as usize;
    }
    n
}

// A negative number, written anew.
pub fn put_negative(w: &mut Writer, n: usize)
    ensures { Writes w.old w.new (negative_text n) }
{
    if n == 0 {
        w.byte(b'0');
    } else {
        w.byte(b'-');
        w.number(n);
    }
}

// The value of the variant at this position of those that are read from `from` on.
fn find(s: &[u8], from: Cursor, roles: &mut [u8], position: usize) -> ValueAt
    requires { InList s.now from }
    ensures { (vs : List Variant) → InsideAt (every variant) s.now from vs →
        ValueAs s.now (variant_at position (point s.now from)) result (value_at position vs) }
{
    let mut c = from;
    let mut left = position;
    while let Ok(Next::One(v)) = variant(s, c, roles) {
        if left == 0 {
            return v.value;
        }
        c = v.next;
        left -= 1;
    }
    ValueAt::Absent
}

// The value of the variant at this position of a declaration.
fn value(s: &[u8], d: ItemAt, roles: &mut [u8], position: usize) -> ValueAt
    requires { InList s.now d.body }
    ensures { (b : Body) → InsideAt (body_of (kind_of d.kind)) s.now d.body b →
        ValueAs s.now (variant_at position (inside (point s.now d.body))) result
        (body_value position b) }
{
    let DataType::Enum = d.kind else {
        return ValueAt::Absent;
    };
    let Peeked::Group(t) = peek(s, d.body) else {
        return ValueAt::Absent;
    };
    let inside = past(s, d.body, t);
    find(s, inside, roles, position)
}

// Writes a negative into the scratch; a literal stays where it is.
fn put_value(s: &[u8], v: ValueAt, scratch: &mut [u8]) -> Option<ValuePlace>
    requires value_of { (w : Value) × ValueOf s.now v w }
    requires s_len_bound { length s.now ≤ MAX_BYTES }
    ensures { (x : Point) (w : Value) → ValueAs s.now x v w →
        SCRATCH_BYTES ≤ length scratch.old →
        Placed s.now scratch.old scratch.new (value_answer (value_row x w) w) (Ok result) }
{
    match v {
        ValueAt::Absent => None,
        ValueAt::Literal(t, _) => Some(ValuePlace::InList(t.start, t.end)),
        ValueAt::Negative(t) => {
            let n = worth(s, t.start, t.end);
            let mut w = Writer::new(scratch);
            put_negative(&mut w, n);
            Some(ValuePlace::InScratch(w.at))
        }
    }
}

// The value in a list that passes the check.
fn read_value(
    s: &[u8],
    position: usize,
    scratch: &mut [u8],
    roles: &mut [u8],
) -> Result<Option<ValuePlace>, Refusal>
    requires in_list { InList s.now (start_of s.now) }
    requires in_bounds { SCRATCH_BYTES ≤ length scratch.old }
    requires s_len_bound { length s.now ≤ MAX_BYTES }
    ensures { Placed s.now scratch.old scratch.new
        (item_answer (start s.now) position
        (item 0 (at s.now (first_row s.now)).here)) result }
{
    let d = item(s, start(s), roles)?;
    let v = value(s, d, roles, position);
    Ok(put_value(s, v, scratch))
}

// Where the value of the variant at this position stands. The scratch is written in the one case
// that the answer is a part of it.
pub fn value_of(
    list: &[u8],
    position: usize,
    scratch: &mut [u8],
) -> Result<Option<ValuePlace>, Refusal>
    ensures placed { Placed list.now scratch.old scratch.new
        (answer list.now position (length scratch.old)) result }
    ensures by_index { (n p : ℕ) → answer list.now position (length scratch.old) ≡ refused n p →
        OneRefusal read_number list.now n p }
{
    check(list)?;
    if scratch.len() < SCRATCH_BYTES {
        return Err(Refusal {
            number: refusal::SHORT_BUFFER,
            place: END,
        });
    }
    let mut roles = [0u8; MAX_ROWS];
    read_value(list, position, scratch, &mut roles)
}

// The text that stands there: a part of the list or of the scratch, empty where there is none.
pub fn value_text<'a>(
    list: &'a [u8],
    scratch: &'a [u8],
    answer: Result<Option<ValuePlace>, Refusal>,
) -> &'a [u8]
    ensures { result.now ≡ part_of list.now scratch.now answer }
{
    match answer {
        Ok(Some(ValuePlace::InList(start, end))) if start <= end && end <= list.len() =>
            &list[start..end],
        Ok(Some(ValuePlace::InScratch(len))) if len <= scratch.len() => &scratch[..len],
        _ => &[],
    }
}
