// The listing of a declaration: the readers go round once more over what was read, and each thing
// gets its lines; then the listing's entry points.
ghost use Rattle.std.specs.Prelude.{◌≡◌, List, ℕ, ◌≤◌, ℤ, length};
ghost use Rattle.token_list.specs.Layout.{first_row, MAX_BYTES, MAX_ROWS};
ghost use Rattle.token_list.specs.Stream.{at, size};
ghost use Rattle.token_list.specs.Place.{OneRefusal};
ghost use Rattle.token_list.specs.Contract.{InList, start_of};
ghost use Rattle.output.specs.Contract.{Put};
ghost use Rattle.output.specs.Writes.{Writes};
ghost use Rattle.output.specs.Answer.{refused, fitted};
ghost use Rattle.output.specs.Written.{WrittenAs};
ghost use Rattle.reading.specs.Declaration.{Parameter, Generics, parameters_of, UnnamedField, Field, Fields, Variant};
ghost use Rattle.reading.specs.Declaration.{Body, Declaration};
ghost use Rattle.reading.specs.Reading.{every, named_field, tuple_field, variant, parameter, generics, body_of, item};
ghost use Rattle.reading.specs.Took.{Point};
ghost use Rattle.reading.specs.Place.{start, body_at};
ghost use Rattle.parse.specs.Contract.{CursorAt, kind_of, InsideAt, FieldsOf, ItemOf};
ghost use Rattle.describe.specs.Numbers.{BEFORE_FIRST, numbers, numbers_from, body_numbers, body_names, numbers_of};
ghost use Rattle.describe.specs.Numbers.{fault_place};
ghost use Rattle.describe.specs.Listing.{numbered, parameter_line, named_line, tuple_line, field_lines, variant_lines};
ghost use Rattle.describe.specs.Listing.{body_lines, listing, numbered_answer, item_answer, answer, listing_number};
ghost use Rattle.describe.specs.Contract.{MANY, StructAt, FaultsIn, ItemFaultsIn, Reported};

use crate::faults::body_faults;
use crate::lines::{put_item, put_named, put_parameter, put_unnamed, put_variant};
use crate::numbers::number_after;
use output::writer::Writer;
use output::written::put_answer;
use parse::data_type::DataType;
use parse::fields::{named_field, tuple_field};
use parse::generics::parameter;
use parse::item::{ItemAt, item};
use parse::utils::{Next, past, stands_punct};
use parse::variants::{FieldsAt, variant};
use token_list::check::{Cursor, END, Refusal, check, start};
use token_list::layout::MAX_ROWS;
use token_list::refusal;
use token_list::stream::{Peeked, peek, punct_at};

// Each kind has a loop of its own, since a trait with its laws and an impl for each kind is longer than the four loops.

// The lines of the named fields that are read from `from` on.
fn named_lines(w: &mut Writer, s: &[u8], from: Cursor, roles: &mut [u8])
    requires { InList s.now from }
    ensures { (fs : List Field) → InsideAt (every named_field) s.now from fs →
        Writes w.old w.new (numbered named_line 0 fs) }
{
    let mut c = from;
    let mut count = 0;
    while let Ok(Next::One((name, next))) = named_field(s, c, roles) {
        put_named(w, s, name, count);
        c = next;
        count += 1;
    }
}

// The lines of the fields without names that are read from `from` on.
fn tuple_lines(w: &mut Writer, s: &[u8], from: Cursor, roles: &mut [u8])
    requires { InList s.now from }
    ensures { (fs : List UnnamedField) → InsideAt (every tuple_field) s.now from fs →
        Writes w.old w.new (numbered tuple_line 0 fs) }
{
    let mut c = from;
    let mut count = 0;
    while let Ok(Next::One(next)) = tuple_field(s, c, roles) {
        put_unnamed(w, count);
        c = next;
        count += 1;
    }
}

fn field_lines(w: &mut Writer, s: &[u8], fields: FieldsAt, roles: &mut [u8])
    requires { (f : Fields) × FieldsOf s.now fields f }
    ensures { (f : Fields) → FieldsOf s.now fields f → Writes w.old w.new (field_lines f) }
{
    match fields {
        FieldsAt::Unit => {}
        FieldsAt::Named(c) => named_lines(w, s, c, roles),
        FieldsAt::Tuple(c) => tuple_lines(w, s, c, roles),
    }
}

// The lines of the variants that are read from `from` on, each with its number and followed by its
// fields, where every variant has a number.
fn variant_lines(w: &mut Writer, s: &[u8], from: Cursor, roles: &mut [u8])
    requires { InList s.now from }
    ensures { (vs : List Variant) (zs : List ℤ) → InsideAt (every variant) s.now from vs →
        numbers_from BEFORE_FIRST 0 vs ≡ numbers zs →
        Writes w.old w.new (numbered (variant_lines zs) 0 vs) }
{
    let mut c = from;
    let mut before = -1;
    while let Ok(Next::One(v)) = variant(s, c, roles) {
        let Ok(n) = number_after(s, before, v) else {
            return;
        };
        put_variant(w, s, v, n);
        field_lines(w, s, v.fields, roles);
        c = v.next;
        before = n;
    }
}

// The lines of the parameters that are read from `from` on; `angle` is the row of the `<`.
fn parameter_lines(w: &mut Writer, s: &[u8], from: Cursor, roles: &mut [u8], angle: usize)
    requires { InList s.now from }
    ensures { (ps : List Parameter) → InsideAt (every (parameter angle)) s.now from ps →
        Writes w.old w.new (numbered parameter_line 0 ps) }
{
    let mut c = from;
    while let Ok(Next::One(p)) = parameter(s, c, roles, angle) {
        put_parameter(w, s, p);
        c = p.next;
    }
}

// The lines of the generics that are read at c.
fn generics_lines(w: &mut Writer, s: &[u8], c: Cursor, roles: &mut [u8])
    requires { InList s.now c }
    ensures { (g : Generics) → InsideAt generics s.now c g →
        Writes w.old w.new (numbered parameter_line 0 (parameters_of g)) }
{
    if !stands_punct(s, c, b'<') {
        return;
    }
    let t = punct_at(s, c, b'<');
    let inside = past(s, c, t);
    parameter_lines(w, s, inside, roles, c.row);
}

// The lines of a struct's body, whose group's inside is at c.
fn struct_lines(w: &mut Writer, s: &[u8], c: Cursor, delimiter: u8, roles: &mut [u8])
    requires { InList s.now c }
    ensures { (f : Fields) → StructAt s.now delimiter c f → Writes w.old w.new (field_lines f) }
{
    if delimiter == b'{' {
        named_lines(w, s, c, roles);
    } else {
        tuple_lines(w, s, c, roles);
    }
}

// The lines of a declaration's body.
fn body_lines(w: &mut Writer, s: &[u8], d: ItemAt, roles: &mut [u8])
    requires { InList s.now d.body }
    ensures { (b : Body) (zs : List ℤ) → InsideAt (body_of (kind_of d.kind)) s.now d.body b →
        body_numbers b ≡ numbers zs → Writes w.old w.new (body_lines zs b) }
{
    let Peeked::Group(t) = peek(s, d.body) else {
        return;
    };
    let inside = past(s, d.body, t);
    match d.kind {
        DataType::Struct => struct_lines(w, s, inside, t.byte, roles),
        DataType::Enum => variant_lines(w, s, inside, roles),
    }
}

// The whole listing: how long it is.
fn put_listing(s: &[u8], d: ItemAt, roles: &mut [u8], out: &mut [u8]) -> usize
    requires { (x : Declaration) × ItemOf s.now d x }
    ensures { (x : Declaration) (zs : List ℤ) → ItemOf s.now d x →
        body_numbers x.body ≡ numbers zs → Put out.old out.new 0 result (listing zs x) }
{
    let mut w = Writer::new(out);
    put_item(&mut w, s, d);
    generics_lines(&mut w, s, d.name.next, roles);
    body_lines(&mut w, s, d, roles);
    w.at
}

// Measures the listing, and writes it where no variant is at fault and the output is long enough.
fn fit_listing(s: &[u8], d: ItemAt, roles: &mut [u8], out: &mut [u8]) -> Result<usize, Refusal>
    requires item_of { (x : Declaration) × ItemOf s.now d x × (length (body_names x.body) ≤ MANY) }
    requires s_len_bound { length s.now ≤ MAX_BYTES }
    ensures written_as { (p : Point) (x : Declaration) → ItemOf s.now d x →
        CursorAt s.now (body_at p) d.body →
        WrittenAs out.old out.new
        (fitted (length out.old) (numbered_answer p x (numbers_of x))) result }
    ensures faults_in { (p : Point) (x : Declaration) → ItemOf s.now d x →
        CursorAt s.now (body_at p) d.body →
        FaultsIn s.now (fault_place p) (numbers_of x) }
{
    body_faults(s, d, roles)?;
    let mut nowhere = [0u8; 1];
    let needed = put_listing(s, d, roles, &mut nowhere);
    if out.len() < needed {
        return Err(Refusal {
            number: refusal::SHORT_BUFFER,
            place: END,
        });
    }
    Ok(put_listing(s, d, roles, out))
}

// The listing of a list that passes the check.
fn read_listing(s: &[u8], out: &mut [u8], roles: &mut [u8]) -> Result<usize, Refusal>
    requires in_list { InList s.now (start_of s.now) }
    requires s_len_bound { length s.now ≤ MAX_BYTES }
    requires s_bound { size (at s.now (first_row s.now)).here ≤ MAX_ROWS }
    ensures written_as { WrittenAs out.old out.new
        (fitted (length out.old)
        (item_answer (start s.now) (item 0 (at s.now (first_row s.now)).here))) result }
    ensures item_faults_in { ItemFaultsIn s.now (item 0 (at s.now (first_row s.now)).here) }
{
    // No `?`: it copies the item once more, by a call to `memcpy` that C's archive would need.
    match item(s, start(s), roles) {
        Err(r) => Err(r),
        Ok(d) => fit_listing(s, d, roles, out),
    }
}

// Writes the listing of the declaration at the start of the output; on a refusal nothing is written.
pub fn write_listing(list: &[u8], out: &mut [u8]) -> Result<usize, Refusal>
    ensures written_as { WrittenAs out.old out.new
        (answer list.now (length out.old)) result }
    ensures by_index { (n p : ℕ) → answer list.now (length out.old) ≡ refused n p →
        OneRefusal listing_number list.now n p }
{
    check(list)?;
    let mut roles = [0u8; MAX_ROWS];
    read_listing(list, out, &mut roles)
}

// Writes the listing or the refusal at the start of the output; answers its length, at most 176,145.
pub fn report_listing(list: &[u8], out: &mut [u8]) -> usize
    ensures { Reported list.now out.old out.new result }
{
    let answer = write_listing(list, out);
    put_answer(out, answer)
}
