// The writers of virtue's parse/generics.rs: generics as they stand, with added names, or as names
// alone, written as a list into a lent output.
ghost use Rattle.std.specs.Prelude.{◌≡◌, List, ◌++◌, map, ℕ, length};
ghost use Rattle.token_list.specs.Layout.{marked};
ghost use Rattle.token_list.specs.Rows.{list_of};
ghost use Rattle.token_list.specs.Check as list;
ghost use Rattle.token_list.specs.Contract.{InList};
ghost use Rattle.output.specs.Answer.{wrote, fitted};
ghost use Rattle.output.specs.Contract.{Put};
ghost use Rattle.output.specs.Written.{WrittenAs};
ghost use Rattle.reading.specs.Declaration.{Parameter, Generics};
ghost use Rattle.reading.specs.Reading.{every, parameter, generics};
ghost use Rattle.parse.specs.Contract.{InsideAt};
ghost use Rattle.writing.specs.Names.{names_of};
ghost use Rattle.writing.specs.Generics.{parted, angled_rows, sent_parameter, generics_rows, added_type};
ghost use Rattle.writing.specs.Answer.{impl_generics_lem, type_generics_lem, with_additional_lem, answer};
ghost use Rattle.writing.specs.Answer.{MOST, most_added};
ghost use Rattle.generate.specs.Contract.{Appended, goes_out, parameters_in, right_texts, writer_in};
ghost use Rattle.generate.specs.Contract.{Answered, Reported};

use crate::names::{add_names, right_names};
use crate::parameter::add_parameter;
use crate::stream_builder::ListBuilder;
use output::written::put_answer;
use parse::generics::parameter;
use parse::item::item;
use parse::utils::{Next, past, stands_punct};
use token_list::check::{Cursor, END, Refusal, check, start};
use token_list::layout::is_marked;
use token_list::refusal;
use token_list::stream::punct_at;

// How a writer writes generics: by their names alone or as they stand, between added lifetimes and added types, the
// lines of two texts.
#[derive(Clone, Copy)]
struct Form<'a> {
    names: bool,
    lifetimes: &'a [u8],
    types: &'a [u8],
}

// The parameters that are read from `from` on, then the added types; `angle` is the row of the `<`. No roles are kept.
fn add_parameters(
    b: &mut ListBuilder,
    s: &[u8],
    from: Cursor,
    angle: usize,
    form: Form,
    first: bool,
)
    requires by_index { (n : ℕ) × (list.check s.now ≡ list.passed n) }
    requires in_list { InList s.now from }
    ensures { (ps : List Parameter) → InsideAt (every (parameter angle)) s.now from ps →
        Appended b.old b.new
        (parted first (map (goes_out form.entry.names) ps ++ map added_type (names_of form.entry.types.now))) }
{
    let mut leading = first;
    let mut c = from;
    while let Ok(Next::One(p)) = parameter(s, c, &mut [], angle) {
        add_parameter(b, s, p, form.names, leading);
        leading = false;
        c = p.next;
    }
    add_names(b, form.types, false, leading);
}

// All parameters between `<` and `>`: added lifetimes first, added types last.
fn put_angled(b: &mut ListBuilder, s: &[u8], from: Cursor, angle: usize, form: Form)
    requires by_index { (n : ℕ) × (list.check s.now ≡ list.passed n) }
    requires in_list { InList s.now from }
    ensures { (ps : List Parameter) → InsideAt (every (parameter angle)) s.now from ps →
        Appended b.old b.new (angled_rows (parameters_in form.entry (map sent_parameter ps))) }
{
    b.punct(b'<');
    add_names(b, form.lifetimes, true, true);
    add_parameters(b, s, from, angle, form, form.lifetimes.is_empty());
    b.punct(b'>');
}

// The list that is written for the generics that are read at c: answers how many bytes it has.
fn put_generics(s: &[u8], c: Cursor, form: Form, out: &mut [u8]) -> usize
    requires by_index { (n : ℕ) × (list.check s.now ≡ list.passed n) }
    requires in_list { InList s.now c }
    ensures { (g : Generics) → InsideAt generics s.now c g →
        Put out.old out.new 0 result (list_of (marked s.now) (generics_rows (parameters_in form.entry) g)) }
{
    let mut b = ListBuilder::new(out, is_marked(s));
    if stands_punct(s, c, b'<') {
        let inside = past(s, c, punct_at(s, c, b'<'));
        put_angled(&mut b, s, inside, c.row, form);
    }
    b.built.bytes
}

// Measures the list, and writes it where the output is long enough.
fn fit_generics(s: &[u8], c: Cursor, form: Form, out: &mut [u8]) -> Result<usize, Refusal>
    requires by_index { (n : ℕ) × (list.check s.now ≡ list.passed n) }
    requires in_list { InList s.now c }
    ensures { (g : Generics) → InsideAt generics s.now c g →
        WrittenAs out.old out.new (fitted (length out.old)
        (wrote (list_of (marked s.now) (generics_rows (parameters_in form.entry) g)))) result }
{
    let needed = put_generics(s, c, form, &mut []);
    if out.len() < needed {
        return Err(Refusal {
            number: refusal::SHORT_BUFFER,
            place: END,
        });
    }
    Ok(put_generics(s, c, form, out))
}

// Whether every added name is right.
fn right_texts(form: Form) -> bool
    ensures { result ≡ right_texts form.entry.lifetimes.now form.entry.types.now }
{
    right_names(form.lifetimes) && right_names(form.types)
}

// What the three writers share.
fn write(list: &[u8], form: Form, out: &mut [u8]) -> Result<usize, Refusal>
    ensures { WrittenAs out.old out.new
        (answer (writer_in form.entry) list.now (length out.old)) result }
{
    check(list)?;
    let declared = item(list, start(list), &mut [])?;
    if !right_texts(form) {
        return Err(Refusal {
            number: refusal::ADDED_NAME,
            place: END,
        });
    }
    fit_generics(list, declared.name.next, form, out)
}

// virtue's Generics::impl_generics
pub fn impl_generics(list: &[u8], out: &mut [u8]) -> Result<usize, Refusal>
    ensures { Answered impl_generics_lem list.now out.old out.new result }
{
    let form = Form {
        names: false,
        lifetimes: b"",
        types: b"",
    };
    write(list, form, out)
}

// virtue's Generics::impl_generics_with_additional: the added names are the lines of two texts.
pub fn impl_generics_with_additional(
    list: &[u8],
    lifetimes: &[u8],
    types: &[u8],
    out: &mut [u8],
) -> Result<usize, Refusal>
    ensures { Answered (with_additional_lem lifetimes.now types.now) list.now
        out.old out.new result }
{
    let form = Form {
        names: false,
        lifetimes,
        types,
    };
    write(list, form, out)
}

// virtue's Generics::type_generics
pub fn type_generics(list: &[u8], out: &mut [u8]) -> Result<usize, Refusal>
    ensures { Answered type_generics_lem list.now out.old out.new result }
{
    let form = Form {
        names: true,
        lifetimes: b"",
        types: b"",
    };
    write(list, form, out)
}

// What a program prints: the list that impl_generics_with_additional writes, or the refusal.
pub fn report_impl_generics(list: &[u8], lifetimes: &[u8], types: &[u8], out: &mut [u8]) -> usize
    ensures { Reported (with_additional_lem lifetimes.now types.now)
        (most_added (length lifetimes.now) (length types.now)) list.now
        out.old out.new result }
{
    let answer = impl_generics_with_additional(list, lifetimes, types, out);
    put_answer(out, answer)
}

// The same for type_generics.
pub fn report_type_generics(list: &[u8], out: &mut [u8]) -> usize
    ensures { Reported type_generics_lem MOST list.now out.old out.new result }
{
    let answer = type_generics(list, out);
    put_answer(out, answer)
}
