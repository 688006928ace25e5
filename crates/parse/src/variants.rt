// Variants (virtue's parse/body.rs: EnumVariant and what EnumBody::take reads of it).
ghost use Rattle.std.specs.Prelude.{◌≡◌, ◌+◌, ◌≤◌, length};
ghost use Rattle.std.proofs.Math.Seq.{slice};
ghost use Rattle.token_list.specs.Stream.{at};
ghost use Rattle.token_list.specs.Contract.{InList, GroupAt};
ghost use Rattle.reading.specs.Reading.{every, variant_fields, negatable, negative_value, discriminant, value_if};
ghost use Rattle.reading.specs.Reading.{variant_here, variant};
ghost use Rattle.reading.specs.Declaration.{Variant};
ghost use Rattle.reading.proofs.Conserved.{variant_round, every-ended, variant_turning};
ghost use Rattle.reading.specs.Place.{variant_head, literal_row};
ghost use Rattle.parse.specs.Contract.{Meets, stream, count_shown, count_said, Inside, fields_shown, fields_said};
ghost use Rattle.parse.specs.Contract.{value_shown, value_said, variant_name_shown, placed_name_said, variant_value};
ghost use Rattle.parse.specs.Contract.{variant_shown, variant_said};

use crate::fields::{named_group, tuple_group};
use crate::parts::{Enclosed, Parts, group};
use crate::utils::{
    Next, PlacedName, consume_ident, consume_punct_if, is_punct, past, take_token, wrong_token,
};
use crate::{attributes, role};
use token_list::check::{Cursor, END, Refusal};
use token_list::refusal;
use token_list::stream::{Peeked, Token, look, peek};

// The largest i64, and a tenth of it: a number above that has no room for one more digit.
const MAX_I64: u64 = 9223372036854775807;

const MAX_TENTH: u64 = MAX_I64 / 10;

// A variant's group: none, or the cursor inside it. The Reference's three forms, as in virtue's Fields, and no Option.
#[derive(Clone, Copy)]
pub enum FieldsAt {
    Unit,
    Named(Cursor),
    Tuple(Cursor),
}

// A variant's value: none, a literal with its row, or the literal after a `-`. Three cases of one match, as in
// `ValueOf`, and no Option.
#[derive(Clone, Copy)]
pub enum ValueAt {
    Absent,
    Literal(Token, usize),
    Negative(Token),
}

// Where a variant's parts stand, and the cursor after it: its name's token, and the row where its name
// begins, which is another one where it is wrapped. Its attributes are read where it begins itself.
#[derive(Clone, Copy)]
pub struct VariantAt {
    pub name: Token,
    pub place: usize,
    pub fields: FieldsAt,
    pub value: ValueAt,
    pub next: Cursor,
}

// The group of variants that opens at c, with its delimiters.
pub fn variants_group(
    s: &[u8],
    c: Cursor,
    t: Token,
    roles: &mut [u8],
) -> Result<(Cursor, usize), Refusal>
    requires in_list { InList s.now c }
    requires group_at { GroupAt s.now c.at t }
    ensures { Meets s.now c roles.old roles.new (count_shown result) (count_said result)
        (Inside (every variant) s.now c t) }
{
    group(&Variants, s, c, t, roles)
}

// A variant's group, where one stands, and the cursor after it.
fn variant_fields(s: &[u8], c: Cursor, roles: &mut [u8]) -> Result<(FieldsAt, Cursor), Refusal>
    requires { InList s.now c }
    ensures { Meets s.now c roles.old roles.new
        (fields_shown s.now c result) (fields_said result) (variant_fields c.row (stream s.now c)) }
{
    match peek(s, c) {
        Peeked::Nothing | Peeked::Leaf(_) => Ok((FieldsAt::Unit, c)),
        Peeked::Group(t) => {
            let inside = past(s, c, t);
            if t.byte == b'{' {
                let (end, _) = named_group(s, c, t, roles)?;
                return Ok((FieldsAt::Named(inside), end));
            }
            if t.byte == b'(' {
                let (end, _) = tuple_group(s, c, t, roles)?;
                return Ok((FieldsAt::Tuple(inside), end));
            }
            Err(Refusal {
                number: refusal::VARIANT_DELIMITER,
                place: c.row,
            })
        }
    }
}

// Whether the text is digits alone, worth at most the largest i64.
fn is_negatable(s: &[u8], start: usize, end: usize) -> bool
    requires { end ≤ length s.now }
    ensures { result ≡ negatable (slice start end s.now) }
{
    let mut n: u64 = 0;
    for &b in &s[start.min(end)..end] {
        if !b.is_ascii_digit() || MAX_TENTH < n {
            return false;
        }
        n = n * 10 + (b - b'0') as u64;
    }
    n <= MAX_I64
}

// The literal after a `-`.
fn negative_value(s: &[u8], c: Cursor, roles: &mut [u8]) -> Result<(ValueAt, Cursor), Refusal>
    requires { InList s.now c }
    ensures { Meets s.now c roles.old roles.new
        (value_shown s.now (λ v. c.row) result) (value_said result)
        (negative_value c.row (stream s.now c)) }
{
    match peek(s, c) {
        Peeked::Nothing => Err(Refusal {
            number: refusal::NO_LITERAL,
            place: END,
        }),
        Peeked::Group(_) => Err(Refusal {
            number: refusal::NO_LITERAL,
            place: c.row,
        }),
        Peeked::Leaf(t) => {
            if t.kind != b'l' {
                return Err(Refusal {
                    number: refusal::NO_LITERAL,
                    place: c.row,
                });
            }
            if !is_negatable(s, t.start, t.end) {
                return Err(Refusal {
                    number: refusal::NEGATIVE_VALUE,
                    place: c.row,
                });
            }
            let next = take_token(s, c, t, roles, role::VALUE);
            Ok((ValueAt::Negative(t), next))
        }
    }
}

// What follows a variant's `=`.
#[inline(never)]
fn discriminant(s: &[u8], c: Cursor, roles: &mut [u8]) -> Result<(ValueAt, Cursor), Refusal>
    requires { InList s.now c }
    ensures { Meets s.now c roles.old roles.new
        (value_shown s.now (literal_row c.row) result) (value_said result)
        (discriminant c.row (stream s.now c)) }
{
    match peek(s, c) {
        Peeked::Nothing => Err(Refusal {
            number: refusal::NO_LITERAL,
            place: END,
        }),
        Peeked::Group(_) => Err(Refusal {
            number: refusal::NO_LITERAL,
            place: c.row,
        }),
        Peeked::Leaf(t) => {
            if t.kind == b'l' {
                let next = take_token(s, c, t, roles, role::VALUE);
                return Ok((ValueAt::Literal(t, c.row), next));
            }
            if is_punct(t, b'-') {
                let next = take_token(s, c, t, roles, role::VALUE);
                return negative_value(s, next, roles);
            }
            Err(Refusal {
                number: refusal::NO_LITERAL,
                place: c.row,
            })
        }
    }
}

// A variant's value, where one stands; else a `,` or the end must follow.
fn optional_value(s: &[u8], c: Cursor, roles: &mut [u8]) -> Result<(ValueAt, Cursor), Refusal>
    requires { InList s.now c }
    ensures { Meets s.now c roles.old roles.new
        (value_shown s.now (literal_row (c.row + 1)) result) (value_said result)
        (value_if c.row (stream s.now c)) }
{
    let no_comma = Refusal {
        number: refusal::NO_COMMA,
        place: c.row,
    };
    match peek(s, c) {
        Peeked::Nothing => Ok((ValueAt::Absent, c)),
        Peeked::Group(_) => Err(no_comma),
        Peeked::Leaf(t) => {
            if is_punct(t, b'=') {
                let next = take_token(s, c, t, roles, role::SEPARATOR);
                return discriminant(s, next, roles);
            }
            if is_punct(t, b',') {
                return Ok((ValueAt::Absent, c));
            }
            Err(no_comma)
        }
    }
}

// A variant's attributes and name.
fn variant_name(s: &[u8], c: Cursor, roles: &mut [u8]) -> Result<PlacedName, Refusal>
    requires { InList s.now c }
    ensures { Meets s.now c roles.old roles.new
        (variant_name_shown s.now c result) (placed_name_said result)
        (variant_head c.row (stream s.now c)) }
{
    let d = attributes::try_take(s, c, roles)?;
    let Some(w) = consume_ident(s, d, roles, role::VARIANT_NAME) else {
        return Err(wrong_token(s, d, refusal::NO_WORD));
    };
    Ok(PlacedName {
        token: w.token,
        place: d.row,
        next: w.next,
    })
}

// A variant's value and the `,` that may follow.
fn variant_value(s: &[u8], c: Cursor, roles: &mut [u8]) -> Result<(ValueAt, Cursor), Refusal>
    requires { InList s.now c }
    ensures { Meets s.now c roles.old roles.new
        (value_shown s.now (literal_row (c.row + 1)) result) (value_said result)
        (variant_value c.row (stream s.now c)) }
{
    let (value, d) = optional_value(s, c, roles)?;
    let next = consume_punct_if(s, d, roles, b',', role::SEPARATOR).unwrap_or(d);
    Ok((value, next))
}

fn variant_here(s: &[u8], c: Cursor, roles: &mut [u8]) -> Result<Next<VariantAt, Cursor>, Refusal>
    requires { InList s.now c }
    ensures { Meets s.now c roles.old roles.new
        (variant_shown s.now c result) (variant_said result) (variant_here c.row (stream s.now c)) }
{
    let name = variant_name(s, c, roles)?;
    let (fields, d) = variant_fields(s, name.next, roles)?;
    let (value, next) = variant_value(s, d, roles)?;
    Ok(Next::One(VariantAt {
        name: name.token,
        place: name.place,
        fields,
        value,
        next,
    }))
}

// One variant, or the end.
pub fn variant(s: &[u8], c: Cursor, roles: &mut [u8]) -> Result<Next<VariantAt, Cursor>, Refusal>
    requires { InList s.now c }
    ensures { Meets s.now c roles.old roles.new
        (variant_shown s.now c result) (variant_said result) (variant c.row (stream s.now c)) }
{
    if look(s, c).kind == 0 {
        return Ok(Next::Done(c));
    }
    variant_here(s, c, roles)
}

// The variants of a group.
struct Variants;

impl Parts for Variants {
    ghost Thing = { Variant };

    ghost reading = { λ x. variant };

    fn next(&self, s: &[u8], c: Cursor, roles: &mut [u8]) -> Result<Next<Cursor, Cursor>, Refusal> {
        Ok(match variant(s, c, roles)? {
            Next::One(v) => Next::One(v.next),
            Next::Done(end) => Next::Done(end),
        })
    }

    ghost goes_on = { λ x. variant_round };
}

impl Enclosed for Variants {
    ghost to_the_end = { λ x. every-ended variant_turning };
}
