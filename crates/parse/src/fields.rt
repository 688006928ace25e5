// Fields (virtue's parse/body.rs: UnnamedField and what reads it).
ghost use Rattle.std.specs.Prelude.{◌≡◌, true, List, ℕ, set};
ghost use Rattle.token_list.specs.Stream.{at, follows};
ghost use Rattle.token_list.specs.Contract.{InList, GroupAt, Skipped};
ghost use Rattle.reading.specs.Role.{delimiter};
ghost use Rattle.reading.specs.Place.{past_token_lem};
ghost use Rattle.reading.specs.Reading.{every, field_after, named_field, tuple_field};
ghost use Rattle.reading.specs.Declaration.{Field, UnnamedField};
ghost use Rattle.reading.proofs.Conserved.{named_field_round, tuple_field_round, every-ended, named_field_turning};
ghost use Rattle.reading.proofs.Conserved.{tuple_field_turning};
ghost use Rattle.parse.specs.Contract.{Meets, stream, point, Prefix, field_type, type_at_shown, type_said, NamedAt};
ghost use Rattle.parse.specs.Contract.{field_shown, field_said, named_shown, named_said, unnamed_shown, unnamed_said};
ghost use Rattle.parse.specs.Contract.{next_shown, next_said, count_shown, count_said, Inside};

use crate::parts::{Enclosed, Parts, group};
use crate::runs::{Run, Stops, read_tokens_until_punct};
use crate::utils::{Next, consume_punct_if, set_role, take_token, wrong_token};
use crate::{attributes, role, visibility};
use token_list::check::{Cursor, Refusal};
use token_list::refusal;
use token_list::stream::{Peeked, Token, look, peek, skip};

// A type: its run, and the cursor after the `,` that may follow.
#[derive(Clone, Copy)]
pub struct TypeAt {
    pub run: Run,
    pub next: Cursor,
}

// Where a field's visibility and type stand, and the cursor after the field. Its attributes are read
// where it begins itself.
#[derive(Clone, Copy)]
pub struct UnnamedFieldAt {
    pub visibility: Cursor,
    pub typed: TypeAt,
}

#[derive(Clone, Copy)]
pub struct FieldAt {
    pub name: Token,
    pub visibility: Cursor,
    pub typed: TypeAt,
}

// A type's run and the `,` that may follow.
fn field_type(s: &[u8], c: Cursor, roles: &mut [u8]) -> Result<TypeAt, Refusal>
    requires { InList s.now c }
    ensures { Meets s.now c roles.old roles.new
        (type_at_shown s.now (point s.now c) result) (type_said result)
        (field_type c.row (stream s.now c)) }
{
    let stops = Stops {
        comma: true,
        angle: false,
        group: false,
    };
    let run = read_tokens_until_punct(s, c, roles, stops, role::TYPE)?;
    let next = consume_punct_if(s, run.to, roles, b',', role::SEPARATOR).unwrap_or(run.to);
    Ok(TypeAt { run, next })
}

// `:` and a type.
fn field_after(s: &[u8], c: Cursor, roles: &mut [u8]) -> Result<TypeAt, Refusal>
    requires { InList s.now c }
    ensures { (p : Prefix) (n : List ℕ) → Meets s.now c roles.old roles.new
        (NamedAt s.now (past_token_lem (point s.now c)) p n result) (type_said result)
        (field_after p.attributes p.visibility n c.row (stream s.now c)) }
{
    let Some(next) = consume_punct_if(s, c, roles, b':', role::SEPARATOR) else {
        return Err(wrong_token(s, c, refusal::NO_COLON));
    };
    field_type(s, next, roles)
}

// One named field, or the end: for those who ask only for its name and where it ends.
pub fn named_field(
    s: &[u8],
    c: Cursor,
    roles: &mut [u8],
) -> Result<Next<(Token, Cursor), Cursor>, Refusal>
    requires { InList s.now c }
    ensures { Meets s.now c roles.old roles.new (named_shown s.now c result)
        (named_said result) (named_field c.row (stream s.now c)) }
{
    Ok(match named_field_at(s, c, roles)? {
        Next::One(f) => Next::One((f.name, f.typed.next)),
        Next::Done((_, end)) => Next::Done(end),
    })
}

// One named field with the places of its parts; or the end, after attributes and, from the first cursor on, a
// visibility that belong to none.
pub fn named_field_at(
    s: &[u8],
    c: Cursor,
    roles: &mut [u8],
) -> Result<Next<FieldAt, (Cursor, Cursor)>, Refusal>
    requires { InList s.now c }
    ensures { Meets s.now c roles.old roles.new
        (field_shown s.now c result) (field_said result)
        (named_field c.row (stream s.now c)) }
{
    let visibility = attributes::try_take(s, c, roles)?;
    let d = visibility::try_take(s, visibility, roles);
    let nameless = Refusal {
        number: refusal::NO_FIELD_NAME,
        place: d.row,
    };
    match peek(s, d) {
        Peeked::Nothing => Ok(Next::Done((visibility, d))),
        Peeked::Group(_) => Err(nameless),
        Peeked::Leaf(t) => {
            if t.kind != b'i' {
                return Err(nameless);
            }
            let after = take_token(s, d, t, roles, role::FIELD_NAME);
            let typed = field_after(s, after, roles)?;
            Ok(Next::One(FieldAt {
                name: t,
                visibility,
                typed,
            }))
        }
    }
}

// One field without a name, or the end: for those who ask only where it ends.
pub fn tuple_field(s: &[u8], c: Cursor, roles: &mut [u8]) -> Result<Next<Cursor, Cursor>, Refusal>
    requires { InList s.now c }
    ensures { Meets s.now c roles.old roles.new (next_shown result) (next_said result)
        (tuple_field c.row (stream s.now c)) }
{
    Ok(match tuple_field_at(s, c, roles)? {
        Next::One(f) => Next::One(f.typed.next),
        Next::Done(end) => Next::Done(end),
    })
}

// One field without a name with the places of its parts, or the end.
pub fn tuple_field_at(
    s: &[u8],
    c: Cursor,
    roles: &mut [u8],
) -> Result<Next<UnnamedFieldAt, Cursor>, Refusal>
    requires { InList s.now c }
    ensures { Meets s.now c roles.old roles.new
        (unnamed_shown s.now c result) (unnamed_said result)
        (tuple_field c.row (stream s.now c)) }
{
    if look(s, c).kind == 0 {
        return Ok(Next::Done(c));
    }
    let visibility = attributes::try_take(s, c, roles)?;
    let d = visibility::try_take(s, visibility, roles);
    let typed = field_type(s, d, roles)?;
    Ok(Next::One(UnnamedFieldAt { visibility, typed }))
}

// The named fields of a group (virtue's UnnamedField::parse_with_name).
struct NamedFields;

impl Parts for NamedFields {
    ghost Thing = { Field };

    ghost reading = { λ x. named_field };

    fn next(&self, s: &[u8], c: Cursor, roles: &mut [u8]) -> Result<Next<Cursor, Cursor>, Refusal> {
        Ok(match named_field(s, c, roles)? {
            Next::One((_, next)) => Next::One(next),
            Next::Done(end) => Next::Done(end),
        })
    }

    ghost goes_on = { λ x. named_field_round };
}

impl Enclosed for NamedFields {
    ghost to_the_end = { λ x. every-ended named_field_turning };
}

// The fields of a group that have no names (virtue's UnnamedField::parse).
struct TupleFields;

impl Parts for TupleFields {
    ghost Thing = { UnnamedField };

    ghost reading = { λ x. tuple_field };

    fn next(&self, s: &[u8], c: Cursor, roles: &mut [u8]) -> Result<Next<Cursor, Cursor>, Refusal> {
        tuple_field(s, c, roles)
    }

    ghost goes_on = { λ x. tuple_field_round };
}

impl Enclosed for TupleFields {
    ghost to_the_end = { λ x. every-ended tuple_field_turning };
}

// The closing row of a group whose inside was read up to c.
pub fn close_group(s: &[u8], c: Cursor, roles: &mut [u8]) -> Cursor
    requires in_list { InList s.now c }
    requires at_value { follows (at s.now c.at).outer ≡ true }
    ensures skipped { Skipped s.now c result }
    ensures roles_after { roles.new ≡ set roles.old c.row delimiter }
{
    set_role(roles, c.row, role::DELIMITER);
    skip(s, c)
}

// The group of named fields that opens at c, with its delimiters.
pub fn named_group(
    s: &[u8],
    c: Cursor,
    t: Token,
    roles: &mut [u8],
) -> Result<(Cursor, usize), Refusal>
    requires in_list { InList s.now c }
    requires group_at { GroupAt s.now c.at t }
    ensures { Meets s.now c roles.old roles.new (count_shown result) (count_said result)
        (Inside (every named_field) s.now c t) }
{
    group(&NamedFields, s, c, t, roles)
}

// The group of fields without names that opens at c, with its delimiters.
pub fn tuple_group(
    s: &[u8],
    c: Cursor,
    t: Token,
    roles: &mut [u8],
) -> Result<(Cursor, usize), Refusal>
    requires in_list { InList s.now c }
    requires group_at { GroupAt s.now c.at t }
    ensures { Meets s.now c roles.old roles.new (count_shown result) (count_said result)
        (Inside (every tuple_field) s.now c t) }
{
    group(&TupleFields, s, c, t, roles)
}
