// Generics and the where clause (virtue's parse/generics.rs, its readers).
ghost use Rattle.std.specs.Prelude.{◌≡◌, false, List, ℕ};
ghost use Rattle.token_list.specs.Layout.{PUNCT};
ghost use Rattle.token_list.specs.Row.{mark_fits};
ghost use Rattle.token_list.specs.Contract.{InList};
ghost use Rattle.reading.specs.Declaration.{Parameter};
ghost use Rattle.reading.proofs.Conserved.{parameter_round};
ghost use Rattle.reading.specs.Took.{Point};
ghost use Rattle.reading.specs.Reading.{parameter_name, optional_run, type_after, comma, parameter, generics};
ghost use Rattle.reading.specs.Reading.{clause};
ghost use Rattle.reading.specs.Place.{past_token_lem, parameter_name_at};
ghost use Rattle.parse.specs.Contract.{is_lifetime, Meets, stream, point, TokenIn, TextOf, name_shown, name_said};
ghost use Rattle.parse.specs.Contract.{optional_run_shown, parameter_run_said, bound_of_lem, default_of};
ghost use Rattle.parse.specs.Contract.{ParameterRunAt};
ghost use Rattle.parse.specs.Contract.{ParameterOf, type_shown};
ghost use Rattle.parse.specs.Contract.{on, parameter_at_shown, parameter_shown, parameter_said, named_parameter};
ghost use Rattle.parse.specs.Contract.{after_name, count_said, generics_shown, clause_shown, clause_said};

use crate::parts::{Parts, every};
use crate::role;
use crate::runs::{Ending, Run, Stops, read_tokens_until_punct};
use crate::utils::{Next, consume_punct_if, ident_eq, is_punct, stands_punct, take_token};
use token_list::check::{Cursor, END, Refusal};
use token_list::refusal;
use token_list::stream::{Peeked, Token, peek, punct_at};

#[derive(Clone, Copy, Debug, PartialEq, Eq)]
pub enum ParameterKind {
    Lifetime,
    Const,
    Type,
}

// virtue's Generic::is_lifetime
pub fn is_lifetime(kind: ParameterKind) -> bool
    ensures { result ≡ is_lifetime kind }
{
    matches!(kind, ParameterKind::Lifetime)
}

// What a parameter's run is: absent, a bound or a const's type after `:`, or a default after `=`.
#[derive(Clone, Copy, Debug, PartialEq, Eq)]
pub enum RunPart {
    Absent,
    Bound,
    Default,
}

// Where a parameter's name and run stand, and the cursor after the parameter. A run that is absent has no
// tokens. The part stands beside the run: an enum that holds the run is copied from step to step with its
// padding (docs/PERFORMANCE.md), and its proofs take longer.
#[derive(Clone, Copy)]
pub struct ParameterAt {
    pub kind: ParameterKind,
    pub name: Token,
    pub part: RunPart,
    pub run: Run,
    pub next: Cursor,
}

// The ident that must stand at c, and the cursor past it: else `number` there, or at `or` where nothing stands.
fn parameter_name(
    s: &[u8],
    c: Cursor,
    roles: &mut [u8],
    number: u8,
    or: usize,
) -> Result<(Token, Cursor), Refusal>
    requires { InList s.now c }
    ensures { Meets s.now c roles.old roles.new
        (name_shown s.now (point s.now c) result) (name_said result)
        (parameter_name number or c.row (stream s.now c)) }
{
    match peek(s, c) {
        Peeked::Nothing => Err(Refusal { number, place: or }),
        Peeked::Group(_) => Err(Refusal {
            number,
            place: c.row,
        }),
        Peeked::Leaf(t) => {
            if t.kind != b'i' {
                return Err(Refusal {
                    number,
                    place: c.row,
                });
            }
            Ok((t, take_token(s, c, t, roles, role::PARAMETER_NAME)))
        }
    }
}

// `punct` and the run after it, where it stands: `part` says what that run is.
fn optional_run(
    s: &[u8],
    c: Cursor,
    roles: &mut [u8],
    punct: u8,
    part: RunPart,
) -> Result<(RunPart, Run), Refusal>
    requires in_list { InList s.now c }
    requires punct_value { mark_fits PUNCT punct ≡ false }
    ensures { Meets s.now c roles.old roles.new
        (optional_run_shown s.now punct part (point s.now c) result) (parameter_run_said result)
        (optional_run punct c.row (stream s.now c)) }
{
    let Some(next) = consume_punct_if(s, c, roles, punct, role::SEPARATOR) else {
        let run = Run {
            from: c,
            to: c,
            ending: Ending::End,
            unclosed: false,
        };
        return Ok((RunPart::Absent, run));
    };
    let stops = Stops {
        comma: true,
        angle: true,
        group: false,
    };
    let run = read_tokens_until_punct(s, next, roles, stops, role::BOUND)?;
    Ok((part, run))
}

// A parameter ends with the `,` that may follow its run.
fn parameter_end(
    s: &[u8],
    roles: &mut [u8],
    kind: ParameterKind,
    name: Token,
    part: RunPart,
    run: Run,
) -> ParameterAt
    requires { InList s.now run.to }
    ensures { (a : Parameter) (x : Point) → ParameterOf s.now kind name a →
        TokenIn s.now x.row name →
        ParameterRunAt s.now (past_token_lem x) (bound_of_lem a) (default_of a) part run →
        Meets s.now run.to roles.old roles.new
        (parameter_at_shown s.now x result) (on result.next)
        (comma a run.to.row (stream s.now run.to)) }
{
    let next = consume_punct_if(s, run.to, roles, b',', role::SEPARATOR).unwrap_or(run.to);
    ParameterAt {
        kind,
        name,
        part,
        run,
        next,
    }
}

// A parameter's name, `:` and a run that may follow, and the `,` after it: virtue's Lifetime::take after the `'`,
// and its ConstGeneric::take after `const`.
fn named_parameter(
    s: &[u8],
    c: Cursor,
    roles: &mut [u8],
    number: u8,
    or: usize,
    kind: ParameterKind,
) -> Result<Next<ParameterAt, Cursor>, Refusal>
    requires { InList s.now c }
    ensures { Meets s.now c roles.old roles.new
        (parameter_shown s.now (point s.now c) result) (parameter_said result)
        (named_parameter number or kind c.row (stream s.now c)) }
{
    let (name, d) = parameter_name(s, c, roles, number, or)?;
    let (part, run) = optional_run(s, d, roles, b':', RunPart::Bound)?;
    Ok(Next::One(parameter_end(s, roles, kind, name, part, run)))
}

// `:` and bounds, or `=` and a default.
fn bounds_or_default(s: &[u8], c: Cursor, roles: &mut [u8]) -> Result<(RunPart, Run), Refusal>
    requires { InList s.now c }
    ensures { (n : List ℕ) → Meets s.now c roles.old roles.new
        (type_shown s.now (point s.now c) n result) (parameter_run_said result)
        (type_after n c.row (stream s.now c)) }
{
    if stands_punct(s, c, b':') {
        optional_run(s, c, roles, b':', RunPart::Bound)
    } else {
        optional_run(s, c, roles, b'=', RunPart::Default)
    }
}

// virtue's SimpleGeneric::take, after its name.
fn simple_generic(
    s: &[u8],
    c: Cursor,
    roles: &mut [u8],
    name: Token,
) -> Result<Next<ParameterAt, Cursor>, Refusal>
    requires { InList s.now c }
    ensures { (n : List ℕ) (x : Point) → TextOf s.now name n →
        TokenIn s.now x.row name → point s.now c ≡ past_token_lem x →
        Meets s.now c roles.old roles.new (parameter_shown s.now x result)
        (parameter_said result) (after_name n c.row (stream s.now c)) }
{
    let (part, run) = bounds_or_default(s, c, roles)?;
    Ok(Next::One(parameter_end(s, roles, ParameterKind::Type, name, part, run)))
}

// One parameter, or the closing `>`; `angle` is the row of the `<`.
pub fn parameter(
    s: &[u8],
    c: Cursor,
    roles: &mut [u8],
    angle: usize,
) -> Result<Next<ParameterAt, Cursor>, Refusal>
    requires { InList s.now c }
    ensures { Meets s.now c roles.old roles.new
        (parameter_shown s.now (parameter_name_at (point s.now c)) result) (parameter_said result)
        (parameter angle c.row (stream s.now c)) }
{
    let wrong = Refusal {
        number: refusal::NO_PARAMETER,
        place: c.row,
    };
    match peek(s, c) {
        Peeked::Nothing => Err(Refusal {
            number: refusal::NO_PARAMETER,
            place: angle,
        }),
        Peeked::Group(_) => Err(wrong),
        Peeked::Leaf(t) => {
            if is_punct(t, b'\'') {
                let next = take_token(s, c, t, roles, role::PARAMETER_NAME);
                let number = refusal::NO_LIFETIME_NAME;
                return named_parameter(s, next, roles, number, c.row, ParameterKind::Lifetime);
            }
            if is_punct(t, b'>') {
                return Ok(Next::Done(take_token(s, c, t, roles, role::ANGLE)));
            }
            if t.kind != b'i' {
                return Err(wrong);
            }
            let next = take_token(s, c, t, roles, role::PARAMETER_NAME);
            if ident_eq(s, t, b"const") {
                let number = refusal::NO_CONST_NAME;
                return named_parameter(s, next, roles, number, END, ParameterKind::Const);
            }
            simple_generic(s, next, roles, t)
        }
    }
}

// The parameters after the `<` in the row `angle`, with the closing `>`.
#[derive(Clone, Copy)]
struct Parameters {
    angle: usize,
}

impl Parts for Parameters {
    ghost Thing = { Parameter };

    ghost reading = { λ x. parameter x.angle };

    fn next(&self, s: &[u8], c: Cursor, roles: &mut [u8]) -> Result<Next<Cursor, Cursor>, Refusal> {
        Ok(match parameter(s, c, roles, self.angle)? {
            Next::One(p) => Next::One(p.next),
            Next::Done(end) => Next::Done(end),
        })
    }

    ghost goes_on = { λ x. parameter_round x.angle };
}

// virtue's Generics::try_take
pub fn try_take(s: &[u8], c: Cursor, roles: &mut [u8]) -> Result<(Cursor, usize), Refusal>
    requires { InList s.now c }
    ensures { Meets s.now c roles.old roles.new (generics_shown result) (count_said result)
        (generics c.row (stream s.now c)) }
{
    if !stands_punct(s, c, b'<') {
        return Ok((c, 0));
    }
    let t = punct_at(s, c, b'<');
    let next = take_token(s, c, t, roles, role::ANGLE);
    every(&Parameters { angle: c.row }, s, next, roles)
}

// virtue's GenericConstraints::try_take
pub fn try_take_constraints(
    s: &[u8],
    c: Cursor,
    roles: &mut [u8],
) -> Result<(Option<Run>, Cursor), Refusal>
    requires { InList s.now c }
    ensures { Meets s.now c roles.old roles.new
        (clause_shown s.now (point s.now c) result) (clause_said result)
        (clause c.row (stream s.now c)) }
{
    let Peeked::Leaf(t) = peek(s, c) else {
        return Ok((None, c));
    };
    if !ident_eq(s, t, b"where") {
        return Ok((None, c));
    }
    let next = take_token(s, c, t, roles, role::WHERE_WORD);
    let stops = Stops {
        comma: false,
        angle: false,
        group: true,
    };
    let run = read_tokens_until_punct(s, next, roles, stops, role::WHERE_RUN)?;
    Ok((Some(run), run.to))
}
