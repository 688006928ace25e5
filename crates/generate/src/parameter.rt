// One parameter written as rows (virtue's parse/generics.rs: what its enum Generic appends).
ghost use Rattle.std.specs.Prelude.{◌≡◌, [], ◌∷◌};
ghost use Rattle.reading.specs.Declaration.{Parameter};
ghost use Rattle.writing.specs.Generics.{parameter_rows, sent_parameter, parted};
ghost use Rattle.generate.specs.Contract.{Appended, Part, RunWritten, constrained, constraints_of, is_const};
ghost use Rattle.generate.specs.Contract.{ParameterIn, NameIn, name_rows, goes_out};

use crate::stream_builder::ListBuilder;
use parse::generics::{ParameterAt, ParameterKind, RunPart, is_lifetime};
use parse::runs::Run;
use token_list::check::Cursor;
use token_list::stream::Token;

// Where constraints stand in the list that was read, which it doesn't hold (`token_list::check::Cursor` says why).
#[derive(Clone, Copy)]
pub struct ConstraintsAt {
    pub from: Cursor,
    pub to: Cursor,
}

// `:` and the run of the list s, where it is not empty, or always.
fn put_constraints(b: &mut ListBuilder, s: &[u8], at: ConstraintsAt, always: bool)
    requires { Part s.now at.from at.to }
    ensures { RunWritten s.now at.from at.to b.old b.new (constrained always) }
{
    if always || at.from.row < at.to.row {
        b.punct(b':');
        b.extend(s, at.from, at.to);
    }
}

// virtue's Generic::constraints; a default is none of them, and where there are none an empty part
// stands for them.
fn constraints(part: RunPart, run: Run, next: Cursor) -> ConstraintsAt
    ensures { result ≡ constraints_of part run next }
{
    match part {
        RunPart::Bound => ConstraintsAt {
            from: run.from,
            to: run.to,
        },
        RunPart::Absent | RunPart::Default => ConstraintsAt {
            from: next,
            to: next,
        },
    }
}

fn is_const(kind: ParameterKind) -> bool
    ensures { result ≡ is_const kind }
{
    matches!(kind, ParameterKind::Const)
}

// A parameter's name, with the `'` of a lifetime.
fn append_name(b: &mut ListBuilder, s: &[u8], kind: ParameterKind, name: Token)
    requires { (a : Parameter) × NameIn s.now kind name a }
    ensures { (a : Parameter) → NameIn s.now kind name a → Appended b.old b.new (name_rows a) }
{
    if is_lifetime(kind) {
        b.lifetime(s, name);
    } else {
        b.ident(s, name);
    }
}

// virtue's Generic::append_to_result_with_constraints
fn append_to_result_with_constraints(b: &mut ListBuilder, s: &[u8], p: ParameterAt)
    requires { (a : Parameter) × ParameterIn s.now p a }
    ensures { (a : Parameter) → ParameterIn s.now p a →
        Appended b.old b.new (parameter_rows (sent_parameter a)) }
{
    let constant = is_const(p.kind);
    if constant {
        b.ident_str(b"const");
    }
    append_name(b, s, p.kind, p.name);
    put_constraints(b, s, constraints(p.part, p.run, p.next), constant);
}

// A parameter, or its name alone, behind a `,`, the first parameter apart.
pub fn add_parameter(b: &mut ListBuilder, s: &[u8], p: ParameterAt, names: bool, first: bool)
    requires { (a : Parameter) × ParameterIn s.now p a }
    ensures { (a : Parameter) → ParameterIn s.now p a →
        Appended b.old b.new (parted first (goes_out names a ∷ [])) }
{
    b.part(first);
    if names {
        append_name(b, s, p.kind, p.name);
    } else {
        append_to_result_with_constraints(b, s, p);
    }
}
