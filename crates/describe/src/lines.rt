// The lines of a listing.
ghost use Rattle.std.specs.Prelude.{◌≡◌, [], ◌∷◌, ◌++◌, ◌≤◌, length};
ghost use Rattle.std.proofs.Math.Seq.{slice};
ghost use Rattle.token_list.specs.Byte.{SPACE, LF};
ghost use Rattle.output.specs.Text.{decimal};
ghost use Rattle.output.specs.Writes.{Writes};
ghost use Rattle.reading.specs.Declaration.{Parameter, Variant, Declaration};
ghost use Rattle.parse.specs.Contract.{VariantOf, ParameterOf, ItemOf};
ghost use Rattle.describe.specs.Listing.{FIELD, DASH, line, number_text, parameter_line};
ghost use Rattle.describe.specs.Listing.{variant_line, item_lines};

use crate::value::put_negative;
use output::writer::Writer;
use parse::data_type::DataType;
use parse::generics::{ParameterAt, is_lifetime};
use parse::item::ItemAt;
use parse::variants::VariantAt;
use token_list::stream::Token;

// The text of a token.
pub fn text(s: &[u8], t: Token) -> &[u8]
    requires { t.end ≤ length s.now }
    ensures { result.now ≡ slice t.start t.end s.now }
{
    &s[t.start.min(t.end)..t.end]
}

// A part and a name.
fn put_head(w: &mut Writer, s: &[u8], part: &[u8], name: Token)
    requires { name.end ≤ length s.now }
    ensures { Writes w.old w.new (part.now ++ slice name.start name.end s.now) }
{
    w.bytes(part);
    w.bytes(text(s, name));
}

// A number that is a count or a position, and the line's end.
fn put_position(w: &mut Writer, n: usize)
    ensures { Writes w.old w.new (SPACE ∷ (decimal n ++ LF ∷ [])) }
{
    w.byte(b' ');
    w.number(n);
    w.byte(b'\n');
}

pub fn put_named(w: &mut Writer, s: &[u8], name: Token, n: usize)
    requires { name.end ≤ length s.now }
    ensures { Writes w.old w.new (line FIELD (slice name.start name.end s.now) (decimal n)) }
{
    put_head(w, s, b"field ", name);
    put_position(w, n);
}

pub fn put_unnamed(w: &mut Writer, n: usize)
    ensures { Writes w.old w.new (line FIELD DASH (decimal n)) }
{
    w.bytes(b"field -");
    put_position(w, n);
}

// A number in decimal.
fn put_integer(w: &mut Writer, n: i64)
    ensures { Writes w.old w.new (number_text n) }
{
    let size = n.unsigned_abs() as usize;
    if n < 0 {
        put_negative(w, size);
    } else {
        w.number(size);
    }
}

// A variant's own line, with its number.
pub fn put_variant(w: &mut Writer, s: &[u8], v: VariantAt, n: i64)
    requires { (a : Variant) × VariantOf s.now v a }
    ensures { (a : Variant) → VariantOf s.now v a → Writes w.old w.new (variant_line n a) }
{
    put_head(w, s, b"variant ", v.name);
    w.byte(b' ');
    put_integer(w, n);
    w.byte(b'\n');
}

pub fn put_parameter(w: &mut Writer, s: &[u8], p: ParameterAt)
    requires { (a : Parameter) × ParameterOf s.now p.kind p.name a }
    ensures { (a : Parameter) → ParameterOf s.now p.kind p.name a →
        Writes w.old w.new (parameter_line 0 a) }
{
    let part: &[u8] = if is_lifetime(p.kind) {
        b"param '"
    } else {
        b"param "
    };
    put_head(w, s, part, p.name);
    w.bytes(b" -\n");
}

// The item's line, after the line of names.
pub fn put_item(w: &mut Writer, s: &[u8], d: ItemAt)
    requires { (x : Declaration) × ItemOf s.now d x }
    ensures { (x : Declaration) → ItemOf s.now d x → Writes w.old w.new (item_lines x) }
{
    let part: &[u8] = match d.kind {
        DataType::Struct => b"struct ",
        DataType::Enum => b"enum ",
    };
    w.bytes(b"part name number\n");
    put_head(w, s, part, d.name.token);
    put_position(w, d.count);
}
