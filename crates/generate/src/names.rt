// Added names: the lines of a text.
ghost use Rattle.std.specs.Prelude.{◌≡◌, [], ◌∷◌, map, ◌<◌, length};
ghost use Rattle.writing.specs.Generics.{parted};
ghost use Rattle.output.specs.Contract.{Put};
ghost use Rattle.writing.specs.Names.{names_of, right_names, name_line};
ghost use Rattle.generate.specs.Contract.{NameEnd, Appended, added, GatheredAs};

use crate::stream_builder::ListBuilder;
use output::writer::Writer;
use token_list::layout::MAX_TEXT;
use token_list::row::is_plain_name;

// Where the name at `from` ends: at an LF, or with the text.
pub fn name_end(text: &[u8], from: usize) -> usize
    requires { from < length text.now }
    ensures { NameEnd text.now from result }
{
    for i in from..text.len() {
        if text[i] == b'\n' {
            return i;
        }
    }
    text.len()
}

// Whether every name is an `i` text of at most 255 bytes without `r#`.
// Here and below no `split`: it gives one name more, an empty one, of an empty text and behind a last LF.
pub fn right_names(text: &[u8]) -> bool
    ensures { result ≡ right_names (names_of text.now) }
{
    let mut i = 0;
    while i < text.len() {
        let end = name_end(text, i);
        if !is_plain_name(text, i, end) || MAX_TEXT < end - i {
            return false;
        }
        i = end + 1;
    }
    true
}

// A name, as a lifetime or a type without bounds, behind a `,`, the first parameter apart.
fn add_name(b: &mut ListBuilder, name: &[u8], lifetime: bool, first: bool)
    ensures { Appended b.old b.new (parted first (added lifetime name.now ∷ [])) }
{
    b.part(first);
    if lifetime {
        b.lifetime_str(name);
    } else {
        b.ident_str(name);
    }
}

// All names of a text.
pub fn add_names(b: &mut ListBuilder, text: &[u8], lifetimes: bool, first: bool)
    ensures { Appended b.old b.new (parted first (map (added lifetimes) (names_of text.now))) }
{
    let mut leading = first;
    let mut i = 0;
    while i < text.len() {
        let end = name_end(text, i);
        add_name(b, &text[i..end], lifetimes, leading);
        leading = false;
        i = end + 1;
    }
}

// How long two texts of added names are, lifetimes and types.
#[derive(Clone, Copy, Debug, PartialEq, Eq)]
pub struct Gathered {
    pub lifetimes: usize,
    pub types: usize,
}

// A name as the next line of a text. One with an LF would be two: an empty line, which is no right
// name, stands for it.
fn put_line(text: &mut [u8], at: usize, name: &[u8]) -> usize
    ensures { Put text.old text.new at result (name_line name.now) }
{
    let mut w = Writer { out: text, at };
    if name.contains(&b'\n') {
        w.byte(b'\n');
        return w.at;
    }
    w.bytes(name);
    w.byte(b'\n');
    w.at
}

// Adds a program's argument: one that begins with `'` is a lifetime, any other a type.
pub fn add_argument(arg: &[u8], lifetimes: &mut [u8], types: &mut [u8], at: Gathered) -> Gathered
    ensures { GatheredAs arg.now lifetimes.old lifetimes.new
        types.old types.new at result }
{
    match arg {
        [b'\'', name @ ..] => Gathered {
            lifetimes: put_line(lifetimes, at.lifetimes, name),
            ..at
        },
        _ => Gathered {
            types: put_line(types, at.types, arg),
            ..at
        },
    }
}
