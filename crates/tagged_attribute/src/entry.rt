// One entry of a tagged attribute. It is read without a role buffer, so that whoever wants the entries as data reads
// them here too.
ghost use Rattle.std.specs.Prelude.{◌+◌};
ghost use Rattle.token_list.specs.Contract.{InList};
ghost use Rattle.parse.specs.Contract.{stream, TokenIn};
ghost use Rattle.tagged_reading.specs.Entry.{property};
ghost use Rattle.tagged_reading.specs.Reading.{entries, keyed, valued, separated};
ghost use Rattle.tagged_attribute.specs.Contract.{Onward, EntryRead, token_text};

use parse::utils::{is_punct, past};
use token_list::check::{Cursor, Refusal};
use token_list::refusal;
use token_list::stream::{Peeked, Token, peek, skip};

// Where a tag stands, and the cursor after its `,`.
#[derive(Clone, Copy)]
pub struct TagAt {
    pub tag: Token,
    pub next: Cursor,
}

// Where a property's key and literal stand, and the cursor after its `,`.
#[derive(Clone, Copy)]
pub struct PropertyAt {
    pub key: Token,
    pub literal: Token,
    pub next: Cursor,
}

// What stands at a cursor: a tag; a property; or a key without a literal, which adds nothing, and the cursor after it
// and the token that is lost.
#[derive(Clone, Copy)]
pub enum EntryAt {
    Tag(TagAt),
    Property(PropertyAt),
    Lost(Cursor),
}

// One entry from c on, with the `,` after it; None at the end.
pub fn entry(s: &[u8], c: Cursor) -> Result<Option<EntryAt>, Refusal>
    requires { InList s.now c }
    ensures { EntryRead s.now c (entries c.row (stream s.now c)) result }
{
    match peek(s, c) {
        Peeked::Nothing => Ok(None),
        Peeked::Leaf(k) if k.kind == b'i' => keyed(s, c, k, past(s, c, k)),
        Peeked::Leaf(_) | Peeked::Group(_) => Err(Refusal {
            number: refusal::NO_ENTRY,
            place: c.row,
        }),
    }
}

// After the key k at c: what stands at d decides what it is. Here and below the facts on a token and two cursors are of
// the list that all share, which none of them holds (`token_list::check::Cursor` says why).
fn keyed(s: &[u8], c: Cursor, k: Token, d: Cursor) -> Result<Option<EntryAt>, Refusal>
    requires token_in { TokenIn s.now c.row k }
    requires onward { Onward s.now c d 1 }
    ensures { EntryRead s.now c
        (keyed c.row (token_text s.now k) (stream s.now d)) result }
{
    match peek(s, d) {
        Peeked::Nothing => Ok(Some(EntryAt::Tag(TagAt { tag: k, next: d }))),
        Peeked::Leaf(p) if is_punct(p, b',') => Ok(Some(EntryAt::Tag(TagAt {
            tag: k,
            next: past(s, d, p),
        }))),
        Peeked::Leaf(p) if is_punct(p, b'=') => valued(s, c, k, past(s, d, p)),
        Peeked::Leaf(_) | Peeked::Group(_) => Err(Refusal {
            number: refusal::NO_ENTRY,
            place: c.row,
        }),
    }
}

// After `key =`, at v. A token that is no literal is lost.
#[tactic(auto, using(parse::proofs::Meeting::past_in_of))]
fn valued(s: &[u8], c: Cursor, k: Token, v: Cursor) -> Result<Option<EntryAt>, Refusal>
    requires token_in { TokenIn s.now c.row k }
    requires onward { Onward s.now c v 2 }
    ensures { EntryRead s.now c
        (valued c.row (token_text s.now k) (stream s.now v)) result }
{
    match peek(s, v) {
        Peeked::Nothing => Ok(Some(EntryAt::Lost(v))),
        Peeked::Group(g) => Ok(Some(EntryAt::Lost(skip(s, past(s, v, g))))),
        Peeked::Leaf(l) if l.kind == b'l' => separated(s, c, k, l, past(s, v, l)),
        Peeked::Leaf(l) => Ok(Some(EntryAt::Lost(past(s, v, l)))),
    }
}

// After `key = literal`, at d: a `,` or the end.
fn separated(s: &[u8], c: Cursor, k: Token, l: Token, d: Cursor) -> Result<Option<EntryAt>, Refusal>
    requires token_in { TokenIn s.now c.row k }
    requires token_in_2 { TokenIn s.now (c.row + 2) l }
    requires onward { Onward s.now c d 3 }
    ensures { EntryRead s.now c (separated c.row
        (property (token_text s.now k) (token_text s.now l)) (stream s.now d)) result }
{
    let next = match peek(s, d) {
        Peeked::Nothing => d,
        Peeked::Leaf(p) if is_punct(p, b',') => past(s, d, p),
        Peeked::Leaf(_) | Peeked::Group(_) => {
            return Err(Refusal {
                number: refusal::NO_ENTRY_COMMA,
                place: d.row,
            });
        }
    };
    Ok(Some(EntryAt::Property(PropertyAt {
        key: k,
        literal: l,
        next,
    })))
}
