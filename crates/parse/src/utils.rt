// Words and punctuation (virtue's parse/utils.rs), and the marking of roles.
ghost use Rattle.std.specs.Prelude.{◌≡◌, Bool, true, false, ◌&&◌, ◌-◌, ◌≤◌, eqb, length, set, replicate, is_some};
ghost use Rattle.std.specs.Prelude.{unwrap_or};
ghost use Rattle.std.proofs.lemmas.List.Edits.{sets};
ghost use Rattle.token_list.specs.Layout.{PUNCT};
ghost use Rattle.token_list.specs.Row.{mark_fits};
ghost use Rattle.token_list.specs.Stream.{at, head, follows};
ghost use Rattle.token_list.specs.Contract.{InList, TokenAt, GroupAt, row_of};
ghost use Rattle.reading.specs.Role.{none};
ghost use Rattle.reading.specs.Took.{place_of};
ghost use Rattle.reading.specs.Token.{starts};
ghost use Rattle.reading.specs.Reading.{is_punct, is_word, copied, word, punct_if};
ghost use Rattle.parse.specs.Contract.{Moved, Meets, on, stream, past_of, word_said, word_shown, lone_shown};

use crate::role::NONE;
use token_list::check::{Cursor, END, Refusal};
use token_list::stream::{Peeked, Token, has_punct, look, peek, punct_at, skip};
use token_list::text::text_is;

// What stands where things of one kind are read: one of them, or their end, which says from where to go on. The end is
// no error, so it is no Result, whose `?` would hand it on.
#[derive(Clone, Copy)]
pub enum Next<T, E> {
    One(T),
    Done(E),
}

// A word: the ident's token and row, which is not the row where the word begins where it is wrapped,
// and the cursor past it and what wraps it.
#[derive(Clone, Copy)]
pub struct Word {
    pub token: Token,
    pub row: usize,
    pub next: Cursor,
}

// A word that is a name: its token, the row where it begins, and the cursor past it.
#[derive(Clone, Copy)]
pub struct PlacedName {
    pub token: Token,
    pub place: usize,
    pub next: Cursor,
}

// One role byte, where the buffer has it.
pub fn set_role(roles: &mut [u8], row: usize, role: u8)
    ensures { roles.new ≡ set roles.old row role }
{
    if row < roles.len() {
        roles[row] = role;
    }
}

// The same role for the rows from `from` up to `to`, where the buffer has bytes for them.
pub fn fill(roles: &mut [u8], from: usize, to: usize, role: u8)
    ensures { roles.new ≡ sets roles.old from (replicate (to - from) role) }
{
    let end = to.min(roles.len());
    if from < end {
        roles[from..end].fill(role);
    }
}

// Behind the last role, in the row before `end`: `role` for the list's other rows, then no role.
pub fn fill_rest(roles: &mut [u8], end: usize, rows: usize, role: u8)
    ensures { roles.new ≡ sets (sets roles.old end (replicate (rows - end) role)) rows
        (replicate (length roles.old - rows) none) }
{
    fill(roles, end, rows, role);
    let len = roles.len();
    fill(roles, rows, len, NONE);
}

// Past a token's own row.
pub fn past(s: &[u8], c: Cursor, t: Token) -> Cursor
    requires in_list { InList s.now c }
    requires token_at { TokenAt s.now c.at t }
    ensures { result ≡ past_of c t }
{
    Cursor {
        at: t.next,
        row: c.row + 1,
    }
}

// Takes the token at c.
pub fn take_token(s: &[u8], c: Cursor, t: Token, roles: &mut [u8], role: u8) -> Cursor
    requires in_list { InList s.now c }
    requires token_at { TokenAt s.now c.at t }
    ensures value { result ≡ past_of c t }
    ensures roles_after { roles.new ≡ set roles.old c.row role }
{
    set_role(roles, c.row, role);
    past(s, c, t)
}

// Takes the group that opens at c, with all its rows.
pub fn take_group(s: &[u8], c: Cursor, t: Token, roles: &mut [u8], role: u8) -> Cursor
    requires in_list { InList s.now c }
    requires group_at { GroupAt s.now c.at t }
    ensures { Moved s.now c result (copied role (at s.now t.next).here)
        (head (at s.now t.next).outer) roles.old roles.new }
{
    let end = skip(s, past(s, c, t));
    fill(roles, c.row, end.row, role);
    end
}

// A refusal at what stands at c, or with the end mark (virtue's Error::wrong_token).
pub fn wrong_token(s: &[u8], c: Cursor, number: u8) -> Refusal
    requires { InList s.now c }
    ensures { (result.number ≡ number) × (result.place ≡ place_of c.row (stream s.now c)) }
{
    let place = if look(s, c).kind == 0 { END } else { c.row };
    Refusal { number, place }
}

pub fn is_punct(t: Token, b: u8) -> bool
    ensures { result ≡ (eqb t.kind PUNCT && eqb t.byte b) }
{
    t.kind == b'p' && t.byte == b
}

// Whether the token is an ident with this text.
pub fn ident_eq(s: &[u8], t: Token, text: &[u8]) -> bool
    requires { t.end ≤ length s.now }
    ensures { result ≡ is_word text.now (row_of s.now t) }
{
    t.kind == b'i' && text_is(s, t.start, t.end, text)
}

// The ident that stands alone in the stream at `inside`.
pub fn lone_ident(s: &[u8], inside: Cursor) -> Option<Word>
    requires in_list { InList s.now inside }
    requires at_value { follows (at s.now inside.at).outer ≡ true }
    ensures { lone_shown s.now inside result }
{
    match peek(s, inside) {
        Peeked::Nothing | Peeked::Group(_) => None,
        Peeked::Leaf(t) => {
            if t.kind != b'i' {
                return None;
            }
            let next = past(s, inside, t);
            match peek(s, next) {
                Peeked::Leaf(_) | Peeked::Group(_) => None,
                Peeked::Nothing => Some(Word {
                    token: t,
                    row: inside.row,
                    next: skip(s, next),
                }),
            }
        }
    }
}

pub fn consume_ident(s: &[u8], c: Cursor, roles: &mut [u8], role: u8) -> Option<Word>
    requires { InList s.now c }
    ensures { Meets s.now c roles.old roles.new (word_shown s.now c result)
        (word_said c result) (word role c.row (stream s.now c)) }
{
    match peek(s, c) {
        Peeked::Nothing => None,
        Peeked::Leaf(t) => {
            if t.kind != b'i' {
                return None;
            }
            let next = take_token(s, c, t, roles, role);
            Some(Word {
                token: t,
                row: c.row,
                next,
            })
        }
        Peeked::Group(t) => {
            let w = lone_ident(s, past(s, c, t))?;
            fill(roles, c.row, w.next.row, role);
            Some(w)
        }
    }
}

// Whether the token at c is this punctuation.
pub fn stands_punct(s: &[u8], c: Cursor, b: u8) -> bool
    requires in_list { InList s.now c }
    requires b_value { mark_fits PUNCT b ≡ false }
    ensures { result ≡ starts (is_punct b) (stream s.now c) }
{
    has_punct(s, c, b)
}

// The cursor past this punctuation, where it stands and was taken.
pub fn consume_punct_if(
    s: &[u8],
    c: Cursor,
    roles: &mut [u8],
    punct: u8,
    role: u8,
) -> Option<Cursor>
    requires in_list { InList s.now c }
    requires punct_value { mark_fits PUNCT punct ≡ false }
    ensures meets { Meets s.now c roles.old roles.new (λ (v : Bool). is_some result ≡ v)
        (on (unwrap_or result c)) (punct_if punct role c.row (stream s.now c)) }
    ensures taken_value { is_some result ≡ starts (is_punct punct) (stream s.now c) }
{
    if !stands_punct(s, c, punct) {
        return None;
    }
    let t = punct_at(s, c, punct);
    Some(take_token(s, c, t, roles, role))
}
