// Visibility (virtue's parse/visibility.rs).
ghost use Rattle.std.specs.Prelude.{◌≡◌, ◌≤◌, length};
ghost use Rattle.token_list.specs.Contract.{InList, row_of};
ghost use Rattle.reading.specs.Reading.{scope_word, scoped, scope_after, any_scope, visibility};
ghost use Rattle.parse.specs.Contract.{Meets, on, any, stream, point, PubRead, visibility_shown};

use crate::role;
use crate::utils::{ident_eq, lone_ident, past, take_group, take_token};
use token_list::check::Cursor;
use token_list::stream::{Peeked, Token, look, peek};

// How `pub` stands: not at all, plain, or wrapped in a group. Three cases that are told apart alike, and no Option.
#[derive(Clone, Copy)]
pub enum PubWord {
    Absent,
    Plain,
    Wrapped,
}

// A visibility: how its `pub` stands, the cursor at which its scope is read, and the one after it.
#[derive(Clone, Copy)]
pub struct VisibilityAt {
    pub word: PubWord,
    pub scope: Cursor,
    pub next: Cursor,
}

// The same with the cursor past it, where it stands.
#[derive(Clone, Copy)]
pub enum PubStep {
    Absent,
    Plain(Cursor),
    Wrapped(Cursor),
}

// crate, self, super or in
fn is_scope_word(s: &[u8], t: Token) -> bool
    requires { t.end ≤ length s.now }
    ensures { result ≡ scope_word (row_of s.now t) }
{
    ident_eq(s, t, b"crate")
        || ident_eq(s, t, b"self")
        || ident_eq(s, t, b"super")
        || ident_eq(s, t, b"in")
}

// Whether the stream at c begins with a word of a scope.
fn is_scoped(s: &[u8], c: Cursor) -> bool
    requires { InList s.now c }
    ensures { result ≡ scoped (stream s.now c) }
{
    match peek(s, c) {
        Peeked::Nothing | Peeked::Group(_) => false,
        Peeked::Leaf(t) => is_scope_word(s, t),
    }
}

// The scope that may follow a plain `pub`.
fn scope_after(s: &[u8], c: Cursor, roles: &mut [u8]) -> Cursor
    requires { InList s.now c }
    ensures { Meets s.now c roles.old roles.new any (on result)
        (scope_after c.row (stream s.now c)) }
{
    match peek(s, c) {
        Peeked::Nothing | Peeked::Leaf(_) => c,
        Peeked::Group(t) => {
            if t.byte == b'(' && is_scoped(s, past(s, c, t)) {
                take_group(s, c, t, roles, role::SCOPE)
            } else {
                c
            }
        }
    }
}

// The group that may follow a wrapped `pub`.
fn any_scope(s: &[u8], c: Cursor, roles: &mut [u8]) -> Cursor
    requires { InList s.now c }
    ensures { Meets s.now c roles.old roles.new any (on result)
        (any_scope c.row (stream s.now c)) }
{
    match peek(s, c) {
        Peeked::Nothing | Peeked::Leaf(_) => c,
        Peeked::Group(t) => take_group(s, c, t, roles, role::SCOPE),
    }
}

// Takes a visibility where one stands (virtue's Visibility::try_take): for those who ask only where it
// ends. A look tells most tokens apart from a visibility; the cursor is then made anew from its two
// numbers: copied, it was loaded before the stores of its halves were done, and empty types took one and a
// half times as long (docs/PERFORMANCE.md).
pub fn try_take(s: &[u8], c: Cursor, roles: &mut [u8]) -> Cursor
    requires { InList s.now c }
    ensures { Meets s.now c roles.old roles.new any (on result)
        (visibility c.row (stream s.now c)) }
{
    let l = look(s, c);
    if l.kind != b'o' && l.first != b'p' {
        return Cursor {
            at: c.at,
            row: c.row,
        };
    }
    try_take_at(s, c, roles).next
}

// A visibility with how its `pub` stands and where its scope is read.
pub fn try_take_at(s: &[u8], c: Cursor, roles: &mut [u8]) -> VisibilityAt
    requires { InList s.now c }
    ensures { Meets s.now c roles.old roles.new
        (visibility_shown s.now (point s.now c) result) (on result.next)
        (visibility c.row (stream s.now c)) }
{
    match pub_word(s, c, roles) {
        PubStep::Absent => VisibilityAt {
            word: PubWord::Absent,
            scope: c,
            next: c,
        },
        PubStep::Plain(scope) => {
            let next = scope_after(s, scope, roles);
            VisibilityAt {
                word: PubWord::Plain,
                scope,
                next,
            }
        }
        PubStep::Wrapped(scope) => {
            let next = any_scope(s, scope, roles);
            VisibilityAt {
                word: PubWord::Wrapped,
                scope,
                next,
            }
        }
    }
}

// Takes a `pub`, plain or wrapped, where one stands.
fn pub_word(s: &[u8], c: Cursor, roles: &mut [u8]) -> PubStep
    requires { InList s.now c }
    ensures { PubRead s.now c roles.old roles.new result }
{
    match peek(s, c) {
        Peeked::Nothing => PubStep::Absent,
        Peeked::Leaf(t) => {
            if !ident_eq(s, t, b"pub") {
                return PubStep::Absent;
            }
            PubStep::Plain(take_token(s, c, t, roles, role::VISIBILITY))
        }
        Peeked::Group(t) => {
            let inside = past(s, c, t);
            let Some(w) = lone_ident(s, inside) else {
                return PubStep::Absent;
            };
            if !ident_eq(s, w.token, b"pub") {
                return PubStep::Absent;
            }
            PubStep::Wrapped(take_group(s, c, t, roles, role::VISIBILITY))
        }
    }
}
