// Attributes (virtue's parse/attributes.rs).
ghost use Rattle.std.specs.Prelude.{◌≡◌, true};
ghost use Rattle.token_list.specs.Byte.{HASH};
ghost use Rattle.token_list.specs.Contract.{InList};
ghost use Rattle.reading.specs.Token.{starts};
ghost use Rattle.reading.specs.Reading.{is_punct, attributes};
ghost use Rattle.parse.specs.Contract.{Meets, any, stream, step_said, AttributeRead, HashRead};

use crate::role;
use crate::utils::{is_punct, past, set_role, stands_punct, take_group};
use token_list::check::{Cursor, END, Refusal};
use token_list::refusal;
use token_list::stream::{Peeked, Token, peek, punct_at};

// A `#`: whether it is an idle mark, the token after it, which is its group's opening row or the next
// `#`, and the cursor from which to go on.
#[derive(Clone, Copy)]
pub struct AttributeAt {
    pub idle: bool,
    pub token: Token,
    pub next: Cursor,
}

// One `#` with its group, or an idle one; none where no `#` stands.
pub fn attribute(s: &[u8], c: Cursor, roles: &mut [u8]) -> Result<Option<AttributeAt>, Refusal>
    requires { InList s.now c }
    ensures { AttributeRead s.now c roles.old roles.new result }
{
    if !stands_punct(s, c, b'#') {
        return Ok(None);
    }
    Ok(Some(after_hash(s, c, roles)?))
}

// The `#` at c, where a look has found it.
fn after_hash(s: &[u8], c: Cursor, roles: &mut [u8]) -> Result<AttributeAt, Refusal>
    requires in_list { InList s.now c }
    requires c_value { starts (is_punct HASH) (stream s.now c) ≡ true }
    ensures { HashRead s.now c roles.old roles.new result }
{
    let hash = punct_at(s, c, b'#');
    let next = past(s, c, hash);
    match peek(s, next) {
        Peeked::Nothing => Err(Refusal {
            number: refusal::NO_ATTRIBUTE,
            place: END,
        }),
        Peeked::Leaf(t) => {
            if !is_punct(t, b'#') {
                return Err(Refusal {
                    number: refusal::NO_ATTRIBUTE,
                    place: next.row,
                });
            }
            set_role(roles, c.row, role::IDLE_MARK);
            Ok(AttributeAt {
                idle: true,
                token: t,
                next,
            })
        }
        Peeked::Group(g) => {
            if g.byte != b'[' {
                return Err(Refusal {
                    number: refusal::ATTRIBUTE_DELIMITER,
                    place: next.row,
                });
            }
            set_role(roles, c.row, role::ATTRIBUTE_MARK);
            let after = take_group(s, next, g, roles, role::ATTRIBUTE_GROUP);
            Ok(AttributeAt {
                idle: false,
                token: g,
                next: after,
            })
        }
    }
}

// As many attributes as stand there (virtue's Attribute::try_take).
pub fn try_take(s: &[u8], from: Cursor, roles: &mut [u8]) -> Result<Cursor, Refusal>
    requires { InList s.now from }
    ensures { Meets s.now from roles.old roles.new any (step_said result)
        (attributes from.row (stream s.now from)) }
{
    let mut c = from;
    while let Some(a) = attribute(s, c, roles)? {
        c = a.next;
    }
    Ok(c)
}
