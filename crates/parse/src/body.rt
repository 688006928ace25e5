// Bodies (virtue's parse/body.rs: StructBody and EnumBody).
ghost use Rattle.token_list.specs.Contract.{InList};
ghost use Rattle.reading.specs.Reading.{struct_body_lem, enum_body};
ghost use Rattle.parse.specs.Contract.{Meets, stream, count_said, body_shown_lem};

use crate::fields::{named_group, tuple_group};
use crate::role;
use crate::utils::{is_punct, take_token};
use crate::variants::variants_group;
use token_list::check::{Cursor, END, Refusal};
use token_list::refusal;
use token_list::stream::{Peeked, peek};

// virtue's StructBody::take
pub fn take_struct(s: &[u8], c: Cursor, roles: &mut [u8]) -> Result<(Cursor, usize), Refusal>
    requires { InList s.now c }
    ensures { Meets s.now c roles.old roles.new (body_shown_lem result) (count_said result)
        (struct_body_lem c.row (stream s.now c)) }
{
    match peek(s, c) {
        Peeked::Nothing => Err(Refusal {
            number: refusal::NO_STRUCT_BODY,
            place: END,
        }),
        Peeked::Leaf(t) => {
            if !is_punct(t, b';') {
                return Err(Refusal {
                    number: refusal::NO_STRUCT_BODY,
                    place: c.row,
                });
            }
            let next = take_token(s, c, t, roles, role::DELIMITER);
            Ok((next, 0))
        }
        Peeked::Group(t) => {
            if t.byte == b'{' {
                return named_group(s, c, t, roles);
            }
            if t.byte == b'(' {
                return tuple_group(s, c, t, roles);
            }
            Err(Refusal {
                number: refusal::STRUCT_DELIMITER,
                place: c.row,
            })
        }
    }
}

// virtue's EnumBody::take
pub fn take_enum(s: &[u8], c: Cursor, roles: &mut [u8]) -> Result<(Cursor, usize), Refusal>
    requires { InList s.now c }
    ensures { Meets s.now c roles.old roles.new (body_shown_lem result) (count_said result)
        (enum_body c.row (stream s.now c)) }
{
    match peek(s, c) {
        Peeked::Nothing => Err(Refusal {
            number: refusal::NO_ENUM_BODY,
            place: END,
        }),
        Peeked::Leaf(t) => {
            if !is_punct(t, b';') {
                return Err(Refusal {
                    number: refusal::NO_ENUM_BODY,
                    place: c.row,
                });
            }
            let next = take_token(s, c, t, roles, role::DELIMITER);
            Ok((next, 0))
        }
        Peeked::Group(t) => variants_group(s, c, t, roles),
    }
}
