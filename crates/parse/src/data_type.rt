// The item's word and name (virtue's parse/data_type.rs).
ghost use Rattle.token_list.specs.Contract.{InList};
ghost use Rattle.reading.specs.Reading.{data_type};
ghost use Rattle.parse.specs.Contract.{Meets, stream, item_word, kind_shown, kind_said, head_shown, head_said};

use crate::role;
use crate::utils::{PlacedName, consume_ident, wrong_token};
use token_list::check::{Cursor, Refusal};
use token_list::refusal;
use token_list::text::text_is;

#[derive(Clone, Copy, Debug, PartialEq, Eq)]
pub enum DataType {
    Struct,
    Enum,
}

// What kind of item it is, and its name.
#[derive(Clone, Copy)]
pub struct Head {
    pub kind: DataType,
    pub name: PlacedName,
}

// `struct` or `enum`, and the cursor after it.
fn item_word(s: &[u8], c: Cursor, roles: &mut [u8]) -> Result<(DataType, Cursor), Refusal>
    requires { InList s.now c }
    ensures { Meets s.now c roles.old roles.new (kind_shown result) (kind_said result)
        (item_word c.row (stream s.now c)) }
{
    let Some(w) = consume_ident(s, c, roles, role::ITEM_WORD) else {
        return Err(wrong_token(s, c, refusal::NO_WORD));
    };
    let t = w.token;
    if text_is(s, t.start, t.end, b"struct") {
        return Ok((DataType::Struct, w.next));
    }
    if text_is(s, t.start, t.end, b"enum") {
        return Ok((DataType::Enum, w.next));
    }
    Err(Refusal {
        number: refusal::OTHER_ITEM_WORD,
        place: w.row,
    })
}

// virtue's DataType::take
pub fn take(s: &[u8], c: Cursor, roles: &mut [u8]) -> Result<Head, Refusal>
    requires { InList s.now c }
    ensures { Meets s.now c roles.old roles.new (head_shown s.now c result)
        (head_said result) (data_type c.row (stream s.now c)) }
{
    let (kind, d) = item_word(s, c, roles)?;
    let Some(w) = consume_ident(s, d, roles, role::ITEM_NAME) else {
        return Err(wrong_token(s, d, refusal::NO_WORD));
    };
    let name = PlacedName {
        token: w.token,
        place: d.row,
        next: w.next,
    };
    Ok(Head { kind, name })
}
