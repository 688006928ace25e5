// The item (virtue's parse/mod.rs).
ghost use Rattle.std.specs.Prelude.{◌≡◌, ◌-◌, ◌≤◌, length, replicate, Err};
ghost use Rattle.token_list.specs.Check as list;
ghost use Rattle.token_list.specs.Contract.{InList};
ghost use Rattle.reading.specs.Role as role;
ghost use Rattle.reading.specs.Reading.{Head, item, body_of};
ghost use Rattle.reading.specs.Promise.{SingleAssignment};
ghost use Rattle.parse.specs.Contract.{Meets, stream, Prefix, HeadOf, body_shown_lem, count_said, parts_after, kind_of};
ghost use Rattle.parse.specs.Contract.{parts_shown, item_shown, item_said, Answered, accepted};

use crate::body::{take_enum, take_struct};
use crate::data_type::DataType;
use crate::runs::Run;
use crate::utils::{PlacedName, fill, fill_rest};
use crate::{attributes, data_type, generics, role, visibility};
use token_list::check::{Cursor, END, Refusal, check, start};
use token_list::refusal;

// What was read: where the visibility is read (the attributes are where the item begins), the kind, the
// name, past which the generics are read, how many parameters and fields or variants there are, its where
// clause, the cursor at which its body is read, and where it ended.
#[derive(Clone, Copy)]
pub struct ItemAt {
    pub visibility: Cursor,
    pub kind: DataType,
    pub name: PlacedName,
    pub parameters: usize,
    pub count: usize,
    pub clause: Option<Run>,
    pub body: Cursor,
    pub next: Cursor,
}

fn body(s: &[u8], c: Cursor, roles: &mut [u8], kind: DataType) -> Result<(Cursor, usize), Refusal>
    requires { InList s.now c }
    ensures { Meets s.now c roles.old roles.new (body_shown_lem result) (count_said result)
        (body_of (kind_of kind) c.row (stream s.now c)) }
{
    match kind {
        DataType::Struct => take_struct(s, c, roles),
        DataType::Enum => take_enum(s, c, roles),
    }
}

// The parts after the name.
fn parts(
    s: &[u8],
    visibility: Cursor,
    kind: DataType,
    name: PlacedName,
    roles: &mut [u8],
) -> Result<ItemAt, Refusal>
    requires { InList s.now name.next }
    ensures { (x : Cursor) (p : Prefix) (h : Head) → HeadOf s.now x visibility kind name p h →
        Meets s.now name.next roles.old roles.new
        (parts_shown s.now x result) (item_said result)
        (parts_after p h name.next.row (stream s.now name.next)) }
{
    let (d, parameters) = generics::try_take(s, name.next, roles)?;
    let (clause, e) = generics::try_take_constraints(s, d, roles)?;
    let (next, count) = body(s, e, roles, kind)?;
    Ok(ItemAt {
        visibility,
        kind,
        name,
        parameters,
        count,
        clause,
        body: e,
        next,
    })
}

// One item from c on; it says where its parts stand and where it ended.
pub fn item(s: &[u8], c: Cursor, roles: &mut [u8]) -> Result<ItemAt, Refusal>
    requires { InList s.now c }
    ensures { Meets s.now c roles.old roles.new (item_shown s.now c result)
        (item_said result) (item c.row (stream s.now c)) }
{
    let visibility = attributes::try_take(s, c, roles)?;
    let d = visibility::try_take(s, visibility, roles);
    let head = data_type::take(s, d, roles)?;
    parts(s, visibility, head.kind, head.name, roles)
}

// A refusal: every role byte is 255, no role.
pub fn refuse(roles: &mut [u8], r: Refusal) -> Result<ItemAt, Refusal>
    ensures value { result ≡ Err r }
    ensures roles_after { roles.new ≡ replicate (length roles.old) role.none }
{
    let len = roles.len();
    fill(roles, 0, len, role::NONE);
    Err(r)
}

// Reads a list that passed the check with so many rows, with a role byte for each.
// Into its callers, as `read_checked` is: most of them want the kind alone, and the item is not copied then.
#[inline(always)]
fn read(s: &[u8], roles: &mut [u8], rows: usize) -> Result<ItemAt, Refusal>
    requires s_value { list.check s.now ≡ list.passed rows }
    requires rows_in_bounds { rows ≤ length roles.old }
    ensures { Answered s.now result roles.old roles.new }
{
    match item(s, start(s), roles) {
        Err(r) => refuse(roles, r),
        Ok(i) => {
            fill_rest(roles, i.next.row, rows, role::LEFT_OVER);
            Ok(i)
        }
    }
}

// Reads a list that passed the check with so many rows.
#[inline(always)]
pub fn read_checked(s: &[u8], roles: &mut [u8], rows: usize) -> Result<ItemAt, Refusal>
    requires { list.check s.now ≡ list.passed rows }
    ensures { Answered s.now result roles.old roles.new }
{
    if roles.len() < rows {
        return refuse(
            roles,
            Refusal {
                number: refusal::SHORT_BUFFER,
                place: END,
            },
        );
    }
    read(s, roles, rows)
}

// virtue's Parse::new: a declaration and its role bytes, or a refusal and 255 throughout.
pub fn new(s: &[u8], roles: &mut [u8]) -> Result<ItemAt, Refusal>
    ensures answered { Answered s.now result roles.old roles.new }
    ensures assigned { SingleAssignment s.now (length roles.old) (accepted result)
        roles.new }
{
    match check(s) {
        Err(r) => refuse(roles, r),
        Ok(rows) => read_checked(s, roles, rows),
    }
}
