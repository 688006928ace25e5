// virtue's src/utils.rs: parse_tagged_attribute.
ghost use Rattle.std.specs.Prelude.{◌≡◌, ◌+◌, ◌^◌, ◌<◌, length};
ghost use Rattle.std.proofs.lemmas.List.Edits.{sets};
ghost use Rattle.token_list.specs.Contract.{InList, start_of};
ghost use Rattle.parse.specs.Contract.{stream};
ghost use Rattle.tagged_reading.specs.Reading.{attribute, tagged};
ghost use Rattle.tagged_reading.specs.Promise.{TaggedAssignment};
ghost use Rattle.tagged_attribute.specs.Contract.{part_roles, tag_roles, property_roles, TakeRead, EnteredAs};
ghost use Rattle.tagged_attribute.specs.Contract.{AloneAs, FoundAt, FoundAs, Passed, listed, Marked};
ghost use Rattle.tagged_attribute.specs.Contract.{Answered, reads};

use crate::entry::{EntryAt, entry};
use crate::role;
use parse::role::NONE;
use parse::utils::{fill, fill_rest, ident_eq, past, set_role};
use token_list::check::{Cursor, END, Refusal, check, start};
use token_list::refusal;
use token_list::stream::{Peeked, look, peek, skip};

// Where the entries begin, how many there are, and how many rows the list has, each with its role.
#[derive(Clone, Copy)]
pub struct EntriesAt {
    pub first: Cursor,
    pub count: usize,
    pub rows: usize,
}

// The roles of a tag that ends before the row `end`.
fn set_tag(roles: &mut [u8], row: usize, end: usize)
    requires { row + 1 < 2 ^ 64 }
    ensures { roles.new ≡ sets roles.old row (part_roles tag_roles row end) }
{
    set_role(roles, row, role::TAG);
    fill(roles, row + 1, end, role::OTHER);
}

// The roles of a property that ends before the row `end`.
fn set_property(roles: &mut [u8], row: usize, end: usize)
    requires { row + 3 < 2 ^ 64 }
    ensures { roles.new ≡ sets roles.old row (part_roles property_roles row end) }
{
    set_role(roles, row, role::KEY);
    set_role(roles, row + 1, role::OTHER);
    set_role(roles, row + 2, role::VALUE);
    fill(roles, row + 3, end, role::OTHER);
}

// One entry with its roles: the cursor after it, and how many entries that adds; None at the end.
fn take_entry(s: &[u8], c: Cursor, roles: &mut [u8]) -> Result<Option<(Cursor, usize)>, Refusal>
    requires { InList s.now c }
    ensures { TakeRead s.now c roles.old roles.new result }
{
    match entry(s, c)? {
        None => Ok(None),
        Some(EntryAt::Lost(d)) => {
            fill(roles, c.row, d.row, role::OTHER);
            Ok(Some((d, 0)))
        }
        Some(EntryAt::Tag(t)) => {
            set_tag(roles, c.row, t.next.row);
            Ok(Some((t.next, 1)))
        }
        Some(EntryAt::Property(p)) => {
            set_property(roles, c.row, p.next.row);
            Ok(Some((p.next, 1)))
        }
    }
}

// The entries from `from` to the end of their group: the cursor after them, and their number.
fn entries(s: &[u8], from: Cursor, roles: &mut [u8]) -> Result<(Cursor, usize), Refusal>
    requires { InList s.now from }
    ensures { EnteredAs s.now from roles.old roles.new result }
{
    let mut c = from;
    let mut count = 0;
    while let Some((next, added)) = take_entry(s, c, roles)? {
        c = next;
        count += added;
    }
    Ok((c, count))
}

// The inside of the one group that the list is.
#[tactic(auto, using(parse::proofs::Meeting::past_in_of))]
fn one_group(s: &[u8], first: Cursor) -> Result<Cursor, Refusal>
    requires in_list { InList s.now first }
    requires first_value { first ≡ start_of s.now }
    ensures { AloneAs s.now result }
{
    let place = match peek(s, first) {
        Peeked::Nothing => END,
        Peeked::Leaf(_) => 0,
        Peeked::Group(t) => {
            let inside = past(s, first, t);
            let after = skip(s, inside);
            if look(s, after).kind == 0 {
                return Ok(inside);
            }
            after.row
        }
    };
    Err(Refusal {
        number: refusal::NOT_ONE_GROUP,
        place,
    })
}

// The inside of the group after the prefix, if both stand there.
#[tactic(auto, using(parse::proofs::Meeting::past_in_of))]
fn entries_of(s: &[u8], prefix: &[u8], inside: Cursor) -> Option<Cursor>
    requires in_list { InList s.now inside }
    requires row_value { inside.row ≡ 1 }
    ensures { FoundAt s.now (attribute prefix.now (stream s.now inside)) result }
{
    match peek(s, inside) {
        Peeked::Leaf(p) if ident_eq(s, p, prefix) => {
            let d = past(s, inside, p);
            match peek(s, d) {
                Peeked::Group(g) => Some(past(s, d, g)),
                _ => None,
            }
        }
        _ => None,
    }
}

// Where the entries begin.
fn find(s: &[u8], prefix: &[u8]) -> Result<Option<Cursor>, Refusal>
    requires { Passed s.now }
    ensures { FoundAs s.now (tagged prefix.now (listed s.now)) result }
{
    let inside = one_group(s, start(s))?;
    Ok(entries_of(s, prefix, inside))
}

// The entries, their roles, and no role behind the list's rows; whatever bytes where there are none.
fn read(s: &[u8], prefix: &[u8], roles: &mut [u8]) -> Result<Option<EntriesAt>, Refusal>
    ensures { Marked prefix.now s.now result roles.old roles.new }
{
    let rows = check(s)?;
    if roles.len() < rows {
        return Err(Refusal {
            number: refusal::SHORT_BUFFER,
            place: END,
        });
    }
    let Some(first) = find(s, prefix)? else {
        return Ok(None);
    };
    fill(roles, 0, first.row, role::OTHER);
    let (end, count) = entries(s, first, roles)?;
    fill_rest(roles, end.row, rows, role::OTHER);
    Ok(Some(EntriesAt { first, count, rows }))
}

// virtue's parse_tagged_attribute, of a list that is the attribute's group: the entries and their role bytes, or 255
// throughout; None where the prefix does not stand there.
pub fn parse_tagged_attribute(
    s: &[u8],
    prefix: &[u8],
    roles: &mut [u8],
) -> Result<Option<EntriesAt>, Refusal>
    ensures answered { Answered prefix.now s.now result roles.old
        roles.new }
    ensures assigned { TaggedAssignment prefix.now s.now (length roles.old)
        (reads result) roles.new }
{
    let answer = read(s, prefix, roles);
    if !matches!(answer, Ok(Some(_))) {
        roles.fill(NONE);
    }
    answer
}
