// Things of one kind that stand one behind the other: the fields and the variants of a group, and parameters.
ghost use Rattle.reading.specs.Took.{Reader};
ghost use Rattle.reading.specs.Reading.{Maybe, every};
ghost use Rattle.reading.proofs.Rounds.{Rounding, Ended};
ghost use Rattle.std.specs.Prelude.{◌≡◌, ℕ};
ghost use Rattle.token_list.specs.Stream.{Trees};
ghost use Rattle.token_list.specs.Contract.{InList, GroupAt};
ghost use Rattle.parse.specs.Contract.{Meets, stream, next_shown, next_said, count_shown, count_said, Inside};

use crate::fields::close_group;
use crate::role;
use crate::utils::{Next, take_token};
use token_list::check::{Cursor, Refusal};
use token_list::stream::Token;

// Things of one kind, and the reading of one of them, or of their end.
pub trait Parts {
    ghost Thing: { Type 0 };

    ghost reading: { Self → Reader (Maybe Thing) };

    // One of them, or their end.
    fn next(&self, s: &[u8], c: Cursor, roles: &mut [u8]) -> Result<Next<Cursor, Cursor>, Refusal>
        requires { InList s.now c }
        ensures { Meets s.now c roles.old roles.new (next_shown result) (next_said result)
            (reading self.now c.row (stream s.now c)) };

    // Each one takes a row at least.
    ghost goes_on: { (x : Self) → Rounding (reading x) };
}

// Things that end only where their group does.
pub trait Enclosed: Parts {
    ghost to_the_end: { (x : Self) (row : ℕ) (ts : Trees) → Ended (every (Self.reading x) row ts) };
}

// All of them from `from` on.
pub fn every<P: Parts>(
    parts: &P,
    s: &[u8],
    from: Cursor,
    roles: &mut [u8],
) -> Result<(Cursor, usize), Refusal>
    requires { InList s.now from }
    ensures { Meets s.now from roles.old roles.new (count_shown result) (count_said result)
        (every (P.reading parts.now) from.row (stream s.now from)) }
{
    let mut c = from;
    let mut count = 0;
    loop {
        match parts.next(s, c, roles)? {
            // Made anew from its two numbers, as in visibility::try_take.
            Next::One(next) => {
                c = Cursor {
                    at: next.at,
                    row: next.row,
                };
                count += 1;
            }
            Next::Done(end) => {
                return Ok((end, count));
            }
        }
    }
}

// The group of them that opens at c, with its delimiters.
pub fn group<P: Enclosed>(
    parts: &P,
    s: &[u8],
    c: Cursor,
    t: Token,
    roles: &mut [u8],
) -> Result<(Cursor, usize), Refusal>
    requires in_list { InList s.now c }
    requires group_at { GroupAt s.now c.at t }
    ensures { Meets s.now c roles.old roles.new (count_shown result) (count_said result)
        (Inside (every (P.reading parts.now)) s.now c t) }
{
    let inside = take_token(s, c, t, roles, role::DELIMITER);
    let (d, count) = every(parts, s, inside, roles)?;
    Ok((close_group(s, d, roles), count))
}
