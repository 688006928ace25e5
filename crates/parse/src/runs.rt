// Runs (virtue's parse/utils.rs: read_tokens_until_punct and check_if_arrow).
ghost use Rattle.std.specs.Prelude.{◌≡◌, false, cond, ◌&&◌, ◌+◌, ◌^◌, ◌≤◌, ◌<◌, eqb};
ghost use Rattle.token_list.specs.Byte.{GREATER};
ghost use Rattle.token_list.specs.Layout.{PUNCT};
ghost use Rattle.token_list.specs.Stream.{at};
ghost use Rattle.token_list.specs.Contract.{InList};
ghost use Rattle.reading.specs.Reading.{judge_punct, belongs, ends, at_comma, stopping, run};
ghost use Rattle.parse.specs.Contract.{Meets, stream, stops_of, verdict_of, RunTokenRead, run_said, run_shown};

use crate::utils::{take_group, take_token};
use token_list::check::{Cursor, Refusal};
use token_list::refusal;
use token_list::stream::{Peeked, Token, peek};

// What a run stops at, at depth 0.
#[derive(Clone, Copy)]
pub struct Stops {
    pub comma: bool,
    pub angle: bool,
    pub group: bool,
}

// What ended a run.
#[derive(Clone, Copy, Debug, PartialEq, Eq)]
pub enum Ending {
    Comma,
    Angle,
    Group,
    End,
}

// A run: where it begins and where it stopped, what ended it, and whether an angle was open there.
#[derive(Clone, Copy)]
pub struct Run {
    pub from: Cursor,
    pub to: Cursor,
    pub ending: Ending,
    pub unclosed: bool,
}

// What a token is to a run: it belongs, with the depth and whether a `-` was last from then on; it
// ends the run; or it is a `>` with nothing open.
#[derive(Clone, Copy)]
pub enum Verdict {
    Belongs(usize, bool),
    Ends(Ending),
    Unopened,
}

// A token of a run: the cursor, the depth and whether a `-` was last, after one that belongs; or the
// run ended before it.
#[derive(Clone, Copy)]
pub enum RunToken {
    On(Cursor, usize, bool),
    Ended(Ending),
}

// A `>` directly after a `-` of the same run.
fn check_if_arrow(minus: bool, b: u8) -> bool
    ensures { result ≡ (minus && eqb b GREATER) }
{
    minus && b == b'>'
}

// What a `,` is to a run at this depth.
fn judge_comma(stops: Stops, depth: usize) -> Verdict
    ensures { verdict_of result ≡ cond (eqb depth 0 && stops.comma) (ends at_comma) (belongs depth false) }
{
    if depth == 0 && stops.comma {
        Verdict::Ends(Ending::Comma)
    } else {
        Verdict::Belongs(depth, false)
    }
}

// What a punctuation is to a run at this depth; `minus`: a `-` stands right before it.
fn judge_punct(stops: Stops, depth: usize, minus: bool, b: u8) -> Verdict
    requires { depth + 1 < 2 ^ 64 }
    ensures { verdict_of result ≡ judge_punct (stops_of stops) depth minus b }
{
    if b == b'<' {
        let deeper = depth + 1;
        return Verdict::Belongs(deeper, false);
    }
    if b == b'>' {
        if check_if_arrow(minus, b) {
            return Verdict::Belongs(depth, false);
        }
        if depth == 0 {
            if stops.angle {
                return Verdict::Ends(Ending::Angle);
            }
            return Verdict::Unopened;
        }
        let higher = depth - 1;
        return Verdict::Belongs(higher, false);
    }
    if b == b',' {
        return judge_comma(stops, depth);
    }
    let minus = b == b'-';
    Verdict::Belongs(depth, minus)
}

// Whether a group with this delimiter ends a run at this depth.
fn ends_run(stops: Stops, depth: usize, d: u8) -> bool
    ensures { result ≡ stopping (stops_of stops) depth d }
{
    depth == 0 && stops.group && (d == b'{' || d == b'(')
}

// What a token that is no group is to a run.
fn judge(stops: Stops, depth: usize, minus: bool, t: Token) -> Verdict
    requires { depth + 1 < 2 ^ 64 }
    ensures { verdict_of result ≡ cond (eqb t.kind PUNCT) (judge_punct (stops_of stops) depth minus t.byte)
        (belongs depth false) }
{
    if t.kind == b'p' {
        judge_punct(stops, depth, minus, t.byte)
    } else {
        Verdict::Belongs(depth, false)
    }
}

// One token of a run.
fn run_token(
    s: &[u8],
    c: Cursor,
    roles: &mut [u8],
    stops: Stops,
    role: u8,
    depth: usize,
    minus: bool,
) -> Result<RunToken, Refusal>
    requires in_list { InList s.now c }
    requires depth_le_at { depth ≤ c.at }
    ensures { RunTokenRead s.now c roles.old
        roles.new stops role depth minus result }
{
    match peek(s, c) {
        Peeked::Nothing => Ok(RunToken::Ended(Ending::End)),
        Peeked::Leaf(t) => match judge(stops, depth, minus, t) {
            Verdict::Belongs(e, m) => {
                let next = take_token(s, c, t, roles, role);
                Ok(RunToken::On(next, e, m))
            }
            Verdict::Ends(e) => Ok(RunToken::Ended(e)),
            Verdict::Unopened => Err(Refusal {
                number: refusal::UNMATCHED_ANGLE,
                place: c.row,
            }),
        },
        Peeked::Group(t) => {
            if ends_run(stops, depth, t.byte) {
                return Ok(RunToken::Ended(Ending::Group));
            }
            let next = take_group(s, c, t, roles, role);
            Ok(RunToken::On(next, depth, false))
        }
    }
}

// Reads a run from a cursor on; its rows get `role`.
pub fn read_tokens_until_punct(
    s: &[u8],
    from: Cursor,
    roles: &mut [u8],
    stops: Stops,
    role: u8,
) -> Result<Run, Refusal>
    requires { InList s.now from }
    ensures { Meets s.now from roles.old roles.new
        (run_shown s.now (stops_of stops) role from result) (run_said result)
        (run (stops_of stops) role from.row (stream s.now from)) }
{
    let mut c = from;
    let mut depth = 0;
    let mut minus = false;
    loop {
        match run_token(s, c, roles, stops, role, depth, minus)? {
            RunToken::On(next, e, m) => {
                c = next;
                depth = e;
                minus = m;
            }
            RunToken::Ended(ending) => {
                return Ok(Run {
                    from,
                    to: c,
                    ending,
                    unclosed: 0 < depth,
                });
            }
        }
    }
}
