// Keys: what is compared of a name, and of a number.
ghost use Rattle.std.specs.Prelude.{◌≡◌, ◌≤◌, length};
ghost use Rattle.std.proofs.Math.Seq.{slice};
ghost use Rattle.doubles.specs.Key.{hash, name_key, integer_key};
ghost use Rattle.doubles.specs.Contract.{MINUS_SIGN, signed, BareAt, KeyIn};

// A prime above 2^16, so that two texts of up to three bytes never have one number; and 2^47, which it may be
// multiplied with.
const FACTOR: usize = 65599;

const BOUND: usize = 140737488355328;

// Where a key's text begins and ends, and its number. That it stands in the bytes (`Standing`) is no invariant of it:
// it would hold the bytes, as a cursor would its list (`token_list::check::Cursor`).
#[derive(Clone, Copy)]
pub struct KeyAt {
    pub start: usize,
    pub end: usize,
    pub number: usize,
}

// Where a name that stands from start to end begins without its `r#`.
fn bare(s: &[u8], start: usize, end: usize) -> usize
    requires start_le_end { start ≤ end }
    requires end_in_bounds { end ≤ length s.now }
    ensures { BareAt s.now start end result }
{
    if s[start..end].starts_with(b"r#") {
        start + 2
    } else {
        start
    }
}

// A number that equal texts have in common.
fn hash(text: &[u8]) -> usize
    ensures { result ≡ hash 0 text.now }
{
    let mut h = 0;
    for &b in text {
        h = (h * FACTOR + usize::from(b)) % BOUND;
    }
    h
}

// The key of the name that stands from start to end.
pub fn name_key(s: &[u8], start: usize, end: usize) -> KeyAt
    requires start_le_end { start ≤ end }
    requires end_in_bounds { end ≤ length s.now }
    ensures { KeyIn s.now end (name_key (slice start end s.now)) result }
{
    let from = bare(s, start, end);
    KeyAt {
        start: from,
        end,
        number: hash(&s[from..end]),
    }
}

// The key of the integer of this size, whose sign is a part of b"-".
pub fn integer_key(below: bool, size: usize) -> KeyAt
    ensures { KeyIn MINUS_SIGN 1 (integer_key (signed below size)) result }
{
    let end = if below && size != 0 { 1 } else { 0 };
    KeyAt {
        start: 0,
        end,
        number: size,
    }
}
