// The numbers of an enum's variants: a literal's worth, and the step from the number before.
ghost use Rattle.std.specs.Prelude.{◌≡◌, false, ◌≤◌, pos, option_map, unwrap_or, IfSome};
ghost use Rattle.token_list.specs.declared.check.Cursor.{Cursor};
ghost use Rattle.reading.specs.Declaration.{Variant};
ghost use Rattle.parse.specs.Contract.{point, VariantOf, VariantPlaces};
ghost use Rattle.describe.specs.Integer.{bits, suffix, ended, digits, radix, integer, in_range};
ghost use Rattle.describe.specs.Numbers.{number_after, fault_row};
ghost use Rattle.describe.specs.Contract.{NumberAs, NumberIn};

use crate::lines::text;
use crate::value::worth;
use parse::variants::{ValueAt, VariantAt};
use token_list::check::Refusal;
use token_list::refusal;
use token_list::text::{compare, digit_worth};

// Whether a text is how many bits an integer type has. One comparison a name: an array of the names would be built anew
// at each use.
#[tactic(auto, unfolding(crate::specs::Integer::bits))]
fn is_bits(t: &[u8]) -> bool
    ensures { result ≡ bits t.now }
{
    compare(t, b"8").same
        || compare(t, b"16").same
        || compare(t, b"32").same
        || compare(t, b"64").same
        || compare(t, b"128").same
        || compare(t, b"size").same
}

// Whether a text is empty or an integer type's name.
fn is_suffix(t: &[u8]) -> bool
    ensures { result ≡ suffix t.now }
{
    match t {
        [] => true,
        [b'u' | b'i', rest @ ..] => is_bits(rest),
        _ => false,
    }
}

// The worth n of digits before this text, of which `any` tells whether there was one.
fn after_digits(t: &[u8], any: bool, n: usize) -> Option<i64>
    ensures { result ≡ option_map pos (in_range (ended any n t.now)) }
{
    if any && is_suffix(t) {
        i64::try_from(n).ok()
    } else {
        None
    }
}

// The worth of digits of this radix with their suffix.
fn digits(t: &[u8], radix: usize) -> Option<i64>
    requires le_radix { 2 ≤ radix }
    requires radix_bound { radix ≤ 16 }
    ensures { result ≡ option_map pos (in_range (digits radix false 0 t.now)) }
{
    let mut any = false;
    let mut n: usize = 0;
    for (i, b) in t.iter().enumerate() {
        if *b == b'_' {
            continue;
        }
        let digit = digit_worth(*b);
        if radix <= digit {
            return after_digits(&t[i..], any, n);
        }
        n = n.checked_mul(radix)?.checked_add(digit)?;
        any = true;
    }
    after_digits(&[], any, n)
}

// The radix that the first two bytes of a literal tell.
fn radix(t: &[u8]) -> Option<usize>
    ensures value { unwrap_or result 0 ≡ radix t.now }
    ensures bounds { IfSome result (λ r. (2 ≤ r) × (r ≤ 16)) }
{
    match t {
        [b'0', b'b', ..] => Some(2),
        [b'0', b'o', ..] => Some(8),
        [b'0', b'x', ..] => Some(16),
        _ => None,
    }
}

// The worth of a literal, where it is an integer of i64's range.
fn integer(t: &[u8]) -> Option<i64>
    ensures { result ≡ option_map pos (in_range (integer t.now)) }
{
    if let Some(radix) = radix(t) {
        return digits(&t[2..], radix);
    }
    match t {
        [b'0'..=b'9', ..] => digits(t, 10),
        _ => None,
    }
}

// The number of a variant after this one.
pub fn number_after(s: &[u8], before: i64, v: VariantAt) -> Result<i64, Refusal>
    requires { (a : Variant) × VariantOf s.now v a }
    ensures number_as { (c : Cursor) (a : Variant) → VariantOf s.now v a →
        VariantPlaces s.now c v a →
        NumberAs (λ f. fault_row f (point s.now c)) (number_after before a.value) result }
    ensures number_in { (c : Cursor) (a : Variant) → VariantPlaces s.now c v a →
        NumberIn s.now result }
{
    match v.value {
        ValueAt::Absent => before.checked_add(1).ok_or(Refusal {
            number: refusal::NO_STEP,
            place: v.place,
        }),
        ValueAt::Literal(t, row) => integer(text(s, t)).ok_or(Refusal {
            number: refusal::NO_INTEGER,
            place: row,
        }),
        ValueAt::Negative(t) => Ok(-(worth(s, t.start, t.end) as i64)),
    }
}
