// Numbers, without their suffix.
ghost use Rattle.std.specs.Prelude.{◌≡◌, true, ◌≤◌, length, drop, get_or};
ghost use Rattle.token_list.specs.Text.{digit};
ghost use Rattle.source.specs.Number.{any_digit, dotted, reserved, exponent_start, radix_digits, exponent};
ghost use Rattle.source.specs.Number.{decimal, number};
ghost use Rattle.source.specs.Contract.{EndsAs, RadixAs, FractionEnd, SignEnd};

use crate::bytes::{Class, byte_at, run_end};
use token_list::text::{is_digit, is_name_start};

// Whether a run of digits and `_` has a digit.
fn any_digit(run: &[u8]) -> bool
    ensures { result ≡ any_digit run.now }
{
    run.iter().any(|b| *b != b'_')
}

// Whether a `.` stands at i that belongs to a number.
#[tactic(auto, using(crate::proofs::Offsets::byte_behind), unfolding(crate::specs::Number::dotted))]
fn is_dotted(s: &[u8], i: usize) -> bool
    ensures { result ≡ dotted (drop i s.now) }
{
    if byte_at(s, i) != b'.' {
        return false;
    }
    let b = byte_at(s, i + 1);
    b != b'.' && !is_name_start(b)
}

fn starts_exponent(b: u8) -> bool
    ensures { result ≡ exponent_start b }
{
    matches!(b, b'e' | b'E')
}

// Whether what stands at i makes digits of a radix before it a reserved form.
#[tactic(auto, using(crate::proofs::Offsets::byte_behind), unfolding(crate::specs::Number::reserved))]
fn is_reserved(s: &[u8], i: usize) -> bool
    ensures { result ≡ reserved (drop i s.now) }
{
    let b = byte_at(s, i);
    is_digit(b) || starts_exponent(b) || is_dotted(s, i)
}

// The radix that b tells behind a first 0.
#[tactic(auto, unfolding(crate::specs::Number::radix_of))]
fn radix_of(b: u8) -> Option<usize>
    ensures { RadixAs b result }
{
    match b {
        b'b' => Some(2),
        b'o' => Some(8),
        b'x' => Some(16),
        _ => None,
    }
}

fn radix_digits_end(s: &[u8], i: usize, radix: usize) -> Option<usize>
    requires { i ≤ length s.now }
    ensures { EndsAs s.now i (radix_digits radix (drop i s.now)) result }
{
    let end = run_end(s, i, Class::Digits(radix));
    if !any_digit(&s[i..end]) || is_reserved(s, end) {
        return None;
    }
    Some(end)
}

// Past the digits from i on, and past a `.` with digits or alone.
fn fraction_end(s: &[u8], i: usize) -> usize
    requires { i ≤ length s.now }
    ensures { FractionEnd s.now i result }
{
    let end = run_end(s, i, Class::Digits(10));
    if !is_dotted(s, end) {
        return end;
    }
    run_end(s, end + 1, Class::Digits(10))
}

// Past a sign that may stand at i.
fn sign_end(s: &[u8], i: usize) -> usize
    requires { i ≤ length s.now }
    ensures { SignEnd s.now i result }
{
    match byte_at(s, i) {
        b'+' | b'-' => i + 1,
        _ => i,
    }
}

// An exponent, from behind its `e`.
fn exponent_end(s: &[u8], i: usize) -> Option<usize>
    requires { i ≤ length s.now }
    ensures { EndsAs s.now i (exponent (drop i s.now)) result }
{
    let start = sign_end(s, i);
    let end = run_end(s, start, Class::Digits(10));
    if !any_digit(&s[start..end]) {
        return None;
    }
    Some(end)
}

fn decimal_end(s: &[u8], i: usize) -> Option<usize>
    requires { digit (get_or s.now i 0) ≡ true }
    ensures { EndsAs s.now i (decimal (drop i s.now)) result }
{
    let end = fraction_end(s, i);
    if !starts_exponent(byte_at(s, end)) {
        return Some(end);
    }
    exponent_end(s, end + 1)
}

// A number, from its first digit on.
pub fn number_end(s: &[u8], i: usize) -> Option<usize>
    requires { digit (get_or s.now i 0) ≡ true }
    ensures { EndsAs s.now i (number (drop i s.now)) result }
{
    if byte_at(s, i) != b'0' {
        return decimal_end(s, i);
    }
    let Some(radix) = radix_of(byte_at(s, i + 1)) else {
        return decimal_end(s, i);
    };
    radix_digits_end(s, i + 2, radix)
}
