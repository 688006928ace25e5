// What stands in quotes, each from behind its first quote on.
ghost use Rattle.std.specs.Prelude.{◌≡◌, ◌≤◌, length, drop};
ghost use Rattle.source.specs.Quoted.{hex_escape, scalar, hex_digits, unicode_escape, escape, unit, character};
ghost use Rattle.source.specs.Quoted.{string};
ghost use Rattle.source.specs.Contract.{EndsAs};

use crate::bytes::byte_at;
use token_list::text::digit_worth;

// Two hex digits, from behind `\x`; in a text the first is an octal one.
fn hex_escape_end(s: &[u8], i: usize, byte: bool) -> Option<usize>
    ensures { EndsAs s.now i (hex_escape byte (drop i s.now)) result }
{
    let limit = if byte { 16 } else { 8 };
    if limit <= digit_worth(byte_at(s, i)) || 16 <= digit_worth(byte_at(s, i + 1)) {
        return None;
    }
    Some(i + 2)
}

// Whether v is a char's number.
#[tactic(auto, unfolding(crate::specs::Quoted::scalar))]
fn is_scalar(v: usize) -> bool
    ensures { result ≡ scalar v }
{
    v < 0xD800 || (0xE000..=0x10FFFF).contains(&v)
}

// One to six hex digits, each with any number of `_` behind it, and `}`.
fn hex_digits_end(s: &[u8], from: usize) -> Option<usize>
    requires { from ≤ length s.now }
    ensures { EndsAs s.now from (hex_digits 0 0 (drop from s.now)) result }
{
    let mut count: usize = 0;
    let mut v: usize = 0;
    for i in from..s.len() {
        let b = s[i];
        if b == b'}' {
            if count == 0 || !is_scalar(v) {
                return None;
            }
            return Some(i + 1);
        }
        if b == b'_' {
            if count == 0 {
                return None;
            }
            continue;
        }
        let digit = digit_worth(b);
        if 16 <= digit || 6 <= count {
            return None;
        }
        v = v * 16 + digit;
        count += 1;
    }
    None
}

// From behind `\u`.
fn unicode_escape_end(s: &[u8], i: usize) -> Option<usize>
    ensures { EndsAs s.now i (unicode_escape (drop i s.now)) result }
{
    if byte_at(s, i) != b'{' {
        return None;
    }
    hex_digits_end(s, i + 1)
}

// From behind `\`.
fn escape_end(s: &[u8], i: usize, byte: bool) -> Option<usize>
    ensures { EndsAs s.now i (escape byte (drop i s.now)) result }
{
    match byte_at(s, i) {
        b'n' | b'r' | b't' | b'\\' | b'0' | b'\'' | b'"' => Some(i + 1),
        b'x' => hex_escape_end(s, i + 1, byte),
        b'u' if !byte => unicode_escape_end(s, i + 1),
        _ => None,
    }
}

// A character between these quotes, or an escape.
fn unit_end(s: &[u8], i: usize, byte: bool, quote: u8) -> Option<usize>
    ensures { EndsAs s.now i (unit byte quote (drop i s.now)) result }
{
    let b = byte_at(s, i);
    if b == b'\\' {
        return escape_end(s, i + 1, byte);
    }
    if !(b' '..=b'~').contains(&b) || b == quote {
        return None;
    }
    Some(i + 1)
}

// A character, or a byte, up to its last quote.
pub fn character_end(s: &[u8], i: usize, byte: bool) -> Option<usize>
    ensures { EndsAs s.now i (character byte (drop i s.now)) result }
{
    let e = unit_end(s, i, byte, b'\'')?;
    if byte_at(s, e) != b'\'' {
        return None;
    }
    Some(e + 1)
}

// A string, or a byte string, up to its last quote.
pub fn string_end(s: &[u8], from: usize, byte: bool) -> Option<usize>
    ensures { EndsAs s.now from (string byte 0 (drop from s.now)) result }
{
    let mut i = from;
    // By as many bytes as each unit has: no iterator goes so.
    while i < s.len() {
        if s[i] == b'"' {
            return Some(i + 1);
        }
        i = unit_end(s, i, byte, b'"')?;
    }
    None
}
