// Comments.
ghost use Rattle.std.specs.Prelude.{◌≡◌, false, ◌&&◌, ◌+◌, ◌≤◌, ◌<◌, eqb, length, get_or, drop};
ghost use Rattle.source.specs.Comment.{block, block_doc, block_comment, outer_line, line_ends, doc_line};
ghost use Rattle.source.specs.Contract.{EndsAs, NoSlash, PlainEnd};

use crate::bytes::{Class, byte_at, run_end};

// Whether these two bytes stand at i.
fn is_pair(s: &[u8], i: usize, first: u8, second: u8) -> bool
    requires { i < length s.now }
    ensures { result ≡ (eqb (get_or s.now i 0) first && eqb (get_or s.now (i + 1) 0) second) }
{
    s[i] == first && byte_at(s, i + 1) == second
}

// How far a comment is passed over at once, where no `/` stands.
const STRIDE: usize = 63;

// Whether `/` stands among the bytes from i up to e. Every byte is looked at, so that many are at a time.
fn has_slash(s: &[u8], i: usize, e: usize) -> bool
    requires i_le_e { i ≤ e }
    requires e_in_bounds { e ≤ length s.now }
    ensures { result ≡ false → NoSlash s.now i e }
{
    let mut any = false;
    for b in &s[i..e] {
        if *b == b'/' {
            any = true;
        }
    }
    any
}

// Past bytes from i on with which no comment begins or ends, or i.
fn plain_end(s: &[u8], i: usize) -> usize
    requires { i < length s.now }
    ensures { PlainEnd s.now i result }
{
    // A `*` at the last byte could have its `/` behind it.
    if s.len() - i <= STRIDE || has_slash(s, i, i + STRIDE + 1) {
        return i;
    }
    i + STRIDE
}

// A block comment, from behind its `/*`.
fn block_end(s: &[u8], from: usize) -> Option<usize>
    requires { from ≤ length s.now }
    ensures { EndsAs s.now from (block 0 0 (drop from s.now)) result }
{
    let mut i = from;
    let mut depth: usize = 0;
    // No stretch is looked at twice.
    let mut looked = from;
    // By one byte, by two or by a stretch: no iterator goes so.
    while i < s.len() {
        if looked <= i {
            looked = i + STRIDE;
            let e = plain_end(s, i);
            if i < e {
                i = e;
                continue;
            }
        }
        if is_pair(s, i, b'*', b'/') {
            i += 2;
            if depth == 0 {
                return Some(i);
            }
            depth -= 1;
            continue;
        }
        if is_pair(s, i, b'/', b'*') {
            i += 2;
            depth += 1;
            continue;
        }
        i += 1;
    }
    None
}

// Whether the block comment at i is a doc comment.
#[tactic(auto, using(crate::proofs::Offsets::byte_behind), unfolding(crate::specs::Comment::block_doc))]
fn is_block_doc(s: &[u8], i: usize) -> bool
    requires { i + 2 ≤ length s.now }
    ensures { result ≡ block_doc (drop i s.now) }
{
    match byte_at(s, i + 2) {
        b'!' => true,
        b'*' => !matches!(byte_at(s, i + 3), b'*' | b'/'),
        _ => false,
    }
}

// A block comment that vanishes, from its `/*` on.
pub fn block_comment_end(s: &[u8], i: usize) -> Option<usize>
    requires { i + 2 ≤ length s.now }
    ensures { EndsAs s.now i (block_comment (drop i s.now)) result }
{
    if is_block_doc(s, i) {
        return None;
    }
    block_end(s, i + 2)
}

// Whether the line comment at i is an outer doc comment.
#[tactic(auto, using(crate::proofs::Offsets::byte_behind), unfolding(crate::specs::Comment::outer_line))]
pub fn is_outer_line(s: &[u8], i: usize) -> bool
    requires { i + 2 ≤ length s.now }
    ensures { result ≡ outer_line (drop i s.now) }
{
    byte_at(s, i + 2) == b'/' && byte_at(s, i + 3) != b'/'
}

// Whether a line ends at i.
fn line_ends(s: &[u8], i: usize) -> bool
    ensures { result ≡ line_ends (drop i s.now) }
{
    s.len() <= i || s[i] == b'\n' || s[i] == b'\r' && byte_at(s, i + 1) == b'\n'
}

// An outer line doc comment, from its slashes on.
pub fn doc_line_end(s: &[u8], i: usize) -> Option<usize>
    requires { i + 3 ≤ length s.now }
    ensures { EndsAs s.now i (doc_line (drop i s.now)) result }
{
    let end = run_end(s, i + 3, Class::Doc);
    if !line_ends(s, end) {
        return None;
    }
    Some(end)
}
