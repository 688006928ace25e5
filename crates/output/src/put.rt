// Texts that are appended from a place of the output on, where they fit: each function answers where the next text
// goes, a place past the output where the text does not fit. And a refusal alone.
ghost use Rattle.std.specs.Prelude.{◌+◌, ◌≤◌, ◌≡◌, [], ◌∷◌, ◌++◌, length, leb};
ghost use Rattle.std.proofs.lemmas.List.Edits.{sets};
ghost use Rattle.token_list.specs.Byte.{SPACE, LF};
ghost use Rattle.output.specs.Text.{decimal, refusal_text};
ghost use Rattle.output.specs.Contract.{Put, Printed, Appended};

use crate::writer::Writer;
use token_list::check::Refusal;

// A place past every output: places stop here.
pub const FAR: usize = 0x8000_0000_0000_0000;

// Whether n bytes fit from `at` on.
pub(crate) fn has_room(out: &[u8], at: usize, n: usize) -> bool
    ensures { result ≡ leb (at + n) (length out.now) }
{
    at <= out.len() && n <= out.len() - at
}

// A byte where it fits; what does not fit is counted all the same. These two take the output and the place by
// themselves: a writer's place would be loaded and stored anew for each digit.
pub(crate) fn put_byte(out: &mut [u8], at: usize, b: u8) -> usize
    ensures { Put out.old out.new at result (b ∷ []) }
{
    if at < out.len() {
        out[at] = b;
        at + 1
    } else if at < FAR {
        at + 1
    } else {
        at
    }
}

// The decimal digits of n.
pub(crate) fn put_number(out: &mut [u8], at: usize, n: usize) -> usize
    ensures { Put out.old out.new at result (decimal n) }
{
    if n < 10 {
        put_byte(out, at, b'0' + n as u8)
    } else {
        let end = put_number(out, at, n / 10);
        put_byte(out, end, b'0' + (n % 10) as u8)
    }
}

// Stores a text that fits from `at` on.
pub fn copy_bytes(out: &mut [u8], at: usize, text: &[u8])
    requires { at + length text.now ≤ length out.old }
    ensures { out.new ≡ sets out.old at text.now }
{
    for i in 0..text.len() {
        out[at + i] = text[i];
    }
}

// A text where it fits; a place past the output where it does not.
pub fn append(out: &mut [u8], at: usize, text: &[u8]) -> usize
    ensures { Appended out.old out.new at result text.now }
{
    if has_room(out, at, text.len()) {
        copy_bytes(out, at, text);
        at + text.len()
    } else {
        out.len() + 1
    }
}

// A row of this kind, of a list without marks; a place past the output where it does not fit.
pub fn append_row(out: &mut [u8], at: usize, kind: u8, text: &[u8]) -> usize
    ensures { Appended out.old out.new at result
        (kind ∷ SPACE ∷ text.now ++ LF ∷ []) }
{
    if !has_room(out, at, text.len() + 3) {
        return out.len() + 1;
    }
    out[at] = kind;
    out[at + 1] = b' ';
    copy_bytes(out, at + 2, text);
    let end = at + 2 + text.len();
    out[end] = b'\n';
    end + 1
}

// A refusal, at the start of the output: the line `refused place`, and a line with its number and
// place. Answers its length, at most 64.
pub fn put_refusal(out: &mut [u8], refusal: Refusal) -> usize
    ensures printed { Printed out.old out.new result (refusal_text refusal.number refusal.place) }
    ensures upper_bound { result ≤ 64 }
{
    let mut w = Writer::new(out);
    w.refusal(refusal);
    w.at
}
