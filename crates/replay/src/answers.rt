// This repository's own answers, compared with recorded ones: one function for each section.
ghost use Rattle.std.specs.Prelude.{◌≡◌, length};
ghost use Rattle.token_list.specs.Layout.{MAX_ROWS};
ghost use Rattle.token_list.specs.Text.{same};
ghost use Rattle.token_list.specs.Check.{check};
ghost use Rattle.output.specs.Text.{refusal_text};
ghost use Rattle.output.specs.Answer.{Answer};
ghost use Rattle.output.specs.Written.{answer_of, within, WrittenAs};
ghost use Rattle.report.specs.Text.{answer_text};
ghost use Rattle.reading.specs.Answer.{answer};
ghost use Rattle.describe.specs.Listing as listing;
ghost use Rattle.writing.specs.Answer as writing;
ghost use Rattle.tagged_reading.specs.Answer as tagged;
ghost use Rattle.replay.specs.Answer.{OUTPUT, letter_fits, letters_fit, accepted_fits, roles_fit, every_fits};
ghost use Rattle.replay.specs.Answer.{written_fits, writer_of, PREFIX, tagged_fits, right};

use crate::header::{Topic, Writer};
use describe::listing::write_listing;
use generate::generics::{impl_generics, impl_generics_with_additional, type_generics};
use output::put::put_refusal;
use parse::role::{BOUND, FIELD_NAME, PARAMETER_NAME, TYPE, WHERE_RUN};
use report::check::report_check;
use report::roles::read_roles;
use tagged_attribute::utils::parse_tagged_attribute;
use token_list::check::Refusal;
use token_list::layout::MAX_ROWS;
use token_list::text::{compare, is_one_of};

// Whether the text is another one.
fn is(text: &[u8], other: &[u8]) -> bool
    ensures { result ≡ same text.now other.now }
{
    compare(text, other).same
}

// Whether the text is the report of the list check.
fn is_check(list: &[u8], text: &[u8]) -> bool
    ensures { result ≡ same text.now (answer_text (check list.now)) }
{
    let mut out = [0; 64];
    let n = report_check(list, &mut out);
    is(text, &out[..n])
}

// Whether the text is that of a refusal.
fn is_refusal(refusal: Refusal, text: &[u8]) -> bool
    ensures { result ≡ same text.now (refusal_text refusal.number refusal.place) }
{
    let mut out = [0; 64];
    let n = put_refusal(&mut out, refusal);
    is(text, &out[..n])
}

// The letter of role 0, `a`; those of the others follow it.
const FIRST_LETTER: usize = b'a' as usize;

// The roles whose rows the Rust's answer always names.
const NAMED: [u8; 5] = [PARAMETER_NAME, BOUND, WHERE_RUN, FIELD_NAME, TYPE];

// Whether a letter stands for a role. A `.` does where the Rust's answer need not name the row: not in `every`.
fn letter_fits(letter: u8, role: u8, every: bool) -> bool
    ensures { result ≡ letter_fits every letter role }
{
    if letter == b'.' {
        !every && !is_one_of(role, &NAMED)
    } else {
        letter as usize == FIRST_LETTER + role as usize
    }
}

// Whether the text is a letter for each role, then LF.
fn letters_fit(text: &[u8], roles: &[u8], every: bool) -> bool
    ensures { result ≡ letters_fit every text.now roles.now }
{
    let mut rest = text;
    for role in roles {
        let Some((letter, others)) = rest.split_first() else {
            return false;
        };
        if !letter_fits(*letter, *role, every) {
            return false;
        }
        rest = others;
    }
    is(rest, b"\n")
}

// Whether the text is the line `accepted` and the letters of the roles.
fn accepted_fits(text: &[u8], roles: &[u8], every: bool) -> bool
    ensures { result ≡ accepted_fits every text.now roles.now }
{
    match text.strip_prefix(b"accepted\n") {
        Some(letters) => letters_fit(letters, roles, every),
        None => false,
    }
}

// Whether the text is the refusal, or names no other role than the list's rows have.
fn is_roles(list: &[u8], text: &[u8]) -> bool
    ensures { result ≡ roles_fit text.now (answer list.now MAX_ROWS) }
{
    let mut roles = [0; MAX_ROWS];
    prove!(roles.len() == 4096);
    match read_roles(list, &mut roles) {
        Ok(n) => accepted_fits(text, &roles[..n], false),
        Err(r) => is_refusal(r, text),
    }
}

// Whether the text is the letters of every row's role.
fn is_every(list: &[u8], text: &[u8]) -> bool
    ensures { result ≡ every_fits text.now (answer list.now MAX_ROWS) }
{
    let mut roles = [0; MAX_ROWS];
    prove!(roles.len() == 4096);
    match read_roles(list, &mut roles) {
        Ok(n) => letters_fit(text, &roles[..n], true),
        Err(_) => false,
    }
}

// Room for the listing of any list, and for what any writer of generics writes.
const OUTPUT: usize = 262144;

// Whether the text is the one that was written to out, or the refusal.
fn is_written(answer: Result<usize, Refusal>, out: &[u8], text: &[u8]) -> bool
    requires { within out.now answer }
    ensures { (a : Answer) → answer_of out.now answer ≡ a → result ≡ written_fits text.now a }
{
    match answer {
        Ok(n) => is(text, &out[..n]),
        Err(r) => is_refusal(r, text),
    }
}

// Whether the text is the listing, or the refusal.
fn is_listing(list: &[u8], text: &[u8]) -> bool
    ensures { result ≡ written_fits text.now (listing.answer list.now OUTPUT) }
{
    let mut out = [0; OUTPUT];
    prove!(out.len() == 262144);
    let answer = write_listing(list, &mut out);
    is_written(answer, &out, text)
}

// The answer of a writer of generics, with the added names that the recorded answers are about.
fn write_generics(writer: Writer, list: &[u8], out: &mut [u8]) -> Result<usize, Refusal>
    ensures { WrittenAs out.old out.new
        (writing.answer (writer_of writer) list.now (length out.old)) result }
{
    match writer {
        Writer::Impl => impl_generics(list, out),
        Writer::Type => type_generics(list, out),
        Writer::Additional => impl_generics_with_additional(list, b"x\n", b"Y\nZ", out),
    }
}

// Whether the text is what a writer of generics writes, or the refusal.
fn is_generics(writer: Writer, list: &[u8], text: &[u8]) -> bool
    ensures { result ≡ written_fits text.now (writing.answer (writer_of writer) list.now OUTPUT) }
{
    let mut out = [0; OUTPUT];
    prove!(out.len() == 262144);
    let answer = write_generics(writer, list, &mut out);
    is_written(answer, &out, text)
}

// Whether the text is `none`, the refusal, or the letters of every row's role in the tagged attribute that the recorded
// answers are about.
fn is_tagged(list: &[u8], text: &[u8]) -> bool
    ensures { result ≡ tagged_fits text.now (tagged.answer PREFIX list.now MAX_ROWS) }
{
    let mut roles = [0; MAX_ROWS];
    prove!(roles.len() == 4096);
    match parse_tagged_attribute(list, b"p", &mut roles) {
        Ok(Some(entries)) => accepted_fits(text, &roles[..entries.rows], true),
        Ok(None) => is(text, b"none\n"),
        Err(r) => is_refusal(r, text),
    }
}

// Whether the text is the answer to the list about a topic.
pub fn is_right(topic: Topic, list: &[u8], text: &[u8]) -> bool
    ensures { result ≡ right topic list.now text.now }
{
    match topic {
        Topic::Check => is_check(list, text),
        Topic::Roles => is_roles(list, text),
        Topic::Every => is_every(list, text),
        Topic::Listing => is_listing(list, text),
        Topic::Tagged => is_tagged(list, text),
        Topic::Generics(writer) => is_generics(writer, list, text),
    }
}
