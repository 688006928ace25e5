// What a program prints of a source text: the listing of its declaration, or the refusal with line and column.
ghost use Rattle.std.specs.Prelude.{◌≡◌, List, ℕ, ◌≤◌};
ghost use Rattle.output.specs.Contract.{Printed};
ghost use Rattle.source.specs.Answer.{Answer};
ghost use Rattle.from_source.specs.Report.{place_offset, placed_text, listing_text};
ghost use Rattle.source.specs.Tokens.{TokensAs};
ghost use Rattle.from_source.specs.Contract.{at_most, ReportedListing};

use crate::listing::write_listing;
use output::writer::Writer;
use source::places::row_place;
use source::report::{put_fault, put_position};
use source::tokens::SourceError;
use token_list::check::{END, Refusal};

// Where a refusal's row stands in the text; the end mark stands at the text's end.
fn place_offset(s: &[u8], place: usize) -> usize
    ensures { result ≡ place_offset s.now place }
{
    if place == END {
        return s.len();
    }
    row_place(s, place).offset
}

// A refusal, at the start of the output: the line `refused place`, and a line with number, place and position. Answers
// its length, at most 128.
fn put_placed(out: &mut [u8], s: &[u8], refusal: Refusal) -> usize
    ensures printed { Printed out.old out.new result
        (placed_text s.now refusal.number refusal.place) }
    ensures upper_bound { result ≤ 128 }
{
    let mut w = Writer::new(out);
    w.bytes(b"refused place\n");
    w.number(refusal.number as usize);
    w.byte(b' ');
    w.place(refusal.place);
    w.byte(b' ');
    put_position(&mut w, s, place_offset(s, refusal.place));
    w.byte(b'\n');
    w.at
}

// The answer as a program prints it: a refusal is written where the listing would stand.
fn put_listing(out: &mut [u8], s: &[u8], answer: Result<usize, SourceError>) -> usize
    ensures by_index { (before : List ℕ) (a : Answer) → TokensAs before out.old a answer →
        Printed before out.new result (listing_text s.now a) }
    ensures upper_bound { result ≤ at_most answer }
{
    match answer {
        Ok(n) => n,
        Err(SourceError::FaultAt(offset)) => put_fault(out, s, offset),
        Err(SourceError::Refused(r)) => put_placed(out, s, r),
    }
}

// Writes the listing of a source text or the refusal at the start of the output; answers its length, at most 176,145.
pub fn report_listing(text: &[u8], out: &mut [u8]) -> usize
    ensures { ReportedListing text.now out.old out.new result }
{
    let answer = write_listing(text, out);
    put_listing(out, text, answer)
}
