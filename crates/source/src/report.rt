// What a program prints of a source text: its token list, or the refusal with line and column.
ghost use Rattle.std.specs.Prelude.{List, ℕ, ◌≤◌};
ghost use Rattle.output.specs.Contract.{Printed};
ghost use Rattle.output.specs.Writes.{Writes};
ghost use Rattle.source.specs.Answer.{Answer};
ghost use Rattle.source.specs.Tokens.{TokensAs};
ghost use Rattle.source.specs.Report.{position_text, fault_text, tokens_text, at_most, ReportedTokens};

use crate::places::position_of;
use crate::tokens::{SourceError, write_tokens};
use output::put::put_refusal;
use output::writer::Writer;

// The line and the column of an offset.
pub fn put_position(w: &mut Writer, s: &[u8], offset: usize)
    ensures { Writes w.old w.new (position_text s.now offset) }
{
    let p = position_of(s, offset);
    w.number(p.line);
    w.byte(b':');
    w.number(p.column);
}

// 40 at an offset, at the start of the output: the line `refused place`, and a line with number, offset and position.
// Answers its length, at most 128.
pub fn put_fault(out: &mut [u8], s: &[u8], offset: usize) -> usize
    ensures printed { Printed out.old out.new result (fault_text s.now offset) }
    ensures upper_bound { result ≤ 128 }
{
    let mut w = Writer::new(out);
    w.bytes(b"refused place\n40 ");
    w.number(offset);
    w.byte(b' ');
    put_position(&mut w, s, offset);
    w.byte(b'\n');
    w.at
}

// The answer as a program prints it: a refusal is written where the list would stand.
fn put_tokens(out: &mut [u8], s: &[u8], answer: Result<usize, SourceError>) -> usize
    ensures by_index { (before : List ℕ) (a : Answer) → TokensAs before out.old a answer →
        Printed before out.new result (tokens_text s.now a) }
    ensures upper_bound { result ≤ at_most answer }
{
    match answer {
        Ok(n) => n,
        Err(SourceError::FaultAt(offset)) => put_fault(out, s, offset),
        Err(SourceError::Refused(r)) => put_refusal(out, r),
    }
}

// Writes the token list of a source text or the refusal at the start of the output; answers its length, at most 65,536.
pub fn report_tokens(s: &[u8], out: &mut [u8]) -> usize
    ensures { ReportedTokens s.now out.old out.new result }
{
    let answer = write_tokens(s, out);
    put_tokens(out, s, answer)
}
