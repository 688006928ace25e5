// The report of the list check: `rows N`, or the refusal.
ghost use Rattle.std.specs.Prelude.{◌≡◌, ℕ, ◌≤◌};
ghost use Rattle.token_list.specs.Check.{check, refused};
ghost use Rattle.token_list.specs.Place.{OneRefusal, check_number};
ghost use Rattle.token_list.specs.Contract.{checked};
ghost use Rattle.report.specs.Text.{answer_text};
ghost use Rattle.output.specs.Contract.{Printed};

use output::put::put_refusal;
use output::writer::Writer;
use token_list::check::{Refusal, check};

fn put_answer(out: &mut [u8], answer: Result<usize, Refusal>) -> usize
    ensures printed { Printed out.old out.new result (answer_text (checked answer)) }
    ensures upper_bound { result ≤ 64 }
{
    match answer {
        Ok(rows) => {
            let mut w = Writer::new(out);
            w.bytes(b"rows ");
            w.number(rows);
            w.byte(b'\n');
            w.at
        }
        Err(refusal) => put_refusal(out, refusal),
    }
}

// Checks the list and writes the report at the start of out; answers its length, at most 64.
pub fn report_check(list: &[u8], out: &mut [u8]) -> usize
    ensures printed { Printed out.old out.new result (answer_text (check list.now)) }
    ensures upper_bound { result ≤ 64 }
    ensures by_index { (n p : ℕ) → check list.now ≡ refused n p →
        OneRefusal check_number list.now n p }
{
    put_answer(out, check(list))
}
