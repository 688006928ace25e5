// What a function answers that writes a text into a lent output: the text's length, which stands at the start of the
// output, or a refusal.
ghost use Rattle.std.specs.Prelude.{List, ℕ, ◌≤◌};
ghost use Rattle.output.specs.Answer.{Answer, answer_text};
ghost use Rattle.output.specs.Contract.{Printed};
ghost use Rattle.output.specs.Written.{WrittenAs, at_most};

use crate::put::put_refusal;
use token_list::check::Refusal;

// The answer as a program prints it: a refusal is written where the text would stand. Answers the
// length of what stands there.
pub fn put_answer(out: &mut [u8], answer: Result<usize, Refusal>) -> usize
    ensures by_index { (before : List ℕ) (a : Answer) → WrittenAs before out.old a answer →
        Printed before out.new result (answer_text a) }
    ensures upper_bound { result ≤ at_most answer }
{
    match answer {
        Ok(n) => n,
        Err(r) => put_refusal(out, r),
    }
}
