// The explanation of a list: a line for each row with its role in words, or the refusal with the rows near its place.
ghost use Rattle.std.specs.Prelude.{◌≡◌, ℕ, ◌≤◌, length};
ghost use Rattle.token_list.specs.Place.{OneRefusal};
ghost use Rattle.reading.specs.Answer.{refused, answer, buffer, read_number};
ghost use Rattle.output.specs.Contract.{Printed};
ghost use Rattle.output.specs.Writes.{Writes};
ghost use Rattle.explanation.specs.Explanation.{names_line, explanation, MOST};

use crate::rows::{put_near, put_roles};
use crate::words::put_meaning;
use output::writer::Writer;
use report::roles::read_roles;
use token_list::check::Refusal;
use token_list::layout::is_marked;

// The columns of what is told, and the list's own.
fn put_names_line(w: &mut Writer, marked: bool)
    ensures { Writes w.old w.new (names_line marked) }
{
    w.bytes(b" row  role                         ");
    w.names(marked);
}

// The refusal, what it means, and the rows near its place.
fn put_refused(out: &mut [u8], list: &[u8], refusal: Refusal) -> usize
    ensures printed { Printed out.old out.new result
        (explanation list.now (refused refusal.number refusal.place)) }
    ensures upper_bound { result ≤ MOST }
{
    let mut w = Writer::new(out);
    w.refusal(refusal);
    put_meaning(&mut w, refusal.number);
    w.byte(b'\n');
    put_near(&mut w, list, refusal.place);
    w.at
}

// Reads the list and writes its explanation at the start of out; answers its length, at most MOST.
pub fn report_explanation(list: &[u8], roles: &mut [u8], out: &mut [u8]) -> usize
    ensures printed { Printed out.old out.new result
        (explanation list.now (answer list.now (length roles.old))) }
    ensures roles_after { roles.new ≡ buffer (length roles.old)
        (answer list.now (length roles.old)) }
    ensures upper_bound { result ≤ MOST }
    ensures by_index { (n p : ℕ) → answer list.now (length roles.old) ≡ refused n p →
        OneRefusal read_number list.now n p }
{
    match read_roles(list, roles) {
        Err(r) => put_refused(out, list, r),
        Ok(n) => {
            let mut w = Writer::new(out);
            put_names_line(&mut w, is_marked(list));
            put_roles(&mut w, list, &roles[..n]);
            w.at
        }
    }
}
