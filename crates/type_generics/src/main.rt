// The generics of the declaration on standard input by their names, as they stand behind the type's name: prints a
// token list, or the refusal.
#![tactic(auto)]

use generate::generics::report_type_generics;
use program::{LIST, STDIN, STDOUT};

// As many bytes as the longest output may have: MOST in writing/specs/Answer.antt.
const OUTPUT: usize = 114688;

fn main() {
    let mut list = [0; LIST];
    let n = io::read_full(STDIN, &mut list);
    let mut out = [0; OUTPUT];
    prove!(list.len() == 65537 && out.len() == 114688);
    let k = report_type_generics(&list[..n], &mut out);
    io::write_all(STDOUT, &out[..k]);
}
