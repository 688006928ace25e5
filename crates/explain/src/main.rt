// The list on standard input explained: prints a line for each row with its role in words, or what the refusal means
// and the rows near its place.
#![tactic(auto)]

use explanation::explain::report_explanation;
use program::{LIST, ROLES, STDIN, STDOUT};

// As long as an explanation can be: MOST in explanation/specs/Explanation.antt.
const OUTPUT: usize = 426048;

fn main() {
    let mut list = [0; LIST];
    let n = io::read_full(STDIN, &mut list);
    let mut roles = [0; ROLES];
    let mut out = [0; OUTPUT];
    prove!(list.len() == 65537 && roles.len() == 4096 && out.len() == 426048);
    let k = report_explanation(&list[..n], &mut roles, &mut out);
    io::write_all(STDOUT, &out[..k]);
}
