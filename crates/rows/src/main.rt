// The list check on standard input: prints `rows N`, or the refusal.
#![tactic(auto)]

use program::{LIST, STDIN, STDOUT};
use report::check::report_check;

fn main() {
    let mut list = [0; LIST];
    let n = io::read_full(STDIN, &mut list);
    let mut out = [0; 64];
    prove!(list.len() == 65537);
    let k = report_check(&list[..n], &mut out);
    io::write_all(STDOUT, &out[..k]);
}
