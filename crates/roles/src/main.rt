// The roles of the list on standard input: prints a line for each row, or the refusal.
#![tactic(auto)]

use program::{LIST, ROLES, STDIN, STDOUT};
use report::roles::report_roles;
use token_list::buffer::zeroed;

fn main() {
    let mut list = [0; LIST];
    let n = io::read_full(STDIN, &mut list);
    let mut roles = [0; ROLES];
    let mut out = zeroed::<65536>();
    prove!(list.len() == 65537 && roles.len() == 4096 && out.len() == 65536);
    let k = report_roles(&list[..n], &mut roles, &mut out);
    io::write_all(STDOUT, &out[..k]);
}
