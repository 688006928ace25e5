// The listing of the declaration on standard input: prints its fields, variants and numbers, or the refusal.
#![tactic(auto)]

use describe::listing::report_listing;
use program::{LIST, STDIN, STDOUT};

// As many bytes as the longest listing may have: MOST in describe/specs/Listing.antt.
const OUTPUT: usize = 176145;

fn main() {
    let mut list = [0; LIST];
    let n = io::read_full(STDIN, &mut list);
    let mut out = [0; OUTPUT];
    prove!(list.len() == 65537 && out.len() == 176145);
    let k = report_listing(&list[..n], &mut out);
    io::write_all(STDOUT, &out[..k]);
}
