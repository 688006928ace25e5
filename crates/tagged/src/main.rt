// The entries of the tagged attribute on standard input, whose prefix is the argument: prints a line for each, `none`,
// or the refusal.
#![tactic(auto)]

use program::{LIST, ROLES, STDERR, STDIN, STDOUT};
use std::env::{Env, FillError};
use tagged_attribute::listing::report_tagged;

// As many bytes as the longest text may have: MOST in tagged_attribute/specs/Listing.antt.
const OUTPUT: usize = 110608;

// More bytes than a name may have. Of a longer argument nothing is taken: as that argument, an empty prefix stands
// nowhere.
const PREFIX: usize = 256;

fn report(prefix: &[u8]) {
    let mut list = [0; LIST];
    let n = io::read_full(STDIN, &mut list);
    let mut roles = [0; ROLES];
    let mut out = [0; OUTPUT];
    prove!(list.len() == 65537 && roles.len() == 4096 && out.len() == 110608);
    let k = report_tagged(&list[..n], prefix, &mut roles, &mut out);
    io::write_all(STDOUT, &out[..k]);
}

fn main(rt: HostRuntime) {
    let mut prefix = [0; PREFIX];
    prove!(prefix.len() == 256);
    let n = match rt.arg(1, &mut prefix) {
        Ok(n) => n,
        Err(FillError::TooLong) => 0,
        Err(FillError::NotPresent) => {
            io::write_all(STDERR, b"usage: tagged PREFIX < LIST\n");
            return;
        }
    };
    report(&prefix[..n]);
}
