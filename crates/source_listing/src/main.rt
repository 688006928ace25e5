// The listing of the declaration in the source text on standard input, or the refusal with its line and column.
#![tactic(auto)]

use from_source::report::report_listing;
use program::{MAX_TEXT, STDERR, STDIN, STDOUT, TEXT};
use token_list::buffer::zeroed;

// As many bytes as the longest listing may have: MOST in describe/specs/Listing.antt.
const OUTPUT: usize = 176145;

fn main() {
    // By a call: as an array here the check would go over each of its million bytes.
    let mut text = zeroed::<TEXT>();
    let n = io::read_full(STDIN, &mut text);
    if MAX_TEXT < n {
        io::write_all(
            STDERR,
            b"source_listing: a source text of more than 1048576 bytes is not read\n",
        );
        return;
    }
    let mut out = [0; OUTPUT];
    prove!(text.len() == 1048577 && out.len() == 176145);
    let k = report_listing(&text[..n], &mut out);
    io::write_all(STDOUT, &out[..k]);
}
