// The token list of the source text on standard input, or the refusal with its line and column.
#![tactic(auto)]

use program::{MAX_TEXT, STDERR, STDIN, STDOUT, TEXT};
use source::report::report_tokens;
use token_list::buffer::zeroed;

// As many bytes as a token list may have.
const OUTPUT: usize = 65536;

fn main() {
    // By a call: as an array here the check would go over each of its million bytes.
    let mut text = zeroed::<TEXT>();
    let n = io::read_full(STDIN, &mut text);
    if MAX_TEXT < n {
        io::write_all(
            STDERR,
            b"tokens: a source text of more than 1048576 bytes is not read\n",
        );
        return;
    }
    let mut out = [0; OUTPUT];
    prove!(text.len() == 1048577 && out.len() == 65536);
    let k = report_tokens(&text[..n], &mut out);
    io::write_all(STDOUT, &out[..k]);
}
