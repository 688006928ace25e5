// What the programs share: the descriptors, and the sizes of the buffers that they lend. Each `main` stays its own: it
// reads, calls one function on buffers of its sizes, and writes, and a shared one that took this call as a closure
// would be as long.
#![tactic(auto)]

use token_list::layout::{MAX_BYTES, MAX_ROWS};

// The descriptors of standard input, output and error.
pub const STDIN: i32 = 0;

pub const STDOUT: i32 = 1;

pub const STDERR: i32 = 2;

// One byte more than a list may have: enough to see that it has too many.
pub const LIST: usize = MAX_BYTES + 1;

// A byte for each row that a list may have.
pub const ROLES: usize = MAX_ROWS;

// The longest source text that is read, and a buffer with one byte more: enough to see that a text is longer.
pub const MAX_TEXT: usize = 1048576;

pub const TEXT: usize = MAX_TEXT + 1;

// So many bytes, whatever these stand on.
const _: () = prove!(LIST == 65537 && ROLES == 4096 && TEXT == 1048577);
