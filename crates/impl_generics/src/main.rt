// The generics of the declaration on standard input, as they stand behind `impl`: prints a token list, or the
// refusal. The arguments are added names: one that begins with `'` is a lifetime, any other a type.
#![tactic(auto)]

ghost use Rattle.std.specs.Prelude.{◌≤◌, length};
ghost use Rattle.impl_generics.specs.declared.TheConstants.{NAMES};

use generate::generics::report_impl_generics;
use generate::names::{Gathered, add_argument};
use program::{LIST, STDERR, STDIN, STDOUT};
use std::env::{Env, FillError};

// So many bytes of added lifetimes, and as many of added types, each name with its LF.
const NAMES: usize = 4096;

// As many bytes as the longest output may have: most_added in writing/specs/Answer.antt, of two full buffers of names.
const OUTPUT: usize = 237568;

// `'`, a name of 255 bytes, and one byte more. Of a longer argument nothing is taken: as that argument, an empty one is
// no name.
const ARGUMENT: usize = 257;

// Adds argument i to the names; None past the last.
fn gather<R: Env>(
    rt: &R,
    i: usize,
    lifetimes: &mut [u8],
    types: &mut [u8],
    at: Gathered,
) -> Option<Gathered> {
    let mut argument = [0; ARGUMENT];
    prove!(argument.len() == 257);
    match rt.arg(i, &mut argument) {
        Ok(n) => Some(add_argument(&argument[..n], lifetimes, types, at)),
        Err(FillError::TooLong) => Some(add_argument(b"", lifetimes, types, at)),
        Err(FillError::NotPresent) => None,
    }
}

// All of them.
fn gather_all<R: Env>(rt: &R, lifetimes: &mut [u8], types: &mut [u8]) -> Gathered {
    let mut at = Gathered {
        lifetimes: 0,
        types: 0,
    };
    for i in 1..usize::MAX {
        let Some(next) = gather(rt, i, lifetimes, types, at) else {
            break;
        };
        at = next;
    }
    at
}

fn report(lifetimes: &[u8], types: &[u8])
    requires { (length lifetimes.now ≤ NAMES) × (length types.now ≤ NAMES) }
{
    let mut list = [0; LIST];
    let n = io::read_full(STDIN, &mut list);
    let mut out = [0; OUTPUT];
    prove!(list.len() == 65537 && out.len() == 237568);
    let k = report_impl_generics(&list[..n], lifetimes, types, &mut out);
    io::write_all(STDOUT, &out[..k]);
}

fn main(rt: HostRuntime) {
    let mut lifetimes = [0; NAMES];
    let mut types = [0; NAMES];
    prove!(lifetimes.len() == 4096 && types.len() == 4096);
    let at = gather_all(&rt, &mut lifetimes, &mut types);
    if NAMES < at.lifetimes {
        io::write_all(
            STDERR,
            b"impl_generics: more than 4096 bytes of added lifetimes\n",
        );
        return;
    }
    if NAMES < at.types {
        io::write_all(
            STDERR,
            b"impl_generics: more than 4096 bytes of added types\n",
        );
        return;
    }
    report(&lifetimes[..at.lifetimes], &types[..at.types]);
}
