// A text that is written part by part into a lent output.
ghost use Rattle.std.specs.Prelude.{◌≡◌, [], ◌∷◌, ◌+◌, ◌≤◌, ◌<◌, length, leb};
ghost use Rattle.token_list.specs.Layout.{names};
ghost use Rattle.output.specs.Text.{decimal, place_text, refusal_text};
ghost use Rattle.output.specs.Contract.{FAR, Put};

use crate::put;
use crate::put::{FAR, copy_bytes, put_byte, put_number};
use token_list::check::{END, Refusal};

// The output, and the place that the next part goes to. What does not fit is left out, and counted all the same, up to
// a place that no output has.
#[derive(Drop)]
pub struct Writer<'a> {
    pub out: &'a mut [u8],
    pub at: usize,
    // Of every slice this holds; here it stands for laws that have no slice at hand.
    pub ghost short: { length out.now < FAR },
}

impl<'a> Writer<'a> {
    ghost use Rattle.output.specs.Writes.{Writes};

    // From the output's start on.
    pub fn new(out: &'a mut [u8]) -> Writer<'a>
        ensures same_output { result.out.ghost_name ≡ out.entry.ghost_name }
        ensures put { Put out.old result.out.now 0 result.at [] }
    {
        Writer { out, at: 0 }
    }

    // Whether n bytes more fit.
    fn has_room(&self, n: usize) -> bool
        ensures { result ≡ leb (self.now.at + n) (length self.now.out.now) }
    {
        put::has_room(self.out, self.at, n)
    }

    pub fn byte(&mut self, b: u8)
        ensures { Writes self.old self.new (b ∷ []) }
    {
        self.at = put_byte(self.out, self.at, b);
    }

    pub fn bytes(&mut self, text: &[u8])
        ensures { Writes self.old self.new text.now }
    {
        if self.has_room(text.len()) {
            copy_bytes(self.out, self.at, text);
            self.at += text.len();
        } else {
            for &b in text {
                self.byte(b);
            }
        }
    }

    // A list's line of names, with marks or without.
    pub fn names(&mut self, marked: bool)
        ensures { Writes self.old self.new (names marked) }
    {
        if marked {
            self.bytes(b"kind joint text\n");
        } else {
            self.bytes(b"kind text\n");
        }
    }

    // The decimal digits of n.
    pub fn number(&mut self, n: usize)
        ensures { Writes self.old self.new (decimal n) }
    {
        self.at = put_number(self.out, self.at, n);
    }

    // A place: its row, or `-` for the end mark.
    pub fn place(&mut self, place: usize)
        ensures { Writes self.old self.new (place_text place) }
    {
        if place == END {
            self.byte(b'-');
        } else {
            self.number(place);
        }
    }

    // The line `refused place`, and a line with the refusal's number and place: at most 64 bytes.
    pub fn refusal(&mut self, refusal: Refusal)
        ensures writes { Writes self.old self.new (refusal_text refusal.number refusal.place) }
        ensures upper_bound { length (refusal_text refusal.number refusal.place) ≤ 64 }
    {
        self.bytes(b"refused place\n");
        self.number(refusal.number as usize);
        self.byte(b' ');
        self.place(refusal.place);
        self.byte(b'\n');
    }
}
