// The list that a writer makes, row by row (virtue's generate/stream_builder.rs), in a lent output.
// What does not fit is left out, and counted all the same.
ghost use Rattle.std.specs.Prelude.{◌≡◌, [], ◌∷◌, ◌≤◌, length};
ghost use Rattle.std.proofs.Math.Seq.{slice};
ghost use Rattle.token_list.specs.Row.{mark_byte, mark_column_lem, written};
ghost use Rattle.token_list.specs.Rows.{ident, punct, lifetime_rows};
ghost use Rattle.output.specs.Contract.{further};
ghost use Rattle.output.specs.Writes.{Writes};
ghost use Rattle.generate.specs.Contract.{row, sent_mark_lem, Built, Appended, Extended, Part, comma};

use output::put::FAR;
use output::writer::Writer;
use token_list::check::Cursor;
use token_list::layout::is_marked;
use token_list::stream::{Token, token_at};

// How many rows and bytes the list has, where both stop at a number past every output; and whether its rows have marks.
#[derive(Clone, Copy, Debug, PartialEq, Eq)]
pub struct StreamBuilder {
    pub rows: usize,
    pub bytes: usize,
    pub marked: bool,
}

// The output that the list goes to, and what is built of it. No copy of it is to be had, since it holds the output.
#[derive(Drop)]
pub struct ListBuilder<'a> {
    pub out: &'a mut [u8],
    pub built: StreamBuilder,
}

// `n` rows more.
fn counted(rows: usize, n: usize) -> usize
    ensures { result ≡ further rows n }
{
    if FAR <= rows {
        rows
    } else {
        rows + n.min(FAR - rows)
    }
}

// The byte of a mark.
fn mark_byte(joint: bool) -> u8
    ensures { result ≡ mark_byte joint }
{
    if joint { b'1' } else { b'0' }
}

// The column of a mark, where rows have one.
fn put_mark(w: &mut Writer, marked: bool, joint: bool)
    ensures { Writes w.old w.new (mark_column_lem marked joint) }
{
    if marked {
        w.byte(mark_byte(joint));
        w.byte(b' ');
    }
}

// A row of this kind.
fn put_row(w: &mut Writer, marked: bool, kind: u8, joint: bool, text: &[u8])
    ensures { Writes w.old w.new (written marked (row kind joint text.now ∷ [])) }
{
    w.byte(kind);
    w.byte(b' ');
    put_mark(w, marked, joint);
    w.bytes(text);
    w.byte(b'\n');
}

// The mark with which a token of the list goes out: a `'` is joint.
fn sent_mark(t: Token) -> bool
    ensures { result ≡ sent_mark_lem t.kind t.joint t.byte }
{
    t.joint || t.kind == b'p' && t.byte == b'\''
}

impl<'a> ListBuilder<'a> {
    // A list without rows: its line of names.
    pub fn new(out: &'a mut [u8], marked: bool) -> ListBuilder<'a>
        ensures same_output { result.out.ghost_name ≡ out.entry.ghost_name }
        ensures built { Built marked out.old result [] }
    {
        let mut w = Writer::new(out);
        w.names(marked);
        ListBuilder {
            out: w.out,
            built: StreamBuilder {
                rows: 0,
                bytes: w.at,
                marked,
            },
        }
    }

    // A row of this kind.
    fn row(&mut self, kind: u8, joint: bool, text: &[u8])
        ensures { Appended self.old self.new (row kind joint text.now ∷ []) }
    {
        let mut w = Writer {
            out: self.out,
            at: self.built.bytes,
        };
        put_row(&mut w, self.built.marked, kind, joint, text);
        self.built.bytes = w.at;
        self.built.rows = counted(self.built.rows, 1);
    }

    // A punctuation, joint where it is a `'`.
    pub fn punct(&mut self, p: u8)
        ensures { Appended self.old self.new (punct p ∷ []) }
    {
        self.row(b'p', p == b'\'', &[p]);
    }

    // The `,` between parameters: not before the first.
    pub fn part(&mut self, first: bool)
        ensures { Appended self.old self.new (comma first) }
    {
        if !first {
            self.punct(b',');
        }
    }

    // A name.
    pub fn ident_str(&mut self, name: &[u8])
        ensures { Appended self.old self.new (ident name.now ∷ []) }
    {
        self.row(b'i', false, name);
    }

    // The name that a token of the list s is.
    pub fn ident(&mut self, s: &[u8], t: Token)
        requires { (t.start ≤ t.end) × (t.end ≤ length s.now) }
        ensures { Appended self.old self.new
            (ident (slice t.start t.end s.now) ∷ []) }
    {
        self.ident_str(&s[t.start..t.end]);
    }

    // `'` and a name.
    pub fn lifetime_str(&mut self, name: &[u8])
        ensures { Appended self.old self.new (lifetime_rows name.now) }
    {
        self.punct(b'\'');
        self.ident_str(name);
    }

    // `'` and the name that a token of the list s is.
    pub fn lifetime(&mut self, s: &[u8], t: Token)
        requires { (t.start ≤ t.end) × (t.end ≤ length s.now) }
        ensures { Appended self.old self.new
            (lifetime_rows (slice t.start t.end s.now)) }
    {
        self.lifetime_str(&s[t.start..t.end]);
    }

    // The rows of the list s from a cursor up to another, each as it goes out.
    fn copy_rows(&mut self, s: &[u8], from: Cursor, to: Cursor)
        requires { Part s.now from to }
        ensures { Extended s.now from to self.old self.new }
    {
        let mut at = from.at;
        for _row in from.row..to.row {
            let t = token_at(s, at);
            self.row(t.kind, sent_mark(t), &s[t.start..t.end]);
            at = t.next;
        }
    }

    // The same; where neither list has marks, the rows are copied as one part.
    pub fn extend(&mut self, s: &[u8], from: Cursor, to: Cursor)
        requires { Part s.now from to }
        ensures { Extended s.now from to self.old self.new }
    {
        if self.built.marked || is_marked(s) {
            self.copy_rows(s, from, to);
        } else {
            let mut w = Writer {
                out: self.out,
                at: self.built.bytes,
            };
            w.bytes(&s[from.at..to.at]);
            self.built.bytes = w.at;
            self.built.rows = counted(self.built.rows, to.row - from.row);
        }
    }
}
