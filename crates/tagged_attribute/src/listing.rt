// The entries of a tagged attribute, a line for each, written into a lent output.
ghost use Rattle.std.specs.Prelude.{◌≡◌, List, ℕ};
ghost use Rattle.token_list.specs.Contract.{InList};
ghost use Rattle.output.specs.Writes.{Writes};
ghost use Rattle.tagged_reading.specs.Entry.{Entry, tag, property};
ghost use Rattle.tagged_reading.specs.Reading.{read};
ghost use Rattle.tagged_attribute.specs.Contract.{token_text, entries_at};
ghost use Rattle.tagged_attribute.specs.Listing.{entry_line, entry_lines};
ghost use Rattle.tagged_attribute.specs.Reported.{Readable, LineRead, Reported};

use crate::entry::{EntryAt, entry};
use crate::utils::parse_tagged_attribute;
use output::writer::Writer;
use token_list::check::Cursor;
use token_list::stream::Token;

fn put_tag(w: &mut Writer, s: &[u8], t: Token)
    requires { Readable s.now t }
    ensures { Writes w.old w.new (entry_line (tag (token_text s.now t))) }
{
    w.bytes(b"tag ");
    w.bytes(&s[t.start..t.end]);
    w.bytes(b" -\n");
}

fn put_property(w: &mut Writer, s: &[u8], k: Token, l: Token)
    requires readable { Readable s.now k }
    requires readable_2 { Readable s.now l }
    ensures { Writes w.old w.new
        (entry_line (property (token_text s.now k) (token_text s.now l))) }
{
    w.bytes(b"property ");
    w.bytes(&s[k.start..k.end]);
    w.bytes(b" ");
    w.bytes(&s[l.start..l.end]);
    w.bytes(b"\n");
}

// The line of the entry at c: the cursor after it; None where no entry can be read.
fn put_entry(w: &mut Writer, s: &[u8], c: Cursor) -> Option<Cursor>
    requires { InList s.now c }
    ensures { LineRead s.now c w.old w.new result }
{
    match entry(s, c) {
        Ok(Some(EntryAt::Tag(t))) => {
            put_tag(w, s, t.tag);
            Some(t.next)
        }
        Ok(Some(EntryAt::Property(p))) => {
            put_property(w, s, p.key, p.literal);
            Some(p.next)
        }
        Ok(Some(EntryAt::Lost(d))) => Some(d),
        Ok(None) | Err(_) => None,
    }
}

// The lines of the entries from `from` on.
fn put_entries(w: &mut Writer, s: &[u8], from: Cursor)
    requires { InList s.now from }
    ensures { (es : List Entry) (rs : List ℕ) → entries_at s.now from ≡ read es rs →
        Writes w.old w.new (entry_lines es) }
{
    let mut c = from;
    while let Some(next) = put_entry(w, s, c) {
        c = next;
    }
}

// Reads the tagged attribute with this prefix and writes its entries, `none` or the refusal at the start of out;
// answers the text's length.
pub fn report_tagged(list: &[u8], prefix: &[u8], roles: &mut [u8], out: &mut [u8]) -> usize
    ensures { Reported prefix.now list.now roles.old roles.new
        out.old out.new result }
{
    let mut w = Writer::new(out);
    match parse_tagged_attribute(list, prefix, roles) {
        Ok(Some(e)) => {
            w.bytes(b"part name value\n");
            put_entries(&mut w, list, e.first);
        }
        Ok(None) => w.bytes(b"none\n"),
        Err(r) => w.refusal(r),
    }
    w.at
}
