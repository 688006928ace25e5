// The words for a role and for a refusal, by their numbers.
ghost use Rattle.std.specs.Prelude.{[], map, slice_index_or};
ghost use Rattle.output.specs.Writes.{Writes};
ghost use Rattle.explanation.specs.Words.{role_words, meaning};

use output::writer::Writer;

// The roles, each with blanks up to the width of its column.
static ROLES: [&[u8]; 19] = [
    b"left over                    ",
    b"attribute mark               ",
    b"attribute group              ",
    b"idle mark                    ",
    b"visibility                   ",
    b"visibility scope             ",
    b"item word                    ",
    b"item name                    ",
    b"generics angle               ",
    b"parameter name               ",
    b"separator                    ",
    b"bound, default or const type ",
    b"where                        ",
    b"where run                    ",
    b"delimiter                    ",
    b"variant name                 ",
    b"value                        ",
    b"field name                   ",
    b"type                         ",
];

// What the refusals mean; nothing where a number is none.
static MEANINGS: [&[u8]; 52] = [
    b"",
    b"more than 65,536 bytes",
    b"the line of names differs",
    b"the row's form, its text's length or its LF is wrong",
    b"a further row begins after 4,096",
    b"a close without its matching open",
    b"a 33rd open group",
    b"the list ends; the row of the innermost open group",
    b"a lent buffer is too short: a role buffer needs a byte a row, scratch 20 bytes, an output what is \
      written (176,145 bytes are enough without added names)",
    b"",
    b"",
    b"struct or enum, the item's name or a variant's name is missing",
    b"# with a group that is not [",
    b"# followed by anything else",
    b"in generics: not ', > or a name; at the end, the row of <",
    b"> with nothing open",
    b"a struct's body is neither a group nor ;",
    b"a struct's body is a [ or 0 group",
    b"an enum's body is neither a group nor ;",
    b"a variant's group is [ or 0",
    b"after a variant without value: not ,",
    b"no literal after = or -",
    b"a field's name is missing",
    b": is missing",
    b"no name after '; at the end, the row of '",
    b"another item word; the row of the word itself",
    b"the literal after - is not digits alone, or worth more than 9,223,372,036,854,775,807",
    b"no name after const",
    b"tagged: no , after a value",
    b"tagged: neither a key nor a key and a value",
    b"an added name is no name of at most 255 bytes, or has r#",
    b"tagged: the list is not one group; the first row outside it, or -",
    b"",
    b"",
    b"",
    b"",
    b"",
    b"",
    b"",
    b"",
    b"source: no token begins there, or a bracket does not match",
    b"source: the list would pass a limit",
    b"listing: a variant's value is no integer, or above 9,223,372,036,854,775,807",
    b"listing: a variant without value after the number 9,223,372,036,854,775,807",
    b"",
    b"",
    b"",
    b"",
    b"",
    b"",
    b"listing: the name of an earlier variant, r# aside",
    b"listing: the number of an earlier variant",
];

// Word k; nothing past the last.
fn put_word(w: &mut Writer, words: &[&[u8]], k: usize)
    ensures { Writes w.old w.new (slice_index_or (map (λ word. word.now) words.now) k []) }
{
    if let Some(word) = words.get(k) {
        w.bytes(word);
    }
}

// A role in words.
pub fn put_role(w: &mut Writer, role: u8)
    ensures { Writes w.old w.new (role_words role) }
{
    put_word(w, &ROLES, role as usize);
}

// What a refusal means.
pub fn put_meaning(w: &mut Writer, number: u8)
    ensures { Writes w.old w.new (meaning number) }
{
    put_word(w, &MEANINGS, number as usize);
}
