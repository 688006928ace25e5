// The line in front of a section: its name, one space, its length.
ghost use Rattle.std.specs.Prelude.{◌≡◌, ◌+◌, ◌^◌, ◌<◌, length};
ghost use Rattle.token_list.specs.Text.{between};
ghost use Rattle.replay.specs.Header.{run, topic_name, section_named, sized, header};

use describe::value::worth;
use token_list::text::compare;

// A writer of generics.
#[derive(Clone, Copy)]
pub enum Writer {
    Impl,
    Type,
    Additional,
}

// What an answer is about.
// A closed set, which each `match` names: a table of functions would be made anew at each call.
#[derive(Clone, Copy)]
pub enum Topic {
    Check,
    Roles,
    Every,
    Listing,
    Tagged,
    Generics(Writer),
}

// What a section holds: a list, an answer that is compared, or what is passed over.
#[derive(Clone, Copy)]
pub enum Section {
    List,
    Answer(Topic),
    Other,
}

// A section, its size and where it starts.
#[derive(Clone, Copy)]
pub struct Header {
    pub section: Section,
    pub size: usize,
    pub start: usize,
}

static TOPICS: [Topic; 8] = [
    Topic::Check,
    Topic::Roles,
    Topic::Every,
    Topic::Listing,
    Topic::Tagged,
    Topic::Generics(Writer::Impl),
    Topic::Generics(Writer::Type),
    Topic::Generics(Writer::Additional),
];

// The name of the section with the answers about a topic.
pub fn topic_name(topic: Topic) -> &'static [u8]
    ensures { result.now ≡ topic_name topic }
{
    match topic {
        Topic::Check => b"check",
        Topic::Roles => b"roles",
        Topic::Every => b"every",
        Topic::Listing => b"listing",
        Topic::Tagged => b"tagged",
        Topic::Generics(Writer::Impl) => b"impl",
        Topic::Generics(Writer::Type) => b"type",
        Topic::Generics(Writer::Additional) => b"additional",
    }
}

// What a name stands for.
fn section_named(name: &[u8]) -> Section
    ensures { result ≡ section_named name.now }
{
    if compare(name, b"list").same {
        return Section::List;
    }
    match TOPICS
        .iter()
        .find(|topic| compare(name, topic_name(**topic)).same)
    {
        Some(topic) => Section::Answer(*topic),
        None => Section::Other,
    }
}

// How many bytes from lo to hi the text begins with.
fn run(text: &[u8], lo: u8, hi: u8) -> usize
    ensures { result ≡ run (between lo hi) text.now }
{
    text.iter().take_while(|b| (lo..=hi).contains(*b)).count()
}

// The most digits that a section's size has.
const MAX_DIGITS: usize = 9;

// The header of this section; the text from `at` on begins with its digits.
fn read_size(text: &[u8], at: usize, section: Section) -> Option<Header>
    requires { at + length text.now < 2 ^ 64 }
    ensures { result ≡ sized section at text.now }
{
    let n = run(text, b'0', b'9');
    if n == text.len() || text[n] != b'\n' || n == 0 || MAX_DIGITS < n {
        return None;
    }
    Some(Header {
        section,
        size: worth(text, 0, n),
        start: at + n + 1,
    })
}

// The header that the text from `at` on begins with.
pub fn read_header(text: &[u8], at: usize) -> Option<Header>
    requires { at + length text.now < 2 ^ 64 }
    ensures { result ≡ header at text.now }
{
    let n = run(text, b'a', b'z');
    if n == text.len() || text[n] != b' ' || n == 0 {
        return None;
    }
    read_size(&text[n + 1..], at + n + 1, section_named(&text[..n]))
}
