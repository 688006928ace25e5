// The functions that C and Rust call. Each answers one number (see include/kusthrila.h).
#![tactic(auto)]

ghost use Rattle.std.specs.Prelude.{◌≡◌, length, Ok};
ghost use Rattle.token_list.specs.Check.{check};
ghost use Rattle.token_list.specs.Place.{check_number};
ghost use Rattle.parse.specs.Contract.{kind_of};
ghost use Rattle.describe.specs.Contract.{InRange};
ghost use Rattle.describe.specs.Listing as listing;
ghost use Rattle.writing.specs.Answer.{impl_generics_lem, type_generics_lem, with_additional_lem};
ghost use Rattle.exports.specs.Code.{code, kind_code, answer_case, LowPlace, place_number, Coded, check_case, ReadInto};
ghost use Rattle.exports.specs.Code.{WrittenInto, GeneratedInto, ValueInto, TaggedInto, NamesCompared};
ghost use Rattle.exports.specs.SourceCode.{case_of, place_told, text_case, LowTextPlace, TokensInto, RowPlace};
ghost use Rattle.exports.specs.ReadSource.{ReadSourceInto};

use describe::value::ValuePlace;
use describe::{listing, value};
use from_source::roles;
use generate::generics;
use parse::data_type::DataType;
use parse::item;
use source::tokens::SourceError;
use source::{places, tokens};
use tagged_attribute::utils;
use token_list::check::{END, Refusal};
use token_list::{check, refusal, text};

// A number from here on tells a refusal.
const REFUSED: u64 = 4294967296;

// And one from here on a part of the list, where a value is asked for.
const IN_LIST: usize = 65536;

// At most so many bytes of an output are used, so that a length is never taken for a refusal.
const MAX_OUTPUT: usize = 4294967295;

// An acceptance's own number, or the refusal.
fn coded(answer: Result<usize, Refusal>) -> u64
    requires { LowPlace answer }
    ensures { result ≡ code (answer_case answer) }
{
    match answer {
        Ok(number) => number as u64,
        Err(r) => u64::from(r.number) * REFUSED + r.place as u64,
    }
}

// The same of a source text; a fault is 40, whose offset is written to `place`.
fn source_coded(answer: Result<usize, SourceError>, place: &mut u64) -> u64
    requires { LowTextPlace answer }
    ensures number { result ≡ code (case_of (text_case answer)) }
    ensures place { place.new ≡ place_told place.old (text_case answer) }
{
    match answer {
        Ok(number) => coded(Ok(number)),
        Err(SourceError::FaultAt(offset)) => {
            *place = offset as u64;
            coded(Err(Refusal {
                number: refusal::NO_TOKEN,
                place: END,
            }))
        }
        Err(SourceError::Refused(r)) => coded(Err(r)),
    }
}

// 0 for a struct, 1 for an enum.
fn kind_number(kind: DataType) -> usize
    ensures { result ≡ kind_code (kind_of kind) }
{
    match kind {
        DataType::Struct => 0,
        DataType::Enum => 1,
    }
}

// Checks a list: the number of its rows, or a refusal.
#[unsafe(no_mangle)]
pub extern "C" fn kusthrila_check(list: &[u8]) -> u64
    ensures { Coded check_number list.now (check_case (check list.now)) result }
{
    coded(check::check(list))
}

// Reads a declaration into role bytes: 0 for a struct, 1 for an enum, or a refusal.
#[unsafe(no_mangle)]
pub extern "C" fn kusthrila_read(list: &[u8], roles: &mut [u8]) -> u64
    ensures { ReadInto list.now roles.old roles.new result }
{
    coded(item::new(list, roles).map(|item| kind_number(item.kind)))
}

// Writes the listing at the start of the output: its length, or a refusal.
#[unsafe(no_mangle)]
pub extern "C" fn kusthrila_listing(list: &[u8], out: &mut [u8]) -> u64
    ensures { WrittenInto listing.listing_number list.now out.old out.new
        (listing.answer list.now (length out.old)) result }
{
    coded(listing::write_listing(list, out))
}

// Writes the generics of the declaration for an `impl`, as a list: its length, or a refusal.
#[unsafe(no_mangle)]
pub extern "C" fn kusthrila_impl_generics(list: &[u8], out: &mut [u8]) -> u64
    ensures { GeneratedInto impl_generics_lem list.now out.old out.new result }
{
    let used = out.len().min(MAX_OUTPUT);
    coded(generics::impl_generics(list, &mut out[..used]))
}

// The same with added lifetimes in front and added types behind, each the lines of a text.
#[unsafe(no_mangle)]
pub extern "C" fn kusthrila_impl_generics_with_additional(
    list: &[u8],
    lifetimes: &[u8],
    types: &[u8],
    out: &mut [u8],
) -> u64
    ensures { GeneratedInto (with_additional_lem lifetimes.now types.now) list.now
        out.old out.new result }
{
    let used = out.len().min(MAX_OUTPUT);
    let out = &mut out[..used];
    coded(generics::impl_generics_with_additional(list, lifetimes, types, out))
}

// The same with the names of the parameters alone, as they stand behind the type's name.
#[unsafe(no_mangle)]
pub extern "C" fn kusthrila_type_generics(list: &[u8], out: &mut [u8]) -> u64
    ensures { GeneratedInto type_generics_lem list.now out.old out.new result }
{
    let used = out.len().min(MAX_OUTPUT);
    coded(generics::type_generics(list, &mut out[..used]))
}

// Where a variant's value stands: nowhere, in the scratch, in the list.
fn place_number(place: Option<ValuePlace>) -> usize
    requires { InRange (Ok place) }
    ensures { result ≡ place_number place }
{
    match place {
        None => 0,
        Some(ValuePlace::InScratch(n)) => n,
        Some(ValuePlace::InList(start, end)) => start * IN_LIST + end,
    }
}

// Where a variant's value stands, or a refusal.
#[unsafe(no_mangle)]
pub extern "C" fn kusthrila_value(list: &[u8], position: usize, scratch: &mut [u8]) -> u64
    ensures { ValueInto list.now position scratch.old scratch.new result }
{
    coded(value::value_of(list, position, scratch).map(place_number))
}

// Reads the tagged attribute with this prefix into role bytes: 0 where the prefix does not stand, 1 where it was found,
// or a refusal.
#[unsafe(no_mangle)]
pub extern "C" fn kusthrila_tagged(list: &[u8], prefix: &[u8], roles: &mut [u8]) -> u64
    ensures { TaggedInto prefix.now list.now roles.old roles.new result }
{
    let found = utils::parse_tagged_attribute(list, prefix, roles);
    coded(found.map(|entries| usize::from(entries.is_some())))
}

// Compares two names: twice the number of pairs of bytes that were looked at, and one more where they are equal.
#[unsafe(no_mangle)]
pub extern "C" fn kusthrila_same_name(a: &[u8], b: &[u8]) -> u64
    ensures { NamesCompared a.now b.now result }
{
    let compared = text::compare(a, b);
    2 * compared.pairs as u64 + u64::from(compared.same)
}

// Writes the token list of a source text at the start of the output: its length, or a refusal, of which 40 alone writes
// its offset to `place`.
#[unsafe(no_mangle)]
pub extern "C" fn kusthrila_tokens(text: &[u8], out: &mut [u8], place: &mut u64) -> u64
    ensures { TokensInto text.now out.old out.new place.old
        place.new result }
{
    source_coded(tokens::write_tokens(text, out), place)
}

// Reads the declaration of a source text into role bytes: 0 for a struct, 1 for an enum, or a refusal, of which 40
// alone writes its offset to `place`.
#[unsafe(no_mangle)]
pub extern "C" fn kusthrila_read_source(text: &[u8], roles: &mut [u8], place: &mut u64) -> u64
    ensures { ReadSourceInto text.now roles.old roles.new place.old place.new result }
{
    source_coded(roles::read(text, roles).map(kind_number), place)
}

// Where the text of a row stands in the source: answers its offset, and writes its length.
#[unsafe(no_mangle)]
pub extern "C" fn kusthrila_row_place(text: &[u8], row: usize, length: &mut u64) -> u64
    ensures { RowPlace text.now row result length.new }
{
    let place = places::row_place(text, row);
    *length = place.length as u64;
    place.offset as u64
}
