// The declaration that a source text holds, read into role bytes.
ghost use Rattle.std.specs.Prelude.{◌≡◌, List, ℕ, ◌^◌, ◌<◌, length};
ghost use Rattle.source.specs.Tokens.{ScannedAs, Fitted};
ghost use Rattle.from_source.specs.Contract.{read_of, ReadAs, ReadWithin};

use parse::data_type::DataType;
use parse::item;
use parse::item::ItemAt;
use source::tokens::{CELLS, SHORT, SHORT_CELLS, SHORT_LIST, Size, SourceError, has_room, scan};
use token_list::buffer::zeroed;
use token_list::check::{END, Refusal};
use token_list::layout::MAX_BYTES;
use token_list::refusal;

// The answer for the list of a text.
fn of_list(answer: Result<ItemAt, Refusal>) -> Result<DataType, SourceError>
    ensures { result ≡ read_of answer }
{
    Ok(answer?.kind)
}

// Reads the list that was found, which needs no check, or refuses.
fn read_list(
    scanned: Result<Option<Size>, usize>,
    list: &[u8],
    roles: &mut [u8],
) -> Result<DataType, SourceError>
    requires by_index { (s : List ℕ) × ScannedAs s list.now scanned }
    requires fitted { Fitted scanned (length list.now) }
    ensures { (s : List ℕ) → ScannedAs s list.now scanned →
        ReadAs s roles.old roles.new result }
{
    match scanned {
        Err(offset) => {
            let refusal = Refusal {
                number: refusal::NO_TOKEN,
                place: END,
            };
            let _ = item::refuse(roles, refusal);
            Err(SourceError::FaultAt(offset))
        }
        Ok(None) => {
            let refusal = Refusal {
                number: refusal::OVER_LIMIT,
                place: END,
            };
            of_list(item::refuse(roles, refusal))
        }
        Ok(Some(size)) => of_list(item::read_checked(&list[..size.bytes], roles, size.rows)),
    }
}

// Reads a text whose list has room in so many bytes, with as many cells for its brackets.
fn read_within<const KINDS: usize, const LIST: usize>(
    text: &[u8],
    roles: &mut [u8],
) -> Option<Result<DataType, SourceError>>
    requires kinds_len { KINDS < 2 ^ 63 }
    requires list_len { LIST < 2 ^ 63 }
    ensures { ReadWithin LIST text.now roles.old roles.new result }
{
    let mut kinds = zeroed::<KINDS>();
    let mut list = zeroed::<LIST>();
    let scanned = scan(text, &mut kinds, &mut list);
    if !has_room(scanned, LIST) {
        return None;
    }
    Some(read_list(scanned, &list, roles))
}

// A declaration and the role bytes of its rows, or a refusal and 255 throughout.
pub fn read(text: &[u8], roles: &mut [u8]) -> Result<DataType, SourceError>
    ensures { ReadAs text.now roles.old roles.new result }
{
    if text.len() <= SHORT {
        if let Some(answer) = read_within::<SHORT_CELLS, SHORT_LIST>(text, roles) {
            return answer;
        }
    }
    // So many bytes have room for every list.
    read_within::<CELLS, MAX_BYTES>(text, roles).unwrap()
}
