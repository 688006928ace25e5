// The listing of the declaration that a source text holds.
ghost use Rattle.std.specs.Prelude.{◌≡◌, ℕ, length};
ghost use Rattle.source.specs.Answer.{refused};
ghost use Rattle.source.specs.Tokens.{TokensAs};
ghost use Rattle.describe.specs.Listing.{listing_number};
ghost use Rattle.from_source.specs.Answer.{listing_answer, TextRefusal};

use describe::listing;
use source::tokens::{SourceError, write_tokens};
use token_list::buffer::zeroed;
use token_list::layout::MAX_BYTES;

// Writes the listing of a source text at the start of the output; on a refusal nothing is written. Answers the length
// of the text.
pub fn write_listing(text: &[u8], out: &mut [u8]) -> Result<usize, SourceError>
    ensures source_written_as { TokensAs out.old out.new
        (listing_answer (length out.old) text.now) result }
    ensures by_index { (n p : ℕ) → listing_answer (length out.old) text.now ≡ refused n p →
        TextRefusal listing_number text.now n p }
{
    let mut list = zeroed::<MAX_BYTES>();
    let n = write_tokens(text, &mut list)?;
    Ok(listing::write_listing(&list[..n], out)?)
}
