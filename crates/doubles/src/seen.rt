// A table of keys, in two lent slices: `numbers` holds the number of each key; `words` holds, for each remainder of a
// number by how many keys there is room for, the last key that has it, and then for each key where its text begins and
// ends, and the last key before it with its remainder. Such a link is one more than the key's position, and 0 where
// there is none.
ghost use Rattle.std.specs.Prelude.{◌≡◌, List, ◌*◌, ◌<◌, length};
ghost use Rattle.doubles.specs.Double.{stands};
ghost use Rattle.doubles.specs.Key.{Key, same_key};
ghost use Rattle.doubles.specs.Contract.{key_of, key_at, Holds, Standing, Added, Seen};

use crate::key::KeyAt;
use token_list::text::text_is;

// Whether the key at position k of the table is this one.
fn is_at(bytes: &[u8], key: KeyAt, words: &[u16], numbers: &[usize], k: usize) -> bool
    requires holds { (ks : List Key) × Holds bytes.now words.now numbers.now ks × (k < length ks) }
    requires standing { Standing bytes.now key }
    ensures { result ≡ same_key (key_of bytes.now key)
        (key_at bytes.now words.now numbers.now k) }
{
    let at = numbers.len() + 3 * k;
    key.number == numbers[k]
        && text_is(
            bytes,
            usize::from(words[at]),
            usize::from(words[at + 1]),
            &bytes[key.start..key.end],
        )
}

// Whether the key stands in the table: keys whose numbers have its number's remainder are looked at, the last first.
fn is_in(bytes: &[u8], key: KeyAt, words: &[u16], numbers: &[usize]) -> bool
    requires holds { (ks : List Key) × Holds bytes.now words.now numbers.now ks }
    requires numbers_nonzero { 0 < length numbers.now }
    requires standing { Standing bytes.now key }
    ensures { (ks : List Key) → Holds bytes.now words.now numbers.now ks →
        result ≡ stands same_key (key_of bytes.now key) ks }
{
    let mut link = usize::from(words[key.number % numbers.len()]);
    // From key to key by the links between them, in lent slices of a fixed length: no map, since there is no heap.
    while link != 0 {
        let k = link - 1;
        if is_at(bytes, key, words, numbers, k) {
            return true;
        }
        let at = numbers.len() + 3 * k;
        link = usize::from(words[at + 2]);
    }
    false
}

// Puts the key into the table, at position `count`.
fn add(key: KeyAt, words: &mut [u16], numbers: &mut [usize], count: usize)
    requires count_in_bounds { count < length numbers.old }
    requires numbers_len_bound { length numbers.old < 65536 }
    requires words_len { length words.old ≡ 4 * length numbers.old }
    requires start_bound { key.start < 65536 }
    requires end_bound { key.end < 65536 }
    ensures { Added words.old words.new numbers.old numbers.new key
        count }
{
    let bucket = key.number % numbers.len();
    let at = numbers.len() + 3 * count;
    let last = words[bucket];
    words[at] = key.start as u16;
    words[at + 1] = key.end as u16;
    words[at + 2] = last;
    words[bucket] = (count + 1) as u16;
    numbers[count] = key.number;
}

// Whether the key was seen before; afterwards it is in the table, which held `count` keys.
pub fn seen(
    bytes: &[u8],
    key: KeyAt,
    words: &mut [u16],
    numbers: &mut [usize],
    count: usize,
) -> bool
    requires holds { (ks : List Key) × Holds bytes.now words.old numbers.old ks × (length ks ≡ count) }
    requires count_in_bounds { count < length numbers.old }
    requires standing { Standing bytes.now key }
    ensures { (ks : List Key) → Holds bytes.now words.old numbers.old ks →
        length ks ≡ count → Seen bytes.now words.new numbers.new
        (key_of bytes.now key) ks result }
{
    let found = is_in(bytes, key, words, numbers);
    add(key, words, numbers, count);
    found
}
