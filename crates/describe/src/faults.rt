// What stops a listing: a variant without a number, or whose name or number is an earlier one's.
ghost use Rattle.std.specs.Prelude.{◌≡◌, Bool, List, [], ◌∷◌, ◌++◌, map, ℕ, ◌*◌, ◌≤◌, ◌<◌, ℤ, length};
ghost use Rattle.token_list.specs.Layout.{MAX_BYTES};
ghost use Rattle.reading.specs.Declaration.{Variant, Body, body_count};
ghost use Rattle.reading.specs.Reading.{every, variant, body_of};
ghost use Rattle.reading.specs.Place.{inside};
ghost use Rattle.parse.specs.Contract.{point, kind_of, InsideAt, VariantOf};
ghost use Rattle.doubles.specs.Key.{name_key, integer_key};
ghost use Rattle.doubles.specs.Contract.{MINUS_SIGN, Holds};
ghost use Rattle.describe.specs.Numbers.{BEFORE_FIRST, numbers_from, body_numbers, variant_names, body_names};
ghost use Rattle.describe.specs.Numbers.{distinct, fault_in};
ghost use Rattle.describe.specs.Contract.{MANY, or_found, faults_of, NamesSeen, IntegersSeen};
ghost use Rattle.describe.specs.Contract.{Tables, FaultAs};

use crate::numbers::number_after;
use doubles::key::{integer_key, name_key};
use doubles::seen::seen;
use parse::data_type::DataType;
use parse::item::ItemAt;
use parse::utils::{Next, past};
use parse::variants::{VariantAt, variant};
use token_list::check::{Cursor, Refusal};
use token_list::refusal;
use token_list::stream::{Peeked, peek};

// The first double of the names, up to this variant's.
fn see_name(
    s: &[u8],
    v: VariantAt,
    words: &mut [u16],
    numbers: &mut [usize],
    count: usize,
    found: Option<usize>,
) -> Option<usize>
    requires by_index { (ts : List (List ℕ)) × Holds s.now words.old numbers.old (map name_key ts) ×
        (length ts ≡ count) }
    requires count_in_bounds { count < length numbers.old }
    requires variant_of { (a : Variant) × VariantOf s.now v a }
    requires start_le_end { v.name.start ≤ v.name.end }
    requires end_bound { v.name.end < MAX_BYTES }
    ensures by_index_2 { (row : ℕ → ℕ) (ts : List (List ℕ)) (a : Variant) →
        NamesSeen s.now words.old numbers.old row ts found → length ts ≡ count →
        VariantOf s.now v a → v.place ≡ row count →
        NamesSeen s.now words.new numbers.new row (ts ++ a.name ∷ []) result }
    ensures value { (b : Bool) × (result ≡ or_found found b v.place) }
{
    let key = name_key(s, v.name.start, v.name.end);
    let again = seen(s, key, words, numbers, count);
    found.or(again.then_some(v.place))
}

// The first double of the numbers, up to n, the number of the variant at this place.
fn see_number(
    n: i64,
    place: usize,
    words: &mut [u16],
    numbers: &mut [usize],
    count: usize,
    found: Option<usize>,
) -> Option<usize>
    requires holds { (zs : List ℤ) × Holds MINUS_SIGN words.old numbers.old (map integer_key zs) ×
        (length zs ≡ count) }
    requires count_in_bounds { count < length numbers.old }
    ensures by_index { (row : ℕ → ℕ) (zs : List ℤ) →
        IntegersSeen words.old numbers.old row zs found → length zs ≡ count → place ≡ row count →
        IntegersSeen words.new numbers.new row (zs ++ n ∷ []) result }
    ensures value { (b : Bool) × (result ≡ or_found found b place) }
{
    let key = integer_key(n < 0, n.unsigned_abs() as usize);
    let again = seen(b"-", key, words, numbers, count);
    found.or(again.then_some(place))
}

// All names come before any number.
fn first_fault(name: Option<usize>, number: Option<usize>) -> Result<(), Refusal>
    ensures { result ≡ faults_of name number }
{
    match (name, number) {
        (Some(place), _) => Err(Refusal {
            number: refusal::NAME_TWICE,
            place,
        }),
        (None, Some(place)) => Err(Refusal {
            number: refusal::NUMBER_TWICE,
            place,
        }),
        (None, None) => Ok(()),
    }
}

// The first fault of the variants that are read from `from` on; the tables are empty.
fn variant_faults(
    s: &[u8],
    from: Cursor,
    roles: &mut [u8],
    names: &mut [u16],
    hashes: &mut [usize],
    signs: &mut [u16],
    sizes: &mut [usize],
) -> Result<(), Refusal>
    requires inside_at { (vs : List Variant) × InsideAt (every variant) s.now from vs ×
        Tables s.now names.old hashes.old signs.old sizes.old (length vs) }
    requires s_len_bound { length s.now ≤ MAX_BYTES }
    ensures { (vs : List Variant) → InsideAt (every variant) s.now from vs →
        FaultAs s.now (fault_in (point s.now from))
        (distinct (variant_names vs) (numbers_from BEFORE_FIRST 0 vs)) result }
{
    let mut c = from;
    let mut before = -1;
    let mut count = 0;
    let mut name = None;
    let mut number = None;
    while let Ok(Next::One(v)) = variant(s, c, roles) {
        let n = number_after(s, before, v)?;
        name = see_name(s, v, names, hashes, count, name);
        number = see_number(n, v.place, signs, sizes, count, number);
        c = v.next;
        before = n;
        count += 1;
    }
    first_fault(name, number)
}

// The same, with tables of its own, which have room for so many variants, four words for each.
fn faults_within<const ROOM: usize, const WORDS: usize>(
    s: &[u8],
    from: Cursor,
    roles: &mut [u8],
) -> Result<(), Refusal>
    requires inside_at { (vs : List Variant) × InsideAt (every variant) s.now from vs × (length vs ≤ ROOM) }
    requires room_bound { ROOM < 65536 }
    requires words { WORDS ≡ 4 * ROOM }
    requires s_len_bound { length s.now ≤ MAX_BYTES }
    ensures { (vs : List Variant) → InsideAt (every variant) s.now from vs →
        FaultAs s.now (fault_in (point s.now from))
        (distinct (variant_names vs) (numbers_from BEFORE_FIRST 0 vs)) result }
{
    let mut names = [0u16; WORDS];
    let mut hashes = [0usize; ROOM];
    let mut signs = [0u16; WORDS];
    let mut sizes = [0usize; ROOM];
    variant_faults(
        s,
        from,
        roles,
        &mut names,
        &mut hashes,
        &mut signs,
        &mut sizes,
    )
}

// Small tables where they do: to fill the others with 0 takes longer than to read a small enum. Their rooms are primes,
// so that the remainders of numbers in steps of 16 or 4,096 differ.
fn enum_faults(s: &[u8], from: Cursor, roles: &mut [u8], count: usize) -> Result<(), Refusal>
    requires inside_at { (vs : List Variant) × InsideAt (every variant) s.now from vs × (length vs ≡ count) }
    requires count_bound { count ≤ MANY }
    requires s_len_bound { length s.now ≤ MAX_BYTES }
    ensures { (vs : List Variant) → InsideAt (every variant) s.now from vs →
        FaultAs s.now (fault_in (point s.now from))
        (distinct (variant_names vs) (numbers_from BEFORE_FIRST 0 vs)) result }
{
    if count <= 67 {
        faults_within::<67, 268>(s, from, roles)
    } else {
        faults_within::<2053, 8212>(s, from, roles)
    }
}

// The first fault in a declaration's body.
pub fn body_faults(s: &[u8], d: ItemAt, roles: &mut [u8]) -> Result<(), Refusal>
    requires inside_at { (b : Body) × InsideAt (body_of (kind_of d.kind)) s.now d.body b ×
        (d.count ≡ body_count b) × (length (body_names b) ≤ MANY) }
    requires s_len_bound { length s.now ≤ MAX_BYTES }
    ensures { (b : Body) → InsideAt (body_of (kind_of d.kind)) s.now d.body b →
        FaultAs s.now (fault_in (inside (point s.now d.body)))
        (distinct (body_names b) (body_numbers b)) result }
{
    let DataType::Enum = d.kind else {
        return Ok(());
    };
    let Peeked::Group(t) = peek(s, d.body) else {
        return Ok(());
    };
    let inside = past(s, d.body, t);
    enum_faults(s, inside, roles, d.count)
}
