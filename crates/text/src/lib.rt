// The bytes of a book: items, names, decimals, and pools of names in so many bytes each.
// Functions for the crates above, on positions of a text that these have shown to lie within it. Operations: none.
#![tactic(auto)]

ghost use Rattle.std.specs.Prelude.{◌≡◌, true, cond, ◌≤◌, ◌<◌, ◌+◌, ◌*◌, ◌-◌, nat_eq, position, length, get_or};
ghost use Rattle.std.specs.Cmp.Lexicographic.{pointwise};
ghost use Rattle.std.proofs.Math.Seq.{slice};
ghost use Rattle.base.specs.Bounded.{every};
ghost use Rattle.base.specs.Lists.{allb};
ghost use Rattle.base.specs.Bytes.{eql};
ghost use Rattle.chains.specs.Chains.{Chained};
ghost use Rattle.text.specs.Items.{edge, item_end, name_byte, is_name};
ghost use Rattle.text.specs.Decimals.{digit, is_mag, mag_of, positive_of, negative_of, number_of, bound_of, number_fault};
ghost use Rattle.text.specs.Pool.{padded, same_at, zero_at, hash_of, name_key, find, store};
ghost use Rattle.model.specs.Limits.{max_name, name_bytes};

use base::{cell, copy};
use model::{Fault, MAX_COUNT, MAX_NAME, NAME_BYTES};

// Why a text is no number: it is not written as one; or it is, and stands for one out of the range.
#[derive(Clone, Copy, Debug, PartialEq, Eq)]
pub enum NumberError {
    Malformed,
    Range,
}

impl From<NumberError> for Fault {
    ghost from_gives = { λ e f. f ≡ number_fault e };

    fn from(e: NumberError) -> Fault {
        match e {
            NumberError::Malformed => Fault::Grammar,
            NumberError::Range => Fault::Range,
        }
    }
}

// The byte at a position, or 0 past the end.
pub fn byte(book: &[u8], at: usize) -> u8
    ensures { result ≡ get_or book.now at 0 }
{
    if at < book.len() { book[at] } else { 0 }
}

// A byte that ends an item: LF, a space or a bracket.
pub fn is_edge(b: u8) -> bool
    ensures { result ≡ edge b }
{
    (b == 10) | ((b == 32) | ((b == 40) | (b == 41)))
}

// Where the item that starts at a position ends.
pub fn item_end(book: &[u8], at: usize) -> usize
    ensures { result ≡ item_end book.now at }
{
    let rest = &book[at.min(book.len())..];
    at + rest.iter().position(|b| is_edge(*b)).unwrap_or(rest.len())
}

fn is_name_byte(b: u8) -> bool
    ensures { result ≡ name_byte b }
{
    ((97 <= b) & (b <= 122)) | (((48 <= b) & (b <= 57)) | ((b == 45) | (b == 95)))
}

// The bytes from at to end are a name.
pub fn is_name(book: &[u8], at: usize, end: usize) -> bool
    requires { (at ≤ end) × (end ≤ length book.now) }
    ensures { result ≡ is_name (slice at end book.now) }
{
    if end == at {
        return false;
    }
    if MAX_NAME < end - at {
        return false;
    }
    book[at..end].iter().all(|b| is_name_byte(*b))
}

// The bytes from at to end are the word.
pub fn is_word(book: &[u8], at: usize, end: usize, word: &[u8]) -> bool
    requires { (at ≤ end) × (end ≤ length book.now) }
    ensures { result ≡ eql (slice at end book.now) word.now }
{
    &book[at..end] == word
}

fn is_digit(b: u8) -> bool
    ensures { result ≡ digit b }
{
    (48 <= b) & (b <= 57)
}

fn all_digits(book: &[u8], at: usize, end: usize) -> bool
    requires { (at ≤ end) × (end ≤ length book.now) }
    ensures { result ≡ allb digit (slice at end book.now) }
{
    book[at..end].iter().all(|b| is_digit(*b))
}

// Digits without a leading zero.
fn is_mag(book: &[u8], at: usize, end: usize) -> bool
    requires { (at ≤ end) × (end ≤ length book.now) }
    ensures { result ≡ is_mag (slice at end book.now) }
{
    let b = byte(book, at);
    (at < end) & (all_digits(book, at, end) & ((b != 48) | (end - at == 1)))
}

// The value of digits, however many, below 10^19: the sum stops before it could wrap.
fn magnitude(book: &[u8], at: usize, end: usize) -> Result<u64, NumberError>
    requires { (at ≤ end) × (end ≤ length book.now) }
    ensures { result ≡ mag_of (slice at end book.now) }
{
    if !is_mag(book, at, end) {
        return Err(NumberError::Malformed);
    }
    let mut v: u64 = 0;
    for b in &book[at..end] {
        if 1000000000000000000 <= v {
            return Err(NumberError::Range);
        }
        v = v * 10 + (*b as u64 - 48);
    }
    Ok(v)
}

fn positive(book: &[u8], at: usize, end: usize) -> Result<i64, NumberError>
    requires { (at ≤ end) × (end ≤ length book.now) }
    ensures { result ≡ positive_of (slice at end book.now) }
{
    let v = magnitude(book, at, end)?;
    if v < 9223372036854775808 {
        Ok(v as i64)
    } else {
        Err(NumberError::Range)
    }
}

// What stands after a minus: the least i64 has no positive counterpart, so it is reached from -1.
fn negative(book: &[u8], at: usize, end: usize) -> Result<i64, NumberError>
    requires { (at ≤ end) × (end ≤ length book.now) }
    ensures { result ≡ negative_of (slice at end book.now) }
{
    let v = magnitude(book, at, end)?;
    if v == 0 {
        return Err(NumberError::Malformed);
    }
    if 9223372036854775808 < v {
        return Err(NumberError::Range);
    }
    Ok(-1 - ((v - 1) as i64))
}

// The signed decimal from at to end.
pub fn number_at(book: &[u8], at: usize, end: usize) -> Result<i64, NumberError>
    requires { (at ≤ end) × (end ≤ length book.now) }
    ensures { result ≡ number_of (slice at end book.now) }
{
    if at == end {
        return Err(NumberError::Malformed);
    }
    if byte(book, at) == 45 {
        return negative(book, at + 1, end);
    }
    positive(book, at, end)
}

// LO and HI may be so great.
const MOST_COUNT: u64 = MAX_COUNT as u64;

// The bound of a count from at to end.
pub fn bound_at(book: &[u8], at: usize, end: usize) -> Result<u16, NumberError>
    requires { (at ≤ end) × (end ≤ length book.now) }
    ensures { result ≡ bound_of (slice at end book.now) }
{
    let v = magnitude(book, at, end)?;
    if v <= MOST_COUNT {
        Ok(v as u16)
    } else {
        Err(NumberError::Range)
    }
}

// Byte j of the word from at to end, or 0 past it.
pub fn letter(book: &[u8], at: usize, end: usize, j: usize) -> u8
    requires { (at ≤ end) × (end ≤ length book.now) }
    ensures { result ≡ get_or (padded (slice at end book.now)) j 0 }
{
    if j < end - at { book[at + j] } else { 0 }
}

// The len bytes from place on and those from at on are the same. No early exit: many bytes are compared at once.
fn same_bytes(names: &[u8], place: usize, book: &[u8], at: usize, len: usize) -> bool
    requires { (place + len ≤ length names.now) × (at + len ≤ length book.now) }
    ensures { result ≡ every (same_at names.now place book.now at) len }
{
    let mut same = true;
    for j in 0..len {
        same = same & (names[place + j] == book[at + j]);
    }
    same
}

// The len bytes from place on are zeros. No early exit, as above.
fn zeros(names: &[u8], place: usize, len: usize) -> bool
    requires { place + len ≤ length names.now }
    ensures { result ≡ every (zero_at names.now place) len }
{
    let mut same = true;
    for j in 0..len {
        same = same & (names[place + j] == 0);
    }
    same
}

// The bytes of a name at place are the word from at to end and then zeros.
pub fn same_name(names: &[u8], place: usize, book: &[u8], at: usize, end: usize) -> bool
    requires { (at ≤ end) × (end ≤ length book.now) × (end - at ≤ max_name) × (place + name_bytes ≤ length names.now) }
    ensures { result ≡ eql (padded (slice at end book.now)) (slice place (place + name_bytes) names.now) }
{
    let len = end - at;
    same_bytes(names, place, book, at, len) & zeros(names, place + len, NAME_BYTES - len)
}

// The number of a word in a list of words.
pub fn find_word(words: &[&[u8]], word: &[u8]) -> Option<usize>
    ensures { result ≡ position (λ w. pointwise nat_eq w.now word.now) words.now }
{
    words.iter().position(|w| *w == word)
}

// The number of the word from at to end in the pool of count names that starts at base.
pub fn find_name(
    names: &[u8],
    base: usize,
    count: usize,
    book: &[u8],
    at: usize,
    end: usize,
) -> Option<usize>
    requires { (at ≤ end) × (end ≤ length book.now) × (end - at ≤ max_name) × (base + count * name_bytes ≤ length names.now) }
    ensures { result ≡ find names.now base count (slice at end book.now) }
{
    let mut k = 0;
    while k < count {
        if same_name(names, base + k * NAME_BYTES, book, at, end) {
            return Some(k);
        }
        k += 1;
    }
    None
}

// The number of the bytes from at to end by which a chain is chosen.
pub fn hash(book: &[u8], at: usize, end: usize) -> usize
    requires { (at ≤ end) × (end ≤ length book.now) }
    ensures { result ≡ hash_of (slice at end book.now) }
{
    let mut h = 0;
    for b in book[at..end].iter().rev() {
        h = (*b as usize + 131 * h) % 65536;
    }
    h
}

// As `find_name`, along the chain of the word's key; the chain goes downward, so the last match on it is the first of the pool.
pub fn find_chained(
    names: &[u8],
    base: usize,
    count: usize,
    index: &[u16],
    heads: usize,
    nexts: usize,
    slots: usize,
    book: &[u8],
    at: usize,
    end: usize,
) -> Option<usize>
    requires { (at ≤ end) × (end ≤ length book.now) × (end - at ≤ max_name) × (base + count * name_bytes ≤ length names.now) × (heads + slots ≤ 65536) × (nexts + count ≤ 65536) × (0 < slots) × Chained (name_key names.now base slots) count slots heads nexts index.now }
    ensures { result ≡ find names.now base count (slice at end book.now) }
{
    let mut found = None;
    let mut e = cell(index, heads + hash(book, at, end) % slots, 0) as usize;
    while 0 < e {
        let i = e - 1;
        if same_name(names, base + i * NAME_BYTES, book, at, end) {
            found = Some(i);
        }
        e = cell(index, nexts + i, 0) as usize;
    }
    found
}

// Stores the word from at to end, with zeros after it, in the bytes of a name at place.
pub fn put_name(names: &mut [u8], place: usize, book: &[u8], at: usize, end: usize)
    requires { (at ≤ end) × (end ≤ length book.now) × (end - at ≤ max_name) × (place + name_bytes ≤ length names.old) }
    ensures { names.new ≡ store names.old place (padded (slice at end book.now)) }
{
    let last = place + (end - at);
    copy(&mut names[place..last], &book[at..end]);
    names[last..place + NAME_BYTES].fill(0);
}
