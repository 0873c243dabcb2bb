// The reader of single items: names used and new, decimals, lists, and the words after opening brackets.
// Functions for the crates above, on positions of a text that these have shown to lie within it. Operations: none.
// The numbers of the words are in words.
#![tactic(auto)]

pub mod pools;
pub mod words;

ghost use Rattle.std.specs.Prelude.{◌≡◌, ◌≤◌, ◌+◌, ◌-◌, eqb, length, drop};
ghost use Rattle.std.proofs.Math.Seq.{slice};
ghost use Rattle.text.specs.Pool.{find};
ghost use Rattle.model.specs.Books.{Book};
ghost use Rattle.model.specs.Limits.{max_items, max_count, max_name};
ghost use Rattle.grammar.specs.Syntax.{used, new, subject, literal_type, kind_word, value, low, high};
ghost use Rattle.grammar.specs.Reading.{Readers, Begun, arg_at, list_at};
ghost use Rattle.grammar.specs.Valid.{well_named};
ghost use Rattle.model.specs.Valid.{capacity};
ghost use Rattle.tables.specs.Layout.{cell_count, name_count};
ghost use Rattle.encoding.specs.Flatten.{kind_code, upper_number};
ghost use Rattle.encoding.specs.Encode.{pool_base};
ghost use Rattle.itemreader.specs.Answers.{pool_of, same, item_of, value_of, Reads, Spaced, Below, Counted, Inside, items_after, Listed, head_at, Headed};
ghost use Rattle.itemreader.specs.Words.{words_in, word_count};
ghost use Rattle.itemreader.specs.Held.{count_of, Limits, Held, Kinds, Indexed};

use crate::pools::Pools;
use crate::words::{Family, keyword};
use model::{
    Counts, Fault, MAX_ITEMS, MAX_LANGS, MAX_LINKS, MAX_NODES, MAX_SHAPES, MAX_TYPES, NAME_BYTES,
};
use tables::codes;
use tables::layout::{
    ITEMS, LANG_NAMES, LINK_NAMES, NO_NUMBER, NODE_KINDS, SHAPE_NAMES, TYPE_NAMES,
};
use text::{bound_at, byte, find_chained, is_name, is_word, item_end, number_at};

#[derive(Clone, Copy, PartialEq, Eq)]
pub enum Pool {
    Nodes,
    Links,
    Types,
    Langs,
    Shapes,
}

// What was read, and the position after it; or why the line is refused.
pub type Read<T> = Result<(T, usize), Fault>;

// What stands where a bracket may: none; or the number of its word, and where that ends.
pub type Head = Result<Option<(usize, usize)>, Fault>;

// How many names there may be in all pools, and how long their index is.
pub const NAME_PLACES: usize = MAX_NODES + MAX_LINKS + MAX_TYPES + MAX_LANGS + MAX_SHAPES;

pub const NAME_INDEX: usize = NAME_PLACES + NAME_PLACES;

// `*` for HI.
const STAR: usize = NO_NUMBER as usize;

// Where a pool begins among the names.
pub fn base(pool: Pool) -> usize
    ensures { result ≡ pool_base (pool_of pool) }
{
    match pool {
        Pool::Nodes => 0,
        Pool::Links => LINK_NAMES,
        Pool::Types => TYPE_NAMES,
        Pool::Langs => LANG_NAMES,
        Pool::Shapes => SHAPE_NAMES,
    }
}

pub fn count(counts: Counts, pool: Pool) -> usize
    ensures { result ≡ count_of counts (pool_of pool) }
{
    match pool {
        Pool::Nodes => counts.nodes,
        Pool::Links => counts.links,
        Pool::Types => counts.types,
        Pool::Langs => counts.langs,
        Pool::Shapes => counts.shapes,
    }
}

// How many names a pool may have.
pub fn most(pool: Pool) -> usize
    ensures { result ≡ capacity (pool_of pool) }
{
    match pool {
        Pool::Nodes => MAX_NODES,
        Pool::Links => MAX_LINKS,
        Pool::Types => MAX_TYPES,
        Pool::Langs => MAX_LANGS,
        Pool::Shapes => MAX_SHAPES,
    }
}

// The bytes from at to end are a name that is free for use in the pool.
fn is_well_named(pool: Pool, book: &[u8], at: usize, end: usize) -> bool
    requires { (at ≤ end) × (end ≤ length book.now) }
    ensures { result ≡ well_named (pool_of pool) (slice at end book.now) }
{
    if !is_name(book, at, end) {
        return false;
    }
    match pool {
        Pool::Links => !is_word(book, at, end, b"id"),
        Pool::Nodes => true,
        Pool::Types => true,
        Pool::Langs => true,
        Pool::Shapes => true,
    }
}

// The number of the name from at to end in its pool.
fn look_up(pools: Pools, pool: Pool, book: &[u8], at: usize, end: usize) -> Option<usize>
    requires { (at ≤ end) × (end ≤ length book.now) × (end - at ≤ max_name) }
    ensures { result ≡ find pools.entry.names.now (pool_base (pool_of pool)) (count_of pools.entry.counts (pool_of pool)) (slice at end book.now) }
{
    let first = base(pool);
    find_chained(
        pools.names,
        first,
        count(pools.counts, pool),
        pools.index,
        first / NAME_BYTES,
        NAME_PLACES + first / NAME_BYTES,
        most(pool),
        book,
        at,
        end,
    )
}

// Where the item after a space ends.
fn item_after(book: &[u8], at: usize) -> Result<usize, Fault>
    requires { at ≤ length book.now }
    ensures { Spaced book.now at result }
{
    if byte(book, at) != 32 {
        return Err(Fault::Grammar);
    }
    Ok(item_end(book, at + 1))
}

// A name used: a space, and a name of the pool that is defined above.
pub fn read_used(pools: Pools, pool: Pool, book: &[u8], at: usize) -> Read<usize>
    requires { at ≤ length book.now }
    ensures reads { (a : Book) → Held pools.entry.names.now pools.entry.counts a → Reads book.now a (used (pool_of pool)) same at result }
    ensures below { Below (count_of pools.entry.counts (pool_of pool)) (length book.now) result }
{
    let end = item_after(book, at)?;
    if !is_well_named(pool, book, at + 1, end) {
        return Err(Fault::Grammar);
    }
    match look_up(pools, pool, book, at + 1, end) {
        Some(k) => Ok((k, end)),
        None => Err(Fault::Undefined),
    }
}

// A name that is new in its pool: a space and the name, by its length.
pub fn read_new(pools: Pools, pool: Pool, book: &[u8], at: usize) -> Read<usize>
    requires { at ≤ length book.now }
    ensures reads { (a : Book) → Held pools.entry.names.now pools.entry.counts a → Reads book.now a (new (pool_of pool)) length at result }
    ensures below { Below (max_name + 1) (length book.now) result }
{
    let end = item_after(book, at)?;
    if !is_well_named(pool, book, at + 1, end) {
        return Err(Fault::Grammar);
    }
    if let Some(_) = look_up(pools, pool, book, at + 1, end) {
        return Err(Fault::Repeated);
    }
    if most(pool) <= count(pools.counts, pool) {
        return Err(Fault::Limit);
    }
    Ok((end - (at + 1), end))
}

// A node that is a thing or blank.
pub fn read_subject(pools: Pools, cells: &[u16], book: &[u8], at: usize) -> Read<usize>
    requires { (at ≤ length book.now) × (cell_count ≤ length cells.now) }
    ensures reads { (a : Book) → Held pools.entry.names.now pools.entry.counts a → Kinds cells.now a → Reads book.now a subject same at result }
    ensures below { Below pools.entry.counts.nodes (length book.now) result }
{
    let (v, next) = read_used(pools, Pool::Nodes, book, at)?;
    if codes::NODE_BLANK < cells[NODE_KINDS + v] {
        return Err(Fault::Grammar);
    }
    Ok((v, next))
}

// A type other than `langstring`.
pub fn read_type(pools: Pools, book: &[u8], at: usize) -> Read<usize>
    requires { at ≤ length book.now }
    ensures reads { (a : Book) → Held pools.entry.names.now pools.entry.counts a → Reads book.now a literal_type same at result }
    ensures below { Below pools.entry.counts.types (length book.now) result }
{
    let (t, next) = read_used(pools, Pool::Types, book, at)?;
    if t == 0 {
        return Err(Fault::Grammar);
    }
    Ok((t, next))
}

// A signed decimal of the 64-bit range.
pub fn read_value(book: &[u8], at: usize) -> Read<i64>
    requires { at ≤ length book.now }
    ensures value { (a : Book) (R : Readers) (b : Begun) → result ≡ value_of (arg_at book.now a R value b at) }
    ensures inside { Inside (length book.now) result }
{
    let end = item_after(book, at)?;
    let x = number_at(book, at + 1, end)?;
    Ok((x, end))
}

// LO of a count.
pub fn read_low(book: &[u8], at: usize) -> Read<usize>
    requires { at ≤ length book.now }
    ensures reads { (a : Book) → Reads book.now a low same at result }
    ensures below { Below (max_count + 1) (length book.now) result }
{
    let end = item_after(book, at)?;
    let n = bound_at(book, at + 1, end)?;
    Ok((n as usize, end))
}

// HI of a count.
pub fn read_high(book: &[u8], at: usize) -> Read<usize>
    requires { at ≤ length book.now }
    ensures reads { (a : Book) → Reads book.now a high upper_number at result }
    ensures below { Below 65536 (length book.now) result }
{
    let end = item_after(book, at)?;
    if is_word(book, at + 1, end, b"*") {
        return Ok((STAR, end));
    }
    read_low(book, at)
}

// thing, blank or literal.
pub fn read_kind(book: &[u8], at: usize) -> Read<usize>
    requires { at ≤ length book.now }
    ensures reads { (a : Book) → Reads book.now a kind_word kind_code at result }
    ensures below { Below 3 (length book.now) result }
{
    let end = item_after(book, at)?;
    match keyword(Family::Kinds, &book[at + 1..end]) {
        Some(k) => Ok((k, end)),
        None => Err(Fault::Grammar),
    }
}

// The names of a list, a space before each: stored from item i on, and their number afterwards.
pub fn read_list(
    cells: &mut [u16],
    pools: Pools,
    pool: Pool,
    book: &[u8],
    at: usize,
    i: usize,
) -> Read<usize>
    requires { (at ≤ length book.now) × (cell_count ≤ length cells.old) × (i ≤ max_items) }
    ensures value { (a : Book) → Held pools.entry.names.now pools.entry.counts a → result ≡ item_of (items_after i) (list_at book.now a (pool_of pool) (max_items - i) at) }
    ensures listed { (a : Book) → Held pools.entry.names.now pools.entry.counts a → Listed (list_at book.now a (pool_of pool) (max_items - i) at) i cells.old cells.new }
    ensures counted { Counted i max_items (length book.now) result }
    ensures cells_unchanged { drop cell_count cells.new ≡ drop cell_count cells.old }
{
    if byte(book, at) != 32 {
        return Ok((i, at));
    }
    let (k, next) = read_used(pools, pool, book, at)?;
    if MAX_ITEMS <= i {
        return Err(Fault::Limit);
    }
    cells[ITEMS + i] = k as u16;
    read_list(cells, pools, pool, book, next, i + 1)
}

// What stands where a bracket of the family may, with left brackets that may still be opened and room for an entry
// unless it is full.
pub fn read_head(family: Family, book: &[u8], at: usize, left: usize, full: bool) -> Head
    requires { at ≤ length book.now }
    ensures value { result ≡ head_at book.now (words_in family) (eqb left 0) full at }
    ensures headed { Headed (word_count family) left full (length book.now) result }
{
    if byte(book, at) != 40 {
        return Ok(None);
    }
    let end = item_end(book, at + 1);
    let Some(k) = keyword(family, &book[at + 1..end]) else {
        return Err(Fault::Grammar);
    };
    if left == 0 {
        return Err(Fault::Nesting);
    }
    if full {
        return Err(Fault::Limit);
    }
    Ok(Some((k, end)))
}
