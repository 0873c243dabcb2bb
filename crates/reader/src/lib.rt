// The reader: from the bytes of a book to its tables, or the refusal with its line.
// Operation: read.
#![tactic(auto)]

ghost use Rattle.std.specs.Prelude.{◌≡◌, [], ◌≤◌, pos, length};
ghost use Rattle.base.specs.Bytes.{bytes};
ghost use Rattle.model.specs.Answers.{answer_of, map_value};
ghost use Rattle.model.specs.Books.{links, types};
ghost use Rattle.model.specs.Sizes.{counts_in, count_list};
ghost use Rattle.model.specs.Limits.{max_bytes};
ghost use Rattle.tables.specs.Layout.{name_count, cell_count, value_count};
ghost use Rattle.grammar.specs.Reading.{lines_from, reading};
ghost use Rattle.tables.specs.Sizes.{cleared};
ghost use Rattle.stores.specs.Lines.{put_name, put_counts};
ghost use Rattle.itemreader.specs.Answers.{pool_of};
ghost use Rattle.itemreader.specs.Held.{Limits, Indexed, name_index_count};
ghost use Rattle.linereader.specs.Storing.{CountsFit};
ghost use Rattle.reader.specs.Answers.{names_left, cells_left, values_left, read_answer, names_of, cells_of, values_of};
ghost use Rattle.reader.specs.Running.{Started, built_in_counts, Ran};
ghost use Rattle.reader.specs.Indexing.{pool_joined, all_joined};

use bodyreader::read_line;
use chains::link;
use itemreader::{NAME_INDEX, NAME_PLACES, Pool, base, count, most};
use model::{Counts, MAX_BYTES, NAME_BYTES, Refusal};
use tables::layout::{
    CELLS, FACT_COUNT, FORM_COUNT, ITEM_COUNT, LANG_COUNT, LINK_COUNT, LINK_NAMES, NAMES,
    NODE_COUNT, PATH_COUNT, RULE_COUNT, SHAPE_COUNT, TYPE_COUNT, TYPE_NAMES, VALUES,
};
use tables::lent::enough;
use text::{hash, put_name};

// Zeros in all three tables.
fn clear(names: &mut [u8], cells: &mut [u16], values: &mut [i64])
    requires { (name_count ≤ length names.old) × (cell_count ≤ length cells.old) × (value_count ≤ length values.old) }
    ensures new_names { names.new ≡ cleared name_count 0 names.old }
    ensures new_cells { cells.new ≡ cleared cell_count 0 cells.old }
    ensures new_values { values.new ≡ cleared value_count (pos 0) values.old }
{
    names[..NAMES].fill(0);
    cells[..CELLS].fill(0);
    values[..VALUES].fill(0);
}

// The names that exist from the start: link 0 and type 0.
fn put_built_in(names: &mut [u8])
    requires { name_count ≤ length names.old }
    ensures { names.new ≡ put_name types 0 (bytes "langstring") (put_name links 0 (bytes "a") names.old) }
{
    put_name(names, LINK_NAMES, b"a", 0, 1);
    put_name(names, TYPE_NAMES, b"langstring", 0, 10);
}

// The ten counts, from cell 0 on: each by the name of its place, which a loop over a list of them would lose.
fn put_counts(cells: &mut [u16], counts: Counts)
    requires { (cell_count ≤ length cells.old) × Limits counts × CountsFit counts }
    ensures { cells.new ≡ put_counts 0 (count_list counts) cells.old }
{
    cells[NODE_COUNT] = counts.nodes as u16;
    cells[LINK_COUNT] = counts.links as u16;
    cells[TYPE_COUNT] = counts.types as u16;
    cells[LANG_COUNT] = counts.langs as u16;
    cells[SHAPE_COUNT] = counts.shapes as u16;
    cells[FACT_COUNT] = counts.facts as u16;
    cells[PATH_COUNT] = counts.paths as u16;
    cells[FORM_COUNT] = counts.forms as u16;
    cells[ITEM_COUNT] = counts.items as u16;
    cells[RULE_COUNT] = counts.rules as u16;
}

// Where there is a name more of the pool after than before, it joins its chain in the index.
fn index_pool(index: &mut [u16], names: &[u8], before: Counts, after: Counts, pool: Pool)
    requires { (name_index_count ≤ length index.old) × (name_count ≤ length names.now) × Limits after }
    ensures { index.new ≡ pool_joined names.now before after (pool_of pool) index.old }
{
    let i = count(before, pool);
    if i < count(after, pool) {
        let first = base(pool);
        let at = first + i * NAME_BYTES;
        link(
            index,
            first / NAME_BYTES,
            NAME_PLACES + first / NAME_BYTES,
            hash(names, at, at + NAME_BYTES) % most(pool),
            i,
        );
    }
}

// The new names of all pools join their chains. A call for each pool: a loop over a list of them would name them as well.
fn index_new(index: &mut [u16], names: &[u8], before: Counts, after: Counts)
    requires { (name_index_count ≤ length index.old) × (name_count ≤ length names.now) × Limits after }
    ensures { index.new ≡ all_joined names.now before after index.old }
{
    index_pool(index, names, before, after, Pool::Nodes);
    index_pool(index, names, before, after, Pool::Links);
    index_pool(index, names, before, after, Pool::Types);
    index_pool(index, names, before, after, Pool::Langs);
    index_pool(index, names, before, after, Pool::Shapes);
}

// Line after line, on tables and an index that hold the built-in names alone; start: their counts.
fn read_from(
    names: &mut [u8],
    cells: &mut [u16],
    values: &mut [i64],
    index: &mut [u16],
    start: Counts,
    book: &[u8],
) -> Result<Counts, Refusal>
    requires { (name_count ≤ length names.old) × (cell_count ≤ length cells.old) × (value_count ≤ length values.old) × Started names.old cells.old values.old × (name_index_count ≤ length index.old) × (start ≡ built_in_counts) × Indexed names.old start index.old }
    ensures { Ran (lines_from book.now (length book.now) 0 0 []) result names.old names.new cells.old cells.new values.old values.new }
{
    let mut counts = start;
    let mut at = 0;
    let mut line = 0;
    while at < book.len() {
        line += 1;
        match read_line(names, cells, values, index, counts, book, at) {
            Err(fault) => {
                return Err(fault.at(line));
            }
            Ok((after, next)) => {
                index_new(index, names, counts, after);
                at = next;
                counts = after;
            }
        }
    }
    Ok(counts)
}

// The lines of a book, on tables that hold the built-in names alone.
fn read_lines(
    names: &mut [u8],
    cells: &mut [u16],
    values: &mut [i64],
    book: &[u8],
) -> Result<Counts, Refusal>
    requires { (name_count ≤ length names.old) × (cell_count ≤ length cells.old) × (value_count ≤ length values.old) × Started names.old cells.old values.old }
    ensures { Ran (lines_from book.now (length book.now) 0 0 []) result names.old names.new cells.old cells.new values.old values.new }
{
    let none = Counts::default();
    let start = Counts {
        links: 1,
        types: 1,
        ..none
    };
    let mut index = [0u16; NAME_INDEX];
    index_new(&mut index, names, none, start);
    read_from(names, cells, values, &mut index, start, book)
}

// A book that is not too long, into tables that are long enough.
fn read_book(
    names: &mut [u8],
    cells: &mut [u16],
    values: &mut [i64],
    book: &[u8],
) -> Result<Counts, Refusal>
    requires { (length book.now ≤ max_bytes) × (name_count ≤ length names.old) × (cell_count ≤ length cells.old) × (value_count ≤ length values.old) }
    ensures result_value { answer_of result ≡ map_value counts_in (reading book.now) }
    ensures new_names { names.new ≡ names_left (reading book.now) names.old }
    ensures new_cells { cells.new ≡ cells_left (reading book.now) cells.old }
    ensures new_values { values.new ≡ values_left (reading book.now) values.old }
{
    clear(names, cells, values);
    put_built_in(names);
    match read_lines(names, cells, values, book) {
        Ok(counts) => {
            put_counts(cells, counts);
            Ok(counts)
        }
        Err(refusal) => {
            clear(names, cells, values);
            Err(refusal)
        }
    }
}

// The answer, and each table afterwards, for any bytes and any lent tables.
pub fn read(
    book: &[u8],
    names: &mut [u8],
    cells: &mut [u16],
    values: &mut [i64],
) -> Result<Counts, Refusal>
    ensures result_value { answer_of result ≡ read_answer book.now names.old cells.old values.old }
    ensures new_names { names.new ≡ names_of book.now names.old cells.old values.old }
    ensures new_cells { cells.new ≡ cells_of book.now names.old cells.old values.old }
    ensures new_values { values.new ≡ values_of book.now names.old cells.old values.old }
{
    if !enough(names, cells, values) {
        return Err(Refusal::Short);
    }
    if MAX_BYTES < book.len() {
        clear(names, cells, values);
        return Err(Refusal::TooLong);
    }
    read_book(names, cells, values, book)
}
