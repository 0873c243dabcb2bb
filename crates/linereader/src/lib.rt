// The reader of each kind of line but `shape`, from the end of its word: what stands on it, stored at its places, with the
// counts after it; or the refusal.
// Functions for the crate above, on tables that hold the lines above. Operations: none.
// A line's function takes the tables that it writes one by one: it promises of each what stands there afterwards, and a struct
// that lends all three would ask the same of those that a line leaves as they are.
#![tactic(auto)]

ghost use Rattle.std.specs.Prelude.{◌≡◌, List, true, ℕ, ◌≤◌, ◌<◌, ◌+◌, ◌*◌, ◌-◌, ℤ, length};
ghost use Rattle.std.proofs.Math.Seq.{slice};
ghost use Rattle.model.specs.Graph.{Term};
ghost use Rattle.model.specs.Books.{Book, Line, node};
ghost use Rattle.model.specs.Limits.{max_nodes, max_rules, max_facts, max_name, name_bytes};
ghost use Rattle.tables.specs.Codes as codes;
ghost use Rattle.grammar.specs.Syntax.{target, number_l, text_l, words_l, fact_l, rule_l};
ghost use Rattle.grammar.specs.Reading.{max_within, Begun, arg_at, readers_at};
ghost use Rattle.tables.specs.Layout.{cell_count, value_count, name_count};
ghost use Rattle.encoding.specs.Encode.{pool_base};
ghost use Rattle.stores.specs.Lines.{put_name};
ghost use Rattle.itemreader.specs.Answers.{pool_of};
ghost use Rattle.itemreader.specs.Held.{count_of, Limits, Held, Kinds, Indexed};
ghost use Rattle.linereader.specs.Storing.{named, ended_with, line_end, line_body, Done, HasNameLine, name_line_code, resource_code, Row, CountsFit, operand_pool, target_answer, Targeted, put₃};

use itemreader::pools::Pools;
use itemreader::words::{self, Family};
use itemreader::{
    Pool, Read, base, count, read_head, read_new, read_subject, read_type, read_used, read_value,
};
use model::{Counts, Fault, MAX_DEPTH, MAX_FACTS, MAX_RULES, NAME_BYTES};
use tables::codes;
use tables::layout::{
    NODE_KINDS, NODE_LANGS, NODE_TYPES, OBJECTS, PREDICATES, RULE_OPERANDS, RULE_SHAPES,
    RULE_TARGETS, SUBJECTS,
};
use text::{byte, put_name};

// How many brackets may be open together within a line's own.
pub const MAX_WITHIN: usize = MAX_DEPTH - 1;

// What the cells say of a node.
#[derive(Clone, Copy)]
pub struct Node {
    pub kind: u16,
    pub datatype: u16,
    pub lang: u16,
}

// The counts with one name more in the pool.
fn with_name(mut counts: Counts, pool: Pool) -> Counts
    requires { Limits counts }
    ensures { result ≡ named (pool_of pool) counts }
{
    match pool {
        Pool::Nodes => counts.nodes += 1,
        Pool::Links => counts.links += 1,
        Pool::Types => counts.types += 1,
        Pool::Langs => counts.langs += 1,
        Pool::Shapes => counts.shapes += 1,
    }
    counts
}

// The closing bracket of a line and its LF; room: the line is within its limit; counts: those with the line.
pub fn line_end(book: &[u8], at: usize, room: bool, counts: Counts) -> Read<Counts>
    requires { at ≤ length book.now }
    ensures { (a : Book) (l : Line) → result ≡ ended_with counts (line_end book.now a room l at) }
{
    if byte(book, at) != 41 {
        return Err(Fault::Grammar);
    }
    if !room {
        return Err(Fault::Limit);
    }
    let end = at + 1;
    if byte(book, end) != 10 {
        return Err(Fault::Grammar);
    }
    Ok((counts, end + 1))
}

// Stores the name that ends at end, a space at its start, as the next of its pool.
pub fn put_new(names: &mut [u8], counts: Counts, pool: Pool, book: &[u8], at: usize, end: usize)
    requires { (at + 1 ≤ end) × (end ≤ length book.now) × (end - (at + 1) ≤ max_name) × (pool_base (pool_of pool) + count_of counts (pool_of pool) * name_bytes + name_bytes ≤ name_count) × (name_count ≤ length names.old) × Limits counts }
    ensures { names.new ≡ put_name (pool_of pool) (count_of counts (pool_of pool)) (slice (at + 1) end book.now) names.old }
{
    put_name(
        names,
        base(pool) + count(counts, pool) * NAME_BYTES,
        book,
        at + 1,
        end,
    );
}

// Three cells of a row.
fn put_row(cells: &mut [u16], i: usize, j: usize, k: usize, x: u16, y: u16, z: u16)
    requires { (i < length cells.old) × (j < length cells.old) × (k < length cells.old) }
    ensures { cells.new ≡ put₃ i j k x y z cells.old }
{
    cells[i] = x;
    cells[j] = y;
    cells[k] = z;
}

// `(link N)`, `(type N)`, `(lang N)`, from the end of the word.
pub fn name_line(
    names: &mut [u8],
    index: &[u16],
    counts: Counts,
    pool: Pool,
    book: &[u8],
    at: usize,
) -> Read<Counts>
    requires { (at ≤ length book.now) × (name_count ≤ length names.old) × Limits counts × ((a : Book) × Held names.old counts a) × HasNameLine (pool_of pool) × Indexed names.old counts index.now }
    ensures { (a : Book) (cs : List ℕ) (vs : List ℤ) → Held names.old counts a → Done a counts (line_body book.now a (name_line_code (pool_of pool)) at) result names.old names.new cs cs vs vs }
{
    let pools = Pools {
        names: &*names,
        index,
        counts,
    };
    let (_, end) = read_new(pools, pool, book, at)?;
    let done = line_end(book, end, true, with_name(counts, pool))?;
    put_new(names, counts, pool, book, at, end);
    Ok(done)
}

// The end of a line for the node whose name ends at end: its closing bracket stands at last.
fn node_end(
    names: &mut [u8],
    cells: &mut [u16],
    values: &mut [i64],
    counts: Counts,
    book: &[u8],
    at: usize,
    end: usize,
    x: Node,
    value: i64,
    last: usize,
) -> Read<Counts>
    requires { (at + 1 ≤ end) × (end ≤ length book.now) × (end - (at + 1) ≤ max_name) × (last ≤ length book.now) × (counts.nodes < max_nodes) × (name_count ≤ length names.old) × (cell_count ≤ length cells.old) × (value_count ≤ length values.old) × Limits counts }
    ensures { (a : Book) (t : Term) → Held names.old counts a → Row x value t → Done a counts (line_end book.now a true (node (slice (at + 1) end book.now) t) last) result names.old names.new cells.old cells.new values.old values.new }
{
    let done = line_end(book, last, true, with_name(counts, Pool::Nodes))?;
    let v = counts.nodes;
    put_row(
        cells,
        NODE_KINDS + v,
        NODE_TYPES + v,
        NODE_LANGS + v,
        x.kind,
        x.datatype,
        x.lang,
    );
    values[v] = value;
    put_new(names, counts, Pool::Nodes, book, at, end);
    Ok(done)
}

// `(thing N)` or `(blank N)`, by the kind.
pub fn resource_line(
    names: &mut [u8],
    cells: &mut [u16],
    values: &mut [i64],
    index: &[u16],
    counts: Counts,
    kind: u16,
    book: &[u8],
    at: usize,
) -> Read<Counts>
    requires { (at ≤ length book.now) × (kind ≤ codes.node_blank) × (name_count ≤ length names.old) × (cell_count ≤ length cells.old) × (value_count ≤ length values.old) × Limits counts × ((a : Book) × Held names.old counts a) × Indexed names.old counts index.now }
    ensures { (a : Book) → Held names.old counts a → Done a counts (line_body book.now a (resource_code kind) at) result names.old names.new cells.old cells.new values.old values.new }
{
    let pools = Pools {
        names: &*names,
        index,
        counts,
    };
    let (_, end) = read_new(pools, Pool::Nodes, book, at)?;
    let x = Node {
        kind,
        datatype: 0,
        lang: 0,
    };
    node_end(names, cells, values, counts, book, at, end, x, 0, end)
}

// The lines of literals, each by itself: they differ in what they read after the name, and one function for them would switch on
// that.
//
// `(number N T V)`.
pub fn number_line(
    names: &mut [u8],
    cells: &mut [u16],
    values: &mut [i64],
    index: &[u16],
    counts: Counts,
    book: &[u8],
    at: usize,
) -> Read<Counts>
    requires { (at ≤ length book.now) × (name_count ≤ length names.old) × (cell_count ≤ length cells.old) × (value_count ≤ length values.old) × Limits counts × ((a : Book) × Held names.old counts a) × Indexed names.old counts index.now }
    ensures { (a : Book) → Held names.old counts a → Done a counts (line_body book.now a number_l at) result names.old names.new cells.old cells.new values.old values.new }
{
    let pools = Pools {
        names: &*names,
        index,
        counts,
    };
    let (_, end) = read_new(pools, Pool::Nodes, book, at)?;
    let (t, after) = read_type(pools, book, end)?;
    let (value, last) = read_value(book, after)?;
    let x = Node {
        kind: codes::NODE_NUMBER,
        datatype: t as u16,
        lang: 0,
    };
    node_end(names, cells, values, counts, book, at, end, x, value, last)
}

// `(text N T)`.
pub fn text_line(
    names: &mut [u8],
    cells: &mut [u16],
    values: &mut [i64],
    index: &[u16],
    counts: Counts,
    book: &[u8],
    at: usize,
) -> Read<Counts>
    requires { (at ≤ length book.now) × (name_count ≤ length names.old) × (cell_count ≤ length cells.old) × (value_count ≤ length values.old) × Limits counts × ((a : Book) × Held names.old counts a) × Indexed names.old counts index.now }
    ensures { (a : Book) → Held names.old counts a → Done a counts (line_body book.now a text_l at) result names.old names.new cells.old cells.new values.old values.new }
{
    let pools = Pools {
        names: &*names,
        index,
        counts,
    };
    let (_, end) = read_new(pools, Pool::Nodes, book, at)?;
    let (t, last) = read_type(pools, book, end)?;
    let x = Node {
        kind: codes::NODE_TEXT,
        datatype: t as u16,
        lang: 0,
    };
    node_end(names, cells, values, counts, book, at, end, x, 0, last)
}

// `(words N L)`.
pub fn words_line(
    names: &mut [u8],
    cells: &mut [u16],
    values: &mut [i64],
    index: &[u16],
    counts: Counts,
    book: &[u8],
    at: usize,
) -> Read<Counts>
    requires { (at ≤ length book.now) × (name_count ≤ length names.old) × (cell_count ≤ length cells.old) × (value_count ≤ length values.old) × Limits counts × ((a : Book) × Held names.old counts a) × Indexed names.old counts index.now }
    ensures { (a : Book) → Held names.old counts a → Done a counts (line_body book.now a words_l at) result names.old names.new cells.old cells.new values.old values.new }
{
    let pools = Pools {
        names: &*names,
        index,
        counts,
    };
    let (_, end) = read_new(pools, Pool::Nodes, book, at)?;
    let (l, last) = read_used(pools, Pool::Langs, book, end)?;
    let x = Node {
        kind: codes::NODE_WORDS,
        datatype: 0,
        lang: l as u16,
    };
    node_end(names, cells, values, counts, book, at, end, x, 0, last)
}

// `(fact S P O)`.
pub fn fact_line(cells: &mut [u16], pools: Pools, book: &[u8], at: usize) -> Read<Counts>
    requires { (at ≤ length book.now) × (cell_count ≤ length cells.old) × CountsFit pools.counts }
    ensures { (a : Book) (vs : List ℤ) → Held pools.entry.names.now pools.entry.counts a → Kinds cells.old a → Done a pools.entry.counts (line_body book.now a fact_l at) result pools.entry.names.now pools.entry.names.now cells.old cells.new vs vs }
{
    let (s, i) = read_subject(pools, cells, book, at)?;
    let (p, j) = read_used(pools, Pool::Links, book, i)?;
    let (o, k) = read_used(pools, Pool::Nodes, book, j)?;
    let counts = pools.counts;
    let n = counts.facts;
    let more = Counts {
        facts: n + 1,
        ..counts
    };
    let done = line_end(book, k, n < MAX_FACTS, more)?;
    put_row(
        cells,
        SUBJECTS + n,
        PREDICATES + n,
        OBJECTS + n,
        s as u16,
        p as u16,
        o as u16,
    );
    Ok(done)
}

// The pool of the name in target number k.
fn operand_pool(k: usize) -> Pool
    ensures { pool_of result ≡ operand_pool k }
{
    if (k == words::TARGET_SUBJECTS) | (k == words::TARGET_OBJECTS) {
        Pool::Links
    } else {
        Pool::Nodes
    }
}

// TARGET, a space before it.
fn read_target(pools: Pools, book: &[u8], at: usize) -> Read<(u16, usize)>
    requires { at ≤ length book.now }
    ensures value { (a : Book) (b : Begun) → Held pools.entry.names.now pools.entry.counts a → result ≡ target_answer (arg_at book.now a (readers_at book.now a max_within) target b at) }
    ensures targeted { Targeted max_nodes (length book.now) result }
{
    if byte(book, at) != 32 {
        return Err(Fault::Grammar);
    }
    let Some((k, end)) = read_head(Family::Targets, book, at + 1, MAX_WITHIN, false)? else {
        return Err(Fault::Grammar);
    };
    let (x, last) = read_used(pools, operand_pool(k), book, end)?;
    if byte(book, last) != 41 {
        return Err(Fault::Grammar);
    }
    Ok(((k as u16, x), last + 1))
}

// `(rule S TARGET)`.
pub fn rule_line(cells: &mut [u16], pools: Pools, book: &[u8], at: usize) -> Read<Counts>
    requires { (at ≤ length book.now) × (cell_count ≤ length cells.old) × CountsFit pools.counts }
    ensures { (a : Book) (vs : List ℤ) → Held pools.entry.names.now pools.entry.counts a → Done a pools.entry.counts (line_body book.now a rule_l at) result pools.entry.names.now pools.entry.names.now cells.old cells.new vs vs }
{
    let (s, i) = read_used(pools, Pool::Shapes, book, at)?;
    let ((code, x), last) = read_target(pools, book, i)?;
    let counts = pools.counts;
    let n = counts.rules;
    let more = Counts {
        rules: n + 1,
        ..counts
    };
    let done = line_end(book, last, n < MAX_RULES, more)?;
    put_row(
        cells,
        RULE_SHAPES + n,
        RULE_TARGETS + n,
        RULE_OPERANDS + n,
        s as u16,
        code,
        x as u16,
    );
    Ok(done)
}
