// The transitive closure of a relation between nodes, and the reflexive one: rows of sixteen words, a row for each of n nodes, become
// those of one or more repetitions, and of any number of them.
//
// Warshall's algorithm, a block of 64 nodes at a time. First the block's rows are closed among themselves: for each node k of it, each of
// them that has k takes in row k. Then every row takes in the rows of the nodes of the block that it has, all of which one word
// names; a node that a row taken in has too is passed over, and so is one whose row is empty. After the blocks below a node, each
// row has what its node leads to by nodes below that one. So each row is looked at once for 64 nodes, and what it takes in is little.
//
// For the crates above, which show that nothing stands past the rows of n nodes:
//   take_row   a row gains a set
//   close      the rows become those of one or more repetitions
//   reflect    each node joins its own row
//   compose    rows gain where a step by one relation and then one by another leads
//   Relation   the rows of a relation, to read
#![tactic(auto)]

mod relation;

ghost use Rattle.std.specs.Prelude.{◌≡◌, true, false, ℕ, ◌+◌, ◌*◌, ◌%◌, ◌<◌, ◌≤◌, eqb, length};
ghost use Rattle.std.specs.List.{list_all};
ghost use Rattle.nodeset.specs.Words.{bit, words_of};
ghost use Rattle.model.specs.Limits.{max_nodes};
ghost use Rattle.model.specs.Repeats.{plus};
ghost use Rattle.closure.specs.Rows.{Small, leads, rows_of, Within, or_itself, taken, composed};
ghost use Rattle.closure.specs.Closing.{gained, given_if, by_node, across, union_of, by_word, in_row, in_first, Inner, Closing, RowsRoom, IsBlock, Blocked, Busy, Named};

pub use crate::relation::Relation;
use base::cell;
use model::MAX_NODES;
use nodeset::{NodeSet, insert, test};

// A block of n nodes: those from 64 times its number on and below end.
#[derive(Clone, Copy)]
struct Block {
    number: usize,
    end: usize,
    n: usize,
    ghost made: { IsBlock n (64 * number) end },
}

// Row v takes in the first sixteen words of from.
fn take_in(rows: &mut [u64], v: usize, from: &[u64])
    requires { (16 * v + 16 ≤ length rows.old) × (16 ≤ length from.now) × Small rows.old }
    ensures { rows.new ≡ taken rows.old v from.now }
{
    for (i, x) in from[..16].iter().enumerate() {
        rows[16 * v + i] |= *x;
    }
}

// The same, of any words that are lent.
pub fn take_row(rows: &mut [u64], v: usize, from: &[u64])
    requires { (16 * v + 16 ≤ length rows.old) × (16 ≤ length from.now) }
    ensures { rows.new ≡ taken rows.old v from.now }
{
    take_in(rows, v, from);
}

// The same where yes.
fn take_if(rows: &mut [u64], v: usize, from: &[u64], yes: bool)
    requires { (16 * v + 16 ≤ length rows.old) × (16 ≤ length from.now) }
    ensures { rows.new ≡ gained rows.old (given_if v yes from.now) }
{
    if yes {
        take_in(rows, v, from);
    }
}

// Row v, as it is now.
fn row_of(rows: &[u64], v: usize) -> NodeSet
    requires { 16 * v + 16 ≤ length rows.now }
    ensures { result.words ≡ words_of (leads rows.now v) 16 }
{
    // word by word: by copy_from_slice this takes twice the time (tried)
    let mut words = [0u64; 16];
    for i in 0..16 {
        words[i] = rows[16 * v + i];
    }
    NodeSet { words }
}

// Each row of the block that has k takes in row k.
fn take_node(rows: &mut [u64], k: usize, block: Block)
    requires { (k < block.end) × RowsRoom block.n rows.old }
    ensures { rows.new ≡ gained rows.old (by_node (leads rows.old) k (64 * block.number) block.end) }
{
    let row = row_of(rows, k);
    let words = row.words;
    for v in 64 * block.number..block.end {
        let yes = test(rows, MAX_NODES * v + k);
        take_if(rows, v, &words, yes);
    }
}

// The rows of a block are closed among themselves.
fn close_block(rows: &mut [u64], block: Block)
    requires { RowsRoom block.n rows.old × Closing block.n (64 * block.number) rows.old rows.old }
    ensures { Closing block.n (64 * block.number) rows.old rows.new × Inner block.n (64 * block.number) block.end block.end (leads rows.new) }
{
    for k in 64 * block.number..block.end {
        take_node(rows, k, block);
    }
}

// No word is more than 0.
fn all_zero(words: &[u64]) -> bool
    ensures { result ≡ list_all (λ x. eqb x 0) words.now }
{
    words.iter().all(|x| *x == 0)
}

// 2 to the power v % 64 where row v leads anywhere, and 0 where it does not.
fn busy_bit(rows: &[u64], v: usize) -> u64
    requires { 16 * v + 16 ≤ length rows.now }
    ensures { bit result (v % 64) ≡ false → (w : ℕ) → w < max_nodes → leads rows.now v w ≡ false }
{
    let at = 16 * v;
    if all_zero(&rows[at..at + 16]) {
        0
    } else {
        1 << (v % 64)
    }
}

// A bit for each row of the block that leads anywhere.
fn busy_bits(rows: &[u64], block: Block) -> u64
    requires { RowsRoom block.n rows.now }
    ensures { Busy (64 * block.number) block.end result rows.now }
{
    let mut x: u64 = 0;
    for v in 64 * block.number..block.end {
        x |= busy_bit(rows, v);
    }
    x
}

// The lowest digit of x that is set, or the highest.
fn digit(x: u64, low: bool) -> usize
    requires { 0 < x }
    ensures { (result < 64) × (bit x result ≡ true) }
{
    if low {
        return u64::trailing_zeros(x) as usize;
    }
    63 - (u64::leading_zeros(x) as usize)
}

// Row v takes in the rows of the block that it has. What is passed over is in a row that is taken in, or empty. Where the numbers go
// with the relation or against it, the row of the lowest or of the highest has the others; so the two take turns.
fn take_block(rows: &mut [u64], v: usize, block: Block, busy: u64)
    requires { (v < block.n) × RowsRoom block.n rows.old × Blocked block.n (64 * block.number) block.end rows.old × Busy (64 * block.number) block.end busy rows.old }
    ensures { rows.new ≡ gained rows.old (in_row v (across (leads rows.old) (64 * block.number) block.end)) }
{
    let mut left = rows[16 * v + block.number] & busy;
    let mut low = true;
    while 0 < left {
        let d = digit(left, low);
        let row = row_of(rows, 64 * block.number + d);
        let words = row.words;
        take_row(rows, v, &words);
        left = left ^ (left & (words[block.number] | (1 << d)));
        low = !low;
    }
}

// Each of n rows takes in the rows of the block that it has.
fn spread_block(rows: &mut [u64], block: Block, busy: u64)
    requires { RowsRoom block.n rows.old × Blocked block.n (64 * block.number) block.end rows.old × Busy (64 * block.number) block.end busy rows.old }
    ensures { rows.new ≡ gained rows.old (in_first block.n (across (leads rows.old) (64 * block.number) block.end)) }
{
    for v in 0..block.n {
        take_block(rows, v, block, busy);
    }
}

// The rows lead through the nodes of block j too.
fn pass(rows: &mut [u64], j: usize, n: usize)
    requires { RowsRoom n rows.old × (64 * j < n) × Closing n (64 * j) rows.old rows.old }
    ensures { Closing n (64 * j + 64) rows.old rows.new }
{
    let block = Block {
        number: j,
        end: usize::min(64 * j + 64, n),
        n,
    };
    close_block(rows, block);
    let busy = busy_bits(rows, block);
    spread_block(rows, block, busy);
}

// The rows become those of one or more repetitions.
pub fn close(rows: &mut [u64], n: usize)
    requires { (n ≤ max_nodes) × (16 * n ≤ length rows.old) × Within n rows.old }
    ensures { rows.new ≡ rows_of n (plus (leads rows.old) n) (length rows.old) }
{
    let blocks = n.div_ceil(64);
    for j in 0..blocks {
        pass(rows, j, n);
    }
}

// Each of n nodes joins its own row: bit v of row v.
pub fn reflect(rows: &mut [u64], n: usize)
    requires { (n ≤ max_nodes) × Within n rows.old }
    ensures { rows.new ≡ rows_of n (or_itself (leads rows.old)) (length rows.old) }
{
    for v in 0..n {
        insert(rows, 1025 * v);
    }
}

// The rows in from of the nodes of block j that x names, together.
fn union_of(from: &[u64], j: usize, x: u64) -> NodeSet
    requires { (j < 16) × Named j x from.now }
    ensures { result.words ≡ words_of (union_of from.now j x) 16 }
{
    let mut words = [0u64; 16];
    let mut left = x;
    while 0 < left {
        let d = digit(left, true);
        let at = 16 * (64 * j + d);
        take_row(&mut words, 0, &from[at..]);
        left = left ^ (left & (1 << d));
    }
    NodeSet { words }
}

// The same, where sum is that of last.
fn union_after(sum: NodeSet, last: u64, from: &[u64], j: usize, x: u64) -> NodeSet
    requires { (sum.words ≡ words_of (union_of from.now j last) 16) × (j < 16) × Named j x from.now }
    ensures { result.words ≡ words_of (union_of from.now j x) 16 }
{
    if x == last {
        return sum;
    }
    union_of(from, j, x)
}

// Each of n rows of into gains the rows in from of the nodes of block j that its namesake in rows has, of those that mask names.
// Rows that stand together often have the same of them, and what these lead to is found once.
fn compose_block(into: &mut [u64], rows: &[u64], from: &[u64], j: usize, mask: u64, n: usize)
    requires { (j < 16) × RowsRoom n into.old × Named j mask from.now }
    ensures { into.new ≡ gained into.old (in_first n (by_word rows.now from.now j mask)) }
{
    let mut sum = NodeSet::EMPTY;
    let mut last: u64 = 0;
    for v in 0..n {
        let x = cell(rows, 16 * v + j, 0) & mask;
        sum = union_after(sum, last, from, j, x);
        let words = sum.words;
        take_if(into, v, &words, 0 < x);
        last = x;
    }
}

// Each of n nodes v gains in into what from leads to from each u that rows lead to from v.
pub fn compose(into: &mut [u64], rows: &[u64], from: &[u64], n: usize)
    requires { (n ≤ max_nodes) × (16 * n ≤ length into.old) × (16 * n ≤ length from.now) }
    ensures { into.new ≡ composed into.old rows.now from.now n }
{
    let nodes = NodeSet::whole(n);
    let masks = nodes.words;
    let blocks = n.div_ceil(64);
    for j in 0..blocks {
        compose_block(into, rows, from, j, masks[j], n);
    }
}
