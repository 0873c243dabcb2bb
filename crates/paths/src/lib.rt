// The ends of paths, over facts in three lent columns: their subjects, predicates and objects.
//
// Sets of nodes stand side by side in the words that are lent: one set alone (node v at bit v), or a set for each node, in rows of
// sixteen words (node v of set k at bit k of row v). What is done for one set is done for each of many, so one function serves both.
// From the sets that are each a node alone, the rows become the pairs of a path.
//
// For the crates above:
//   Facts            facts that lie between n nodes, and well-formed tables, whose path entries are followed over them
//   add_ends         a set gains all ends from the members of another set
//   follow           the same for sets side by side
//   add_table_ends   the first of these over the facts of the tables
//
// The facts of each link, and those out of each node, are found by an index, chains by link and by subject, which is made once for
// many calls:
//   index_facts          chains of the facts by the keys in a column
//   index_table          both for the facts of the tables
//   last_out, next_out   where the chain of the facts out of a node begins, and what follows a fact on it
//   Indexed              the tables with both
#![tactic(auto)]

mod facts;
mod indexed;

ghost use Rattle.std.specs.Prelude.{◌≡◌, true, cond, ℕ, ◌+◌, ◌*◌, ◌<◌, ◌≤◌, eqb, ltb, length, get_or, replicate};
ghost use Rattle.model.specs.Paths.{ends_of};
ghost use Rattle.model.specs.Limits.{max_nodes, max_links, max_facts};
ghost use Rattle.tables.specs.Layout.{node_count, path_count, path_code_at, cell_count};
ghost use Rattle.tables.specs.Decode.{triples_at, path_at};
ghost use Rattle.tables.specs.WellFormed.{well_formed};
ghost use Rattle.base.specs.Bounded.{every};
ghost use Rattle.nodeset.specs.Words.{has};
ghost use Rattle.closure.specs.Rows.{leads, rows_of, Within};
ghost use Rattle.tables.specs.Codes as codes;
ghost use Rattle.paths.specs.Facts.{subject_heads, subject_nexts, TableIndexed, SubjectIndexed, index_count, Made, edges};
ghost use Rattle.paths.specs.Over.{triples_over};
ghost use Rattle.paths.specs.Ends.{end_in, end_known};
ghost use Rattle.paths.specs.Images.{converse_if, set_count, set_words, start_of, Room, MidOk, carried_on, backwards, meets_row, with_node, repeated, with_image, with_images, joined_sets, with_ends};

pub use crate::facts::Facts;
pub use crate::indexed::Indexed;
use base::{cell, pick};
use chains::link;
use closure::{Relation, close, compose, reflect, take_row};
use model::{LinkNo, MAX_FACTS, MAX_LINKS, MAX_NODES, NodeNo};
use nodeset::{insert, next_shared, test, union_into};
use tables::codes;
use tables::layout::{OBJECTS, PATH_CODES, PREDICATES, SUBJECTS};
use tables::reads::{fact_count, node_count, path_code, path_first, path_link, path_second, wide};

// How many cells the index of the facts takes: where the chain of each link begins and what follows each fact on it, and then the
// same by subject.
pub const INDEX_CELLS: usize = SUBJECT_NEXTS + MAX_FACTS;

// Where the chains by subject begin, and what follows each fact on its own.
const SUBJECT_HEADS: usize = MAX_LINKS + MAX_FACTS;

const SUBJECT_NEXTS: usize = SUBJECT_HEADS + MAX_NODES;

// How many words the rows of all nodes take.
pub const ROWS_WORDS: usize = 16 * MAX_NODES;

// The numbers of links lie below this one.
const LINKS: u16 = MAX_LINKS as u16;

// What the ends are ends of: `id`, the node itself; a link; a path entry.
#[derive(Clone, Copy, PartialEq, Eq)]
pub enum End {
    Itself,
    Link(LinkNo),
    Path(usize),
}

// The sets that stand side by side, and what they start from: one set, which is lent; one for each node, in rows, which are lent;
// one for each node, that node alone, and nothing is lent.
#[derive(Clone, Copy)]
pub enum Sets {
    One,
    Rows,
    Own,
}

// How many words the sets side by side need at the least.
fn set_words(sets: Sets, n: usize) -> usize
    requires { n ≤ max_nodes }
    ensures { result ≡ set_words sets n }
{
    match sets {
        Sets::One => 0,
        Sets::Rows => 16 * n,
        Sets::Own => 16 * n,
    }
}

// The sets from which a second part starts, where a first part has filled them.
fn carried(sets: Sets) -> Sets
    ensures { result ≡ carried_on sets }
{
    match sets {
        Sets::One => Sets::One,
        Sets::Rows => Sets::Rows,
        Sets::Own => Sets::Rows,
    }
}

// Place i of a column: a node.
fn node_at(column: &[u16], i: usize) -> NodeNo
    requires { i < length column.now }
    ensures { result.0 ≡ get_or column.now i 0 }
{
    NodeNo(column[i])
}

// Node far joins each set that near is in.
fn join(into: &mut [u64], far: NodeNo, sets: Sets, from: &[u64], near: NodeNo, n: usize)
    requires { Room sets n from.now into.old × (n ≤ max_nodes) × (near.0 < n) × (far.0 < n) }
    ensures { into.new ≡ joined_sets (set_count sets) near.0 far.0 (start_of sets from.now) into.old }
{
    let v = far.0 as usize;
    let w = near.0 as usize;
    match sets {
        Sets::One => {
            if test(from, w) {
                insert(into, v);
            }
        }
        Sets::Rows => {
            let at = 16 * w;
            take_row(into, v, &from[at..]);
        }
        Sets::Own => insert(into, MAX_NODES * v + w),
    }
}

// The facts join the chains of their keys, which stand in a column; of the slots' chains none has begun. Where they begin stands
// from heads on, and behind that what follows each fact.
pub fn index_facts(index: &mut [u16], heads: usize, slots: usize, keys: &[u16], len: usize)
    requires { (heads + slots + len ≤ length index.old) × (length index.old ≤ 65536) × (len ≤ max_facts) × (len ≤ length keys.now) × (every (λ i. ltb (get_or keys.now i 0) slots) len ≡ true) × ((h : ℕ) → h < slots → get_or index.old (heads + h) 0 ≡ 0) }
    ensures { Made keys.now len slots heads (heads + slots) index.old index.new }
{
    for i in 0..len {
        link(index, heads, heads + slots, wide(keys[i]), i);
    }
}

// The chains of the tables' facts, by link and by subject.
pub fn index_table(index: &mut [u16], cells: &[u16])
    requires { (index.old ≡ replicate index_count 0) × (cell_count ≤ length cells.now) × (well_formed cells.now ≡ true) }
    ensures { TableIndexed cells.now index.new × SubjectIndexed cells.now index.new }
{
    let len = fact_count(cells);
    index_facts(index, 0, MAX_LINKS, &cells[PREDICATES..OBJECTS], len);
    index_facts(
        index,
        SUBJECT_HEADS,
        MAX_NODES,
        &cells[SUBJECTS..PREDICATES],
        len,
    );
}

// The last fact out of node v, as its number and one; 0 where there is none.
pub fn last_out(index: &[u16], v: NodeNo) -> usize
    ensures { result ≡ cond (ltb v.0 max_nodes) (get_or index.now (subject_heads + v.0) 0) 0 }
{
    let x = v.0 as usize;
    if x < MAX_NODES {
        wide(cell(index, SUBJECT_HEADS + x, 0))
    } else {
        0
    }
}

// The fact before fact i out of the same node, as its number and one; 0 where there is none.
pub fn next_out(index: &[u16], i: usize) -> usize
    requires { i < max_facts }
    ensures { result ≡ get_or index.now (subject_nexts + i) 0 }
{
    wide(cell(index, SUBJECT_NEXTS + i, 0))
}

// A member of from is in row w.
fn meets_row(from: &[u64], relation: Relation, w: usize) -> bool
    requires { w < relation.n }
    ensures { result ≡ meets_row from.now relation.entry.rows.now relation.entry.n w }
{
    let at = 16 * w;
    next_shared(from, &relation.rows[at..], 0, relation.n) < relation.n
}

// Node w joins into, where a member of from is in its row.
fn gain_node(into: &mut [u64], from: &[u64], relation: Relation, w: usize)
    requires { w < relation.n }
    ensures { into.new ≡ with_node from.now relation.entry.rows.now relation.entry.n w into.old }
{
    if meets_row(from, relation, w) {
        insert(into, w);
    }
}

// The set into gains the nodes in whose rows a member of from is.
fn add_image(into: &mut [u64], from: &[u64], relation: Relation)
    ensures { into.new ≡ with_images 1 relation.entry.n (backwards relation.entry.rows.now) (has from.now) into.old }
{
    for w in 0..relation.n {
        gain_node(into, from, relation, w);
    }
}

// Each set of into gains the nodes in whose rows a member of its namesake in from is.
fn gain(into: &mut [u64], sets: Sets, from: &[u64], relation: Relation)
    requires { Room sets relation.n from.now into.old }
    ensures { into.new ≡ with_images (set_count sets) relation.entry.n (backwards relation.entry.rows.now) (start_of sets from.now) into.old }
{
    match sets {
        Sets::One => add_image(into, from, relation),
        Sets::Rows => compose(into, relation.rows, from, relation.n),
        Sets::Own => union_into(into, relation.rows),
    }
}

// The rows become those of one or more repetitions; of zero or more, where they may be none.
fn close_rows(rows: &mut [u64], none: bool, n: usize)
    requires { (n ≤ max_nodes) × (16 * n ≤ length rows.old) × Within n rows.old }
    ensures new_rows { rows.new ≡ rows_of n (repeated none (leads rows.old) n) (length rows.old) }
    ensures within { Within n rows.new }
{
    close(rows, n);
    if none {
        reflect(rows, n);
    }
}

// Each node joins the sets that it is in already.
fn join_itself(into: &mut [u64], sets: Sets, from: &[u64], n: usize)
    requires { Room sets n from.now into.old × (n ≤ max_nodes) }
    ensures { into.new ≡ with_images (set_count sets) n eqb (start_of sets from.now) into.old }
{
    for x in 0..n {
        let v = NodeNo(x as u16);
        join(into, v, sets, from, v, n);
    }
}

// By reference, where paths nest: each call within a call would hold copies of the facts, and tables from elsewhere may have paths
// 127 deep.
impl<'a> Facts<'a> {
    // The last fact of link l, as its number and one; 0 where there is none.
    fn last_fact(&self, l: LinkNo) -> usize
        ensures { result ≡ cond (ltb l.0 max_links) (get_or self.now.index.now l.0 0) 0 }
    {
        if l.0 < LINKS {
            wide(cell(self.index, wide(l.0), 0))
        } else {
            0
        }
    }

    // The fact before fact i that has the same link, as its number and one; 0 where there is none.
    fn next_fact(&self, i: usize) -> usize
        requires { i < max_facts }
        ensures { result ≡ get_or self.now.index.now (max_links + i) 0 }
    {
        wide(cell(self.index, MAX_LINKS + i, 0))
    }

    // The object of fact i joins each set that its subject is in; read backwards where back.
    fn join_fact(&self, into: &mut [u64], i: usize, back: bool, sets: Sets, from: &[u64])
        requires { (i < self.now.len) × Room sets self.now.n from.now into.old }
        ensures { into.new ≡ joined_sets (set_count sets) (cond back (get_or self.now.o.now i 0) (get_or self.now.s.now i 0)) (cond back (get_or self.now.s.now i 0) (get_or self.now.o.now i 0)) (start_of sets from.now) into.old }
    {
        let v = node_at(self.s, i);
        let w = node_at(self.o, i);
        let far = pick(back, v, w);
        let near = pick(back, w, v);
        join(into, far, sets, from, near, self.n);
    }

    // What the facts of link l add; read backwards where back. Only these are looked at: the predicates, of which the index is made,
    // are there for the promise alone.
    fn join_link(&self, into: &mut [u64], l: LinkNo, back: bool, sets: Sets, from: &[u64])
        requires { Room sets self.now.n from.now into.old }
        ensures { into.new ≡ with_images (set_count sets) self.now.n (edges self.now.s.now self.now.p.now self.now.o.now l.0 back self.now.len) (start_of sets from.now) into.old }
    {
        let mut next = self.last_fact(l);
        while 0 < next {
            let i = next - 1;
            self.join_fact(into, i, back, sets, from);
            next = self.next_fact(i);
        }
    }

    // Each set of into gains the ends of path entry e, read backwards where back, from the members of its namesake in from.
    #[cycle(spread)]
    fn spread(&self, into: &mut [u64], e: usize, back: bool, sets: Sets, from: &[u64])
        requires { (e < path_count self.now.cells.now) × Room sets self.now.n from.now into.old }
        ensures { into.new ≡ with_ends (set_count sets) self.now.n (triples_over self.now) (path_at self.now.cells.now e) back (start_of sets from.now) into.old }
    {
        let a = path_first(self.cells, e);
        let b = path_second(self.cells, e);
        match path_code(self.cells, e) {
            codes::PATH_LINK => self.join_link(into, path_link(self.cells, e), back, sets, from),
            codes::PATH_INV => self.spread(into, a, !back, sets, from),
            codes::PATH_SEQ => self.seq(into, e, back, sets, from),
            codes::PATH_ALT => {
                self.spread(into, a, back, sets, from);
                self.spread(into, b, back, sets, from);
            }
            // star and plus
            _ => self.repeat(into, e, back, sets, from),
        }
    }

    // The same of a seq, with as many words for what lies between its two parts as the sets need.
    #[cycle(spread)]
    fn seq(&self, into: &mut [u64], e: usize, back: bool, sets: Sets, from: &[u64])
        requires { (e < path_count self.now.cells.now) × Room sets self.now.n from.now into.old × (path_code_at self.now.cells.now e ≡ codes.path_seq) }
        ensures { into.new ≡ with_ends (set_count sets) self.now.n (triples_over self.now) (path_at self.now.cells.now e) back (start_of sets from.now) into.old }
    {
        if set_words(sets, self.n) <= MAX_NODES {
            self.seq_few(into, e, back, sets, from);
        } else {
            self.seq_many(into, e, back, sets, from);
        }
    }

    // The same of one set, or of few rows. This and the next are two functions: one with a const parameter for the words would be
    // in a cycle with functions that have none, of which rattle states no theorem yet (tried).
    #[cycle(spread)]
    fn seq_few(&self, into: &mut [u64], e: usize, back: bool, sets: Sets, from: &[u64])
        requires { (e < path_count self.now.cells.now) × Room sets self.now.n from.now into.old × (path_code_at self.now.cells.now e ≡ codes.path_seq) × (set_words sets self.now.n ≤ max_nodes) }
        ensures { into.new ≡ with_ends (set_count sets) self.now.n (triples_over self.now) (path_at self.now.cells.now e) back (start_of sets from.now) into.old }
    {
        let mut mid = [0u64; MAX_NODES];
        self.seq_by(into, &mut mid, e, back, sets, from);
    }

    // The same of a row for each of many nodes.
    #[cycle(spread)]
    fn seq_many(&self, into: &mut [u64], e: usize, back: bool, sets: Sets, from: &[u64])
        requires { (e < path_count self.now.cells.now) × Room sets self.now.n from.now into.old × (path_code_at self.now.cells.now e ≡ codes.path_seq) }
        ensures { into.new ≡ with_ends (set_count sets) self.now.n (triples_over self.now) (path_at self.now.cells.now e) back (start_of sets from.now) into.old }
    {
        let mut mid = [0u64; ROWS_WORDS];
        self.seq_by(into, &mut mid, e, back, sets, from);
    }

    // The same, over mid, which is empty: the sets that the first part leads to, from which the second part starts.
    #[cycle(spread)]
    fn seq_by(
        &self,
        into: &mut [u64],
        mid: &mut [u64],
        e: usize,
        back: bool,
        sets: Sets,
        from: &[u64],
    )
        requires { (e < path_count self.now.cells.now) × Room sets self.now.n from.now into.old × (path_code_at self.now.cells.now e ≡ codes.path_seq) × MidOk sets self.now.n mid.old }
        ensures { into.new ≡ with_ends (set_count sets) self.now.n (triples_over self.now) (path_at self.now.cells.now e) back (start_of sets from.now) into.old }
    {
        let a = path_first(self.cells, e);
        let b = path_second(self.cells, e);
        let x = pick(back, b, a);
        let y = pick(back, a, b);
        let next = carried(sets);
        self.spread(mid, x, back, sets, from);
        self.spread(into, y, back, next, mid);
    }

    // The same of a star or plus: the pairs of its part, as rows, are closed.
    #[cycle(spread)]
    fn repeat(&self, into: &mut [u64], e: usize, back: bool, sets: Sets, from: &[u64])
        requires { (e < path_count self.now.cells.now) × Room sets self.now.n from.now into.old × (codes.path_star ≤ path_code_at self.now.cells.now e) }
        ensures { into.new ≡ with_ends (set_count sets) self.now.n (triples_over self.now) (path_at self.now.cells.now e) back (start_of sets from.now) into.old }
    {
        let a = path_first(self.cells, e);
        let none = path_code(self.cells, e) == codes::PATH_STAR;
        let mut rows = [0u64; ROWS_WORDS];
        self.spread(&mut rows, a, back, Sets::Own, from);
        close_rows(&mut rows, none, self.n);
        let pairs = Relation {
            rows: &rows,
            n: self.n,
        };
        gain(into, sets, from, pairs);
    }

    // Each set of into gains all ends, read backwards where back, from the members of its namesake in from.
    pub fn follow(self, into: &mut [u64], end: End, back: bool, sets: Sets, from: &[u64])
        requires { (end_known self.cells.now end ≡ true) × Room sets self.n from.now into.old }
        ensures { into.new ≡ with_images (set_count sets) self.entry.n (converse_if back (ends_of self.entry.n (triples_over self.entry) (end_in self.entry.cells.now end))) (start_of sets from.now) into.old }
    {
        match end {
            End::Itself => join_itself(into, sets, from, self.n),
            End::Link(l) => self.join_link(into, l, back, sets, from),
            End::Path(e) => self.spread(into, e, back, sets, from),
        }
    }

    // The set into gains all ends, read backwards where back, from the members of from.
    pub fn add_ends(self, into: &mut [u64], end: End, back: bool, from: &[u64])
        requires { end_known self.cells.now end ≡ true }
        ensures { into.new ≡ with_image self.entry.n (converse_if back (ends_of self.entry.n (triples_over self.entry) (end_in self.entry.cells.now end))) from.now into.old }
    {
        self.follow(into, end, back, Sets::One, from);
    }
}

impl<'a> Indexed<'a> {
    // The facts of the tables.
    pub fn facts(self) -> Facts<'a>
        ensures of_tables { (result.cells.now ≡ self.entry.cells.now) × (result.n ≡ node_count self.entry.cells.now) × (triples_over result ≡ triples_at self.entry.cells.now) }
    {
        let cells = self.cells;
        Facts {
            cells,
            s: &cells[SUBJECTS..PREDICATES],
            p: &cells[PREDICATES..OBJECTS],
            o: &cells[OBJECTS..PATH_CODES],
            index: self.index,
            len: fact_count(cells),
            n: node_count(cells),
        }
    }
}

// The set into gains all ends, read backwards where back, from the members of from, over the facts of the tables.
pub fn add_table_ends(into: &mut [u64], end: End, back: bool, from: &[u64], tables: Indexed)
    requires { end_known tables.cells.now end ≡ true }
    ensures { into.new ≡ with_image (node_count tables.entry.cells.now) (converse_if back (ends_of (node_count tables.entry.cells.now) (triples_at tables.entry.cells.now) (end_in tables.entry.cells.now end))) from.now into.old }
{
    let facts = tables.facts();
    facts.add_ends(into, end, back, from);
}
