// The direct verdict: whether a node conforms to a shape, over lent tables.
//
// Operations: verdict. It answers for any tables and numbers, with refusal 8, 9, 10 or 11 where documents 01 and 02 ask for
// one, and hands back the consoles' tallies.
//
// No pair of a form entry and a node is decided twice: settle calls itself on entries before its own, for sets of nodes, and
// what is known is kept. Few nodes are decided one by one, each from its own ends; many from the ends of all nodes at once. Of
// entry e, the nodes that conform stand from word 32 * e of the memo on, and those that do not from word 32 * e + 16 on.
// For the crates above: conforming_among, the nodes of a set that conform to an entry.
#![tactic(auto)]

mod kept;

ghost use Rattle.std.specs.Prelude.{◌≡◌, true, ℕ, ◌<◌, ◌≤◌, length};
ghost use Rattle.nodeset.specs.Words.{has};
ghost use Rattle.model.specs.Answers.{answer_of};
ghost use Rattle.model.specs.Shapes.{conforms};
ghost use Rattle.tables.specs.Layout.{cell_count, node_count, form_count, form_code_at};
ghost use Rattle.tables.specs.Codes as codes;
ghost use Rattle.tables.specs.Decode.{graph_at, shape_at};
ghost use Rattle.tables.specs.WellFormed.{well_formed};
ghost use Rattle.verdict.specs.Answers.{question, reply_of, answer_on, replied, reply};
ghost use Rattle.verdict.specs.Memo.{Ready, Decided, Settled};
ghost use Rattle.verdict.specs.Parts.{looks_at_ends, has_parts, first_part, second_part, looks_at, PartsKnown, ConformingSet};

use crate::kept::Memo;
use base::pick;
use conditions::{insert_if, test_holds};
use consoles::{Tallies, is_console};
use entries::{Question, end_at, ends_from};
use model::{MAX_PATHS, NodeNo, Refusal};
use nodeset::{Iter, NodeSet, test};
use paths::{End, INDEX_CELLS, Indexed, ROWS_WORDS, index_table};
use stepsets::{Condition, EndRows, Held, ends_set, lang_set, path_set};
use tables::codes;
use tables::layout::{CELLS, VALUES};
use tables::reads::{
    form_code, form_first, form_fourth, form_link, form_node, form_second, form_third, node_count,
    path_code, root, shape_count, wide,
};

// `count` and `all` look at their part at the ends of a path; `shape`, `and`, `or` and `not` at the node itself.
fn looks_at_ends(cells: &[u16], e: usize) -> bool
    ensures { result ≡ looks_at_ends cells.now e }
{
    let code = form_code(cells, e);
    (code == codes::FORM_COUNT) | (code == codes::FORM_ALL)
}

// Entry e is one of these: the verdict on it looks at parts.
fn has_parts(cells: &[u16], e: usize) -> bool
    ensures { result ≡ has_parts cells.now e }
{
    let code = form_code(cells, e);
    ((codes::FORM_SHAPE <= code) & (code <= codes::FORM_NOT)) | looks_at_ends(cells, e)
}

// The numbers of the parts of entry e; one that has a single part has it as both.
fn first_part(cells: &[u16], e: usize) -> usize
    ensures { result ≡ first_part cells.now e }
{
    let code = form_code(cells, e);
    let a = wide(form_first(cells, e));
    let b = wide(form_second(cells, e));
    pick(
        code == codes::FORM_SHAPE,
        root(cells, a),
        pick(code <= codes::FORM_NOT, a, b),
    )
}

fn second_part(cells: &[u16], e: usize) -> usize
    ensures { result ≡ second_part cells.now e }
{
    let code = form_code(cells, e);
    let b = wide(form_second(cells, e));
    pick(
        (code == codes::FORM_AND) | (code == codes::FORM_OR),
        b,
        first_part(cells, e),
    )
}

// Where the verdicts on entry e at these nodes look at its parts.
fn asked(tables: Indexed, e: usize, nodes: NodeSet) -> NodeSet
    requires { e < form_count tables.cells.now }
    ensures { let cs = tables.entry.cells.now in (v w : ℕ) → v < node_count cs → w < node_count cs → has nodes.words v ≡ true → looks_at cs e v w ≡ true → has result.words w ≡ true }
{
    let cells = tables.cells;
    if looks_at_ends(cells, e) {
        let end = End::Path(wide(form_first(cells, e)));
        return ends_from(tables, end, &nodes.words);
    }
    nodes
}

// Node v conforms to entry e; what is known of the parts is enough to tell.
fn entry_holds(memo: &Memo, e: usize, v: NodeNo) -> bool
    requires { let cs = memo.now.tables.cells.now in (e < form_count cs) × (v.0 < node_count cs) × PartsKnown cs e memo.now.words v.0 }
    ensures { let cs = memo.now.tables.cells.now in let vs = memo.now.tables.values.now in result ≡ conforms (graph_at cs vs) (shape_at cs vs e) v.0 }
{
    let question = Question {
        tables: memo.tables,
        form: e,
        node: v,
    };
    let cells = memo.tables.cells;
    let a = first_part(cells, e);
    let b = second_part(cells, e);
    match form_code(cells, e) {
        codes::FORM_TRUE => true,
        codes::FORM_IS => v == form_node(cells, e),
        codes::FORM_SHAPE => memo.known(a, v),
        codes::FORM_AND => memo.known(a, v) & memo.known(b, v),
        codes::FORM_OR => memo.known(a, v) | memo.known(b, v),
        codes::FORM_NOT => !memo.known(a, v),
        codes::FORM_COUNT => {
            let part = memo.row(32 * a);
            question.count_holds(&part.words)
        }
        codes::FORM_ALL => {
            let part = memo.row(32 * a);
            question.all_holds(&part.words)
        }
        codes::FORM_CLOSED => question.links_hold(),
        codes::FORM_ONELANG => question.lang_holds(),
        codes::FORM_KIND..=codes::FORM_BELOW => test_holds(cells, memo.tables.values, e, v),
        // equal, apart, less, lesseq
        _ => question.sets_hold(),
    }
}

// The nodes that conform to entry e, which looks along a path, all at once. Of a node where what is known of the parts is not
// enough nothing is said.
fn set_of_rows(rows: &mut EndRows<ROWS_WORDS>, memo: &[u64], e: usize) -> NodeSet
    requires { let cs = rows.old.tables.cells.now in Ready cs rows.old.tables.index.now rows.old.tables.values.now memo.now e × (codes.form_count ≤ form_code_at cs e) × (form_code_at cs e ≡ codes.form_closed → ⊥) }
    ensures { ConformingSet rows.old.tables.cells.now rows.old.tables.values.now memo.now e result.words }
{
    let cells = rows.tables.cells;
    let p = wide(form_first(cells, e));
    let l = form_link(cells, e);
    let count = Condition::Count(wide(form_third(cells, e)), wide(form_fourth(cells, e)));
    let j = 2 * wide(form_second(cells, e));
    let end = end_at(p);
    match form_code(cells, e) {
        codes::FORM_COUNT => path_set(rows, count, p, memo, j),
        codes::FORM_ALL => path_set(rows, Condition::Every, p, memo, j),
        codes::FORM_EQUAL => ends_set(rows, Condition::Equal, end, l),
        codes::FORM_APART => ends_set(rows, Condition::Apart, end, l),
        codes::FORM_LESS => ends_set(rows, Condition::Less, End::Path(p), l),
        codes::FORM_LESSEQ => ends_set(rows, Condition::LessEq, End::Path(p), l),
        // onelang
        _ => lang_set(rows, Condition::OneLang, p),
    }
}

// The same, with rows of its own.
fn set_along(memo: &Memo, e: usize) -> NodeSet
    requires { let cs = memo.now.tables.cells.now in (e < form_count cs) × (codes.form_count ≤ form_code_at cs e) × (form_code_at cs e ≡ codes.form_closed → ⊥) }
    ensures { ConformingSet memo.now.tables.cells.now memo.now.tables.values.now memo.now.words e result.words }
{
    // made in its place: by `EndRows::new` it would be copied there
    let mut rows = EndRows {
        tables: memo.tables,
        first: Held {
            rows: [0; ROWS_WORDS],
            of: None,
        },
        second: Held {
            rows: [0; ROWS_WORDS],
            of: None,
        },
    };
    set_of_rows(&mut rows, &memo.words, e)
}

// The same among the nodes of a set, one by one.
fn set_among(memo: &Memo, e: usize, nodes: NodeSet) -> NodeSet
    requires { let cs = memo.now.tables.cells.now in (e < form_count cs) × ((v : ℕ) → v < node_count cs → has nodes.words v ≡ true → PartsKnown cs e memo.now.words v) }
    ensures { Decided memo.now.tables.cells.now memo.now.tables.values.now e nodes.words result.words }
{
    let n = node_count(memo.tables.cells);
    let among = nodes.words;
    let mut words = [0u64; 16];
    for x in Iter::below(&among, n) {
        let v = NodeNo(x as u16);
        insert_if(&mut words, v, entry_holds(memo, e, v));
    }
    NodeSet { words }
}

// How many nodes are few. Each of these follows its path by itself; where a path entry up to that of entry e repeats, each would
// close the rows of all nodes anew, and one is few. What is decided does not rest on it.
fn few_nodes(cells: &[u16], e: usize) -> usize {
    let last = wide(form_first(cells, e));
    let repeats = (0..MAX_PATHS.min(last + 1)).any(|k| codes::PATH_STAR <= path_code(cells, k));
    pick(repeats, 1, 16)
}

// The same. Where many nodes are asked about, the ends of all nodes at once cost less than the ends of each.
fn decide(memo: &Memo, e: usize, nodes: NodeSet) -> NodeSet
    requires { let cs = memo.now.tables.cells.now in (e < form_count cs) × ((v : ℕ) → v < node_count cs → has nodes.words v ≡ true → PartsKnown cs e memo.now.words v) }
    ensures { Decided memo.now.tables.cells.now memo.now.tables.values.now e nodes.words result.words }
{
    let cells = memo.tables.cells;
    let code = form_code(cells, e);
    if code < codes::FORM_COUNT {
        return set_among(memo, e, nodes);
    }
    let few = few_nodes(cells, e);
    if (code == codes::FORM_CLOSED) | (nodes.count() <= few) {
        return set_among(memo, e, nodes);
    }
    set_along(memo, e)
}

// Entry e is decided at each of the nodes.
fn fill(memo: &mut Memo, e: usize, nodes: NodeSet)
    requires { let cs = memo.old.tables.cells.now in (e < form_count cs) × ((v : ℕ) → v < node_count cs → has nodes.words v ≡ true → PartsKnown cs e memo.old.words v) }
    ensures tables { memo.new.tables ≡ memo.old.tables }
    ensures settled { Settled memo.old.tables.cells.now memo.old.tables.values.now memo.old.words memo.new.words e nodes.words }
{
    let set = decide(memo, e, nodes);
    let yes = set.words;
    let words = nodes.words;
    let n = node_count(memo.tables.cells);
    for x in Iter::below(&words, n) {
        memo.remember(e, NodeNo(x as u16), test(&yes, x));
    }
}

// It becomes known of each node of want whether it conforms to entry e.
fn settle(memo: &mut Memo, e: usize, want: NodeSet)
    requires { e < form_count memo.old.tables.cells.now }
    ensures tables { memo.new.tables ≡ memo.old.tables }
    ensures settled { Settled memo.old.tables.cells.now memo.old.tables.values.now memo.old.words memo.new.words e want.words }
{
    let tables = memo.tables;
    let nodes = memo.unsettled(e, want);
    if nodes.none_below(node_count(tables.cells)) {
        return;
    }
    if has_parts(tables.cells, e) {
        let looked = asked(tables, e, nodes);
        settle(memo, first_part(tables.cells, e), looked);
        settle(memo, second_part(tables.cells, e), looked);
        fill(memo, e, nodes);
        return;
    }
    fill(memo, e, nodes);
}

// Of the nodes of want, those that conform to entry e; of others nothing is said. What becomes known of its parts is kept meanwhile,
// so that no verdict is found twice.
pub fn conforming_among(tables: Indexed, e: usize, want: NodeSet) -> NodeSet
    requires { e < form_count tables.cells.now }
    ensures { Decided tables.entry.cells.now tables.entry.values.now e want.words result.words }
{
    let mut memo = Memo::new(tables);
    settle(&mut memo, e, want);
    memo.row(32 * e)
}

// Node v conforms to entry e.
fn conforming(cells: &[u16], values: &[i64], e: usize, v: NodeNo) -> bool
    requires { (cell_count ≤ length cells.now) × (well_formed cells.now ≡ true) × (e < form_count cells.now) × (v.0 < node_count cells.now) }
    ensures { result ≡ conforms (graph_at cells.now values.now) (shape_at cells.now values.now e) v.0 }
{
    // the chains of the facts, made once
    let mut index = [0u16; INDEX_CELLS];
    index_table(&mut index, cells);
    let none = NodeSet::EMPTY;
    let x = v.0 as usize;
    let tables = Indexed {
        cells,
        values,
        index: &index,
    };
    let set = conforming_among(tables, e, none.with(x));
    set.test(x)
}

// An answer, whether the node conforms or why nothing is said, and the tallies afterwards.
#[derive(Clone, Copy)]
pub struct Outcome {
    pub answer: Result<bool, Refusal>,
    pub tallies: Tallies,
}

// The answer on tables in their limits: 9 comes before 10, and 10 before 11.
fn answer_on(
    cells: &[u16],
    values: &[i64],
    console: usize,
    node: usize,
    shape: usize,
) -> Result<bool, Refusal>
    requires { cell_count ≤ length cells.now }
    ensures { answer_of result ≡ answer_on cells.now values.now (question console node shape) }
{
    let ok = tablecheck::well_formed(cells);
    let there = (node < node_count(cells)) & (shape < shape_count(cells));
    if !ok {
        return Err(Refusal::Malformed);
    }
    if !there {
        return Err(Refusal::Absent);
    }
    if !is_console(console) {
        return Err(Refusal::Console);
    }
    if !conforming(cells, values, root(cells, shape), NodeNo(node as u16)) {
        return Ok(false);
    }
    Ok(true)
}

// The answer with the tallies afterwards.
fn with_tallies(answer: Result<bool, Refusal>, console: usize, tallies: Tallies) -> Outcome
    ensures { reply_of result ≡ replied (answer_of answer) console tallies.counts }
{
    let after = tallies.after(console, answer.is_ok());
    Outcome {
        answer,
        tallies: after,
    }
}

// The reply to a direct question: whether a node conforms to a shape, both by number, over lent tables; and the tallies of the
// consoles, which are handed back with one more for the console that asked.
// Refusal 8 where a table is shorter than its limit, 9 where the tables are not well formed, 10 where node or shape is not there,
// 11 where there is no such console; then no tally moves.
pub fn verdict(
    names: &[u8],
    cells: &[u16],
    values: &[i64],
    console: usize,
    node: usize,
    shape: usize,
    tallies: Tallies,
) -> Outcome
    ensures { reply_of result ≡ reply names.now cells.now values.now tallies.counts (question console node shape) }
{
    if !tables::lent::enough(names, cells, values) {
        return with_tallies(Err(Refusal::Short), console, tallies);
    }
    with_tallies(
        answer_on(&cells[..CELLS], &values[..VALUES], console, node, shape),
        console,
        tallies,
    )
}
