// The nearest spare (document 02, Job 11), over lent tables.
//
// Operations: nearest. It answers for any tables and numbers, with refusal 8, 9 or 10 where there is ground for one.
//
// The ends of the path from every node are found once, as rows. A search along them shows which nodes can be reached at all; which
// of these conform is decided of all of them together, as the verdict decides it, so that no node's verdict is found twice. Then
// the search is made again, and ends at the first round that reaches one of them.
#![tactic(auto)]

ghost use Rattle.std.specs.Prelude.{◌≡◌, true, ◌&&◌, ◌*◌, ◌<◌, ◌≤◌, length};
ghost use Rattle.nodeset.specs.Words.{has, words_of};
ghost use Rattle.closure.specs.Rows.{leads, Within};
ghost use Rattle.model.specs.Limits.{max_nodes};
ghost use Rattle.model.specs.Repeats.{star};
ghost use Rattle.model.specs.Nearest.{at, any_spare};
ghost use Rattle.model.specs.Nearest as model;
ghost use Rattle.model.specs.Shapes.{conforms};
ghost use Rattle.tables.specs.Layout.{cell_count, node_count, path_count, form_count};
ghost use Rattle.tables.specs.Decode.{graph_at, shape_at};
ghost use Rattle.tables.specs.WellFormed.{well_formed};
ghost use Rattle.nearest.specs.Answers.{spare_of, spare_answer, nearest_to, nearest_answer};

use closure::Relation;
use model::{NodeNo, Refusal};
use nodeset::{NodeSet, next_shared};
use paths::{INDEX_CELLS, Indexed, ROWS_WORDS, index_table};
use reach::{Level, search};
use rounds::path_rows;
use tablecheck::well_formed;
use tables::layout::{CELLS, VALUES};
use tables::lent::enough;
use tables::reads::{node_count, path_count, root, shape_count};
use verdict::conforming_among;

// The nodes that the rows lead to from node v by any number of repetitions and that conform to form entry e.
fn spares(relation: Relation, tables: Indexed, v: usize, e: usize) -> NodeSet
    requires { (e < form_count tables.cells.now) × (v < node_count tables.cells.now) × (relation.n ≡ node_count tables.cells.now) }
    ensures { result.words ≡ words_of (λ w. star (leads relation.entry.rows.now) (node_count tables.entry.cells.now) v w && conforms (graph_at tables.entry.cells.now tables.entry.values.now) (shape_at tables.entry.cells.now tables.entry.values.now e) w) 16 }
{
    let all = search(relation, v);
    let reached = all.nodes;
    let set = conforming_among(tables, e, reached);
    reached.intersection(set)
}

// The nearest of the spares, to one of which at least the rows lead from node v: how many repetitions away it is, and which.
fn first_met(relation: Relation, v: usize, spares: NodeSet) -> (usize, NodeNo)
    requires { (v < relation.n) × (any_spare (leads relation.rows.now) (has spares.words) relation.n v ≡ true) }
    ensures node_value { at result.0 result.1.0 ≡ model.nearest (leads relation.entry.rows.now) (has spares.words) relation.entry.n v }
    ensures node_lt_n { result.1.0 < relation.entry.n }
{
    let wanted = spares.words;
    let mut level = Level::start(v);
    let mut hops: usize = 0;
    loop {
        let frontier = level.frontier.words;
        let node = next_shared(&frontier, &wanted, 0, relation.n);
        if node < relation.n {
            return (hops, NodeNo(node as u16));
        }
        level = level.next(relation.rows, relation.n);
        hops += 1;
    }
}

// How many repetitions away a spare is, and which node it is; or none.
pub type Spare = Option<(usize, NodeNo)>;

// Of the nodes that conform to form entry e, the nearest to v along path entry p.
fn spare_from(cells: &[u16], values: &[i64], v: NodeNo, p: usize, e: usize) -> Spare
    requires { (cell_count ≤ length cells.now) × (well_formed cells.now ≡ true) × (v.0 < node_count cells.now) × (p < path_count cells.now) × (e < form_count cells.now) }
    ensures { spare_of result ≡ nearest_to cells.now values.now v.0 p e }
{
    // the chains of the facts, made once
    let mut index = [0u16; INDEX_CELLS];
    index_table(&mut index, cells);
    let tables = Indexed {
        cells,
        values,
        index: &index,
    };
    let mut rows = [0u64; ROWS_WORDS];
    path_rows(&mut rows, tables, p);
    let start = v.0 as usize;
    let n = node_count(cells);
    let relation = Relation { rows: &rows, n };
    let set = spares(relation, tables, start, e);
    if set.none_below(n) {
        return None;
    }
    Some(first_met(relation, start, set))
}

// The operation: the fewest repetitions of a path entry that lead from a node to one that conforms to a shape, 0 where the node
// itself does, and the lowest number among those; node, path entry and shape by number. Refusal 8 where a table is shorter than
// its limit, 9 where the tables are not well formed, 10 where node, path entry or shape is not there.
pub fn nearest(
    names: &[u8],
    cells: &[u16],
    values: &[i64],
    node: usize,
    path: usize,
    shape: usize,
) -> Result<Spare, Refusal>
    ensures { spare_answer result ≡ nearest_answer names.now cells.now values.now node path shape }
{
    if !enough(names, cells, values) {
        return Err(Refusal::Short);
    }
    let cs = &cells[..CELLS];
    if !well_formed(cs) {
        return Err(Refusal::Malformed);
    }
    let there = (node < node_count(cs)) & (path < path_count(cs)) & (shape < shape_count(cs));
    if !there {
        return Err(Refusal::Absent);
    }
    Ok(spare_from(
        cs,
        &values[..VALUES],
        NodeNo(node as u16),
        path,
        root(cs, shape),
    ))
}
