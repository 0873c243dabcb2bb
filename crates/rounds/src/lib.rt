// How far a search along a repeated path goes (document 02, Job 7), over lent tables.
//
// Operations: rounds. It answers for any tables and numbers, with refusal 8, 9 or 10 where there is ground for one.
//
// The ends of the path from every node are found once, as rows, whatever is nested in it; then the search goes along them. The rows
// serve the crate nearest too.
#![tactic(auto)]

ghost use Rattle.std.specs.Prelude.{◌≡◌, true, ◌*◌, ◌<◌, ◌≤◌, length, replicate};
ghost use Rattle.closure.specs.Rows.{rows_of};
ghost use Rattle.model.specs.Limits.{max_nodes};
ghost use Rattle.model.specs.Paths.{ends};
ghost use Rattle.tables.specs.Layout.{cell_count, node_count, path_count};
ghost use Rattle.tables.specs.Decode.{triples_at, path_at};
ghost use Rattle.tables.specs.WellFormed.{well_formed};
ghost use Rattle.model.specs.Answers.{answer_of};
ghost use Rattle.rounds.specs.Answers.{rounds_at, rounds_answer};

use closure::Relation;
use model::{NodeNo, Refusal};
use paths::{End, INDEX_CELLS, Indexed, ROWS_WORDS, index_table};
use reach::search;
use rows::all_table_ends;
use tablecheck::well_formed;
use tables::layout::CELLS;
use tables::lent::enough;
use tables::reads::{node_count, path_count};

// The rows, which are empty, become the ends of path entry e.
pub fn path_rows(rows: &mut [u64], tables: Indexed, e: usize)
    requires { (rows.old ≡ replicate (16 * max_nodes) 0) × (e < path_count tables.cells.now) }
    ensures { rows.new ≡ rows_of (node_count tables.entry.cells.now) (ends (node_count tables.entry.cells.now) (triples_at tables.entry.cells.now) (path_at tables.entry.cells.now e)) (16 * max_nodes) }
{
    all_table_ends(rows, End::Path(e), false, tables);
}

// The rounds of the star of path entry e from node v.
fn path_rounds(cells: &[u16], values: &[i64], v: NodeNo, e: usize) -> usize
    requires { (cell_count ≤ length cells.now) × (well_formed cells.now ≡ true) × (v.0 < node_count cells.now) × (e < path_count cells.now) }
    ensures { result ≡ rounds_at cells.now v.0 e }
{
    // the chains of the facts, made once
    let mut index = [0u16; INDEX_CELLS];
    index_table(&mut index, cells);
    let tables = Indexed {
        cells,
        values,
        index: &index,
    };
    let mut rows = [0u64; ROWS_WORDS];
    path_rows(&mut rows, tables, e);
    let relation = Relation {
        rows: &rows,
        n: node_count(cells),
    };
    let found = search(relation, v.0 as usize);
    found.rounds
}

// The operation: how many rounds the star of a path entry takes from a node, both by number; the least number of repetitions within
// which the path leads to all that it leads to within one more. Refusal 8 where a table is shorter than its limit, 9 where the
// tables are not well formed, 10 where node or path entry is not there.
pub fn rounds(
    names: &[u8],
    cells: &[u16],
    values: &[i64],
    node: usize,
    path: usize,
) -> Result<usize, Refusal>
    ensures { answer_of result ≡ rounds_answer names.now cells.now values.now node path }
{
    if !enough(names, cells, values) {
        return Err(Refusal::Short);
    }
    let cs = &cells[..CELLS];
    if !well_formed(cs) {
        return Err(Refusal::Malformed);
    }
    if !((node < node_count(cs)) & (path < path_count(cs))) {
        return Err(Refusal::Absent);
    }
    Ok(path_rounds(cs, values, NodeNo(node as u16), path))
}
