// The ends from every node at once: rows of sixteen words, a row for each of n nodes.
//
// A path is gone through backwards (forwards, where its ends are read backwards), from each node alone: a fact of its last link puts its object into the row of its subject, one of
// a link before that or-s row into row. No function scans the facts for each start node.
//
// For the crates above, which show that the facts lie between n nodes and that the path entries' tables are well formed:
//   all_ends         the rows become the ends, where they held nothing past n nodes; read backwards where back
//   all_table_ends   the same over the facts of the tables
#![tactic(auto)]

ghost use Rattle.std.specs.Prelude.{◌≡◌, true, ◌*◌, ◌≤◌, length, replicate};
ghost use Rattle.model.specs.Paths.{ends_of};
ghost use Rattle.model.specs.Limits.{max_nodes};
ghost use Rattle.tables.specs.Layout.{node_count};
ghost use Rattle.tables.specs.Decode.{triples_at};
ghost use Rattle.paths.specs.Over.{triples_over};
ghost use Rattle.paths.specs.Ends.{end_in, end_known};
ghost use Rattle.paths.specs.Images.{converse_if};
ghost use Rattle.closure.specs.Rows.{rows_of, Within};

use paths::{End, Facts, Indexed, Sets};

// Nothing is left in the rows, where nothing stands past those of n nodes.
fn clear(rows: &mut [u64], n: usize)
    requires { (n ≤ max_nodes) × (16 * n ≤ length rows.old) × Within n rows.old }
    ensures { rows.new ≡ replicate (length rows.old) 0 }
{
    rows[..16 * n].fill(0);
}

// The rows of the n nodes become their ends, read backwards where back. Nothing stands past them, before and after.
pub fn all_ends(rows: &mut [u64], end: End, back: bool, facts: Facts)
    requires { (end_known facts.cells.now end ≡ true) × (16 * facts.n ≤ length rows.old) × Within facts.n rows.old }
    ensures { rows.new ≡ rows_of facts.entry.n (converse_if back (ends_of facts.entry.n (triples_over facts.entry) (end_in facts.entry.cells.now end))) (length rows.old) }
{
    clear(rows, facts.n);
    let none = [0u64; 1];
    facts.follow(rows, end, !back, Sets::Own, &none);
}

// The same over the facts of the tables.
pub fn all_table_ends(rows: &mut [u64], end: End, back: bool, tables: Indexed)
    requires { (end_known tables.cells.now end ≡ true) × (16 * node_count tables.cells.now ≤ length rows.old) × Within (node_count tables.cells.now) rows.old }
    ensures { rows.new ≡ rows_of (node_count tables.entry.cells.now) (converse_if back (ends_of (node_count tables.entry.cells.now) (triples_at tables.entry.cells.now) (end_in tables.entry.cells.now end))) (length rows.old) }
{
    let facts = tables.facts();
    all_ends(rows, end, back, facts);
}
