// Rows of ends that are kept from one set to the next.
ghost use Rattle.std.specs.Prelude.{◌≡◌, true, ◌*◌, ◌≤◌, Some};
ghost use Rattle.model.specs.Limits.{max_nodes};
ghost use Rattle.tables.specs.Layout.{node_count};
ghost use Rattle.paths.specs.Ends.{end_known};
ghost use Rattle.stepsets.specs.Ends.{RowsHeld, RowsHeld-prop};

use paths::{End, Indexed};
use rows::all_table_ends;

// Rows, and what they hold: nothing yet, or these ends of all nodes.
#[derive(Drop)]
pub struct Held<const WORDS: usize> {
    pub rows: [u64; WORDS],
    pub of: Option<End>,
}

// The rows become those of these ends, where they are not these already.
pub(crate) fn fill(rows: &mut [u64], of: &mut Option<End>, end: End, tables: Indexed)
    requires { (end_known tables.cells.now end ≡ true) × RowsHeld tables.cells.now of.old rows.old }
    ensures held { RowsHeld tables.entry.cells.now of.new rows.new }
    ensures new_of { of.new ≡ Some end }
{
    if *of != Some(end) {
        all_table_ends(rows, end, false, tables);
    }
    *of = Some(end);
}

// Rows for all nodes of the tables: the first of any ends, the second of those of a link.
#[derive(Drop)]
pub struct EndRows<'a, const WORDS: usize> {
    pub tables: Indexed<'a>,
    pub first: Held<WORDS>,
    pub second: Held<WORDS>,
    ghost fits: { WORDS ≤ 16 * max_nodes },
    ghost first_held: { RowsHeld tables.cells.now first.of first.rows } by { RowsHeld-prop tables.cells.now first.of first.rows },
    ghost second_held: { RowsHeld tables.cells.now second.of second.rows } by { RowsHeld-prop tables.cells.now second.of second.rows },
}

impl<'a, const WORDS: usize> EndRows<'a, WORDS> {
    // Rows that hold nothing yet.
    pub fn new(tables: Indexed<'a>) -> Self
        requires { (16 * node_count tables.cells.now ≤ WORDS) × (WORDS ≤ 16 * max_nodes) }
        ensures { result.tables ≡ tables.entry }
    {
        EndRows {
            tables,
            first: Held {
                rows: [0; WORDS],
                of: None,
            },
            second: Held {
                rows: [0; WORDS],
                of: None,
            },
        }
    }
}
