// Lent tables: whether they are long enough (refusal 8).
ghost use Rattle.std.specs.Prelude.{◌≡◌};
ghost use Rattle.tables.specs.Sizes.{long_enough};

use crate::layout::{CELLS, NAMES, VALUES};

// Refusal 8 is for tables of which this is false.
pub fn enough(names: &[u8], cells: &[u16], values: &[i64]) -> bool
    ensures { result ≡ long_enough names.now cells.now values.now }
{
    (NAMES <= names.len()) & ((CELLS <= cells.len()) & (VALUES <= values.len()))
}
