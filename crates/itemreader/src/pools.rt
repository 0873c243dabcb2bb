// The names of the lines that were read, which go together wherever a name is looked up.
ghost use Rattle.std.specs.Prelude.{◌≤◌, length};
ghost use Rattle.tables.specs.Layout.{name_count};
ghost use Rattle.itemreader.specs.Held.{Limits, Indexed};

use model::Counts;

// The table of names, how many each pool has, and the index with their chains.
#[derive(Clone, Copy)]
pub struct Pools<'a> {
    pub names: &'a [u8],
    pub index: &'a [u16],
    pub counts: Counts,
    ghost long: { name_count ≤ length names.now },
    ghost limits: { Limits counts },
    ghost indexed: { Indexed names.now counts index.now },
}
