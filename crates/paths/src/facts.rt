// Facts and the path entries that are followed over them.
ghost use Rattle.std.specs.Prelude.{◌≡◌, true};
ghost use Rattle.tables.specs.WellFormed.{well_formed};
ghost use Rattle.paths.specs.Facts.{FactsOk};

// Facts between n nodes in three columns, the subjects, the predicates and the objects of len facts; the index of their chains by
// link; and the tables whose path entries are followed over them.
#[derive(Clone, Copy)]
pub struct Facts<'a> {
    pub cells: &'a [u16],
    pub s: &'a [u16],
    pub p: &'a [u16],
    pub o: &'a [u16],
    pub index: &'a [u16],
    pub len: usize,
    pub n: usize,
    ghost formed: { well_formed cells.now ≡ true },
    ghost made: { FactsOk s.now p.now o.now index.now len n },
}
