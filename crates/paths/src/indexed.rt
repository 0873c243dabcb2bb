// Well-formed tables and the index of their facts, which go together wherever a path is followed.
ghost use Rattle.paths.specs.Facts.{Tables};

// The cells and values of the tables, and the index that `index_table` makes of their facts.
#[derive(Clone, Copy)]
pub struct Indexed<'a> {
    pub cells: &'a [u16],
    pub values: &'a [i64],
    pub index: &'a [u16],
    ghost made: { Tables cells.now index.now },
}
