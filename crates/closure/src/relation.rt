// Rows that are read.
ghost use Rattle.std.specs.Prelude.{◌*◌, ◌≤◌, length};
ghost use Rattle.model.specs.Limits.{max_nodes};
ghost use Rattle.closure.specs.Rows.{Within};

// The rows of a relation between n nodes: one for each, and nothing stands past them.
#[derive(Clone, Copy)]
pub struct Relation<'a> {
    pub rows: &'a [u64],
    pub n: usize,
    ghost few: { n ≤ max_nodes },
    ghost room: { 16 * n ≤ length rows.now },
    ghost within: { Within n rows.now },
}
