// The reader of a line: a shape line, and any line by its word.
// Functions for the crate above, on tables that hold the lines above. Operations: none.
#![tactic(auto)]

ghost use Rattle.std.specs.Prelude.{◌≡◌, List, true, ℕ, ◌≤◌, ◌<◌, ◌+◌, ◌-◌, ℤ, length, get_or};
ghost use Rattle.std.proofs.Math.Seq.{slice};
ghost use Rattle.model.specs.Shapes.{Shape};
ghost use Rattle.model.specs.Books.{Book, shape};
ghost use Rattle.model.specs.Limits.{max_shapes, max_forms, max_name};
ghost use Rattle.grammar.specs.Syntax.{link_l, shape_l, line_family};
ghost use Rattle.grammar.specs.Reading.{line_at};
ghost use Rattle.tables.specs.Layout.{cell_count, value_count, name_count};
ghost use Rattle.itemreader.specs.Words.{line_words};
ghost use Rattle.itemreader.specs.Held.{Limits, Held, Kinds, Indexed};
ghost use Rattle.linereader.specs.Storing.{line_end, line_body, Done, CountsFit};
ghost use Rattle.bodyreader.specs.Storing.{FormHeld};

use formreader::read_form;
use itemreader::pools::Pools;
use itemreader::words::{self, Family};
use itemreader::{Pool, Read, read_head, read_new};
use leafreader::Ended;
use linereader::{
    MAX_WITHIN, fact_line, line_end, name_line, number_line, put_new, resource_line, rule_line,
    text_line, words_line,
};
use model::{Counts, Fault};
use tables::codes;
use tables::layout::ROOTS;

// The end of a shape line whose name ends at end and whose form ends at last: its closing bracket and its LF, and then its
// name and its root are stored.
fn shape_end(
    names: &mut [u8],
    cells: &mut [u16],
    counts: Counts,
    book: &[u8],
    at: usize,
    end: usize,
    n: Ended,
    last: usize,
) -> Read<Counts>
    requires { (at + 1 ≤ end) × (end ≤ length book.now) × (end - (at + 1) ≤ max_name) × (last ≤ length book.now) × (counts.shapes < max_shapes) × (0 < n.forms) × (n.forms ≤ max_forms) × (name_count ≤ length names.old) × (cell_count ≤ length cells.old) × Limits counts }
    ensures { (a : Book) (φ : Shape) (cs : List ℕ) (vs vs' : List ℤ) → Held names.old counts a → FormHeld a φ n cs cells.old vs vs' → Done a counts (line_end book.now a true (shape (slice (at + 1) end book.now) φ) last) result names.old names.new cs cells.new vs vs' }
{
    let forms = n.forms;
    let shapes = counts.shapes;
    let more = Counts {
        shapes: shapes + 1,
        forms,
        paths: n.paths,
        items: n.items,
        ..counts
    };
    let done = line_end(book, last, true, more)?;
    cells[ROOTS + shapes] = (forms - 1) as u16;
    put_new(names, counts, Pool::Shapes, book, at, end);
    Ok(done)
}

// `(shape N FORM)`.
fn shape_line(
    names: &mut [u8],
    cells: &mut [u16],
    values: &mut [i64],
    index: &[u16],
    counts: Counts,
    book: &[u8],
    at: usize,
) -> Read<Counts>
    requires { (at ≤ length book.now) × (name_count ≤ length names.old) × (cell_count ≤ length cells.old) × (value_count ≤ length values.old) × Limits counts × CountsFit counts × ((a : Book) × Held names.old counts a) × Indexed names.old counts index.now }
    ensures { (a : Book) → Held names.old counts a → Done a counts (line_body book.now a shape_l at) result names.old names.new cells.old cells.new values.old values.new }
{
    let pools = Pools {
        names: &*names,
        index,
        counts,
    };
    let (_, end) = read_new(pools, Pool::Shapes, book, at)?;
    let n = Ended {
        forms: counts.forms,
        paths: counts.paths,
        items: counts.items,
    };
    let (m, last) = read_form(cells, values, pools, book, end, MAX_WITHIN, n, 0)?;
    shape_end(names, cells, counts, book, at, end, m, last)
}

// What follows the word number k of a line.
fn read_body(
    names: &mut [u8],
    cells: &mut [u16],
    values: &mut [i64],
    index: &[u16],
    counts: Counts,
    k: usize,
    book: &[u8],
    at: usize,
) -> Read<Counts>
    requires { (at ≤ length book.now) × (k < line_words) × (name_count ≤ length names.old) × (cell_count ≤ length cells.old) × (value_count ≤ length values.old) × Limits counts × CountsFit counts × ((a : Book) × Held names.old counts a) × Indexed names.old counts index.now }
    ensures { (a : Book) → Held names.old counts a → Kinds cells.old a → Done a counts (line_body book.now a (get_or line_family.codes k link_l) at) result names.old names.new cells.old cells.new values.old values.new }
{
    match k {
        words::LINE_LINK => name_line(names, index, counts, Pool::Links, book, at),
        words::LINE_TYPE => name_line(names, index, counts, Pool::Types, book, at),
        words::LINE_LANG => name_line(names, index, counts, Pool::Langs, book, at),
        words::LINE_THING => resource_line(
            names,
            cells,
            values,
            index,
            counts,
            codes::NODE_THING,
            book,
            at,
        ),
        words::LINE_BLANK => resource_line(
            names,
            cells,
            values,
            index,
            counts,
            codes::NODE_BLANK,
            book,
            at,
        ),
        words::LINE_NUMBER => number_line(names, cells, values, index, counts, book, at),
        words::LINE_TEXT => text_line(names, cells, values, index, counts, book, at),
        words::LINE_WORDS => words_line(names, cells, values, index, counts, book, at),
        words::LINE_FACT => fact_line(
            cells,
            Pools {
                names: &*names,
                index,
                counts,
            },
            book,
            at,
        ),
        words::LINE_SHAPE => shape_line(names, cells, values, index, counts, book, at),
        // rule
        _ => rule_line(
            cells,
            Pools {
                names: &*names,
                index,
                counts,
            },
            book,
            at,
        ),
    }
}

// The line at a position, after the lines that the tables hold.
pub fn read_line(
    names: &mut [u8],
    cells: &mut [u16],
    values: &mut [i64],
    index: &[u16],
    counts: Counts,
    book: &[u8],
    at: usize,
) -> Read<Counts>
    requires { (at ≤ length book.now) × (name_count ≤ length names.old) × (cell_count ≤ length cells.old) × (value_count ≤ length values.old) × Limits counts × CountsFit counts × ((a : Book) × Held names.old counts a) × Indexed names.old counts index.now }
    ensures { (a : Book) → Held names.old counts a → Kinds cells.old a → Done a counts (line_at book.now a at) result names.old names.new cells.old cells.new values.old values.new }
{
    let Some((k, end)) = read_head(Family::Lines, book, at, 1, false)? else {
        return Err(Fault::Grammar);
    };
    read_body(names, cells, values, index, counts, k, book, end)
}
