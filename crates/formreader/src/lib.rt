// The reader of FORM, which calls itself with the remaining depth falling. It stores each form entry as it ends.
// Functions for the crates above, on positions of a text that these have shown to lie within it. Operations: none.
#![tactic(auto)]

ghost use Rattle.std.specs.Prelude.{◌≡◌, List, [], ◌∷◌, true, cond, ◌≤◌, ◌<◌, ◌+◌, ◌-◌, eqb, ℤ, length, get_or, drop};
ghost use Rattle.model.specs.Books.{Book};
ghost use Rattle.model.specs.Limits.{max_forms, max_paths, max_items};
ghost use Rattle.grammar.specs.Syntax.{path, form};
ghost use Rattle.grammar.specs.Reading.{Begun, form_begun, arg_at, readers_at};
ghost use Rattle.tables.specs.Layout.{cell_count, value_count};
ghost use Rattle.itemreader.specs.Answers.{rest_at};
ghost use Rattle.itemreader.specs.Words.{form_words};
ghost use Rattle.itemreader.specs.Held.{Held};
ghost use Rattle.leafreader.specs.Forms.{begun_of, FormRead, closed_form, FormsWithin, form_body};
ghost use Rattle.formreader.specs.Frames.{Quantifier, quantify, code_of, low_of, high_of, OpenRead, Opened, put_child};

use base::pick;
use itemreader::pools::Pools;
use itemreader::words::{self, Family};
use itemreader::{Read, read_head, read_high, read_low};
use leafreader::{Ended, close_form, read_leaf, read_true};
use model::{Fault, MAX_FORMS};
use pathreader::read_path;
use tables::codes;
use text::byte;

// What stands before the FORMs within a bracket: the code of the form's entry, LO, HI and the last path entry, zero where
// there is none; how many path entries have ended with it, and the position after it.
#[derive(Clone, Copy)]
pub struct Front {
    pub code: u16,
    pub low: u16,
    pub high: u16,
    pub path: u16,
    pub paths: usize,
    pub next: usize,
}

// What has ended with a form that was read whole, and the position after it; or what stands before the FORMs within it.
#[derive(Clone, Copy)]
pub enum Opening {
    Whole(Ended, usize),
    Part(Front),
}

// The PATH of all, and of count after LO and HI.
fn open_path(
    cells: &mut [u16],
    pools: Pools,
    book: &[u8],
    at: usize,
    left: usize,
    n: Ended,
    up: usize,
    code: u16,
    low: u16,
    high: u16,
) -> Result<Opening, Fault>
    requires { (at ≤ length book.now) × (cell_count ≤ length cells.old) × (0 < left) × (n.forms + up < max_forms) × (n.paths ≤ max_paths) }
    ensures open_read { (a : Book) → Held pools.entry.names.now pools.entry.counts a → (b : Begun) → b.paths ≡ n.paths → (q : Quantifier) → code ≡ code_of q → low ≡ low_of q → high ≡ high_of q → (vs : List ℤ) → OpenRead book.now a (readers_at book.now a (left - 1)) b (rest_at book.now a (readers_at book.now a (left - 1)) true (path ∷ form ∷ []) (λ xs. quantify q xs.0 xs.1.0) b at) (begun_of n) cells.old cells.new vs vs result }
    ensures opened { Opened left up (length book.now) n result }
    ensures cells_unchanged { drop cell_count cells.new ≡ drop cell_count cells.old }
{
    let paths = n.paths;
    let (m, next) = read_path(cells, pools, book, at, left - 1, paths, 0)?;
    Ok(Opening::Part(Front {
        code,
        low,
        high,
        path: (m - 1) as u16,
        paths: m,
        next,
    }))
}

// LO, HI and the PATH of count.
fn open_count(
    cells: &mut [u16],
    pools: Pools,
    book: &[u8],
    at: usize,
    left: usize,
    n: Ended,
    up: usize,
) -> Result<Opening, Fault>
    requires { (at ≤ length book.now) × (cell_count ≤ length cells.old) × (0 < left) × (n.forms + up < max_forms) × (n.paths ≤ max_paths) }
    ensures open_read { (a : Book) → Held pools.entry.names.now pools.entry.counts a → (b : Begun) → b.paths ≡ n.paths → (vs : List ℤ) → OpenRead book.now a (readers_at book.now a (left - 1)) b (form_body book.now a (left - 1) 12 b at) (begun_of n) cells.old cells.new vs vs result }
    ensures opened { Opened left up (length book.now) n result }
    ensures cells_unchanged { drop cell_count cells.new ≡ drop cell_count cells.old }
{
    let (low, mid) = read_low(book, at)?;
    let (high, next) = read_high(book, mid)?;
    open_path(
        cells,
        pools,
        book,
        next,
        left,
        n,
        up,
        codes::FORM_COUNT,
        low as u16,
        high as u16,
    )
}

// What follows the word of a number: a form without a FORM within, or what stands before the first.
fn open_word(
    cells: &mut [u16],
    values: &mut [i64],
    pools: Pools,
    book: &[u8],
    code: usize,
    at: usize,
    left: usize,
    n: Ended,
    up: usize,
) -> Result<Opening, Fault>
    requires { (at ≤ length book.now) × (cell_count ≤ length cells.old) × (value_count ≤ length values.old) × (0 < left) × (n.forms + up < max_forms) × (n.paths ≤ max_paths) × (n.items ≤ max_items) × (code < form_words) }
    ensures open_read { (a : Book) → Held pools.entry.names.now pools.entry.counts a → (b : Begun) → b.paths ≡ n.paths → b.items ≡ n.items → OpenRead book.now a (readers_at book.now a (left - 1)) b (form_body book.now a (left - 1) code b at) (begun_of n) cells.old cells.new values.old values.new result }
    ensures opened { Opened left up (length book.now) n result }
    ensures cells_unchanged { drop cell_count cells.new ≡ drop cell_count cells.old }
    ensures values_unchanged { drop value_count values.new ≡ drop value_count values.old }
{
    match code {
        words::AND..=words::NOT => Ok(Opening::Part(Front {
            code: (code + 1) as u16,
            low: 0,
            high: 0,
            path: 0,
            paths: n.paths,
            next: at,
        })),
        words::COUNT => open_count(cells, pools, book, at, left, n, up),
        words::ALL => open_path(cells, pools, book, at, left, n, up, codes::FORM_ALL, 0, 0),
        // the forms without a form inside
        _ => {
            let (m, next) = read_leaf(cells, values, pools, book, code, at, left - 1, n, up)?;
            Ok(Opening::Whole(m, next))
        }
    }
}

// FORM after a space, up to the first FORM within.
fn open_form(
    cells: &mut [u16],
    values: &mut [i64],
    pools: Pools,
    book: &[u8],
    at: usize,
    left: usize,
    n: Ended,
    up: usize,
) -> Result<Opening, Fault>
    requires { (at ≤ length book.now) × (cell_count ≤ length cells.old) × (value_count ≤ length values.old) × (n.forms + up ≤ max_forms) × (n.paths ≤ max_paths) × (n.items ≤ max_items) }
    ensures open_read { (a : Book) → Held pools.entry.names.now pools.entry.counts a → (b : Begun) → b.forms ≡ n.forms + up → b.paths ≡ n.paths → b.items ≡ n.items → OpenRead book.now a (readers_at book.now a (left - 1)) (form_begun b) (arg_at book.now a (readers_at book.now a left) form b at) (begun_of n) cells.old cells.new values.old values.new result }
    ensures opened { Opened left up (length book.now) n result }
    ensures cells_unchanged { drop cell_count cells.new ≡ drop cell_count cells.old }
    ensures values_unchanged { drop value_count values.new ≡ drop value_count values.old }
{
    if byte(book, at) != 32 {
        return Err(Fault::Grammar);
    }
    let forms = n.forms;
    let full = MAX_FORMS <= forms + up;
    let Some((code, end)) = read_head(Family::Forms, book, at + 1, left, full)? else {
        let (m, next) = read_true(cells, book, at + 1, n, up)?;
        return Ok(Opening::Whole(m, next));
    };
    open_word(cells, values, pools, book, code, end, left, n, up)
}

// The closing bracket of a form with one FORM within: not, count or all.
fn close_child(cells: &mut [u16], book: &[u8], at: usize, n: Ended, front: Front) -> Read<Ended>
    requires { (0 < n.forms) × (n.forms < max_forms) × (cell_count ≤ length cells.old) }
    ensures value { result ≡ closed_form book.now at n }
    ensures new_cells { cells.new ≡ cond (eqb (get_or book.now at 0) 41) (put_child front n.forms cells.old) cells.old }
    ensures cells_unchanged { drop cell_count cells.new ≡ drop cell_count cells.old }
{
    let child = (n.forms - 1) as u16;
    let lone = front.code == codes::FORM_NOT;
    close_form(
        cells,
        book,
        at,
        n,
        front.code,
        pick(lone, child, front.path),
        pick(lone, 0, child),
        front.low,
        front.high,
    )
}

// FORM after a space: its entries are stored after n, where up form entries have begun and not ended, and left brackets may
// still be opened.
pub fn read_form(
    cells: &mut [u16],
    values: &mut [i64],
    pools: Pools,
    book: &[u8],
    at: usize,
    left: usize,
    n: Ended,
    up: usize,
) -> Read<Ended>
    requires { (at ≤ length book.now) × (cell_count ≤ length cells.old) × (value_count ≤ length values.old) × (n.forms + up ≤ max_forms) × (n.paths ≤ max_paths) × (n.items ≤ max_items) }
    ensures form_read { (a : Book) → Held pools.entry.names.now pools.entry.counts a → (b : Begun) → b.forms ≡ n.forms + up → b.paths ≡ n.paths → b.items ≡ n.items → FormRead (arg_at book.now a (readers_at book.now a left) form b at) (begun_of n) cells.old cells.new values.old values.new result }
    ensures forms_within { FormsWithin n.forms up (length book.now) result }
    ensures cells_unchanged { drop cell_count cells.new ≡ drop cell_count cells.old }
    ensures values_unchanged { drop value_count values.new ≡ drop value_count values.old }
{
    match open_form(cells, values, pools, book, at, left, n, up)? {
        Opening::Whole(m, next) => Ok((m, next)),
        Opening::Part(p) => {
            let m = Ended {
                paths: p.paths,
                ..n
            };
            let d = left - 1;
            let u = up + 1;
            let (l, next) = read_form(cells, values, pools, book, p.next, d, m, u)?;
            if codes::FORM_OR < p.code {
                return close_child(cells, book, next, l, p);
            }
            let (k, last) = read_form(cells, values, pools, book, next, d, l, u)?;
            close_form(
                cells,
                book,
                last,
                k,
                p.code,
                (l.forms - 1) as u16,
                (k.forms - 1) as u16,
                0,
                0,
            )
        }
    }
}
