// The reader of the FORMs without a FORM within. It stores each form entry as it ends.
// Functions for the crates above, on positions of a text that these have shown to lie within it. Operations: none.
#![tactic(auto)]

ghost use Rattle.std.specs.Prelude.{◌≡◌, List, [], ◌∷◌, true, cond, ℕ, ◌≤◌, ◌<◌, ◌+◌, ◌-◌, eqb, leb, length, get_or, drop, ℤ};
ghost use Rattle.model.specs.Paths.{Path, End};
ghost use Rattle.model.specs.Shapes.{Shape, unique_lang};
ghost use Rattle.model.specs.Books.{Book, links};
ghost use Rattle.model.specs.Limits.{max_forms, max_paths, max_items};
ghost use Rattle.grammar.specs.Syntax.{used, value, path, end, list};
ghost use Rattle.grammar.specs.Reading.{Readers, Begun, true_at, readers_at};
ghost use Rattle.tables.specs.Layout.{cell_count, value_count};
ghost use Rattle.stores.specs.Entries.{put_form};
ghost use Rattle.itemreader.specs.Answers.{pool_of, Below, rest_at};
ghost use Rattle.itemreader.specs.Words.{form_words};
ghost use Rattle.itemreader.specs.Held.{Held};
ghost use Rattle.leafreader.specs.Forms.{begun_of, FormRead, closed_form, FormsWithin, children_of, form_body, put_item, ItemForm, UsedShape, ListShape, ValueShape, EndShape, PathShape, end_number};

use base::pick;
use itemreader::pools::Pools;
use itemreader::{Pool, Read, read_kind, read_list, read_used, read_value, words};
use model::{Fault, MAX_FORMS};
use pathreader::{read_end, read_path};
use tables::codes;
use tables::layout::{
    FORM_CODES, FORM_FIRSTS, FORM_FOURTHS, FORM_SECONDS, FORM_THIRDS, FORM_VALUES, NO_NUMBER,
};
use text::{byte, is_word, item_end};

// How many form entries, path entries and list items have ended.
#[derive(Clone, Copy)]
pub struct Ended {
    pub forms: usize,
    pub paths: usize,
    pub items: usize,
}

// Form entry e.
fn put_form(
    cells: &mut [u16],
    e: usize,
    code: u16,
    first: u16,
    second: u16,
    third: u16,
    fourth: u16,
)
    requires { (e < max_forms) × (cell_count ≤ length cells.old) }
    ensures { cells.new ≡ put_form e code first second third fourth cells.old }
{
    cells[FORM_CODES + e] = code;
    cells[FORM_FIRSTS + e] = first;
    cells[FORM_SECONDS + e] = second;
    cells[FORM_THIRDS + e] = third;
    cells[FORM_FOURTHS + e] = fourth;
}

// A closing bracket, and the entry of the form that it closes, after n.
pub fn close_form(
    cells: &mut [u16],
    book: &[u8],
    at: usize,
    n: Ended,
    code: u16,
    first: u16,
    second: u16,
    third: u16,
    fourth: u16,
) -> Read<Ended>
    requires { (n.forms < max_forms) × (cell_count ≤ length cells.old) }
    ensures value { result ≡ closed_form book.now at n }
    ensures new_cells { cells.new ≡ cond (eqb (get_or book.now at 0) 41) (put_form n.forms code first second third fourth cells.old) cells.old }
    ensures cells_unchanged { drop cell_count cells.new ≡ drop cell_count cells.old }
{
    if byte(book, at) != 41 {
        return Err(Fault::Grammar);
    }
    let forms = n.forms;
    put_form(cells, forms, code, first, second, third, fourth);
    Ok((
        Ended {
            forms: forms + 1,
            ..n
        },
        at + 1,
    ))
}

// A form whose last item was read: its number is the form's only operand, or the second.
fn item_form(
    cells: &mut [u16],
    book: &[u8],
    item: Read<usize>,
    n: Ended,
    up: usize,
    code: u16,
    first: u16,
    lone: bool,
) -> Read<Ended>
    requires { (n.forms + up < max_forms) × (n.paths ≤ max_paths) × (n.items ≤ max_items) × (cell_count ≤ length cells.old) × Below 65536 (length book.now) item }
    ensures item_form { ItemForm book.now item n (put_item lone n.forms code first cells.old) cells.new result }
    ensures forms_within { FormsWithin n.forms up (length book.now) result }
    ensures cells_unchanged { drop cell_count cells.new ≡ drop cell_count cells.old }
{
    let (k, next) = item?;
    let x = k as u16;
    close_form(
        cells,
        book,
        next,
        n,
        code,
        pick(lone, x, first),
        pick(lone, 0, x),
        0,
        0,
    )
}

// is, shape and datatype: a name.
fn used_form(
    cells: &mut [u16],
    pools: Pools,
    pool: Pool,
    book: &[u8],
    at: usize,
    n: Ended,
    up: usize,
    code: u16,
) -> Read<Ended>
    requires { (at ≤ length book.now) × (cell_count ≤ length cells.old) × (n.forms + up < max_forms) × (n.paths ≤ max_paths) × (n.items ≤ max_items) }
    ensures form_read { (a : Book) → Held pools.entry.names.now pools.entry.counts a → (R : Readers) (b : Begun) (f : ℕ → Shape) → UsedShape f code → (vs : List ℤ) → FormRead (rest_at book.now a R true (used (pool_of pool) ∷ []) (λ xs. f xs.0) b at) (begun_of n) cells.old cells.new vs vs result }
    ensures forms_within { FormsWithin n.forms up (length book.now) result }
    ensures cells_unchanged { drop cell_count cells.new ≡ drop cell_count cells.old }
{
    let item = read_used(pools, pool, book, at);
    item_form(cells, book, item, n, up, code, 0, true)
}

// lang and closed: a list of names.
fn list_form(
    cells: &mut [u16],
    pools: Pools,
    pool: Pool,
    book: &[u8],
    at: usize,
    n: Ended,
    up: usize,
    code: u16,
) -> Read<Ended>
    requires { (at ≤ length book.now) × (cell_count ≤ length cells.old) × (n.forms + up < max_forms) × (n.paths ≤ max_paths) × (n.items ≤ max_items) }
    ensures form_read { (a : Book) → Held pools.entry.names.now pools.entry.counts a → (R : Readers) (b : Begun) → b.items ≡ n.items → (f : List ℕ → Shape) → ListShape f code → (vs : List ℤ) → FormRead (rest_at book.now a R true (list (pool_of pool) ∷ []) (λ xs. f xs.0) b at) (begun_of n) cells.old cells.new vs vs result }
    ensures forms_within { FormsWithin n.forms up (length book.now) result }
    ensures cells_unchanged { drop cell_count cells.new ≡ drop cell_count cells.old }
{
    let items = n.items;
    let (m, next) = read_list(cells, pools, pool, book, at, items)?;
    let l = Ended { items: m, ..n };
    close_form(
        cells,
        book,
        next,
        l,
        code,
        items as u16,
        (m - items) as u16,
        0,
        0,
    )
}

// from, above, to and below: a number V.
fn value_form(
    cells: &mut [u16],
    values: &mut [i64],
    book: &[u8],
    at: usize,
    n: Ended,
    up: usize,
    code: u16,
) -> Read<Ended>
    requires { (at ≤ length book.now) × (cell_count ≤ length cells.old) × (value_count ≤ length values.old) × (n.forms + up < max_forms) × (n.paths ≤ max_paths) × (n.items ≤ max_items) }
    ensures form_read { (a : Book) (R : Readers) (b : Begun) (f : ℤ → Shape) → ValueShape f code → FormRead (rest_at book.now a R true (value ∷ []) (λ xs. f xs.0) b at) (begun_of n) cells.old cells.new values.old values.new result }
    ensures forms_within { FormsWithin n.forms up (length book.now) result }
    ensures cells_unchanged { drop cell_count cells.new ≡ drop cell_count cells.old }
    ensures values_unchanged { drop value_count values.new ≡ drop value_count values.old }
{
    let (x, next) = read_value(book, at)?;
    let forms = n.forms;
    values[FORM_VALUES + forms] = x;
    close_form(cells, book, next, n, code, 0, 0, 0, 0)
}

// `id` for an END that has no entry, else the number of its last entry.
fn end_number(before: usize, after: usize) -> u16
    requires { (before ≤ after) × (after ≤ max_paths) }
    ensures { result ≡ end_number before after }
{
    if after == before {
        NO_NUMBER
    } else {
        (after - 1) as u16
    }
}

// equal and apart: an END and a link.
fn end_form(
    cells: &mut [u16],
    pools: Pools,
    book: &[u8],
    at: usize,
    left: usize,
    n: Ended,
    up: usize,
    code: u16,
) -> Read<Ended>
    requires { (at ≤ length book.now) × (cell_count ≤ length cells.old) × (n.forms + up < max_forms) × (n.paths ≤ max_paths) × (n.items ≤ max_items) }
    ensures form_read { (a : Book) → Held pools.entry.names.now pools.entry.counts a → (b : Begun) → b.paths ≡ n.paths → (f : End → ℕ → Shape) → EndShape f code → (vs : List ℤ) → FormRead (rest_at book.now a (readers_at book.now a left) true (end ∷ used links ∷ []) (λ xs. f xs.0 xs.1.0) b at) (begun_of n) cells.old cells.new vs vs result }
    ensures forms_within { FormsWithin n.forms up (length book.now) result }
    ensures cells_unchanged { drop cell_count cells.new ≡ drop cell_count cells.old }
{
    let paths = n.paths;
    let (m, next) = read_end(cells, pools, book, at, left, paths)?;
    let item = read_used(pools, Pool::Links, book, next);
    let l = Ended { paths: m, ..n };
    item_form(cells, book, item, l, up, code, end_number(paths, m), false)
}

// less and lesseq: a PATH and a link.
fn less_form(
    cells: &mut [u16],
    pools: Pools,
    book: &[u8],
    at: usize,
    left: usize,
    n: Ended,
    up: usize,
    code: u16,
) -> Read<Ended>
    requires { (at ≤ length book.now) × (cell_count ≤ length cells.old) × (n.forms + up < max_forms) × (n.paths ≤ max_paths) × (n.items ≤ max_items) }
    ensures form_read { (a : Book) → Held pools.entry.names.now pools.entry.counts a → (b : Begun) → b.paths ≡ n.paths → (f : Path → ℕ → Shape) → PathShape f code → (vs : List ℤ) → FormRead (rest_at book.now a (readers_at book.now a left) true (path ∷ used links ∷ []) (λ xs. f xs.0 xs.1.0) b at) (begun_of n) cells.old cells.new vs vs result }
    ensures forms_within { FormsWithin n.forms up (length book.now) result }
    ensures cells_unchanged { drop cell_count cells.new ≡ drop cell_count cells.old }
{
    let paths = n.paths;
    let (m, next) = read_path(cells, pools, book, at, left, paths, 0)?;
    let item = read_used(pools, Pool::Links, book, next);
    let l = Ended { paths: m, ..n };
    item_form(cells, book, item, l, up, code, (m - 1) as u16, false)
}

// onelang: a PATH.
fn onelang_form(
    cells: &mut [u16],
    pools: Pools,
    book: &[u8],
    at: usize,
    left: usize,
    n: Ended,
    up: usize,
) -> Read<Ended>
    requires { (at ≤ length book.now) × (cell_count ≤ length cells.old) × (n.forms + up < max_forms) × (n.paths ≤ max_paths) × (n.items ≤ max_items) }
    ensures form_read { (a : Book) → Held pools.entry.names.now pools.entry.counts a → (b : Begun) → b.paths ≡ n.paths → (vs : List ℤ) → FormRead (rest_at book.now a (readers_at book.now a left) true (path ∷ []) (λ xs. unique_lang xs.0) b at) (begun_of n) cells.old cells.new vs vs result }
    ensures forms_within { FormsWithin n.forms up (length book.now) result }
    ensures cells_unchanged { drop cell_count cells.new ≡ drop cell_count cells.old }
{
    let paths = n.paths;
    let (m, next) = read_path(cells, pools, book, at, left, paths, 0)?;
    let l = Ended { paths: m, ..n };
    close_form(
        cells,
        book,
        next,
        l,
        codes::FORM_ONELANG,
        (m - 1) as u16,
        0,
        0,
        0,
    )
}

// `true` after a space.
pub fn read_true(cells: &mut [u16], book: &[u8], at: usize, n: Ended, up: usize) -> Read<Ended>
    requires { (at ≤ length book.now) × (cell_count ≤ length cells.old) × (n.forms + up ≤ max_forms) × (n.paths ≤ max_paths) × (n.items ≤ max_items) }
    ensures form_read { (a : Book) (vs : List ℤ) → FormRead (true_at book.now a (leb max_forms (n.forms + up)) at) (begun_of n) cells.old cells.new vs vs result }
    ensures forms_within { FormsWithin n.forms up (length book.now) result }
    ensures cells_unchanged { drop cell_count cells.new ≡ drop cell_count cells.old }
{
    let end = item_end(book, at);
    if !is_word(book, at, end, b"true") {
        return Err(Fault::Grammar);
    }
    let forms = n.forms;
    if MAX_FORMS <= forms + up {
        return Err(Fault::Limit);
    }
    put_form(cells, forms, codes::FORM_TRUE, 0, 0, 0, 0);
    Ok((
        Ended {
            forms: forms + 1,
            ..n
        },
        end,
    ))
}

// What follows the word of a form without a FORM within, by the word's number.
pub fn read_leaf(
    cells: &mut [u16],
    values: &mut [i64],
    pools: Pools,
    book: &[u8],
    code: usize,
    at: usize,
    left: usize,
    n: Ended,
    up: usize,
) -> Read<Ended>
    requires { (at ≤ length book.now) × (cell_count ≤ length cells.old) × (value_count ≤ length values.old) × (n.forms + up < max_forms) × (n.paths ≤ max_paths) × (n.items ≤ max_items) × (code < form_words) × (children_of code ≡ 0) }
    ensures form_read { (a : Book) → Held pools.entry.names.now pools.entry.counts a → (b : Begun) → b.paths ≡ n.paths → b.items ≡ n.items → FormRead (form_body book.now a left code b at) (begun_of n) cells.old cells.new values.old values.new result }
    ensures forms_within { FormsWithin n.forms up (length book.now) result }
    ensures cells_unchanged { drop cell_count cells.new ≡ drop cell_count cells.old }
    ensures values_unchanged { drop value_count values.new ≡ drop value_count values.old }
{
    // the code of an entry is one more than the number of its word
    let k = (code + 1) as u16;
    match code {
        words::IS => used_form(cells, pools, Pool::Nodes, book, at, n, up, k),
        words::SHAPE => used_form(cells, pools, Pool::Shapes, book, at, n, up, k),
        words::KIND => item_form(cells, book, read_kind(book, at), n, up, k, 0, true),
        words::DATATYPE => used_form(cells, pools, Pool::Types, book, at, n, up, k),
        words::LANG => list_form(cells, pools, Pool::Langs, book, at, n, up, k),
        words::FROM => value_form(cells, values, book, at, n, up, k),
        words::ABOVE => value_form(cells, values, book, at, n, up, k),
        words::TO => value_form(cells, values, book, at, n, up, k),
        words::BELOW => value_form(cells, values, book, at, n, up, k),
        words::EQUAL => end_form(cells, pools, book, at, left, n, up, k),
        words::APART => end_form(cells, pools, book, at, left, n, up, k),
        words::CLOSED => list_form(cells, pools, Pool::Links, book, at, n, up, k),
        words::LESS => less_form(cells, pools, book, at, left, n, up, k),
        words::LESSEQ => less_form(cells, pools, book, at, left, n, up, k),
        // onelang
        _ => onelang_form(cells, pools, book, at, left, n, up),
    }
}
