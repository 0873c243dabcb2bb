// The reader of PATH and END. It stores path entries as they end.
// Functions for the crates above, on positions of a text that these have shown to lie within it. Operations: none.
#![tactic(auto)]

ghost use Rattle.std.specs.Prelude.{◌≡◌, cond, ◌≤◌, ◌<◌, ◌+◌, eqb, leb, length, get_or, drop};
ghost use Rattle.model.specs.Books.{Book};
ghost use Rattle.model.specs.Limits.{max_paths};
ghost use Rattle.grammar.specs.Syntax.{path, end};
ghost use Rattle.grammar.specs.Reading.{Begun, arg_at, space_at, link_at, readers_at};
ghost use Rattle.tables.specs.Layout.{cell_count};
ghost use Rattle.stores.specs.Entries.{put_path};
ghost use Rattle.itemreader.specs.Held.{Held};
ghost use Rattle.pathreader.specs.Paths.{PathRead, EndRead, Grown, closed};

use itemreader::pools::Pools;
use itemreader::words::{self, Family};
use itemreader::{Pool, Read, read_head, read_used};
use model::{Fault, MAX_PATHS};
use tables::codes;
use tables::layout::{PATH_CODES, PATH_FIRSTS, PATH_SECONDS};
use text::{byte, is_word, item_end};

// Path entry e.
fn put_path(cells: &mut [u16], e: usize, code: u16, first: u16, second: u16)
    requires { (e < max_paths) × (cell_count ≤ length cells.old) }
    ensures { cells.new ≡ put_path e code first second cells.old }
{
    cells[PATH_CODES + e] = code;
    cells[PATH_FIRSTS + e] = first;
    cells[PATH_SECONDS + e] = second;
}

// A closing bracket, and the entry of the path that it closes.
fn close_path(
    cells: &mut [u16],
    book: &[u8],
    at: usize,
    e: usize,
    code: u16,
    first: u16,
    second: u16,
) -> Read<usize>
    requires { (e < max_paths) × (cell_count ≤ length cells.old) }
    ensures value { result ≡ closed book.now at e }
    ensures new_cells { cells.new ≡ cond (eqb (get_or book.now at 0) 41) (put_path e code first second cells.old) cells.old }
    ensures cells_unchanged { drop cell_count cells.new ≡ drop cell_count cells.old }
{
    if byte(book, at) != 41 {
        return Err(Fault::Grammar);
    }
    put_path(cells, e, code, first, second);
    Ok((e + 1, at + 1))
}

// A bare link, where n path entries have ended and up are open.
fn read_link(
    cells: &mut [u16],
    pools: Pools,
    book: &[u8],
    at: usize,
    n: usize,
    up: usize,
) -> Read<usize>
    requires { (at ≤ length book.now) × (cell_count ≤ length cells.old) × (n + up ≤ max_paths) }
    ensures path_read { (a : Book) → Held pools.entry.names.now pools.entry.counts a → PathRead (space_at book.now a at (link_at book.now a (leb max_paths (n + up)))) n cells.old cells.new result }
    ensures grown { Grown (n + 1) up (length book.now) result }
    ensures cells_unchanged { drop cell_count cells.new ≡ drop cell_count cells.old }
{
    let (p, next) = read_used(pools, Pool::Links, book, at)?;
    if MAX_PATHS <= n + up {
        return Err(Fault::Limit);
    }
    put_path(cells, n, codes::PATH_LINK, p as u16, 0);
    Ok((n + 1, next))
}

// PATH after a space: its entries are stored from n on, where up entries have begun and not ended, and left brackets may
// still be opened. The number of entries afterwards.
pub fn read_path(
    cells: &mut [u16],
    pools: Pools,
    book: &[u8],
    at: usize,
    left: usize,
    n: usize,
    up: usize,
) -> Read<usize>
    requires { (at ≤ length book.now) × (cell_count ≤ length cells.old) × (n + up ≤ max_paths) }
    ensures path_read { (a : Book) → Held pools.entry.names.now pools.entry.counts a → (b : Begun) → b.paths ≡ n + up → PathRead (arg_at book.now a (readers_at book.now a left) path b at) n cells.old cells.new result }
    ensures grown { Grown (n + 1) up (length book.now) result }
    ensures cells_unchanged { drop cell_count cells.new ≡ drop cell_count cells.old }
{
    if byte(book, at) != 32 {
        return Err(Fault::Grammar);
    }
    let full = MAX_PATHS <= n + up;
    let Some((code, end)) = read_head(Family::Paths, book, at + 1, left, full)? else {
        return read_link(cells, pools, book, at, n, up);
    };
    let (m, next) = read_path(cells, pools, book, end, left - 1, n, up + 1)?;
    let entry = (code + 1) as u16;
    let part = (m - 1) as u16;
    if (code != words::PATH_SEQ) & (code != words::PATH_ALT) {
        return close_path(cells, book, next, m, entry, part, 0);
    }
    let (l, last) = read_path(cells, pools, book, next, left - 1, m, up + 1)?;
    close_path(cells, book, last, l, entry, part, (l - 1) as u16)
}

// END after a space: `id`, which has no entry, or PATH.
pub fn read_end(
    cells: &mut [u16],
    pools: Pools,
    book: &[u8],
    at: usize,
    left: usize,
    n: usize,
) -> Read<usize>
    requires { (at ≤ length book.now) × (cell_count ≤ length cells.old) × (n ≤ max_paths) }
    ensures end_read { (a : Book) → Held pools.entry.names.now pools.entry.counts a → (b : Begun) → b.paths ≡ n → EndRead (arg_at book.now a (readers_at book.now a left) end b at) n cells.old cells.new result }
    ensures grown { Grown n 0 (length book.now) result }
    ensures cells_unchanged { drop cell_count cells.new ≡ drop cell_count cells.old }
{
    if byte(book, at) != 32 {
        return Err(Fault::Grammar);
    }
    let end = item_end(book, at + 1);
    if is_word(book, at + 1, end, b"id") {
        return Ok((n, end));
    }
    read_path(cells, pools, book, at, left, n, 0)
}
