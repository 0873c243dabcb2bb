// What the reader stores for a book, as stores in order (specs/), and that these are the tables of the book (proofs/).
// Operations: none; a crate has at least one function.
#![tactic(auto)]

ghost use Rattle.std.specs.Prelude.{◌≡◌};

pub fn position(n: usize) -> usize
    ensures { result ≡ n }
{
    n
}
