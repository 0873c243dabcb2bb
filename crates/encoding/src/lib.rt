// What a book puts into the three tables (specs/), and that reading the tables gives back what the book says (proofs/).
// Operations: none; a crate has at least one function.
#![tactic(auto)]

ghost use Rattle.std.specs.Prelude.{◌≡◌};

pub fn place(n: usize) -> usize
    ensures { result ≡ n }
{
    n
}
