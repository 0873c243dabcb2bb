// The lent tables of a read book: where everything stands (layout), by which codes (codes), typed reads (reads), and whether they
// are long enough (lent). The definitions say what tables mean (specs/Decode.antt) and when they are well formed
// (specs/WellFormed.antt); the crate tablecheck decides the latter.
// Operations: none. The crates above call these functions; each takes any content of any length.
#![tactic(auto)]

pub mod codes;
pub mod layout;
pub mod lent;
pub mod reads;
