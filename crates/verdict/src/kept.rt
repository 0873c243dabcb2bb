// What is known while a verdict is found.
ghost use Rattle.std.specs.Prelude.{◌≡◌, not, cond, ◌&&◌, ◌+◌, ◌*◌, ◌<◌, ◌≤◌, length, replicate};
ghost use Rattle.nodeset.specs.Words.{has, words_of, with};
ghost use Rattle.model.specs.Shapes.{conforms};
ghost use Rattle.model.specs.Limits.{max_nodes, max_forms};
ghost use Rattle.tables.specs.Layout.{node_count};
ghost use Rattle.tables.specs.Decode.{graph_at, shape_at};
ghost use Rattle.verdict.specs.Memo.{yes_place, no_place, memo_count, MemoRight, MemoRight-prop};

use base::pick;
use model::{MAX_FORMS, NodeNo};
use nodeset::{NodeSet, insert, load, test};
use paths::Indexed;

// How long the memo is: 32 words for each entry.
const MEMO_WORDS: usize = 32 * MAX_FORMS;

// Verdicts over the tables. Of entry e, the nodes that conform stand from word 32 * e on, and those that do not from word
// 32 * e + 16 on.
#[derive(Drop)]
pub(crate) struct Memo<'a> {
    pub tables: Indexed<'a>,
    pub words: [u64; MEMO_WORDS],
    ghost size: { length words ≡ memo_count },
    ghost right: { MemoRight tables.cells.now tables.values.now words } by { MemoRight-prop tables.cells.now tables.values.now words },
}

impl<'a> Memo<'a> {
    // Nothing is known yet.
    pub(crate) fn new(tables: Indexed<'a>) -> Self
        ensures tables { result.tables ≡ tables.entry }
        ensures words { result.words ≡ replicate memo_count 0 }
    {
        Memo {
            tables,
            words: [0; MEMO_WORDS],
        }
    }

    // Node v is known to conform to entry e.
    pub(crate) fn known(&self, e: usize, v: NodeNo) -> bool
        requires { (e < max_forms) × (v.0 < max_nodes) }
        ensures { result ≡ has self.now.words (yes_place e v.0) }
    {
        test(&self.words, 32 * e * 64 + v.0 as usize)
    }

    // Whether node v conforms to entry e is known from now on.
    pub(crate) fn remember(&mut self, e: usize, v: NodeNo, yes: bool)
        requires { let cs = self.old.tables.cells.now in let vs = self.old.tables.values.now in (e < max_forms) × (v.0 < node_count cs) × (yes ≡ conforms (graph_at cs vs) (shape_at cs vs e) v.0) }
        ensures tables { self.new.tables ≡ self.old.tables }
        ensures words { self.new.words ≡ with self.old.words (cond yes (yes_place e v.0) (no_place e v.0)) }
    {
        let x = v.0 as usize;
        let place = pick(yes, 32 * e * 64 + x, (32 * e + 16) * 64 + x);
        insert(&mut self.words, place);
    }

    // The sixteen words from a word of the memo on.
    pub(crate) fn row(&self, at: usize) -> NodeSet
        requires { at ≤ memo_count }
        ensures { result.words ≡ words_of (λ v. has self.now.words (at * 64 + v)) 16 }
    {
        load(&self.words[at..])
    }

    // The nodes of want of which it is not known whether they conform to entry e.
    pub(crate) fn unsettled(&self, e: usize, want: NodeSet) -> NodeSet
        requires { e < max_forms }
        ensures { result.words ≡ words_of (λ v. (has want.words v && not (has self.now.words (yes_place e v))) && not (has self.now.words (no_place e v))) 16 }
    {
        let yes = self.row(32 * e);
        let no = self.row(32 * e + 16);
        let rest = want.difference(yes);
        rest.difference(no)
    }
}
