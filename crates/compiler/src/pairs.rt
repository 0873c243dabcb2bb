// The numbers of the steps that the entries of a book have.
ghost use Rattle.std.specs.Prelude.{◌≡◌, length};
ghost use Rattle.model.specs.Limits.{max_forms};

use model::MAX_FORMS;

// The steps of all entries, by their numbers: the keeping ones and the breaking ones. Two arrays and none of pairs: a processor waits
// for a pair that is read whole after it was written by halves.
#[derive(Drop)]
pub(crate) struct Pairs {
    pub keeps: [u16; MAX_FORMS],
    pub breaks: [u16; MAX_FORMS],
    ghost keeps_size: { length keeps ≡ max_forms },
    ghost breaks_size: { length breaks ≡ max_forms },
}
