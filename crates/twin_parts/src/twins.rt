// Locked twins.
ghost use Rattle.std.specs.Prelude.{◌≡◌, true, Decides};
ghost use Rattle.loader.specs.Loaders.{part_of};
ghost use Rattle.twin_parts.specs.Twins.{LockedTwins, AlikeForGood};

use crate::flashes::same_but_words;
use crate::receivers::same_reception;
use commands::Level;
use flash::Flash;
use loader::Loader;

// Whether two parts are locked twins: both at level 1, and equal in all but their user words. From there one list gets equal
// answers from both, for good.
pub fn locked_twins<F: Flash, G: Flash>(a: &Loader<F>, b: &Loader<G>) -> bool
    ensures tells_whether_they_are_locked_twins { Decides result (LockedTwins (part_of F.meaning a.now) (part_of G.meaning b.now)) }
    ensures locked_twins_answer_alike_for_good { result ≡ true → AlikeForGood (part_of F.meaning a.now) (part_of G.meaning b.now) }
{
    a.level() == Level::Locked
        && b.level() == Level::Locked
        && a.identity() == b.identity()
        && same_reception(a.receiver(), b.receiver())
        && a.fault() == b.fault()
        && same_but_words(a.flash(), b.flash())
}
