//! Into how many fingers a module is cut.

ghost use Rattle.std.specs.Prelude.{◌≡◌, ◌≤◌};
ghost use Rattle.folding.specs.Folds.{finger_count};

use net::Width;

/// How many fingers a width becomes under that limit.
#[tactic(auto, using(crate::specs::Lawfuls::count_most))]
pub(crate) fn finger_count(limit: u16, width: Width) -> u16
    ensures count { result ≡ finger_count limit width.steps }
    ensures least { 1 ≤ result }
    ensures most { result ≤ width.steps }
{
    if limit == 0 {
        1
    } else {
        width.steps().div_ceil(limit)
    }
}
