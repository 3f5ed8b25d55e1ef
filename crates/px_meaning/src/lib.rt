//! What a filter means at a tree.
//!
//! [`holds`] follows the definition of that meaning: it goes down the tree, one place at a time,
//! for one filter. It keeps nothing of what it has seen, so it takes no memory, and it serves as
//! the yardstick of whatever answers many filters at speed. Its parts serve to say why a filter
//! holds: [`condition_holds`], [`passes`], [`meets`] and [`end_holds`] at a [`Place`].
#![tactic(auto, using(px_xpath::proofs::FilterViews::views, px_tree::proofs::TreeViews::views, crate::proofs::Weights::steps))]

ghost use Rattle.std.specs.Prelude.{◌≡◌};
ghost use Rattle.px_tree.specs.Trees as trees;
ghost use Rattle.px_xpath.specs.Whole as whole;
ghost use Rattle.px_xpath.specs.Meaning as meaning;

mod comparisons;
mod conditions;
mod paths;
mod place;

pub use conditions::condition_holds;
use paths::steps_hold;
pub use paths::{End, end_holds, meets, passes};
pub use place::{Place, place_of};
use px_tree::Tree;
use px_xpath::Filter;

/// Whether a filter holds of a document.
///
/// It takes no memory, and its recursion goes as deep as the document and the brackets of the
/// filter. Each `//` looks at all that is below each place where it begins: with k of them one
/// behind or inside another, a place at depth d may be looked at d^k times, and where an element is
/// compared, all its texts are read each time.
pub fn holds(filter: &Filter, tree: &Tree) -> bool
    ensures { result ≡ meaning.holds (whole.filter filter.now) (trees.tree tree.now) }
{
    steps_hold(
        filter.path.steps.as_slice(),
        End::Always,
        Place::Document(tree),
    )
}
