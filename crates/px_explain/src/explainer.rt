//! Why a filter holds of a document, or why it does not: the canonical proof.

ghost use Rattle.std.specs.Prelude.{◌≡◌, IfOk, IsErrOf};
ghost use Rattle.px_tree.specs.Trees as trees;
ghost use Rattle.px_xpath.specs.Whole as whole;
ghost use Rattle.px_xpath.specs.Meaning as meaning;
ghost use Rattle.px_explain.specs.Table.{Justifies};
ghost use Rattle.px_explain.specs.Canonical.{canonical};
ghost use Rattle.px_explain.specs.Bounds.{Exceeds};
ghost use Rattle.px_explain.specs.declared.fault.ExplainFault.TheVariants.{TooMany};

use crate::draft::Draft;
use crate::explaining::way_why;
use crate::fault::ExplainFault;
use crate::proof::Proof;
use px_meaning::{End, Place};
use px_tree::Tree;
use px_xpath::Filter;
use std::alloc::Global;

/// The canonical proof: why the filter holds of the document, or why it does not. It takes memory
/// for its nodes alone.
///
/// `TooMany` comes exactly where that proof has more than 100,000 nodes or a number above
/// 4,294,967,295. After each error nothing is left behind.
pub fn explain(alloc: Global, filter: &Filter, tree: &Tree) -> Result<Proof, ExplainFault>
    ensures canonical { IfOk result (λ proof. proof ≡
        canonical (whole.filter filter.now) (trees.tree tree.now)) }
    ensures shows { IfOk result (λ proof. Justifies (whole.filter filter.now) (trees.tree tree.now)
        proof (meaning.holds (whole.filter filter.now) (trees.tree tree.now))) }
    ensures fits { IfOk result (λ _. Exceeds
        (canonical (whole.filter filter.now) (trees.tree tree.now)) → ⊥) }
    ensures many { IsErrOf result TooMany →
        Exceeds (canonical (whole.filter filter.now) (trees.tree tree.now)) }
{
    let mut draft = Draft::new(alloc);
    let steps = filter.path.steps.as_slice();
    match way_why(steps, End::Always, Place::Document(tree), &mut draft) {
        Ok(()) => Ok(draft.finish()),
        Err(fault) => Err(fault),
    }
}
