//! Laws of batches.
ghost use Rattle.std.specs.Prelude.{List};
ghost use Rattle.px_reader.specs.declared.doc.Doc.{Doc};
ghost use Rattle.px_rule.specs.declared.shape.Shape.{Shape};
ghost use Rattle.px_hub.specs.declared.reply.Reply.{Reply};
ghost use Rattle.px_hub.specs.Passes.{PassView};
ghost use Rattle.px_pool.specs.Batches.{Batched};
ghost use Rattle.px_pool.specs.Counting.{RepliesOf, AreDifferent, AddUp};

/// In a batch the reply to each document is that of the pass that it names, at the version which
/// that pass had before the batch. So where all passes have one version, all replies have it.
pub fn each_reply_is_of_the_pass_that_it_names()
    ensures { (z : Shape) (docs : List Doc) (vs ws : List PassView) (replies : List Reply) →
        Batched z docs vs replies ws → RepliesOf docs vs replies }
{}

/// In a batch over passes with different numbers each pass touched at least as many places as the
/// replies that name it say of steps found and computed, and entered its bank once for each of them
/// that is settled, full or gone.
pub fn the_counts_of_a_batch_add_up()
    ensures { (z : Shape) (docs : List Doc) (vs ws : List PassView) (replies : List Reply) →
        Batched z docs vs replies ws → AreDifferent vs → AddUp vs ws replies }
{}
