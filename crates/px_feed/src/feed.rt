//! The items of a feed, one after the other.

ghost use Rattle.std.specs.Prelude.{◌≡◌, ◌≤◌, IfOk};

use crate::ending::Taken;
use crate::intake::Intake;
use px_io::Source;
use std::alloc::{AllocError, Global};
use std::marker::Model;

/// The items of a feed, which is read in pieces. No more is held than one document and a piece.
/// Contracts see how far it has come.
#[derive(Drop)]
pub struct Items {
    intake: Intake,
}

impl Model for Items {
    ghost use Rattle.px_feed.specs.Progress.{Progress};
    ghost use Rattle.px_feed.specs.Progressing.{progress};

    ghost Value = { Progress };

    ghost view = { λ items. progress items.intake };
}

impl Items {
    ghost use Rattle.std.specs.Prelude.{◌≡◌, ◌≤◌, ◌⊎◌, [], List, ℕ, Option, Some, None, IfOk};
    ghost use Rattle.px_io.specs.Faults.{Rose};
    ghost use Rattle.px_feed.specs.declared.ending.Ending.{Ending};
    ghost use Rattle.px_feed.specs.declared.ending.Ending.TheVariants as endings;
    ghost use Rattle.px_feed.specs.Endings.{taken_of};
    ghost use Rattle.px_feed.specs.Items as items;
    ghost use Rattle.px_feed.specs.Taking.{HasTaken, HasEnded, AnswersSoFar, IsDrained, TakesBy, held};

    /// Before the first byte. Its only failure is want of memory.
    pub fn new(alloc: Global) -> Result<Items, AllocError>
        ensures { IfOk result (λ items. (left : Option (List ℕ)) → HasTaken items left [] []) }
    {
        Ok(Items {
            intake: Intake::new(alloc)?,
        })
    }

    /// The next item that the bytes read so far hold, or how the feed has ended; nothing where the
    /// source has to be read for it. It reads nothing.
    pub fn ready(&mut self) -> Option<Taken>
        ensures takes { (left : Option (List ℕ)) (bytes : List ℕ) (given : List items.Item) →
            HasTaken self.old left bytes given →
            AnswersSoFar result self.new left bytes given }
        ensures whole { result ≡ None → (left : Option (List ℕ)) (bytes : List ℕ)
            (given : List items.Item) → HasTaken self.old left bytes given →
            items.AreWhole bytes given }
        ensures drained { result ≡ None → IsDrained self.new }
        ensures holds { result ≡ None → held self.new ≡ held self.old }
        ensures stops { (ending : Ending) → result ≡ Some (taken_of ending) →
            HasEnded self.new ending }
        ensures stays { (ending : Ending) → HasEnded self.old ending →
            result ≡ Some (taken_of ending) }
        ensures failed { result ≡ Some Taken.ReadFault → HasEnded self.old endings.ReadFault }
    {
        self.intake.ready()
    }

    /// The next item, for which the source is read on where it is needed. After every answer but
    /// an item that answer is given again, and nothing is read.
    pub fn next<S: Source>(&mut self, source: &mut S) -> Taken
        ensures takes { (bytes : List ℕ) (given : List items.Item) →
            HasTaken self.old (S.left source.old) bytes given →
            TakesBy result self.new (S.left source.old) (S.left source.new) bytes given }
        ensures stops { (ending : Ending) → result ≡ taken_of ending → HasEnded self.new ending }
        ensures stays { (ending : Ending) → HasEnded self.old ending →
            (result ≡ taken_of ending) × (S.left source.new ≡ S.left source.old) }
        ensures never_falls { S.faults source.old ≤ S.faults source.new }
        ensures failed { result ≡ Taken.ReadFault →
            HasEnded self.old endings.ReadFault ⊎
            Rose (S.faults source.old) (S.faults source.new) }
    {
        self.intake.next(source)
    }
}
