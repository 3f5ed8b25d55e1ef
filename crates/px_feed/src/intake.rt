//! The items of a feed that is read in pieces, one after the other.

ghost use Rattle.std.specs.Prelude.{◌≡◌, ◌≤◌, IfOk, length};
ghost use Rattle.px_io.specs.Faults.{Rose};
ghost use Rattle.px_io.specs.Flows.{GivesNext};
ghost use Rattle.px_feed.specs.Endings.{taken_of};

use crate::ending::{Ending, Taken};
use crate::joiner::{Brought, Joiner};
use px_io::{ReadAnswer, Source};
use std::alloc::{AllocError, Global};

/// How many bytes are read at once.
const PIECE: usize = 65_536;

/// Every read gives a byte at least, and one piece beyond the most bytes of a feed shows that they
/// are too many, so this many reads find the next item, the end or a fault.
const MOST_READS: u64 = 1_099_511_693_313;

/// Takes in a feed piece by piece. No more is held than one document and a piece.
#[derive(Drop)]
pub struct Intake {
    joiner: Joiner,
    /// what was read last
    piece: Vec<u8>,
    /// where the bytes of the piece begin and end that are not taken yet
    at: usize,
    end: usize,
    ending: Option<Ending>,
    ghost ordered: { at ≤ end },
    ghost filled: { end ≤ length piece.items },
    ghost sized: { length piece.items ≡ 65_536 },
}

impl Intake {
    ghost use Rattle.std.specs.Prelude.{◌≡◌, ◌≤◌, ◌<◌, ◌+◌, ◌⊎◌, [], List, ℕ, Option, Some, None, IfOk, length};
    ghost use Rattle.px_io.specs.Faults.{Rose};
    ghost use Rattle.px_feed.specs.Items as items;
    ghost use Rattle.px_feed.specs.Taking.{HasTaken, HasEnded, AnswersSoFar, IsDrained, TakesBy, Refills, FinishesBy, held};
    ghost use Rattle.px_feed.specs.Joining.{total};
    ghost use Rattle.px_feed.specs.Progressing.{progress};

    /// Before the first byte. Its only failure is want of memory.
    pub fn new(alloc: Global) -> Result<Intake, AllocError>
        ensures { IfOk result (λ intake. (left : Option (List ℕ)) →
            HasTaken (progress intake) left [] []) }
    {
        Ok(Intake {
            joiner: Joiner::new(alloc),
            piece: zeros(alloc, PIECE)?,
            at: 0,
            end: 0,
            ending: None,
        })
    }

    /// The next item that the bytes read so far hold, or how the feed has ended; nothing where the
    /// source has to be read for it. It reads nothing.
    pub fn ready(&mut self) -> Option<Taken>
        ensures takes { (left : Option (List ℕ)) (bytes : List ℕ) (given : List items.Item) →
            HasTaken (progress self.old) left bytes given →
            AnswersSoFar result (progress self.new) left bytes given }
        ensures whole { result ≡ None → (left : Option (List ℕ)) (bytes : List ℕ)
            (given : List items.Item) → HasTaken (progress self.old) left bytes given →
            items.AreWhole bytes given }
        ensures drained { result ≡ None → IsDrained (progress self.new) }
        ensures holds { result ≡ None → held (progress self.new) ≡ held (progress self.old) }
        ensures stops { (ending : Ending) → result ≡ Some (taken_of ending) →
            HasEnded (progress self.new) ending }
        ensures stays { (ending : Ending) → HasEnded (progress self.old) ending →
            result ≡ Some (taken_of ending) }
        ensures failed { result ≡ Some Taken.ReadFault →
            HasEnded (progress self.old) Ending.ReadFault }
    {
        if let Some(ending) = self.ending {
            return Some(ending.taken());
        }
        match self.joiner.take(&self.piece.as_slice()[self.at..self.end]) {
            Brought::Item { used, item } => {
                self.at += used;
                Some(Taken::Item(item))
            }
            Brought::Nothing => {
                self.at = self.end;
                None
            }
            Brought::Failed(failure) => Some(self.stop(Ending::of(failure))),
        }
    }

    /// The next item, for which the source is read on where it is needed. After every answer but
    /// an item that answer is given again, and nothing is read.
    pub fn next<S: Source>(&mut self, source: &mut S) -> Taken
        ensures takes { (bytes : List ℕ) (given : List items.Item) →
            HasTaken (progress self.old) (S.left source.old) bytes given →
            TakesBy result (progress self.new) (S.left source.old) (S.left source.new) bytes
            given }
        ensures stops { (ending : Ending) → result ≡ taken_of ending →
            HasEnded (progress self.new) ending }
        ensures stays { (ending : Ending) → HasEnded (progress self.old) ending →
            (result ≡ taken_of ending) × (S.left source.new ≡ S.left source.old) }
        ensures never_falls { S.faults source.old ≤ S.faults source.new }
        ensures failed { result ≡ Taken.ReadFault →
            HasEnded (progress self.old) Ending.ReadFault ⊎
            Rose (S.faults source.old) (S.faults source.new) }
    {
        for _ in 0..MOST_READS {
            if let Some(taken) = self.ready() {
                return taken;
            }
            if let Some(taken) = self.refill(source) {
                return taken;
            }
        }
        unreachable!()
    }

    // Reads the next piece; at the end of the source the last line is taken.
    fn refill<S: Source>(&mut self, source: &mut S) -> Option<Taken>
        ensures refills { Refills result (progress self.old) (progress self.new) (S.left source.old)
            (S.left source.new) }
        ensures more { result ≡ None → total self.old.joiner < held (progress self.new) }
        ensures going { result ≡ None → self.new.ending ≡ self.old.ending }
        ensures stops { (ending : Ending) → result ≡ Some (taken_of ending) →
            HasEnded (progress self.new) ending }
        ensures never_falls { S.faults source.old ≤ S.faults source.new }
        ensures failed { result ≡ Some Taken.ReadFault →
            Rose (S.faults source.old) (S.faults source.new) }
    {
        self.at = 0;
        self.end = 0;
        match read_into(source, &mut self.piece) {
            ReadAnswer::Got(count) => {
                self.end = count;
                None
            }
            ReadAnswer::End => Some(self.finish()),
            ReadAnswer::Failed => Some(self.stop(Ending::ReadFault)),
        }
    }

    // Takes the last line.
    fn finish(&mut self) -> Taken
        ensures ends { FinishesBy result (progress self.old) (progress self.new) }
        ensures stops { (ending : Ending) → result ≡ taken_of ending →
            HasEnded (progress self.new) ending }
        ensures no_fault { result ≡ Taken.ReadFault → ⊥ }
    {
        match self.joiner.finish() {
            Ok(None) => self.stop(Ending::End),
            Ok(Some(item)) => {
                self.ending = Some(Ending::End);
                Taken::Item(item)
            }
            Err(failure) => self.stop(Ending::of(failure)),
        }
    }

    // Ends the feed: from now on this is its answer.
    fn stop(&mut self, ending: Ending) -> Taken
        ensures answer { result ≡ taken_of ending }
        ensures stops { (other : Ending) → result ≡ taken_of other →
            HasEnded (progress self.new) other }
    {
        self.ending = Some(ending);
        ending.taken()
    }
}

// Reads the next bytes into the front of the piece.
fn read_into<S: Source>(source: &mut S, piece: &mut Vec<u8>) -> ReadAnswer
    requires { length piece.old.items ≡ 65_536 }
    ensures next { GivesNext result piece.new.items (S.left source.old) (S.left source.new) }
    ensures same { length piece.new.items ≡ length piece.old.items }
    ensures never_falls { S.faults source.old ≤ S.faults source.new }
    ensures failed { result ≡ ReadAnswer.Failed → Rose (S.faults source.old) (S.faults source.new) }
{
    source.read(piece.as_mut_slice())
}

fn zeros(alloc: Global, count: usize) -> Result<Vec<u8>, AllocError>
    ensures { IfOk result (λ zeros. length zeros.items ≡ count) }
{
    vec![in alloc; 0; count]
}
