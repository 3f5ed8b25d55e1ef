//! The machine over the events of a document.

ghost use Rattle.std.specs.Prelude.{◌≡◌, ◌+◌, ◌<◌, ◌^◌, ℕ, List, [], ◌∷◌, ◌++◌, length, IfOk, OnOk, OnErr};
ghost use Rattle.px_text.specs.declared.op.Op.TheVariants.{Push};
ghost use Rattle.px_text.specs.Operands.{index, set_of};
ghost use Rattle.px_text.specs.Nodes.{Root};
ghost use Rattle.px_reader.specs.Spelling.{events_of};
ghost use Rattle.px_xpath.specs.Histories.{Change, live, matches};
ghost use Rattle.px_afa.specs.Building as afa;
ghost use Rattle.px_afa.specs.Contents.{root_content};
ghost use Rattle.px_afa.specs.Sets.{first_set};
ghost use Rattle.px_afa.specs.Machine.{machine_of};
ghost use Rattle.px_afa.specs.Accepting.{HaveSteps, accepted};
ghost use Rattle.px_afa.specs.Steps.{step, value_steps, raise_steps};
ghost use Rattle.px_reader.specs.declared.event.Event.{Event as Happened};
ghost use Rattle.px_reader.specs.Happenings.{event_of};
ghost use Rattle.px_runner.specs.Operands.{IsLabel};
ghost use Rattle.px_runner.specs.Memos.{Keeps, Advances};
ghost use Rattle.px_runner.specs.Events.{Opened, with_child, values_in, begun, after_end, end_steps, after_event, event_steps, after_events, ground};
ghost use Rattle.px_runner.specs.Frames.{IsOpen};
ghost use Rattle.px_runner.specs.Running.{IsAt, HasRun, held_by, steps_made};

use crate::frame::Frame;
use crate::memo::Memo;
use crate::ops::push;
use crate::raise::{close, give, text_values};
use px_reader::Happening;
use px_step::accept;
use px_text::{Ids, Set};
use std::alloc::{AllocError, Global};
use std::mem;

/// The machine of a program in the midst of a document.
#[derive(Drop)]
pub struct Runner {
    // the innermost open element, or the document root where no element is open
    innermost: Frame,
    // those round it, the document root first
    outer: Vec<Frame>,
    // the texts of all open elements, one behind the other
    text: Vec<u8>,
    // the empty set, which an element begins with
    none: Set,
    steps: u64,
}

impl Runner {
    /// A runner before the first event of a document.
    pub fn new<M: Memo>(alloc: Global, memo: &mut M) -> Result<Runner, AllocError>
        ensures ok { IfOk result (λ runner. HasRun M.automata M.stands_for memo.new runner []) }
        ensures held { IfOk result (λ runner. Advances M.automata M.stands_for M.tells memo.old
            memo.new [] (first_set (M.automata memo.old).firsts ∷ [] ∷ [])) }
        ensures err { OnErr result (Keeps M.automata M.stands_for memo.old memo.new) }
    {
        let none = Set::empty(alloc);
        let innermost = ground_frame(memo, &none)?;
        Ok(Runner {
            innermost,
            outer: Vec::new(alloc),
            text: Vec::new(alloc),
            none,
            steps: 0,
        })
    }

    /// The ids of the filters that hold of the document, rising, when all its events have been
    /// taken.
    pub fn finish<M: Memo>(self, alloc: Global, memo: &mut M) -> Result<Ids, AllocError>
        requires whole { (root : Root) × HasRun M.automata M.stands_for memo.old self
            (events_of root) }
        ensures accepted { IfOk result (λ ids. (root : Root) →
            HasRun M.automata M.stands_for memo.old self (events_of root) →
            ids ≡ accepted (machine_of (M.automata memo.old).states) (M.automata memo.old).firsts
            (root_content root)) }
        ensures matches { IfOk result (λ ids. (history : List Change) (root : Root) →
            M.automata memo.old ≡ afa.program history → HaveSteps (live history) →
            HasRun M.automata M.stands_for memo.old self (events_of root) →
            ids ≡ matches history root) }
        ensures ok { IfOk result (λ ids. Advances M.automata M.stands_for M.tells memo.old memo.new
            [] []) }
        ensures err { OnErr result (Keeps M.automata M.stands_for memo.old memo.new) }
    {
        let gathered = memo.set_of(&self.innermost.gathered)?;
        accept(alloc, memo.program(), &gathered)
    }

    /// How many steps it made. It takes no memory.
    pub fn steps(&self) -> u64
        ensures count { result ≡ steps_made self.now }
    {
        self.steps
    }

    /// Takes the next event of a document. The events so far and this one are fewer than 2^60.
    /// After `AllocError` the runner may only be dropped.
    pub fn event<M: Memo>(&mut self, next: Happening<'_>, memo: &mut M) -> Result<(), AllocError>
        requires begun { (given : List Happened) ×
            HasRun M.automata M.stands_for memo.old self.old given × (length given + 1 < 2 ^ 60) }
        ensures ok { OnOk result ((given : List Happened) →
            HasRun M.automata M.stands_for memo.old self.old given →
            HasRun M.automata M.stands_for memo.new self.new (given ++ (event_of next.entry) ∷ [])
            × Advances M.automata M.stands_for M.tells memo.old memo.new
            (event_steps (M.automata memo.old).states
            (after_events (M.automata memo.old).states (ground (M.automata memo.old)) given)
            (event_of next.entry)) (held_by (event_of next.entry))) }
        ensures err { OnErr result (Keeps M.automata M.stands_for memo.old memo.new) }
    {
        self.take(next, memo)
    }

    // The next event, whatever came before.
    fn take<M: Memo>(&mut self, next: Happening<'_>, memo: &mut M) -> Result<(), AllocError>
        requires at { (opened : Opened) × (made : ℕ) ×
            IsAt M.automata M.stands_for memo.old self.old opened made × (made + 7 < 2 ^ 64) }
        ensures ok { OnOk result ((opened : Opened) (made : ℕ) →
            IsAt M.automata M.stands_for memo.old self.old opened made →
            IsAt M.automata M.stands_for memo.new self.new
            (after_event (M.automata memo.old).states opened (event_of next.entry))
            (made + length (event_steps (M.automata memo.old).states opened (event_of next.entry)))
            × Advances M.automata M.stands_for M.tells memo.old memo.new
            (event_steps (M.automata memo.old).states opened (event_of next.entry))
            (held_by (event_of next.entry))) }
        ensures err { OnErr result (Keeps M.automata M.stands_for memo.old memo.new) }
    {
        match next {
            Happening::Start { name } => {
                let label = memo.program().label_of_element(name);
                self.start(memo, label)
            }
            Happening::Attr { name, value } => {
                let label = memo.program().label_of_attribute(name);
                self.leaf(memo, label, value, b"")
            }
            Happening::Text { text } => self.leaf(memo, 0, text, text),
            Happening::End => self.end(memo),
        }
    }

    // A leaf with the label, of whose value a text says all, and an attribute nothing.
    fn leaf<M: Memo>(
        &mut self,
        memo: &mut M,
        label: u32,
        value: &[u8],
        said: &[u8],
    ) -> Result<(), AllocError>
        requires label { IsLabel (M.automata memo.old).states label }
        requires at { (opened : Opened) × (made : ℕ) ×
            IsAt M.automata M.stands_for memo.old self.old opened made × (made + 6 < 2 ^ 64) }
        ensures ok { OnOk result ((opened : Opened) (made : ℕ) →
            IsAt M.automata M.stands_for memo.old self.old opened made →
            IsAt M.automata M.stands_for memo.new self.new
            (record {
              innermost = with_child (M.automata memo.old).states opened.innermost
                  (values_in (M.automata memo.old).states value.now) label said.now;
              outer =
                  opened.outer;
            })
            (made + 6)
            × Advances M.automata M.stands_for M.tells memo.old memo.new
            (value_steps (M.automata memo.old).states value.now
            ++ raise_steps (M.automata memo.old).states opened.innermost.needed
            opened.innermost.gathered (values_in (M.automata memo.old).states value.now) label)
            []) }
        ensures err { OnErr result (Keeps M.automata M.stands_for memo.old memo.new) }
    {
        let set = text_values(memo, value)?;
        give(memo, &mut self.innermost, &set, label)?;
        self.text.extend_from_slice(said)?;
        self.steps += 6;
        Ok(())
    }

    // The start of an element with the label.
    fn start<M: Memo>(&mut self, memo: &mut M, label: u32) -> Result<(), AllocError>
        requires label { IsLabel (M.automata memo.old).states label }
        requires at { (opened : Opened) × (made : ℕ) ×
            IsAt M.automata M.stands_for memo.old self.old opened made × (made + 1 < 2 ^ 64) }
        ensures ok { OnOk result ((opened : Opened) (made : ℕ) →
            IsAt M.automata M.stands_for memo.old self.old opened made →
            IsAt M.automata M.stands_for memo.new self.new
            (begun (M.automata memo.old).states opened label) (made + 1)
            × Advances M.automata M.stands_for M.tells memo.old memo.new
            (step (M.automata memo.old).states Push (set_of opened.innermost.needed) (index label) ∷
            []) ([] ∷ [])) }
        ensures err { OnErr result (Keeps M.automata M.stands_for memo.old memo.new) }
    {
        let needed = push(memo, &self.innermost.needed, label)?;
        let gathered = memo.hold(&self.none)?;
        let child = Frame {
            label,
            needed,
            gathered,
            begins: self.text.len(),
        };
        let parent = mem::replace(&mut self.innermost, child);
        self.outer.push(parent)?;
        self.steps += 1;
        Ok(())
    }

    // The end of the innermost element.
    fn end<M: Memo>(&mut self, memo: &mut M) -> Result<(), AllocError>
        requires at { (opened : Opened) × (made : ℕ) ×
            IsAt M.automata M.stands_for memo.old self.old opened made × (made + 7 < 2 ^ 64) }
        ensures ok { OnOk result ((opened : Opened) (made : ℕ) →
            IsAt M.automata M.stands_for memo.old self.old opened made →
            IsAt M.automata M.stands_for memo.new self.new
            (after_end (M.automata memo.old).states opened.innermost opened.outer)
            (made + length (end_steps (M.automata memo.old).states opened.innermost opened.outer))
            × Advances M.automata M.stands_for M.tells memo.old memo.new
            (end_steps (M.automata memo.old).states opened.innermost opened.outer) []) }
        ensures err { OnErr result (Keeps M.automata M.stands_for memo.old memo.new) }
    {
        let Some(mut parent) = self.outer.pop() else {
            return Ok(());
        };
        let text = &self.text[self.innermost.begins..];
        close(memo, &self.innermost, &mut parent, text)?;
        self.innermost = parent;
        self.steps += 7;
        Ok(())
    }
}

// The document root before the first event.
fn ground_frame<M: Memo>(memo: &mut M, none: &Set) -> Result<Frame, AllocError>
    requires none { none.now ≡ [] }
    ensures open { IfOk result (λ frame. IsOpen M.automata M.stands_for memo.new frame
        (ground (M.automata memo.old)).innermost) }
    ensures begins { IfOk result (λ frame. frame.begins ≡ 0) }
    ensures held { IfOk result (λ frame. Advances M.automata M.stands_for M.tells memo.old memo.new
        [] (first_set (M.automata memo.old).firsts ∷ [] ∷ [])) }
    ensures err { OnErr result (Keeps M.automata M.stands_for memo.old memo.new) }
{
    memo.program().sound();
    let needed = memo.firsts()?;
    let gathered = memo.hold(none)?;
    Ok(Frame {
        label: 0,
        needed,
        gathered,
        begins: 0,
    })
}
