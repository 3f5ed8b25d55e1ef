//! The machine over the events of documents, one after the other.

ghost use Rattle.std.specs.Prelude.{◌≡◌, ◌≤◌, ℕ, List, [], ◌∷◌, ◌++◌, IfOk, OnOk, length};
ghost use Rattle.std.specs.Arc.{arc_value};
ghost use Rattle.px_text.specs.Nodes.{Root};
ghost use Rattle.px_reader.specs.Spelling.{events_of};
ghost use Rattle.px_reader.specs.declared.event.Event.{Event as Happened};
ghost use Rattle.px_reader.specs.Happenings.{event_of};
ghost use Rattle.px_xpath.specs.Histories.{Change, live, matches};
ghost use Rattle.px_afa.specs.Building as afa;
ghost use Rattle.px_afa.specs.Building.{Automata};
ghost use Rattle.px_afa.specs.Contents.{root_content};
ghost use Rattle.px_afa.specs.Machine.{machine_of};
ghost use Rattle.px_afa.specs.Accepting.{HaveSteps, accepted};
ghost use Rattle.px_runner.specs.Events.{Opened, with_child, values_in, begun, after_end, after_event};
ghost use Rattle.px_machine.specs.Machines.{IsAt, HasRun, program_of, bytes_of, bound_of, given_numbers};

use crate::facts::Facts;
use crate::frame::Frame;
use px_afa::Program;
use px_reader::Happening;
use px_text::Ids;
use std::alloc::{AllocError, Global};
use std::mem;
use std::sync::Arc;

// For how many open elements, sets and bytes of text there is room at first.
const FIRST_ROOM: usize = 64;

// How many bytes may be remembered from one document to the next.
const MOST_BYTES: u64 = 134_217_728;

/// The machine of a program, before a document or in the midst of one.
#[derive(Drop)]
pub struct Machine {
    facts: Facts,
    // how many bytes it may remember from one document to the next
    bound: u64,
    // the innermost open element, or the document root where no element is open
    innermost: Frame,
    // those round it, the document root first
    outer: Vec<Frame>,
    // the numbers of the sets that all open elements gathered, one behind the other
    gathered: Vec<u32>,
    // the texts of all open elements, one behind the other
    text: Vec<u8>,
}

impl Machine {
    /// A machine before the first event of a document, which remembers at most 134,217,728 bytes
    /// from one document to the next. It takes memory for a few open elements and a short text, and
    /// its only failure is want of memory.
    pub fn new(alloc: Global, program: Arc<Program>) -> Result<Machine, AllocError>
        ensures new { IfOk result (λ machine. HasRun machine (arc_value program) []) }
        ensures bound { IfOk result (λ machine. bound_of machine ≡ 134_217_728) }
    {
        Machine::bounded(alloc, program, MOST_BYTES)
    }

    /// The same with another bound. With one of 0 it forgets all behind each document.
    pub fn bounded(alloc: Global, program: Arc<Program>, bound: u64) -> Result<Machine, AllocError>
        ensures new { IfOk result (λ machine. HasRun machine (arc_value program) []) }
        ensures bound { IfOk result (λ machine. bound_of machine ≡ bound) }
    {
        Ok(Machine {
            facts: Facts::new(alloc, program),
            bound,
            innermost: ground_frame(),
            outer: Vec::with_capacity(alloc, FIRST_ROOM)?,
            gathered: Vec::with_capacity(alloc, FIRST_ROOM)?,
            text: Vec::with_capacity(alloc, FIRST_ROOM)?,
        })
    }

    /// Takes the next event of a document. What it remembers may come to exceed the bound, by what
    /// the document alone brings. After `AllocError` it may only be dropped, or restarted.
    pub fn event(&mut self, next: Happening<'_>) -> Result<(), AllocError>
        requires begun { (automata : Automata) × (given : List Happened) ×
            HasRun self.old automata given }
        ensures same { program_of self.new ≡ program_of self.old }
        ensures bound { bound_of self.new ≡ bound_of self.old }
        ensures ok { OnOk result ((automata : Automata) (given : List Happened) →
            HasRun self.old automata given → HasRun self.new automata (given ++
            (event_of next.entry) ∷ [])) }
    {
        self.take(next)
    }

    /// The ids of the filters that hold of the document, rising, when all its events have been
    /// taken. The machine is then before the next document, and remembers no more bytes than its
    /// bound; what would take more is forgotten. After `AllocError` it may only be dropped, or
    /// restarted.
    pub fn finish(&mut self) -> Result<Ids, AllocError>
        requires whole { (automata : Automata) × (root : Root) ×
            HasRun self.old automata (events_of root) }
        ensures accepted { IfOk result (λ ids. (automata : Automata) (root : Root) →
            HasRun self.old automata (events_of root) →
            ids ≡ accepted (machine_of automata.states) automata.firsts (root_content root)) }
        ensures matches { IfOk result (λ ids. (history : List Change) (root : Root) →
            HaveSteps (live history) →
            HasRun self.old (afa.program history) (events_of root) → ids ≡ matches history root) }
        ensures ready { OnOk result (HasRun self.new (program_of self.old) []) }
        ensures few { OnOk result (bytes_of self.new ≤ bound_of self.new) }
        ensures bound { bound_of self.new ≡ bound_of self.old }
    {
        let ids = self
            .facts
            .accepted(&self.gathered[self.innermost.gathered..])?;
        self.restart();
        Ok(ids)
    }

    /// Leaves the document in hand, if there is one: the machine is before the next. It takes no
    /// memory.
    pub fn restart(&mut self)
        ensures ready { HasRun self.new (program_of self.old) [] }
        ensures few { bytes_of self.new ≤ bound_of self.new }
        ensures bound { bound_of self.new ≡ bound_of self.old }
    {
        self.innermost = ground_frame();
        self.outer.clear();
        self.gathered.clear();
        self.text.clear();
        if self.facts.bytes() > u128::from(self.bound) {
            self.facts.forget();
        }
    }

    /// The bytes that what it remembers takes. It takes no memory.
    pub fn bytes(&self) -> u128
        ensures bytes { result ≡ bytes_of self.now }
    {
        self.facts.bytes()
    }

    // The next event, whatever came before.
    fn take(&mut self, next: Happening<'_>) -> Result<(), AllocError>
        requires at { (opened : Opened) × IsAt self.old opened }
        ensures same { program_of self.new ≡ program_of self.old }
        ensures bound { bound_of self.new ≡ bound_of self.old }
        ensures ok { OnOk result ((opened : Opened) → IsAt self.old opened →
            IsAt self.new (after_event (program_of self.old).states opened (event_of next.entry))) }
    {
        match next {
            Happening::Start { name } => {
                let label = self.facts.program().label_of_element(name);
                self.start(label)
            }
            Happening::Attr { name, value } => {
                let label = self.facts.program().label_of_attribute(name);
                self.leaf(label, value, b"")
            }
            Happening::Text { text } => self.leaf(0, text, text),
            Happening::End => self.end(),
        }
    }

    // A leaf with the label, of whose value a text says all, and an attribute nothing.
    fn leaf(&mut self, label: u32, value: &[u8], said: &[u8]) -> Result<(), AllocError>
        requires at { (opened : Opened) × IsAt self.old opened }
        ensures same { program_of self.new ≡ program_of self.old }
        ensures bound { bound_of self.new ≡ bound_of self.old }
        ensures ok { OnOk result ((opened : Opened) → IsAt self.old opened → IsAt self.new
            (record {
              innermost = with_child (program_of self.old).states opened.innermost
                  (values_in (program_of self.old).states value.now) label said.now;
              outer = opened.outer;
            })) }
    {
        let values = self.facts.text_values(value)?;
        let given = self.facts.leaf(values, label)?;
        self.facts.first_is_empty();
        give(&mut self.gathered, given)?;
        self.text.extend_from_slice(said)?;
        Ok(())
    }

    // The start of an element with the label.
    fn start(&mut self, label: u32) -> Result<(), AllocError>
        requires at { (opened : Opened) × IsAt self.old opened }
        ensures same { program_of self.new ≡ program_of self.old }
        ensures bound { bound_of self.new ≡ bound_of self.old }
        ensures ok { OnOk result ((opened : Opened) → IsAt self.old opened →
            IsAt self.new (begun (program_of self.old).states opened label)) }
    {
        let child = Frame {
            label,
            gathered: self.gathered.len(),
            text: self.text.len(),
        };
        let parent = mem::replace(&mut self.innermost, child);
        self.outer.push(parent)?;
        Ok(())
    }

    // The end of the innermost element.
    fn end(&mut self) -> Result<(), AllocError>
        requires at { (opened : Opened) × IsAt self.old opened }
        ensures same { program_of self.new ≡ program_of self.old }
        ensures bound { bound_of self.new ≡ bound_of self.old }
        ensures ok { OnOk result ((opened : Opened) → IsAt self.old opened →
            IsAt self.new (after_end (program_of self.old).states opened.innermost opened.outer)) }
    {
        let Some(parent) = self.outer.pop() else {
            return Ok(());
        };
        let begin = self.innermost.gathered;
        let values = self.facts.text_values(&self.text[self.innermost.text..])?;
        self.gathered.push(values)?;
        let given = self
            .facts
            .gift(&self.gathered[begin..], self.innermost.label)?;
        self.facts.first_is_empty();
        self.gathered.truncate(begin);
        give(&mut self.gathered, given)?;
        self.innermost = parent;
        Ok(())
    }
}

// The document root before the first event.
fn ground_frame() -> Frame
    ensures frame { result ≡ record { label = 0; gathered = 0; text = 0 } }
{
    Frame {
        label: 0,
        gathered: 0,
        text: 0,
    }
}

// Adds the number of a set to those gathered, unless it is that of the empty set.
fn give(gathered: &mut Vec<u32>, n: u32) -> Result<(), AllocError>
    ensures given { IfOk result (λ _. gathered.new.items ≡ gathered.old.items ++ given_numbers n) }
{
    if n != 0 {
        gathered.push(n)?;
    }
    Ok(())
}
