//! One document, taken piece by piece to the end of its source.

ghost use Rattle.std.specs.Prelude.{◌≡◌, ◌<◌, ◌≤◌, ◌+◌, ◌++◌, [], Ok, Err, IfOk, IfErr, OnOk, Option, List, ℕ, true, false, length};
ghost use Rattle.px_io.specs.Faults.{Rose};
ghost use Rattle.px_io.specs.Flows.{IsSpent};
ghost use Rattle.px_reader.specs.declared.fault.DocFault.{DocFault};
ghost use Rattle.px_text.specs.Nodes.{Root};
ghost use Rattle.px_reader.specs.Spelling.{events_of};
ghost use Rattle.px_reader.specs.Verdicts.{HasVerdict, IsTree, IsFaulty};
ghost use Rattle.px_tree.specs.Trees as trees;
ghost use Rattle.px_document.specs.Documents.{Comes, GivesFault, GivesFine, GivesTree, HasCome, IsFaultOf};

use crate::stop::Stop;
use px_io::{ReadAnswer, Source};
use px_reader::{Event, Reader};
use px_tree::{Tree, build};
use std::alloc::{AllocError, Global};

/// How many bytes are read at once.
const BUFFER: usize = 65_536;

/// Every read gives a byte at least, and a document has at most 16,777,216, so this many reads
/// find its end or its fault.
const MOST_READS: u32 = 16_777_217;

/// A document of which some bytes have come. It keeps their events.
#[derive(Drop)]
pub struct Document {
    reader: Reader,
    events: Vec<Event>,
}

impl Document {
    /// A document of which nothing has come. Its only failure is want of memory.
    pub fn new(alloc: Global) -> Result<Document, AllocError>
        ensures { IfOk result (λ document. HasCome document []) }
    {
        Ok(Document {
            reader: Reader::new(alloc)?,
            events: Vec::new(alloc),
        })
    }

    /// Takes the next bytes. After a fault the document may only be dropped.
    pub fn take(&mut self, piece: &[u8]) -> Result<(), Stop>
        ensures come { OnOk result ((bytes : List ℕ) → HasCome self.old bytes →
            HasCome self.new (bytes ++ piece.now)) }
        ensures fault { (bytes : List ℕ) (fault : DocFault) → HasCome self.old bytes →
            result ≡ Err (Stop.Doc fault) → IsFaultOf fault (bytes ++ piece.now) }
        ensures not_read { result ≡ Err Stop.Source → ⊥ }
    {
        match self.reader.feed(piece, &mut self.events) {
            Ok(()) => Ok(()),
            Err(fault) => Err(Stop::from(fault)),
        }
    }

    /// The tree of the document, with what is left in the source. The source is read to its end, or
    /// to where the document's fault shows. It takes memory for the events and the tree. Where the
    /// source meets a fault, no line that was read whole is at fault.
    pub fn read_tree<S: Source>(
        mut self,
        alloc: Global,
        source: &mut S,
        buffer: &mut [u8],
    ) -> Result<Tree, Stop>
        requires room { 0 < length buffer.old }
        requires come { (bytes : List ℕ) × HasCome self bytes }
        ensures tree { (left : Option (List ℕ)) → Comes 0 left (S.left source.old) self →
            IfOk result (λ tree. GivesTree left (S.left source.new) (trees.tree tree)) }
        ensures fault { (left : Option (List ℕ)) (fault : DocFault) →
            Comes 0 left (S.left source.old) self →
            result ≡ Err (Stop.Doc fault) → GivesFault left (S.left source.new) fault }
        ensures failed { result ≡ Err Stop.Source →
            Rose (S.faults source.old) (S.faults source.new) }
        ensures not_at_fault { (left : Option (List ℕ)) → Comes 0 left (S.left source.old) self →
            result ≡ Err Stop.Source → GivesFine left (S.left source.new) }
        ensures never_falls { S.faults source.old ≤ S.faults source.new }
    {
        for _ in 0..MOST_READS {
            match self.read_piece(source, buffer) {
                Ok(false) => {}
                Ok(true) => return self.finish(alloc),
                Err(stop) => return Err(stop),
            }
        }
        unreachable!()
    }

    // Takes the next piece of the source, if it is not at its end: whether it is.
    fn read_piece<S: Source>(&mut self, source: &mut S, buffer: &mut [u8]) -> Result<bool, Stop>
        requires { 0 < length buffer.old }
        ensures more { result ≡ Ok false → (least : ℕ) (left : Option (List ℕ)) →
            Comes least left (S.left source.old) self.old →
            Comes (least + 1) left (S.left source.new) self.new }
        ensures end { result ≡ Ok true → IsSpent (S.left source.new) ×
            (S.left source.new ≡ S.left source.old) × (self.new ≡ self.old) }
        ensures fault { (least : ℕ) (left : Option (List ℕ)) (fault : DocFault) →
            Comes least left (S.left source.old) self.old →
            result ≡ Err (Stop.Doc fault) → GivesFault left (S.left source.new) fault }
        ensures failed { result ≡ Err Stop.Source →
            Rose (S.faults source.old) (S.faults source.new) }
        ensures not_at_fault { (least : ℕ) (left : Option (List ℕ)) →
            Comes least left (S.left source.old) self.old →
            result ≡ Err Stop.Source → GivesFine left (S.left source.new) }
        ensures never_falls { S.faults source.old ≤ S.faults source.new }
        ensures room { length buffer.new ≡ length buffer.old }
    {
        match source.read(buffer) {
            ReadAnswer::Got(count) => match self.take(&buffer[..count]) {
                Ok(()) => Ok(false),
                Err(stop) => Err(stop),
            },
            ReadAnswer::End => Ok(true),
            ReadAnswer::Failed => Err(Stop::Source),
        }
    }

    // The tree of the document that has all come.
    fn finish(mut self, alloc: Global) -> Result<Tree, Stop>
        requires come { (bytes : List ℕ) × HasCome self bytes }
        ensures tree { (bytes : List ℕ) → HasCome self bytes →
            IfOk result (λ tree. HasVerdict bytes (IsTree (trees.tree tree))) }
        ensures fault { (bytes : List ℕ) (fault : DocFault) → HasCome self bytes →
            result ≡ Err (Stop.Doc fault) → HasVerdict bytes (IsFaulty fault.line fault.kind) }
        ensures not_read { result ≡ Err Stop.Source → ⊥ }
    {
        match self.reader.end(&mut self.events) {
            Ok(()) => tree_of(alloc, self.events.as_slice()),
            Err(fault) => Err(Stop::from(fault)),
        }
    }
}

// The tree of a document's events.
fn tree_of(alloc: Global, events: &[Event]) -> Result<Tree, Stop>
    requires of_a_tree { (root : Root) × (events.now ≡ events_of root) }
    ensures tree { (root : Root) → events.now ≡ events_of root →
        IfOk result (λ tree. trees.tree tree ≡ root) }
    ensures refused { IfErr result (λ stop. stop ≡ Stop.Memory) }
{
    match build(alloc, events) {
        Ok(tree) => Ok(tree),
        Err(_) => Err(Stop::Memory),
    }
}

/// A buffer for the pieces of a source.
pub fn buffer(alloc: Global) -> Result<Vec<u8>, AllocError>
    ensures { IfOk result (λ buffer. length buffer.items ≡ 65_536) }
{
    zeros(alloc, BUFFER)
}

fn zeros(alloc: Global, count: usize) -> Result<Vec<u8>, AllocError>
    ensures { IfOk result (λ zeros. length zeros.items ≡ count) }
{
    vec![in alloc; 0; count]
}
