//! Names that stand behind one another.

ghost use Rattle.std.specs.Prelude.{◌≡◌, ◌∷◌, [], IfOk, OnOk, OnErr, length, reverse};
ghost use Rattle.px_reader.specs.Spelling.{is_among};
ghost use Rattle.px_reader.specs.Stacks.{names_in, AreCut, first_of, behind_first, is_none};

use std::alloc::{AllocError, Global};
use std::marker::Model;

/// Names, the last first. Contracts see the list of them.
#[derive(Drop)]
pub struct NameStack {
    /// all names, one behind the other
    bytes: Vec<u8>,
    /// where each name begins
    starts: Vec<usize>,
}

impl Model for NameStack {
    ghost use Rattle.std.specs.Prelude.{List, ℕ, length, reverse};
    ghost use Rattle.px_reader.specs.Stacks.{names_in, AreCut};

    ghost Value = { List (List ℕ) };

    ghost view = { λ stack. names_in stack.bytes.items (reverse stack.starts.items) };

    ghost invariant = { λ stack. AreCut (length stack.bytes.items) (reverse stack.starts.items) };
}

impl NameStack {
    pub fn new(alloc: Global) -> NameStack
        ensures { result ≡ [] }
    {
        NameStack {
            bytes: Vec::new(alloc),
            starts: Vec::new(alloc),
        }
    }

    pub fn clear(&mut self)
        ensures { self.new ≡ [] }
    {
        self.bytes.clear();
        self.starts.clear();
    }

    pub fn is_empty(&self) -> bool
        ensures { result ≡ is_none self.now }
    {
        self.starts.is_empty()
    }

    pub fn len(&self) -> usize
        ensures { result ≡ length self.now }
    {
        self.starts.len()
    }

    /// Puts a name behind the others. Its only failure is want of memory.
    pub fn push(&mut self, name: &[u8]) -> Result<(), AllocError>
        ensures ok { OnOk result (self.new ≡ name.now ∷ self.old) }
        ensures err { OnErr result (self.new ≡ self.old) }
    {
        let start = self.bytes.len();
        self.bytes.extend_from_slice(name)?;
        if self.starts.push(start).is_err() {
            self.bytes.truncate(start);
            return Err(AllocError);
        }
        Ok(())
    }

    /// The last name; nothing where there is none.
    pub fn last(&self) -> &[u8]
        ensures { result.now ≡ first_of self.now }
    {
        match self.starts.last() {
            Some(start) => &self.bytes[*start..],
            None => b"",
        }
    }

    /// Whether a name is among them.
    pub fn contains(&self, name: &[u8]) -> bool
        ensures { result ≡ is_among name.now self.now }
    {
        stands_in(self.bytes.as_slice(), self.starts.as_slice(), name)
    }

    /// Takes the last name away, if there is one.
    pub fn pop(&mut self)
        ensures { self.new ≡ behind_first self.old }
    {
        if let Some(start) = self.starts.pop() {
            self.bytes.truncate(start);
        }
    }
}

// Whether a name is among those that begin at these places.
fn stands_in(bytes: &[u8], starts: &[usize], name: &[u8]) -> bool
    requires { AreCut (length bytes.now) (reverse starts.now) }
    ensures { result ≡ is_among name.now (names_in bytes.now (reverse starts.now)) }
{
    let mut held = bytes;
    let mut rest = starts;
    while let Some((start, front)) = rest.split_last() {
        let (before, last) = held.split_at(*start);
        if name == last {
            return true;
        }
        held = before;
        rest = front;
    }
    false
}
