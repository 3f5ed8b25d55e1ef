//! Two passes of one hub.

ghost use Rattle.std.specs.Prelude.{◌≡◌, false, IfOk, OnErr};
ghost use Rattle.px_hub.specs.Passes.{PassView};
ghost use Rattle.px_delta.specs.Deltas.{delta_view, AreClosed, Answers, Rebased, Stopped, apart};

use crate::changed::count_changed;
use crate::filtering::filter;
use crate::rebasing::rebase;
use crate::reply::DeltaReply;
use px_hub::{FilterCallFault, Hub, HubName, Pass};
use std::alloc::{AllocError, Global};
use std::marker::Model;
use std::sync::Wait;

/// Two passes of one hub: the base, which serves the filters that have not changed, and the front,
/// through which changes go. Contracts see both, and nothing is kept beside them.
#[derive(Drop)]
pub struct Delta<N: HubName> {
    alloc: Global,
    base: Pass<N>,
    front: Pass<N>,
}

impl<N: HubName> Model for Delta<N> {
    ghost use Rattle.px_delta.specs.Deltas.{DeltaView, delta_code, delta_view};

    ghost Value = { DeltaView };

    ghost coded = { delta_code };

    ghost view = { λ d. delta_view d.base d.front };
}

impl<N: HubName> Delta<N> {
    ghost use Rattle.std.specs.Borrow.{Lends, sem};
    ghost use Rattle.px_hub.specs.contracts.pass.Pass as pass;
    ghost use Rattle.px_delta.specs.contracts.delta.Delta as delta;

    /// Two passes of a hub, whichever has seen more. It takes no memory: the allocator is for the
    /// calls that filter.
    pub fn new(alloc: Global, base: Pass<N>, front: Pass<N>) -> Delta<N>
        ensures both { result ≡ delta_view base front }
    {
        Delta { alloc, base, front }
    }

    /// The base and the front.
    pub fn into_passes(self) -> (Pass<N>, Pass<N>)
        ensures base { result.0 ≡ self.base }
        ensures front { result.1 ≡ self.front }
    {
        (self.base, self.front)
    }

    /// The pass through which changes, notes and refreshes go. The caller may put another pass of
    /// the hub in its place.
    pub fn front(&mut self) -> &mut Pass<N>
        ensures* then { sem 𝓛 (Lends (delta.the_row N.row N.HubName) (pass.the_row N.row N.HubName)
            self.entry result (delta_view self.old.base)) }
        ensures now { result.now ≡ self.old.front }
    {
        &mut self.front
    }

    /// Whether a call that filters is open on one of the passes. Then no other call takes them.
    pub fn is_open(&self) -> bool
        ensures closed { result ≡ false → AreClosed self.now }
    {
        if self.base.is_open() {
            return true;
        }
        self.front.is_open()
    }

    /// How many pairs of id and filter are live for one of the passes alone: what
    /// [`Delta::filter`] would count as dropped and as added, together. It takes no memory.
    pub fn distance(&self) -> u32
        requires closed { AreClosed self.now }
        ensures distance { result ≡ apart self.now }
    {
        let base = self.base.live().as_slice();
        let front = self.front.live().as_slice();
        count_changed(base, front) + count_changed(front, base)
    }

    /// Brings both passes to one version, and answers it: the front is refreshed, the base meets a
    /// note of it and is refreshed, and the front meets a note of the base. Its only failure is
    /// want of memory, and then each pass is as the calls before have left it.
    pub fn rebase(&mut self, hub: &Hub<N>, rt: &impl Wait) -> Result<u32, AllocError>
        requires closed { AreClosed self.old }
        ensures rebased { IfOk result
            (λ version. Rebased N.table.shape.banks version self.old self.new) }
        ensures memory { OnErr result (Stopped N.table.shape.banks self.old self.new) }
        ensures closed { AreClosed self.new }
    {
        rebase(hub, rt, &mut self.base, &mut self.front)
    }

    /// Filters a document at the version of the front: the base filters it with the filters of its
    /// own version, and the added ones run beside it. Refusals: the first fault of the bytes, and
    /// want of memory. The base is left as [`Hub::filter`] leaves it, and the front as it was.
    pub fn filter(&mut self, hub: &Hub<N>, document: &[u8]) -> Result<DeltaReply, FilterCallFault>
        requires closed { AreClosed self.old }
        ensures answer { Answers N.table.shape self.old self.new document.now result }
        ensures closed { AreClosed self.new }
    {
        filter(self.alloc, hub, &mut self.base, &self.front, document)
    }
}
