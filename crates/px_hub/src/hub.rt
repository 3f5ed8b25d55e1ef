//! The calls of a hub.
ghost use Rattle.std.specs.Prelude.{◌≡◌, false, IfOk, OnErr};
ghost use Rattle.px_hub.specs.Calls.{Subscribed, Unsubscribed, Replaced, Refreshed, Met, seen_of};
ghost use Rattle.px_hub.specs.AllOfThem.{HoldsEvery, AreClosed, AllRefreshed, SomeRefreshed};

use crate::desk::Desk;
use crate::exchange::take_in;
use crate::faults::{ReplaceFault, SubscribeFault, UnsubscribeFault};
use crate::law::Workload;
use crate::name::HubName;
use crate::note::Note;
use crate::pass::Pass;
use px_rule::Shared;
use px_xpath::{ParseFault, parse};
use std::alloc::{AllocError, Global};
use std::marker::PhantomData;
use std::sync::{Arc, Mutex, Wait};

/// A workload and the banks of its machines, for any number of callers.
#[derive(Drop)]
pub struct Hub<N: HubName> {
    pub(crate) alloc: Global,
    pub(crate) shared: Shared<Workload>,
    pub(crate) desk: Mutex<Desk<N>>,
    pub ghost named: { shared ≡ N.table },
}

impl<N: HubName> Hub<N> {
    /// Adds a filter of the pass, and answers its id, which is then the version of the pass.
    pub fn subscribe(
        &self,
        rt: &impl Wait,
        pass: &mut Pass<N>,
        filter: &[u8],
    ) -> Result<u32, SubscribeFault>
        requires { pass.old.is_open ≡ false }
        ensures { Subscribed filter.now pass.old pass.new result }
    {
        match parse(self.alloc, filter) {
            Ok(filter) => self
                .desk
                .lock(rt)
                .subscribe(self.alloc, &self.shared, pass, filter),
            Err(ParseFault::Filter(fault)) => Err(SubscribeFault::Filter(fault)),
            Err(ParseFault::Memory) => Err(SubscribeFault::Memory),
        }
    }

    /// Drops a live filter, whoever added it, and answers the version that this makes.
    pub fn unsubscribe(
        &self,
        rt: &impl Wait,
        pass: &mut Pass<N>,
        id: u32,
    ) -> Result<u32, UnsubscribeFault>
        requires { pass.old.is_open ≡ false }
        ensures { Unsubscribed id pass.old pass.new result }
    {
        self.desk
            .lock(rt)
            .unsubscribe(self.alloc, &self.shared, pass, id)
    }

    /// Puts another filter in the place of a live one, whoever added it, and answers the version
    /// that this makes. The id stays.
    pub fn replace(
        &self,
        rt: &impl Wait,
        pass: &mut Pass<N>,
        id: u32,
        filter: &[u8],
    ) -> Result<u32, ReplaceFault>
        requires { pass.old.is_open ≡ false }
        ensures { Replaced filter.now id pass.old pass.new result }
    {
        match parse(self.alloc, filter) {
            Ok(filter) => self
                .desk
                .lock(rt)
                .replace(self.alloc, &self.shared, pass, id, filter),
            Err(ParseFault::Filter(fault)) => Err(ReplaceFault::Filter(fault)),
            Err(ParseFault::Memory) => Err(ReplaceFault::Memory),
        }
    }

    /// Gives the pass the newest version, its program and its bank, and answers the version.
    pub fn refresh(&self, rt: &impl Wait, pass: &mut Pass<N>) -> Result<u32, AllocError>
        requires { pass.old.is_open ≡ false }
        ensures refreshed { IfOk result
            (λ version. Refreshed N.table.shape.banks version pass.old pass.new) }
        ensures memory { OnErr result (pass.new ≡ pass.old) }
    {
        self.desk.lock(rt).refresh(self.alloc, &self.shared, pass)
    }

    /// Refreshes all passes of the hub, which then have seen the same, and answers the version.
    /// Where memory is refused, some may be refreshed.
    pub fn refresh_all(&self, rt: &impl Wait, passes: &mut [Pass<N>]) -> Result<u32, AllocError>
        requires every { HoldsEvery N.passes passes.old }
        requires closed { AreClosed passes.old }
        ensures refreshed { IfOk result
            (λ version. AllRefreshed N.table.shape.banks version passes.old passes.new) }
        ensures memory { OnErr result (SomeRefreshed N.table.shape.banks passes.old passes.new) }
    {
        self.desk
            .lock(rt)
            .refresh_all(self.alloc, &self.shared, passes)
    }

    /// Copies what the pass has seen. Its only failure is want of memory.
    pub fn note(&self, pass: &mut Pass<N>) -> Result<Note<N>, AllocError>
        requires { pass.old.is_open ≡ false }
        ensures note { IfOk result (λ note. note ≡ seen_of pass.old) }
        ensures same { pass.new ≡ pass.old }
    {
        let live = Arc::try_clone(&pass.live)?;
        let version = pass.version;
        Ok(Note {
            seat: self.shared.note(&mut pass.seat),
            version,
            live,
            of: PhantomData,
        })
    }

    /// Gives the pass the longer of the two histories. It takes no memory, and leaves the program
    /// as it is.
    pub fn meet(&self, pass: &mut Pass<N>, note: Note<N>)
        requires { pass.old.is_open ≡ false }
        ensures { Met note pass.old pass.new }
    {
        let Note {
            seat,
            version,
            live,
            of: _,
        } = note;
        take_in(&self.shared, &mut pass.seat, seat);
        if pass.version <= version {
            pass.version = version;
            pass.live = live;
        }
    }
}
