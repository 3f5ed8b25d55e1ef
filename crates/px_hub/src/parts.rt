//! A hub is made of its parts.
ghost use Rattle.std.specs.Prelude.{◌≡◌, ◌+◌, ◌<◌, ◌≤◌, [], replicate, IfOk, OnOk, vec_len};
ghost use Rattle.std.specs.Arc.{arc_value};
ghost use Rattle.px_rule.specs.Steps.{opening_view};
ghost use Rattle.px_hub.specs.Names.{IsValid, shape_of};
ghost use Rattle.px_hub.specs.Passes.{IsBuilt};
ghost use Rattle.px_hub.specs.Beginning.{desk_with, IsNew, AreNew};
ghost use Rattle.px_hub.specs.AllOfThem.{HoldsEvery, AreClosed};

use crate::at_version::AtVersion;
use crate::config::Config;
use crate::desk::Desk;
use crate::home::Home;
use crate::hub::Hub;
use crate::law::Workload;
use crate::machine::build;
use crate::name::HubName;
use crate::pass::Pass;
use px_rule::{Seat, Shape, Shared};
use px_workload::Journal;
use std::alloc::{AllocError, Global};
use std::marker::PhantomData;
use std::sync::{Arc, Mutex};

/// The table and the desk's seat, which have no name yet.
#[derive(Drop)]
pub struct Parts {
    pub(crate) alloc: Global,
    pub(crate) shared: Shared<Workload>,
    pub(crate) seat: Seat<Workload>,
    pub(crate) passes: u32,
    pub ghost few: { passes ≤ 65 },
    pub ghost new: { seat.view ≡ opening_view shared.shape },
    pub ghost same_table: { seat.table ≡ shared },
}

impl Parts {
    /// Makes the table, and gives the desk's seat. Its only failure is want of memory.
    pub fn new(alloc: Global, config: Config) -> Result<Parts, AllocError>
        requires valid { IsValid config }
        ensures parts { IfOk result (λ p. (p.passes ≡ config.passes) ×
            (p.shared.shape ≡ shape_of config)) }
    {
        let shape = Shape {
            banks: config.banks,
            node_bits: config.node_bits,
            step_bits: config.step_bits,
        };
        let (shared, seat) = Shared::<Workload>::create(alloc, shape)?;
        Ok(Parts {
            alloc,
            shared,
            seat,
            passes: config.passes,
        })
    }
}

// The pass with the next number.
fn enroll<N: HubName>(
    shared: &Shared<Workload>,
    desk: &mut Seat<Workload>,
    number: u32,
    built: &Arc<AtVersion>,
) -> Result<Pass<N>, AllocError>
    requires table { (shared.now ≡ N.table) × (desk.old.table ≡ shared.now) }
    requires desk { desk.old.view ≡ desk_with N.table.shape number }
    requires number { (number < N.passes) × (N.passes ≤ 65) }
    requires built { ((arc_value built.now).version ≡ 0) × IsBuilt [] (arc_value built.now) }
    requires banks { 1 ≤ N.table.shape.banks }
    ensures table { desk.new.table ≡ desk.old.table }
    ensures desk { OnOk result (desk.new.view ≡ desk_with N.table.shape (number + 1)) }
    ensures pass { IfOk result (λ p. IsNew number p) }
{
    let live = Arc::try_clone(&built.live)?;
    let built = Arc::try_clone(built)?;
    Ok(Pass {
        number,
        seat: shared.pass(desk),
        version: 0,
        live,
        built,
        home: Home::Bank(0),
        is_open: false,
        of: PhantomData,
    })
}

// The desk of a hub without changes.
fn open_desk<N: HubName>(
    seat: Seat<Workload>,
    journal: Journal,
    stands: Vec<u32>,
    built: Arc<AtVersion>,
) -> Desk<N>
    requires table { seat.table ≡ N.table }
    requires zeros { stands.items ≡ replicate N.table.shape.banks 0 }
    requires desk { seat.view ≡ desk_with N.table.shape N.passes }
    requires empty { journal.changes ≡ [] }
    requires built { IsBuilt [] (arc_value built) }
{
    Desk {
        journal,
        seat,
        stands,
        built,
        of: PhantomData,
    }
}

impl<N: HubName> Hub<N> {
    /// Makes the hub of these parts, and its passes. Its only failure is want of memory.
    pub fn create(parts: Parts) -> Result<(Hub<N>, Vec<Pass<N>>), AllocError>
        requires table { N.table ≡ parts.shared }
        requires passes { N.passes ≡ parts.passes }
        ensures new { IfOk result (λ h. (vec_len h.1 ≡ parts.passes) × AreNew h.1.items) }
        ensures every { IfOk result (λ h. HoldsEvery N.passes h.1.items) }
        ensures closed { IfOk result (λ h. AreClosed h.1.items) }
    {
        let Parts {
            alloc,
            shared,
            mut seat,
            passes,
        } = parts;
        let stands = vec![in alloc; 0u32; shared.shape().banks as usize]?;
        let journal = Journal::new(alloc);
        let built = build(alloc, &journal)?;
        let mut all = Vec::with_capacity(alloc, passes as usize)?;
        for number in 0..passes {
            let pass = enroll::<N>(&shared, &mut seat, number, &built)?;
            all.push_reserved(pass);
        }
        let desk = open_desk::<N>(seat, journal, stands, built);
        let hub = Hub {
            alloc,
            shared,
            desk: Mutex::new(desk),
        };
        Ok((hub, all))
    }
}
