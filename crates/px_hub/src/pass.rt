//! The token with which a caller uses a hub.
ghost use Rattle.std.specs.Prelude.{◌≡◌, ◌<◌, false, All, length};
ghost use Rattle.px_xpath.specs.Histories.{live, IsLegal};
ghost use Rattle.px_xpath.specs.Subscribed.{subscriptions};
ghost use Rattle.px_workload.specs.Changes.{history};
ghost use Rattle.px_rule.specs.declared.view.Place.TheVariants.{Outside};
ghost use Rattle.px_rule.specs.Histories.{named};
ghost use Rattle.px_hub.specs.Entries.{who_of};

use crate::at_version::AtVersion;
use crate::home::Home;
use crate::law::Workload;
use crate::name::HubName;
use px_rule::Seat;
use px_workload::Live;
use std::marker::{Model, PhantomData};
use std::sync::Arc;

/// With it a caller uses a hub. Contracts see its number, what it knows, the version of its
/// program, its bank, and whether a call that filters is open on it.
#[derive(Drop)]
pub struct Pass<N: HubName> {
    pub(crate) number: u32,
    pub(crate) seat: Seat<Workload>,
    /// How many changes it has seen, and the filters that are live behind them.
    pub(crate) version: u32,
    pub(crate) live: Arc<Live>,
    pub(crate) built: Arc<AtVersion>,
    pub(crate) home: Home,
    // whether a call that filters is open
    pub(crate) is_open: bool,
    pub(crate) of: PhantomData<N>,
}

impl<N: HubName> Model for Pass<N> {
    ghost use Rattle.std.specs.Arc.{arc_value};
    ghost use Rattle.px_hub.specs.Passes.{PassView, pass_code, pass_view, IsPass};

    ghost Value = { PassView };

    ghost coded = { pass_code };

    ghost view = { λ p. pass_view p.number p.seat.view (arc_value p.built).version p.home
        p.is_open };

    ghost invariant = { λ p. IsPass N.table N.passes p.seat.table p.version
        (arc_value p.live).filters (arc_value p.built)
        (pass_view p.number p.seat.view (arc_value p.built).version p.home p.is_open) };
}

impl<N: HubName> Pass<N> {
    /// How many changes it has seen. Each names a pass of the hub, and those that name this pass
    /// are the ones that it asked for.
    pub fn version(&self) -> u32
        ensures version { result ≡ length self.now.view.past.seen }
        ensures of_passes { All (λ c. who_of c < N.passes) self.now.view.past.seen }
        ensures own { named who_of self.now.number self.now.view.past.seen ≡
            self.now.view.past.mine }
        ensures legal { IsLegal (history self.now.view.past.seen) }
    {
        self.version
    }

    /// Its number among the passes of the hub.
    pub fn number(&self) -> u32
        ensures number { result ≡ self.now.number }
        ensures below { result < N.passes }
    {
        self.number
    }

    /// Whether a call that filters is open. Then no other call takes the pass. Where none is, the
    /// pass is in no bank.
    pub fn is_open(&self) -> bool
        ensures open { result ≡ self.now.is_open }
        ensures outside { result ≡ false → self.now.view.stay.place ≡ Outside }
    {
        self.is_open
    }

    /// A pass with no call open is in no bank.
    pub(crate) fn is_in_no_bank(&self)
        requires { self.now.is_open ≡ false }
        ensures { self.now.view.stay.place ≡ Outside }
    {
        let _ = &self.is_open;
    }

    /// The filters that are live behind what it has seen.
    pub fn live(&self) -> &Live
        requires { self.now.is_open ≡ false }
        ensures { subscriptions result.now.filters ≡ live (history self.now.view.past.seen) }
    {
        &self.live
    }
}
