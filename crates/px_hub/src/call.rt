//! A document that is filtered event by event.
ghost use Rattle.std.specs.Prelude.{◌≡◌};

use crate::engine::Engine;
use crate::name::HubName;
use std::marker::{Model, PhantomData};

/// A document that a pass filters event by event, between two events. It is of the pass that began
/// it, and is spent by `Hub::finish` or `Hub::abandon`. Contracts see what it has taken and counted
/// (`HasTaken`).
#[derive(Drop)]
pub struct Call<N: HubName> {
    pub(crate) engine: Engine,
    pub(crate) of: PhantomData<N>,
}

impl<N: HubName> Model for Call<N> {
    ghost use Rattle.px_hub.specs.declared.engine.Engine.{Engine};
    ghost use Rattle.px_hub.specs.contracts.engine.Engine.{the_row};

    ghost Value = { Engine };

    ghost coded = { the_row.coded };

    ghost view = { λ c. c.engine };
}

impl<N: HubName> Call<N> {
    /// The call with this.
    pub(crate) fn of(engine: Engine) -> Call<N>
        ensures { result ≡ engine }
    {
        Call {
            engine,
            of: PhantomData,
        }
    }

    /// What it filters with.
    pub(crate) fn into_engine(self) -> Engine
        ensures { result ≡ self }
    {
        let Call { engine, of: _ } = self;
        engine
    }
}
