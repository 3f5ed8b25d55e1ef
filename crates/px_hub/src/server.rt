//! Who serves a call that filters.
ghost use Rattle.std.specs.Prelude.{◌≡◌, IfOk};
ghost use Rattle.px_hub.specs.OpenCalls.{IsServer};

use crate::home::Home;
use crate::name::HubName;
use crate::pass::Pass;
use crate::reply::Why;
use std::alloc::AllocError;

/// Nobody, for a cause, or a bank.
#[derive(Drop)]
pub(crate) enum Server {
    Nobody { why: Why },
    Bank { bank: u32 },
}

impl<N: HubName> Pass<N> {
    /// Who serves a call, as far as the pass knows. Its only failure is want of memory.
    pub(crate) fn server(&self) -> Result<Server, AllocError>
        ensures { IfOk result (λ server. IsServer self.now server) }
    {
        let have = self.built.version;
        if have != self.version {
            return Ok(nobody(Why::Unsettled { have }));
        }
        match &self.home {
            Home::Bank(bank) => Ok(Server::Bank { bank: *bank }),
            Home::NoBank(words) => {
                let words = words.clone()?;
                Ok(nobody(Why::NoBank { words }))
            }
        }
    }
}

// Nobody, for the cause.
fn nobody(why: Why) -> Server
    ensures { result ≡ Server.Nobody why }
{
    Server::Nobody { why }
}
