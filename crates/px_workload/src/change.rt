//! Changes of a workload.

use px_xpath::Filter;
use std::alloc::AllocError;

/// A change of the workload. `who` is the number of whoever asks for it, and `id` that of a live
/// filter, which is the version that its `Add` made. It stays when the filter is replaced.
#[derive(Drop)]
pub enum Change {
    Add { who: u32, filter: Filter },
    Drop { who: u32, id: u32 },
    Replace { who: u32, id: u32, filter: Filter },
}

impl Change {
    ghost use Rattle.std.specs.Prelude.{◌≡◌, IfOk};
    ghost use Rattle.px_workload.specs.Changes as changes;

    /// The same change once more, its filter shared. It takes no memory, and fails only where there
    /// are 2^63 shares of the filter already.
    pub fn share(&self) -> Result<Change, AllocError>
        ensures same { IfOk result (λ shared. changes.change shared ≡ changes.change self.now) }
    {
        Ok(match self {
            Change::Add { who, filter } => Change::Add {
                who: *who,
                filter: filter.share()?,
            },
            Change::Drop { who, id } => Change::Drop { who: *who, id: *id },
            Change::Replace { who, id, filter } => Change::Replace {
                who: *who,
                id: *id,
                filter: filter.share()?,
            },
        })
    }
}
