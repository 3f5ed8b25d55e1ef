//! Filters that are shared.

ghost use Rattle.std.specs.Prelude.{◌≡◌, IfOk, IsTrue};
ghost use Rattle.px_xpath.specs.Proper.{is_proper};
ghost use Rattle.px_xpath.specs.Subscribed.{subscription};
ghost use Rattle.px_xpath.specs.Views.{way};
ghost use Rattle.px_xpath.specs.Whole as whole;

use crate::filter::{Filter, Path};
use crate::numbered::Numbered;
use std::alloc::{AllocError, Global};
use std::sync::Arc;

impl Filter {
    /// The filter of a path. It takes memory for the one that all its shares have, and fails only
    /// where that is refused.
    pub fn of(alloc: Global, path: Path) -> Result<Filter, AllocError>
        requires proper { IsTrue (is_proper (way path)) }
        ensures same { IfOk result (λ filter. whole.filter filter ≡ way path) }
    {
        Ok(Filter {
            path: Arc::new(alloc, path)?,
        })
    }

    /// The same filter once more. It takes no memory and copies nothing, and fails only where there
    /// are 2^63 shares already.
    pub fn share(&self) -> Result<Filter, AllocError>
        ensures same { IfOk result (λ shared. whole.filter shared ≡ whole.filter self.now) }
    {
        Ok(Filter {
            path: Arc::try_clone(&self.path)?,
        })
    }
}

impl Numbered {
    /// The same filter under the same id, as `Filter::share` gives it.
    pub fn share(&self) -> Result<Numbered, AllocError>
        ensures same { IfOk result (λ shared. subscription shared ≡ subscription self.now) }
    {
        Ok(Numbered {
            id: self.id,
            filter: self.filter.share()?,
        })
    }
}
