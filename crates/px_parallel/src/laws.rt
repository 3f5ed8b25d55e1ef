//! Laws of the sums over a feed.
ghost use Rattle.std.specs.Prelude.{◌≡◌, ℕ, List};
ghost use Rattle.px_parallel.specs.Sums.{OutLoad};

/// What `load` writes is a function of the seed and of how many filters and documents there are.
pub fn a_load_has_one_line()
    ensures { (seed filters documents : ℕ) (text other : List ℕ) →
        OutLoad seed filters documents text → OutLoad seed filters documents other →
        text ≡ other }
{}
