//! What a call counts.
ghost use Rattle.std.specs.Prelude.{◌≡◌, None};

/// How a call over a bank came by its steps, and the first word that found no place.
#[derive(Clone, Copy, Debug, PartialEq, Eq, Drop)]
pub struct Tally {
    /// Steps that were read from the bank.
    pub found: u64,
    /// Steps that were computed and put into the bank.
    pub computed: u64,
    /// Steps that the bank has no room for.
    pub own: u64,
    /// The first word of which all places of its path have words of other keys, if there was one.
    pub full: Option<u64>,
}

impl Tally {
    /// Nothing counted.
    pub fn new() -> Tally
        ensures found { result.found ≡ 0 }
        ensures computed { result.computed ≡ 0 }
        ensures own { result.own ≡ 0 }
        ensures full { result.full ≡ None }
    {
        Tally {
            found: 0,
            computed: 0,
            own: 0,
            full: None,
        }
    }
}
