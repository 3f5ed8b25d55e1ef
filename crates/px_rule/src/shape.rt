//! How large the table is.
ghost use Rattle.std.specs.Prelude.{◌≡◌, ◌^◌, ◌≤◌};
ghost use Rattle.px_rule.specs.Words.{IsShape, nodes_of, steps_of, size_of};

/// How many banks there are, and how many bits name the node places and the step places of a bank.
#[derive(Clone, Copy, Debug, PartialEq, Eq, Drop)]
pub struct Shape {
    pub banks: u32,
    pub node_bits: u32,
    pub step_bits: u32,
}

impl Shape {
    /// How many node places a bank has.
    pub fn node_places(&self) -> u32
        requires shape { IsShape self.now }
        ensures number { result ≡ nodes_of self.now }
        ensures bounds { (16 ≤ result) × (result ≤ 1048576) }
    {
        two_to(self.node_bits)
    }

    /// How many step places a bank has.
    pub fn step_places(&self) -> u32
        requires shape { IsShape self.now }
        ensures number { result ≡ steps_of self.now }
        ensures bounds { (16 ≤ result) × (result ≤ 1048576) }
    {
        two_to(self.step_bits)
    }

    /// How many places a bank has.
    pub fn bank_places(&self) -> u32
        requires shape { IsShape self.now }
        ensures number { result ≡ size_of self.now }
        ensures bounds { (32 ≤ result) × (result ≤ 2097152) }
    {
        self.node_places() + self.step_places()
    }
}

pub(crate) fn two_to(bits: u32) -> u32
    requires bits { (4 ≤ bits) × (bits ≤ 20) }
    ensures number { result ≡ 2 ^ bits }
    ensures bounds { (16 ≤ result) × (result ≤ 1048576) }
{
    1 << bits
}
