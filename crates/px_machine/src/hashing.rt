//! Where things are looked for. No contract speaks of it: whatever stands at a place is compared
//! whole before it is believed.

/// How many places are looked at for one thing. So no choice of documents makes a look-up long.
pub const LOOKS: usize = 8;

/// How many places there are at first.
pub const FIRST_PLACES: usize = 64;

/// How many places there are at most.
pub const MOST_PLACES: usize = 1_048_576;

/// A hash that lets the bits of a number fall anywhere.
pub fn mixed(n: u64) -> u64 {
    let spread = n.wrapping_mul(0x9e37_79b9_7f4a_7c15);
    spread ^ (spread >> 32)
}

/// The hash of a list of numbers, in their order.
pub fn hash_of(list: &[u32]) -> u64 {
    let mut hash = 0;
    for n in list {
        hash = mixed(hash ^ u64::from(*n)).wrapping_add(1);
    }
    hash
}

/// The hash of two numbers.
pub fn hash_of_two(first: u32, second: u32) -> u64 {
    mixed((u64::from(first) << 32) | u64::from(second))
}

/// The place for the look of this number, of so many places, which are a power of two.
pub fn place_of(hash: u64, look: usize, room: usize) -> usize {
    (hash as usize).wrapping_add(look) & room.wrapping_sub(1)
}

/// How many places there are next, where half of them are taken.
pub fn wider(room: usize) -> usize {
    room.saturating_mul(4).max(FIRST_PLACES)
}
