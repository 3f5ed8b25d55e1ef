//! One history and the space of its machines, shared by threads through a table of 64-bit words.
//!
//! It knows no XPath. Whoever needs a history to which many callers append under permits, or a
//! lock-free interner whose space is given again, says by a [`Law`] what the entries are.
//!
//! ```text
//!   word 0              bank words          the places of each bank
//!   +-----------+       +-----------+       +----------------------------+
//!   |  version  |       |  bank 0   | ----> |  node places | step places |
//!   +-----------+       |  bank 1   | ----> |  node places | step places |
//!         |             +-----------+       +----------------------------+
//!   the length of         version |           the facts of one version of
//!   the history           building|           the machine: sets by number,
//!                         count   |           steps with their results
//!
//!   who holds what                           which step is which event
//!   desk   the whole history, one permit,    Accept   an entry is accepted
//!          the state of each bank            Claim    a bank is taken for a version
//!                                            Zero, Publish   it is cleared, it stands
//!   pass   what it asked for, what it saw,   Load     the pass learns the version
//!          where it is, the words it keeps   Enter, Leave   it comes and goes
//!                                            Look, Write     it reads and adds a fact
//!   note   a copy of what was seen, and      Split    a note or a pass is made
//!          perhaps a permit                  Join     a note is taken in
//! ```
//!
//! Each thread steps with a [`Seat`]. A seat is the desk, a pass or a note, and has a view: plain
//! data that says what it knows. A view changes only by a step of its seat, and each step is one
//! atomic operation on one word of the [`Shared`] table.
//!
//! **A change.** A pass whose own entries are all among those that it has seen asks: a note with
//! the permit for one entry is split off ([`Shared::ask`]). The desk takes the note in
//! ([`Shared::join`]) and adds 1 to the version word ([`Shared::change`]). That addition is the
//! moment at which the change is accepted. The desk holds at most one permit at a time. Then notes
//! of the desk go to the passes ([`Shared::note`], [`Shared::join`]). A join tells at once that the
//! histories of both seats begin one legal history, and the desk that its own goes on from the
//! note's. A load ([`Shared::load`]) tells how long that history is.
//!
//! **The life of a bank.** The desk takes a bank with count 0 by one exchange that writes the new
//! version, the building bit and count 0 ([`Shared::claim_step`]). It stores 0 to each place and
//! takes the bit away. A pass that comes adds 1 to the count and reads the word as it was. Where
//! that shows its version and no building bit it is inside, and the count keeps the bank from being
//! taken until it leaves. Else it is stray, and leaves again.
//!
//! **The facts of a bank.** A set is named by the place of its node word, which has its least
//! element and the number of the set of the others. A step word has the operation, its operands and
//! the number of its answer. A fact is looked for along the path of its key, and is only ever
//! written to the first empty place, after each earlier place was seen to hold another key. So a
//! set has one number and a step one word, whoever comes first. What the words that a seat keeps
//! tell of sets, steps and full paths stands in `specs/Kept.antt`.
//!
//! **The rule.** Ten clauses hold of all words and all views between any two steps of any seats,
//! whatever the order. They stand one by one in `specs/Clauses.antt`, and a load tells that they
//! held: one desk and one legal history; what was seen begins it; passes have different numbers;
//! bank words count those inside; who is inside finds the bank standing; a kept word is still at
//! its place while its bank has that version; a standing bank is right for its version; one bank at
//! most is being built, and what was zeroed is 0; a failed claim found calls inside; and entries
//! are those that their passes asked for, with one permit at most.
//!
//! **What lasts.** What a seat keeps of a bank at a version, what numbers stand for in its view and
//! what is blocked is so after every later call of it, inside the bank and out of it. That, and
//! that a set has one number, are laws ([`what_is_known_lasts`],
//! [`every_call_keeps_what_is_known`], [`a_set_has_one_number`]).
//!
//! **No crate above can break a clause.** The words and the base's token are private here, so a
//! step is made by a call of this crate or not at all. The base takes a step only with a proof that
//! it keeps the rule, whatever the other seats did before it. The conditions of the calls, as that
//! a place may be written only behind words of other keys, are what these proofs need.
//!
//! Not said: that a claim succeeds, which of two steps comes first, or that a seat that was dropped
//! inside a bank ever leaves it.
#![tactic(auto)]

mod law;
mod laws;
mod plays;
mod rule;
mod shape;
mod shared;
mod steps;
mod table;
mod uses;
mod view;
mod words;

pub use law::Law;
pub use laws::{a_set_has_one_number, every_call_keeps_what_is_known, what_is_known_lasts};
pub use rule::PushRule;
pub use shape::Shape;
pub use shared::{Seat, Shared};
pub use words::{next_place, node_word, path_length, place, stands_at, step_word};
