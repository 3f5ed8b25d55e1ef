//! One workload for many callers: one history of changes, passes that have seen beginnings of it,
//! and the banks in which the machines of its versions are kept.
//!
//! Callers subscribe, drop and replace filters through a [`Hub`], each with a [`Pass`] of its own.
//! Whatever the order of their steps, accepted changes form one history, each caller's once and in
//! its order, and a pass knows a beginning of it.
//!
//! ```text
//!   a caller, with its Pass                     behind the lock: the desk
//!   +-----------------------------+             +--------------------------------+
//!   | what it has seen            |  changes    | all changes, as a journal      |
//!   | the filters live behind it  | ----------> | the version of each bank       |
//!   | a program, its bank or none | <---------- | the newest program, built once |
//!   +-----------------------------+  refreshes  +--------------------------------+
//!        |          ^
//!   Hub::note   Hub::meet         a Note is what a pass has seen, for another pass: no lock
//! ```
//!
//! **A change** ([`Hub::subscribe`], [`Hub::unsubscribe`], [`Hub::replace`]) waits for the lock.
//! The desk takes in a note of the pass with the permit for that change, and accepts it, which is
//! one addition to the version word; a note of the desk then tells the pass of all changes before
//! it. So the pass has then seen what it had, changes of others, and its own as the last. A refused
//! change is told against what the pass has then seen, and where memory is refused nothing has
//! changed.
//!
//! **A refresh** ([`Hub::refresh`], [`Hub::refresh_all`]) gives a pass the newest version, its
//! program, and a bank: the first that stands at that version, or else the one at the lowest
//! version that no call is inside, cleared and made to stand. Where calls are inside all banks, the
//! pass keeps the word that each claim found. Passes at one version share one program.
//!
//! **A note** ([`Hub::note`], [`Hub::meet`]) copies no history: what was seen stands in proofs
//! alone, and the live filters are shared. It takes no lock.
//!
//! **Where it is said.** `specs/Calls.antt` has a relation for each call, between the pass before
//! and after it; `specs/Passes.antt` what holds of every pass, note and desk. [`Pass::version`]
//! tells that each entry that a pass has seen names a pass of the hub, and that those that name it
//! are the changes that it asked for.
//!
//! **Threads** may share a hub, and a pass and a note may go to another thread
//! ([`threads_may_share_a_hub`]).
//!
//! **Which hub.** A pass is of the hub that its type parameter names ([`HubName`]): the caller
//! makes [`Parts`], hands them to a function of its own that is generic in a name, with std's
//! `Brand` for it, and that calls [`Hub::create`].
//!
//! **A document** ([`Hub::filter`]) is filtered at the version that its pass has reached: with
//! exactly the filters that are live there, whose ids the [`Reply`] lists. It takes no lock and
//! waits for nobody. The pass enters its bank, makes each step of the machine there (px_call),
//! and leaves it on every answer. Where no bank serves it, a machine of its own makes all steps:
//!
//! ```text
//!   Why          the steps                          when
//!   Unsettled    all are the call's own             the program is of another version
//!   NoBank       all are the call's own             the last refresh found calls inside all banks
//!   Gone         all are the call's own             the bank was found at a later version
//!   Full         some are the call's own            the bank had no place for a word
//!   Settled      each was found, or computed and    none of these
//!                stands in the bank since
//! ```
//!
//! `specs/Replying.antt` ties a reply, or the fault of the bytes, to the pass before and after
//! (`Filters`): its counts add up to the steps of the document's run; which bank it entered and
//! what word it found there; what its view shows of each step; and that only words of the
//! document's run were written. A document whose steps all stood in the bank is found again
//! ([`a_settled_document_is_found_again`]).
//!
//! **An open call** takes the events of a document one by one ([`Hub::begin`], [`Hub::advance`]),
//! and then answers as `filter` does ([`Hub::finish`]) or leaves ([`Hub::abandon`]). The pass stays
//! inside its bank, and is refused by every other call meanwhile ([`Pass::is_open`] tells).
//! `specs/OpenCalls.antt` says what a call has taken, and [`an_open_call_counts_its_steps`] what
//! follows.
//!
//! Not said: which of two changes at the same time is first, that a claim succeeds, or anything of
//! waiting.
#![tactic(auto)]

mod alone;
mod at_version;
mod banks;
mod call;
mod changes;
mod config;
mod crossing;
mod desk;
mod engine;
mod entrance;
mod exchange;
mod faults;
mod filtering;
mod home;
mod hub;
mod law;
mod laws;
mod lone;
mod machine;
mod name;
mod note;
mod open_calls;
mod parts;
mod pass;
mod reply;
mod server;
mod together;

pub use call::Call;
pub use config::Config;
pub use crossing::threads_may_share_a_hub;
pub use faults::{ReplaceFault, SubscribeFault, UnsubscribeFault};
pub use home::Home;
pub use hub::Hub;
pub use law::Workload;
pub use laws::{a_settled_document_is_found_again, an_open_call_counts_its_steps};
pub use name::HubName;
pub use note::Note;
pub use parts::Parts;
pub use pass::Pass;
pub use reply::{FilterCallFault, Reply, Why};
