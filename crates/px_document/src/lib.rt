//! One document that is read from a source, and what `explain` and `verify` find of it.
//!
//! [`explanation`] is what a filter and a document are explained by, and [`verification`] what a
//! proof shows of them: each answers one [`Finding`], whose text and status are those of the run.
//! What is found is defined in `specs/Outputs.antt`; the law says that it is one thing. Where the
//! source meets a fault before, no line that was read whole is at fault. The document is taken
//! piece by piece, and its tree is made at the end of the source (`document`).
#![tactic(auto)]

mod document;
mod explaining;
mod finding;
mod laws;
mod opening;
mod stop;
mod verifying;

pub use explaining::explanation;
pub use finding::{Finding, text_of};
pub use laws::a_finding_is_one;
pub use stop::Cut;
pub use verifying::verification;
