//! The machine of one version.
use px_afa::Program;
use px_prune::Compiled;
use px_workload::Live;
use std::sync::Arc;

/// The filters that are live at a version, and their program. Whoever has that version shares it.
#[derive(Drop)]
pub(crate) struct AtVersion {
    pub(crate) version: u32,
    pub(crate) live: Arc<Live>,
    pub(crate) program: Arc<Program>,
    pub(crate) compiled: Arc<Compiled>,
}
