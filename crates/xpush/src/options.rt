//! The options of the commands.
use px_options::CommandOption;

pub(crate) const SEED: CommandOption = CommandOption {
    name: "seed",
    least: 0,
    most: 2_147_483_647,
    default: None,
};

pub(crate) const FILTERS: CommandOption = CommandOption {
    name: "filters",
    least: 0,
    most: 50_000,
    default: None,
};

pub(crate) const DOCUMENTS: CommandOption = CommandOption {
    name: "documents",
    least: 0,
    most: 100_000,
    default: None,
};

pub(crate) const WORKERS: CommandOption = CommandOption {
    name: "workers",
    least: 1,
    most: 64,
    default: None,
};

pub(crate) const BANKS: CommandOption = CommandOption {
    name: "banks",
    least: 1,
    most: 16,
    default: Some(2),
};

pub(crate) const NODE_BITS: CommandOption = CommandOption {
    name: "node-bits",
    least: 4,
    most: 20,
    default: Some(16),
};

pub(crate) const STEP_BITS: CommandOption = CommandOption {
    name: "step-bits",
    least: 4,
    most: 20,
    default: Some(18),
};
