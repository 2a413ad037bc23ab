//! The register file of a run that is made again.
use xt_window::OwnFile;

/// Names the register files of this crate's walk.
pub(crate) struct WalkUser;

/// The register file of a run that is made again.
pub(crate) type WalkFile = OwnFile<WalkUser>;
