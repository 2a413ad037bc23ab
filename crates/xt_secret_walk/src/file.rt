//! The register file of a core of the walk.
use xt_window::OwnFile;

/// Names the register files of this crate's walk.
pub struct WatchedUser;

/// The register file of a core of the walk.
pub type WatchedFile = OwnFile<WatchedUser>;
