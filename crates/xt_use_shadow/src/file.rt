//! The register file of a core that the walk makes again.
use xt_window::OwnFile;

/// Names the register files of this crate's walk.
pub struct UseUser;

/// The register file of a core that the walk makes again.
pub type UseFile = OwnFile<UseUser>;
