//! The register file of a core that the judge makes again.
use xt_window::OwnFile;

/// Names the register files of this crate's judge.
pub struct ShadowUser;

/// The register file of a core that the judge makes again.
pub type ShadowFile = OwnFile<ShadowUser>;
