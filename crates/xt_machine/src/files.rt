//! The register files of the cores.
use xt_window::FrontFile;

/// Names the register files of cores that take their turns by a list.
pub struct ListUser;

/// Names the register files of cores that a thread drives.
pub struct ThreadUser;

/// The register file of each core that takes its turns by a list: the visible registers stand apart, before the ring.
pub type File = FrontFile<ListUser>;

/// The register file of each core that a thread drives.
pub type ThreadFile = FrontFile<ThreadUser>;
