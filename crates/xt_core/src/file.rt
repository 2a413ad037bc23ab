//! The register file of a cursor.
use xt_window::OwnFile;

/// Names the register files of cursors.
pub(crate) struct CursorUser;

/// The register file of a cursor.
pub(crate) type CursorFile = OwnFile<CursorUser>;
