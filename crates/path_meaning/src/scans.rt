//! Scans of roots.
use bs_outside::Texts;

/// What lies below a root of the load path. Paths are relative to the root, and ascend by their bytes.
#[derive(Drop, Debug)]
pub struct RootScan {
    /// The greatest time of the root and of the folders below it, in seconds below 2^63. In a scan it is missing where the root is no
    /// folder, in an item of a store file where the root is stable.
    pub latest: Option<u64>,
    /// The files that end in `.rb`.
    pub files: Texts,
    /// The folders.
    pub dirs: Texts,
}
