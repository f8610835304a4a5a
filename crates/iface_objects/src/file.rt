//! Files that a script may load.

use embed_base::{PlainList, PlainString};

/// A file that a script may load: the name that the script gives it, and its bytes.
#[derive(Debug, Drop)]
pub struct ModuleFile {
    pub name: PlainString,
    pub bytes: PlainList<u8>,
}
