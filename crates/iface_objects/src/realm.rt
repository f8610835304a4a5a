//! What the two sides share.

use crate::file::ModuleFile;
use embed_base::PlainList;
use host_values::Heap;
use iface_caches::Caches;
use wasm_store::Store;

/// The heap of the script, the store of its modules, the objects of what is in the store, the bytes of the ArrayBuffers by their
/// numbers, and the files that may be loaded.
#[derive(Drop)]
pub struct Realm {
    pub heap: Heap,
    pub store: Store,
    pub caches: Caches,
    pub buffers: PlainList<PlainList<u8>>,
    pub files: PlainList<ModuleFile>,
}
