//! Kinds of things that have an object each.

/// What a module imports and exports (WebAssembly JavaScript Interface, section 5.1, ImportExportKind).
#[derive(Clone, Copy, PartialEq, Eq, Debug)]
pub enum ExternalKind {
    Function,
    Memory,
    Table,
    Global,
}
