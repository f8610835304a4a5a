use wasm_store::Store;

/// What scripts and the functions of modules share: the store, and what is left of the budget.
#[derive(Drop)]
pub(crate) struct State {
    pub(crate) store: Store,
    pub(crate) left: u64,
}
