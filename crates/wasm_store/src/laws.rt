//! Laws of stores, as contracts of functions that do nothing.

ghost use Rattle.wasm_store.specs.Laws.{NothingChanges, LaterStays, ValuesStayTyped, ModulesStay, FunctionsStay, TablesStay, MemoriesStay, GlobalsStay, ElementsStay, DatasStay};
ghost use Rattle.wasm_store.specs.Allocated.{ModulesAreAllocated};
ghost use Rattle.wasm_store.specs.Laws.{InstancesStay, ListsStay, FunctionOfIndex, TableOfIndex, GlobalOfIndex, ElementOfIndex, MemoryOfIndex, DataOfIndex};

/// Each call leaves a later store, and what is later than that is later than the first.
pub fn order()
    ensures same { NothingChanges }
    ensures through { LaterStays }
{}

/// A live address stays live with its type, and the size of a table or memory only rises.
pub fn types_stay()
    ensures values { ValuesStayTyped }
    ensures modules { ModulesStay }
    ensures functions { FunctionsStay }
    ensures tables { TablesStay }
    ensures memories { MemoriesStay }
    ensures globals { GlobalsStay }
{}

/// A live segment stays live. It keeps what it has until it is dropped, and is empty from then on.
pub fn segments_stay()
    ensures elements { ElementsStay }
    ensures datas { DatasStay }
{}

/// The lists of an instance stay once they are set.
pub fn instances_stay()
    ensures instances { InstancesStay }
    ensures lists { ListsStay }
{}

/// What an index of a module names in its instance.
pub fn indices()
    ensures functions { FunctionOfIndex }
    ensures tables { TableOfIndex }
    ensures globals { GlobalOfIndex }
    ensures elements { ElementOfIndex }
    ensures memories { MemoryOfIndex }
    ensures datas { DataOfIndex }
{}

/// What a typed module becomes in a store (WebAssembly Core 2.0, section 4.5.3.8): the store is whole, and the instance has its lists.
pub fn modules_are_allocated()
    ensures { ModulesAreAllocated }
{}
