//! Laws of the heap for its callers, as contracts of functions that do nothing.
ghost use Rattle.host_values.specs.Laws.{AddedIsFresh, AddingKeepsObjects, BindingKeepsObjects, SameKeysAreEqual, WritingKeepsKinds, WritingKeepsOthers};

/// An object that is added is none of those before it, which stay live and as they were.
pub fn adding()
    ensures fresh { AddedIsFresh }
    ensures keeps_objects { AddingKeepsObjects }
{}

/// A write leaves each object live and of its kind, and each but one as it was.
pub fn writing()
    ensures keeps_kinds { WritingKeepsKinds }
    ensures keeps_others { WritingKeepsOthers }
    ensures bindings_apart { BindingKeepsObjects }
{}

/// Keys that are the same are equal.
pub fn same_keys()
    ensures { SameKeysAreEqual }
{}
