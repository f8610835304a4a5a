//! What a frame asks of the world.

use embed_base::{Outside, PlainList, PlainString, SharedString};
use host_values::{Class, HostValue, Key, ObjId, Target};

/// What a step comes to. All but `Went`, `Returned`, `Threw` and `Refused` wait for an answer.
#[derive(Debug, Drop)]
pub enum HostEffect {
    /// The frame went on.
    Went,
    /// A function other than `print` is called.
    Call {
        callee: ObjId,
        args: PlainList<HostValue>,
    },
    /// A predefined object is constructed.
    New {
        class: Class,
        args: PlainList<HostValue>,
    },
    /// A method of an object is called, a function of a predefined one, or, with the empty name, a predefined object itself.
    Method {
        object: Target,
        name: SharedString,
        args: PlainList<HostValue>,
    },
    /// A member is read that more than the heap decides.
    GetMember {
        object: ObjId,
        key: Key,
    },
    /// A member is written that more than the heap decides.
    SetMember {
        object: ObjId,
        key: Key,
        value: HostValue,
    },
    /// A line is printed, without its line end.
    Print(PlainString),
    /// The function, or the script, ended with this value.
    Returned(HostValue),
    /// An exception left it.
    Threw(HostValue),
    /// The run ends here.
    Refused(Outside),
}
