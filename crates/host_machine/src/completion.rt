//! Completions.

use host_values::HostValue;

/// How a statement ends that doesn't end normally (ECMA-262, section 6.2.4): an abrupt completion.
#[derive(PartialEq, Eq, Debug, Drop)]
pub enum Completion {
    Break,
    Continue,
    Return(HostValue),
    Throw(HostValue),
}
