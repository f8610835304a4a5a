//! Shown forms.

use crate::samples::Sample;

/// A value, and its shown form.
pub(crate) static SHOWN: [(Sample, &str); 29] = [
    (Sample::Undefined, "undefined"),
    (Sample::Null, "null"),
    (Sample::Bool(true), "true"),
    (Sample::Bool(false), "false"),
    (Sample::Number(0), "0"),
    (Sample::Number(-9_007_199_254_740_991), "-9007199254740991"),
    (Sample::BigInt(7), "7n"),
    (Sample::BigInt(-1), "-1n"),
    (Sample::Text("a b"), "a b"),
    (Sample::Text(""), ""),
    (Sample::Object(0), "[Function]"),
    (Sample::Object(1), "[Object]"),
    (Sample::Object(2), "[Object]"),
    (Sample::Object(3), "[Array]"),
    (Sample::Object(4), "LinkError: m: n"),
    (Sample::Object(5), "TypeError"),
    (Sample::Object(6), "[Function]"),
    (Sample::Object(8), "[Function]"),
    (Sample::Object(9), "[Function]"),
    (Sample::Object(10), "[Function]"),
    (Sample::Object(12), "[Promise]"),
    (Sample::Object(13), "[ArrayBuffer]"),
    (Sample::Object(14), "[Uint8Array]"),
    (Sample::Object(15), "[Module]"),
    (Sample::Object(16), "[Instance]"),
    (Sample::Object(17), "[Memory]"),
    (Sample::Object(18), "[Table]"),
    (Sample::Object(19), "[Global]"),
    (Sample::Object(20), "[Suspending]"),
];
