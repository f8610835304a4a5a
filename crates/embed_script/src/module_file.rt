ghost use Rattle.std.specs.Prelude.{◌≤◌, ◌^◌, length};

use embed_base::PlainString;

/// The bytes of a module's file, at most 16,777,216, and the name that a script has for it.
#[derive(Debug, Drop)]
pub struct ModuleFile {
    pub name: PlainString,
    pub bytes: Vec<u8>,
    pub ghost within: { length bytes.items ≤ 2 ^ 24 },
}
