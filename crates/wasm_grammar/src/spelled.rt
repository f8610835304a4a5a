//! Readers of one integer or name, whose contracts say which bytes spell it: what is answered is spelled at the front, and what is
//! spelled at the front is answered, which makes it the only one.

ghost use Rattle.std.specs.Prelude.{ℕ, List, IfOk};
ghost use Rattle.wasm_grammar.specs.Answers.{Answers, IsDecided};
ghost use Rattle.wasm_grammar.specs.Forms.{Front};
ghost use Rattle.wasm_grammar.specs.Leb128.{IsU32, IsS32, IsTypeIndex, IsS64};
ghost use Rattle.wasm_grammar.specs.Binary.{IsBytes, IsName, IsCustom};

use crate::fault::ReadError;
use crate::numbers::{s32_of, s64_of, type_index_of, u32_of};
use crate::parts::{behind_custom, name_of, part_of};
use std::alloc::Global;
use wasm_syntax::Name;

/// The unsigned integer of 32 bits at the front, and the bytes behind it.
pub fn read_u32(bytes: &[u8]) -> Result<(u32, &[u8]), ReadError>
    ensures spelled { IfOk result (λ x. Front IsU32 0 bytes.now x.0 x.1.now) }
    ensures only { (n : ℕ) (rest : List ℕ) → Front IsU32 0 bytes.now n rest → Answers {Y = ℕ × List ℕ} (λ x. (x.0, x.1.now)) result (n, rest) }
    ensures decided { IsDecided result }
{
    u32_of(bytes)
}

/// The signed integer of 32 bits at the front, as a word in two's complement, and the bytes behind it.
pub fn read_s32(bytes: &[u8]) -> Result<(u32, &[u8]), ReadError>
    ensures spelled { IfOk result (λ x. Front IsS32 0 bytes.now x.0 x.1.now) }
    ensures only { (n : ℕ) (rest : List ℕ) → Front IsS32 0 bytes.now n rest → Answers {Y = ℕ × List ℕ} (λ x. (x.0, x.1.now)) result (n, rest) }
    ensures decided { IsDecided result }
{
    s32_of(bytes)
}

/// The signed integer of 64 bits at the front, as a word in two's complement, and the bytes behind it.
pub fn read_s64(bytes: &[u8]) -> Result<(u64, &[u8]), ReadError>
    ensures spelled { IfOk result (λ x. Front IsS64 0 bytes.now x.0 x.1.now) }
    ensures only { (n : ℕ) (rest : List ℕ) → Front IsS64 0 bytes.now n rest → Answers {Y = ℕ × List ℕ} (λ x. (x.0, x.1.now)) result (n, rest) }
    ensures decided { IsDecided result }
{
    s64_of(bytes)
}

/// The index of a type at the front, as a block's type names it (section 5.4.1), and the bytes behind it: a signed integer of 33
/// bits that isn't negative. A negative one, as the byte 7F for -1, is malformed.
pub fn read_type_index(bytes: &[u8]) -> Result<(u32, &[u8]), ReadError>
    ensures spelled { IfOk result (λ x. Front IsTypeIndex 0 bytes.now x.0 x.1.now) }
    ensures only { (n : ℕ) (rest : List ℕ) → Front IsTypeIndex 0 bytes.now n rest → Answers {Y = ℕ × List ℕ} (λ x. (x.0, x.1.now)) result (n, rest) }
    ensures decided { IsDecided result }
{
    type_index_of(bytes)
}

/// As many bytes as the number at the front tells, lent, and the bytes behind them.
pub fn read_bytes(bytes: &[u8]) -> Result<(&[u8], &[u8]), ReadError>
    ensures spelled { IfOk result (λ x. Front IsBytes 0 bytes.now x.0.now x.1.now) }
    ensures only { (part : List ℕ) (rest : List ℕ) → Front IsBytes 0 bytes.now part rest → Answers {Y = List ℕ × List ℕ} (λ x. (x.0.now, x.1.now)) result (part, rest) }
    ensures decided { IsDecided result }
{
    part_of(bytes)
}

/// The name at the front, and the bytes behind it.
pub fn read_name(alloc: Global, bytes: &[u8]) -> Result<(Name, &[u8]), ReadError>
    ensures spelled { IfOk result (λ x. Front IsName 0 bytes.now x.0 x.1.now) }
    ensures only { (name : List ℕ) (rest : List ℕ) → Front IsName 0 bytes.now name rest → Answers {Y = List ℕ × List ℕ} (λ x. (x.0, x.1.now)) result (name, rest) }
{
    name_of(alloc, bytes)
}

/// The bytes behind the custom section at the front, whose id was read.
pub fn skip_custom(bytes: &[u8]) -> Result<&[u8], ReadError>
    ensures spelled { IfOk result (λ rest. (x : List ℕ × List ℕ) × Front IsCustom 0 bytes.now x rest.now) }
    ensures only { (x : List ℕ × List ℕ) (rest : List ℕ) → Front IsCustom 0 bytes.now x rest → Answers {Y = List ℕ} (λ x. x.now) result rest }
    ensures decided { IsDecided result }
{
    behind_custom(bytes)
}
