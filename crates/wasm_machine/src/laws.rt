//! Laws of frames, as contracts of functions that do nothing.

ghost use Rattle.wasm_machine.specs.Fits.{FitsLater, CodeStays, FramesStay, WaitingStays};

use wasm_store::laws;

/// A frame that fits a store fits each store that it becomes, and what is left of its code stays.
pub fn frames_stay()
    ensures typed { FitsLater }
    ensures code { CodeStays }
    ensures fits { FramesStay }
    ensures waits { WaitingStays }
{
    laws::types_stay();
    laws::instances_stay();
}
