//! `Object.keys`.
ghost use Rattle.std.specs.Prelude.{◌≡◌, ◌≤◌, length, map, IfOk, OnOk, OnErr};
ghost use Rattle.host_values.specs.declared.values.HostValue.TheVariants as values;
ghost use Rattle.host_values.specs.KeyOrder.{text_of_key};
ghost use Rattle.host_builtins.specs.Calls.{has_keys, keys_call, object_keys, texts_made};
ghost use Rattle.host_builtins.specs.Replies.{first_argument};

use crate::replies::Reply;
use embed_base::OutsideKind;
use embed_base::limits::MOST_ELEMENTS;
use host_values::{ErrorClass, Heap, HostValue, Key, Kind, ObjId};
use std::alloc::{AllocError, Global};

/// Whether an object of this kind has keys.
fn has_keys(kind: &Kind) -> bool
    ensures { result ≡ has_keys kind.now }
{
    matches!(kind, Kind::Plain | Kind::Exports | Kind::Array)
}

/// The texts of keys.
fn texts(alloc: Global, keys: &[Key]) -> Result<Vec<HostValue>, AllocError>
    ensures { IfOk result (λ v. v.items ≡ map (λ k. values.Text (text_of_key k)) keys.now) }
{
    let mut texts = Vec::new(alloc);
    for key in keys {
        let text = key.to_text(alloc)?;
        texts.push(HostValue::Text(text))?;
    }
    Ok(texts)
}

/// An Array of the texts of keys.
fn make_texts(alloc: Global, heap: &mut Heap, keys: &[Key]) -> Result<Reply, AllocError>
    ensures reply { IfOk result (λ r. r ≡ (texts_made heap.old keys.now).reply) }
    ensures ok { OnOk result (heap.new ≡ (texts_made heap.old keys.now).heap) }
    ensures err { OnErr result (heap.new ≡ heap.old) }
{
    if keys.len() > MOST_ELEMENTS as usize {
        return Ok(Reply::Outside(OutsideKind::ArraySize));
    }
    let texts = texts(alloc, keys)?;
    let array = heap.add_array(alloc, texts)?;
    Ok(Reply::Value(HostValue::Object(array)))
}

/// The keys of an object. A number of no object has none.
fn keys_of(alloc: Global, heap: &mut Heap, o: ObjId) -> Result<Reply, AllocError>
    ensures reply { IfOk result (λ r. r ≡ (object_keys heap.old o).reply) }
    ensures ok { OnOk result (heap.new ≡ (object_keys heap.old o).heap) }
    ensures err { OnErr result (heap.new ≡ heap.old) }
{
    if !heap.has_object(o) || !has_keys(heap.kind(o)) {
        return Ok(Reply::Outside(OutsideKind::Argument));
    }
    let keys = heap.keys(alloc, o)?;
    make_texts(alloc, heap, &keys)
}

/// `Object.keys(v)` (ECMA-262, section 20.1.2.18).
pub fn keys(alloc: Global, heap: &mut Heap, args: &[HostValue]) -> Result<Reply, AllocError>
    ensures reply { IfOk result (λ r. r ≡ (keys_call heap.old (first_argument args.now)).reply) }
    ensures ok { OnOk result (heap.new ≡ (keys_call heap.old (first_argument args.now)).heap) }
    ensures err { OnErr result (heap.new ≡ heap.old) }
{
    match args.first() {
        None | Some(HostValue::Undefined) | Some(HostValue::Null) => {
            Ok(Reply::Throw(ErrorClass::TypeError))
        }
        Some(HostValue::Object(o)) => keys_of(alloc, heap, *o),
        Some(_) => Ok(Reply::Outside(OutsideKind::Argument)),
    }
}
