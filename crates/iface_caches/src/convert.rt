//! Conversions between values of scripts and of modules.
ghost use Rattle.std.specs.Prelude.{◌≡◌, ◌<◌, ◌^◌, IfOk, OnOk, OnErr, Some};
ghost use Rattle.host_values.specs.Objects.{HostHeap};
ghost use Rattle.host_convert.specs.Conversions as rows;
ghost use Rattle.host_convert.specs.declared.conv.Conv.TheVariants as conv;
ghost use Rattle.wasm_syntax.specs.declared.value.Value.TheVariants as w;
ghost use Rattle.iface_caches.specs.Agreement.{Agree, IsLater};
ghost use Rattle.iface_caches.specs.Conversions as spec;
ghost use Rattle.iface_caches.specs.Conversions.{Answers, as_value, caches_with, function_reference, heap_with, to_externref, to_funcref, to_js, with_converted, with_reference};

use crate::caches::Caches;
use crate::conversion::Conversion;
use host_convert::{Conv, to_big_int64, to_int32};
use host_values::{Callee, ErrorClass, Heap, HostValue, Kind};
use std::alloc::{AllocError, Global};
use wasm_syntax::{ValType, Value};

/// 32 bits read in two's complement.
fn signed_32(n: u32) -> i64
    ensures { result ≡ spec.signed 32 n }
{
    if n < 2_147_483_648 {
        i64::from(n)
    } else {
        i64::from(n) - 4_294_967_296
    }
}

/// 64 bits read in two's complement.
fn signed_64(n: u64) -> i128
    ensures { result ≡ spec.signed 64 n }
{
    if n < 9_223_372_036_854_775_808 {
        i128::from(n)
    } else {
        i128::from(n) - 18_446_744_073_709_551_616
    }
}

/// The i32 of a value.
fn to_i32(v: &HostValue) -> Result<Value, Conversion>
    ensures { Answers result (as_value (λ n. w.I32 n) (rows.to_int32 v.now)) }
{
    match to_int32(v) {
        Conv::Value(n) => Ok(Value::I32(n)),
        Conv::Throw(class) => Err(Conversion::Throw(class)),
        Conv::Outside(kind) => Err(Conversion::Outside(kind)),
    }
}

/// The i64 of a value.
fn to_i64(v: &HostValue) -> Result<Value, Conversion>
    ensures { Answers result (as_value (λ n. w.I64 n) (rows.to_big_int64 v.now)) }
{
    match to_big_int64(v) {
        Conv::Value(n) => Ok(Value::I64(n)),
        Conv::Throw(class) => Err(Conversion::Throw(class)),
        Conv::Outside(kind) => Err(Conversion::Outside(kind)),
    }
}

/// The reference to the function that an object of this kind is of.
fn function_of(kind: &Kind) -> Result<Value, Conversion>
    ensures { Answers result (function_reference (Some kind.now)) }
{
    match kind {
        Kind::Function(Callee::Exported(a)) => Ok(Value::Func(*a)),
        _ => Err(Conversion::Throw(ErrorClass::TypeError)),
    }
}

/// The reference to the function that a value is of.
fn to_function(heap: &Heap, v: &HostValue) -> Result<Value, Conversion>
    ensures { Answers result (to_funcref heap.now v.now) }
{
    match v {
        HostValue::Null => Ok(Value::FuncNull),
        HostValue::Object(o) if heap.has_object(*o) => function_of(heap.kind(*o)),
        _ => Err(Conversion::Throw(ErrorClass::TypeError)),
    }
}

impl Caches {
    /// ToJSValue: the value of a script that a value of a module is. A function has its Exported Function, which is made where there
    /// is none yet. An address that no value of the host has is undefined.
    pub fn to_host(
        &mut self,
        alloc: Global,
        heap: &mut Heap,
        v: Value,
    ) -> Result<HostValue, AllocError>
        ensures value { IfOk result (λ value. value ≡ to_js heap.old self.old v) }
        ensures ok { OnOk result (self.new ≡ caches_with heap.old v self.old) }
        ensures heap { OnOk result (heap.new ≡ heap_with self.old v heap.old) }
        ensures err { OnErr result ((self.new ≡ self.old) × (heap.new ≡ heap.old)) }
        ensures agree { Agree heap.old self.old → Agree heap.new self.new }
        ensures later { IsLater self.old self.new }
    {
        match v {
            Value::I32(n) => Ok(HostValue::Number(signed_32(n))),
            Value::I64(n) => Ok(HostValue::BigInt(signed_64(n))),
            Value::FuncNull | Value::ExternNull => Ok(HostValue::Null),
            Value::Func(a) => {
                let object = self.function_object(alloc, heap, a)?;
                Ok(HostValue::Object(object))
            }
            Value::Extern(a) => self.extern_value(a),
        }
    }

    // The reference to a value of the host, which has its address afterwards.
    fn to_extern(&mut self, alloc: Global, v: &HostValue) -> Result<Value, Conversion>
        ensures answer { Answers result (conv.Value (to_externref self.old v.now)) }
        ensures ok { OnOk result (self.new ≡ with_reference v.now self.old) }
        ensures err { OnErr result (self.new ≡ self.old) }
        ensures agree { (h : HostHeap) → Agree h self.old → Agree h self.new }
        ensures later { IsLater self.old self.new }
    {
        match v {
            HostValue::Null => Ok(Value::ExternNull),
            _ => {
                let a = self.extern_addr(alloc, v.clone()?)?;
                Ok(Value::Extern(a))
            }
        }
    }

    /// ToWebAssemblyValue: the value of a module, of this type, that a value of a script is. An object that isn't in the heap is no function.
    pub fn to_wasm(
        &mut self,
        alloc: Global,
        heap: &Heap,
        v: &HostValue,
        ty: ValType,
    ) -> Result<Value, Conversion>
        ensures answer { Answers result (spec.to_wasm heap.now self.old v.now ty) }
        ensures ok { OnOk result (self.new ≡ with_converted v.now ty self.old) }
        ensures err { OnErr result (self.new ≡ self.old) }
        ensures agree { Agree heap.now self.old → Agree heap.now self.new }
        ensures later { IsLater self.old self.new }
    {
        match ty {
            ValType::I32 => to_i32(v),
            ValType::I64 => to_i64(v),
            ValType::FuncRef => to_function(heap, v),
            ValType::ExternRef => self.to_extern(alloc, v),
        }
    }
}
