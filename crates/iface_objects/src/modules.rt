//! Buffers as modules (WebAssembly JavaScript Interface, section 5.1).
ghost use Rattle.std.specs.Prelude.{◌≡◌, IfOk, IfSome, length, nat_le, None};
ghost use Rattle.std.specs.List.{list_all};
ghost use Rattle.host_values.specs.Heaps.{kind_at};
ghost use Rattle.wasm_load.specs.Loading.{Loaded, told_of, valid};
ghost use Rattle.wasm_store.specs.Whole.{IsLater};
ghost use Rattle.iface_objects.specs.declared.answer.Answer.TheVariants as answers;
ghost use Rattle.iface_objects.specs.Loading.{Loading, IsLoading};
ghost use Rattle.iface_objects.specs.Modules as spec;
ghost use Rattle.iface_objects.specs.Realms.{Gives};
ghost use Rattle.iface_objects.specs.Sound.{IsSound, CanStart};

use crate::answer::Answer;
use crate::realm::Realm;
use embed_base::OutsideKind;
use host_values::{ErrorClass, HostValue, Kind, ObjId};
use std::alloc::{AllocError, Global};
use wasm_grammar::Foreign;
use wasm_load::{LoadError, load, loads_once};
use wasm_store::laws::{order, types_stay};
use wasm_syntax::{Export, ExportDesc, FuncType, Module, ValType};
use wasm_valid::ValidModule;

/// The bytes of a module, at most.
const MOST_MODULE_BYTES: usize = 16_777_216;

fn is_number(ty: ValType) -> bool
    ensures { result ≡ spec.is_number ty }
{
    match ty {
        ValType::I32 | ValType::I64 => true,
        ValType::FuncRef | ValType::ExternRef => false,
    }
}

fn are_numbers(types: &[ValType]) -> bool
    ensures { result ≡ list_all spec.is_number types.now }
{
    types.iter().all(|ty| is_number(*ty))
}

/// Whether a function takes and gives numbers alone.
fn is_of_numbers(ty: &FuncType) -> bool
    ensures { result ≡ spec.is_of_numbers ty.now }
{
    are_numbers(ty.params.as_slice()) && are_numbers(ty.results.as_slice())
}

/// Whether a function of the module's own is there and is of numbers.
fn is_taken_function(module: &Module, index: u32) -> bool
    ensures { result ≡ spec.is_taken_function «module».now index }
{
    let Some(func) = module.funcs.as_slice().get(index as usize) else {
        return false;
    };
    match module.types.as_slice().get(func.ty as usize) {
        Some(ty) => is_of_numbers(ty),
        None => false,
    }
}

fn is_taken_export(module: &Module, export: &Export) -> bool
    ensures { result ≡ spec.is_taken_export «module».now export.now }
{
    match export.desc {
        ExportDesc::Func(index) => is_taken_function(module, index),
        _ => false,
    }
}

fn are_taken(module: &Module, exports: &[Export]) -> bool
    ensures { result ≡ list_all (spec.is_taken_export «module».now) exports.now }
{
    exports.iter().all(|export| is_taken_export(module, export))
}

fn imports_nothing(module: &Module) -> bool
    ensures { result ≡ nat_le (length «module».now.imports) 0 }
{
    module.imports.as_slice().is_empty()
}

/// Whether a module imports nothing, and exports functions of numbers alone.
fn is_taken(module: &Module) -> bool
    ensures { result ≡ spec.is_taken «module».now }
{
    imports_nothing(module) && are_taken(module, module.exports.as_slice())
}

/// The kind of a type or instruction that is out of the profile.
fn kind_of(what: Foreign) -> OutsideKind
    ensures { result ≡ spec.kind_of what }
{
    match what {
        Foreign::Float => OutsideKind::Float,
        Foreign::Simd => OutsideKind::Simd,
    }
}

/// A new module object.
fn make_module(alloc: Global, realm: &mut Realm, module: ValidModule) -> Result<Answer, AllocError>
    ensures { IfOk result (λ a. Gives (spec.module_made realm.old «module») a realm.new) }
{
    let address = realm.store.add_module(alloc, module)?;
    let object = realm.heap.add(alloc, Kind::Module(address))?;
    Ok(Answer::Value(HostValue::Object(object)))
}

/// A new module object, where the module is one of those that are built so far.
fn take_module(alloc: Global, realm: &mut Realm, module: ValidModule) -> Result<Answer, AllocError>
    ensures { IfOk result (λ a. Gives (spec.module_loaded realm.old (valid «module»)) a realm.new) }
{
    if is_taken(module.module()) {
        make_module(alloc, realm, module)
    } else {
        Ok(refused(OutsideKind::NotYet))
    }
}

/// What loading tells, as an answer.
fn loaded(
    alloc: Global,
    realm: &mut Realm,
    told: Result<ValidModule, LoadError>,
) -> Result<Answer, AllocError>
    ensures { IfOk result (λ a. (answer : Loaded) → IfSome (told_of told) (λ t. t ≡ answer) → Gives (spec.module_loaded realm.old answer) a realm.new) }
{
    match told {
        Ok(module) => take_module(alloc, realm, module),
        Err(LoadError::Malformed) => Ok(Answer::Throw(ErrorClass::CompileError)),
        Err(LoadError::Invalid { .. }) => Ok(Answer::Throw(ErrorClass::CompileError)),
        Err(LoadError::Outside { place, what }) => Ok(Answer::Outside {
            kind: kind_of(what),
            module_place: Some(place),
        }),
        Err(LoadError::NoMemory) => Err(AllocError),
    }
}

/// A named refusal at the place of the call.
pub(crate) fn refused(kind: OutsideKind) -> Answer
    ensures { result ≡ answers.Outside kind None }
{
    Answer::Outside {
        kind,
        module_place: None,
    }
}

/// The module of a buffer's bytes. A number of no buffer has none.
fn module_of_buffer(alloc: Global, realm: &mut Realm, number: u64) -> Result<Answer, AllocError>
    ensures { (load : Loading) → IsLoading load → IfOk result (λ a. Gives (spec.module_of_buffer load realm.old number) a realm.new) }
{
    let told = match realm.buffers.as_slice().get(number as usize) {
        Some(bytes) => {
            if bytes.len() > MOST_MODULE_BYTES {
                return Ok(refused(OutsideKind::ModuleSize));
            }
            load(alloc, bytes.as_slice())
        }
        None => return Ok(Answer::Throw(ErrorClass::TypeError)),
    };
    loaded(alloc, realm, told)
}

/// The module of an object, where that is a buffer.
fn module_of_object(alloc: Global, realm: &mut Realm, object: ObjId) -> Result<Answer, AllocError>
    ensures { (load : Loading) → IsLoading load → IfOk result (λ a. Gives (spec.module_of_kind load realm.old (kind_at realm.old.heap object)) a realm.new) }
{
    if !realm.heap.has_object(object) {
        return Ok(Answer::Throw(ErrorClass::TypeError));
    }
    match realm.heap.kind(object) {
        Kind::Buffer(number) => {
            let number = *number;
            module_of_buffer(alloc, realm, number)
        }
        Kind::View { .. } => Ok(refused(OutsideKind::NotYet)),
        _ => Ok(Answer::Throw(ErrorClass::TypeError)),
    }
}

/// The module of a value, where that is a buffer.
fn module_of_value(
    alloc: Global,
    realm: &mut Realm,
    bytes: &HostValue,
) -> Result<Answer, AllocError>
    ensures { (load : Loading) → IsLoading load → IfOk result (λ a. Gives (spec.module_constructed load realm.old bytes.now) a realm.new) }
{
    match bytes {
        HostValue::Object(object) => module_of_object(alloc, realm, *object),
        _ => Ok(Answer::Throw(ErrorClass::TypeError)),
    }
}

/// `new WebAssembly.Module(bytes)`.
pub(crate) fn construct_module(
    alloc: Global,
    realm: &mut Realm,
    bytes: &HostValue,
) -> Result<Answer, AllocError>
    requires sound { IsSound realm.old }
    ensures gives { (load : Loading) → IsLoading load → IfOk result (λ a. Gives (spec.module_constructed load realm.old bytes.now) a realm.new) }
    ensures sound { IfOk result (λ a. IsSound realm.new) }
    ensures starts { IfOk result (λ a. CanStart realm.new.store a) }
    ensures later { IfOk result (λ a. IsLater realm.old.store realm.new.store) }
{
    loads_once();
    order();
    types_stay();
    module_of_value(alloc, realm, bytes)
}
