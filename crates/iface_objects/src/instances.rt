//! Instances of modules (WebAssembly JavaScript Interface, section 5.2).
ghost use Rattle.std.specs.Prelude.{◌≡◌, IfOk};
ghost use Rattle.wasm_store.specs.Whole.{IsLater};
ghost use Rattle.host_values.specs.Heaps.{next_object, with_object};
ghost use Rattle.iface_objects.specs.Instances as spec;
ghost use Rattle.iface_objects.specs.Realms.{Gives};
ghost use Rattle.iface_objects.specs.Sound.{IsLoaded, IsSound, CanStart};

use crate::answer::Answer;
use crate::exports::properties;
use crate::realm::Realm;
use host_values::laws::same_keys;
use host_values::{ErrorClass, Heap, HostValue, Kind, ObjId};
use iface_caches::Caches;
use std::alloc::{AllocError, Global};
use wasm_instance::{Instantiated, instantiate};
use wasm_store::Instance;
use wasm_store::laws::{indices, order, types_stay};
use wasm_syntax::{FuncAddr, ModuleAddr};
use wasm_valid::ValidModule;

/// The instance object with its exports object.
fn make_objects(
    alloc: Global,
    instance: &Instance,
    module: &ValidModule,
    heap: &mut Heap,
    caches: &mut Caches,
) -> Result<ObjId, AllocError>
    ensures object { IfOk result (λ o. o ≡ spec.instance_object (spec.exported «instance».now «module».now.exports heap.old caches.old)) }
    ensures heap { IfOk result (λ o. heap.new ≡ spec.heap_with_instance (spec.exported «instance».now «module».now.exports heap.old caches.old)) }
    ensures caches { IfOk result (λ o. caches.new ≡ (spec.exported «instance».now «module».now.exports heap.old caches.old).caches) }
{
    same_keys();
    let exports = module.module().exports.as_slice();
    let pairs = properties(alloc, instance, exports, heap, caches)?;
    let exports = heap.add_exports(alloc, pairs)?;
    heap.add(alloc, Kind::Instance { exports })
}

/// An instance whose start function, if any, is to run.
fn started(object: ObjId, start: Option<FuncAddr>) -> Answer
    ensures { result ≡ spec.started_as object start }
{
    match start {
        Some(func) => Answer::Start {
            func,
            instance: object,
        },
        None => Answer::Value(HostValue::Object(object)),
    }
}

/// An instance of a module without imports.
fn instance_of_module(
    alloc: Global,
    realm: &mut Realm,
    module: ModuleAddr,
) -> Result<Answer, AllocError>
    requires sound { IsSound realm.old }
    requires loaded { IsLoaded realm.old.store «module» }
    ensures gives { IfOk result (λ a. Gives (spec.instance_of_module realm.old «module») a realm.new) }
    ensures sound { IfOk result (λ a. IsSound realm.new) }
    ensures starts { IfOk result (λ a. CanStart realm.new.store a) }
    ensures later { IfOk result (λ a. IsLater realm.old.store realm.new.store) }
{
    indices();
    types_stay();
    let imports = Instance::blank(alloc, module);
    match instantiate(alloc, &mut realm.store, module, &imports)? {
        Instantiated::Ready { instance, start } => {
            let object = make_objects(
                alloc,
                realm.store.instance(instance),
                realm.store.module(module),
                &mut realm.heap,
                &mut realm.caches,
            )?;
            Ok(started(object, start))
        }
        Instantiated::Trapped(_) => Ok(Answer::Throw(ErrorClass::RuntimeError)),
        Instantiated::PastLimit => Ok(Answer::Throw(ErrorClass::RangeError)),
    }
}

fn is_imports(value: &HostValue) -> bool
    ensures { result ≡ spec.is_imports value.now }
{
    matches!(value, HostValue::Undefined | HostValue::Object(_))
}

/// An instance of a module, where the value may stand for the imports.
fn instance_with(
    alloc: Global,
    realm: &mut Realm,
    module: ModuleAddr,
    imports: &HostValue,
) -> Result<Answer, AllocError>
    requires sound { IsSound realm.old }
    requires loaded { IsLoaded realm.old.store «module» }
    ensures gives { IfOk result (λ a. Gives (spec.instance_with realm.old «module» imports.now) a realm.new) }
    ensures sound { IfOk result (λ a. IsSound realm.new) }
    ensures starts { IfOk result (λ a. CanStart realm.new.store a) }
    ensures later { IfOk result (λ a. IsLater realm.old.store realm.new.store) }
{
    order();
    if is_imports(imports) {
        instance_of_module(alloc, realm, module)
    } else {
        Ok(Answer::Throw(ErrorClass::TypeError))
    }
}

/// `new WebAssembly.Instance(module, imports)`.
pub(crate) fn construct_instance(
    alloc: Global,
    realm: &mut Realm,
    module: &HostValue,
    imports: &HostValue,
) -> Result<Answer, AllocError>
    requires sound { IsSound realm.old }
    ensures gives { IfOk result (λ a. Gives (spec.instance_constructed realm.old «module».now imports.now) a realm.new) }
    ensures sound { IfOk result (λ a. IsSound realm.new) }
    ensures starts { IfOk result (λ a. CanStart realm.new.store a) }
    ensures later { IfOk result (λ a. IsLater realm.old.store realm.new.store) }
{
    order();
    let HostValue::Object(object) = module else {
        return Ok(Answer::Throw(ErrorClass::TypeError));
    };
    if !realm.heap.has_object(*object) {
        return Ok(Answer::Throw(ErrorClass::TypeError));
    }
    match realm.heap.kind(*object) {
        Kind::Module(address) => {
            let address = *address;
            instance_with(alloc, realm, address, imports)
        }
        _ => Ok(Answer::Throw(ErrorClass::TypeError)),
    }
}
