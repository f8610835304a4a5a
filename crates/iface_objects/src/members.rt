//! The calls of the interface.
ghost use Rattle.std.specs.Prelude.{◌≡◌, IfOk, slice_index_or, Some};
ghost use Rattle.host_values.specs.declared.keys.Key.{Key};
ghost use Rattle.host_values.specs.declared.kinds.Callee.TheVariants as callees;
ghost use Rattle.host_values.specs.declared.kinds.Kind.TheVariants as kinds;
ghost use Rattle.host_values.specs.declared.values.HostValue.TheVariants as values;
ghost use Rattle.wasm_syntax.specs.declared.addresses.FuncAddr.{FuncAddr};
ghost use Rattle.wasm_store.specs.Whole.{IsLater};
ghost use Rattle.iface_objects.specs.Loading.{Loading, IsLoading};
ghost use Rattle.iface_objects.specs.Instances.{second_argument};
ghost use Rattle.iface_objects.specs.Members as spec;
ghost use Rattle.iface_objects.specs.Modules.{first_argument};
ghost use Rattle.iface_objects.specs.Realms.{Gives};
ghost use Rattle.iface_objects.specs.Sound.{CanStart, IsCallable, IsSound};

use crate::answer::Answer;
use crate::buffers::readbuffer;
use crate::instances::construct_instance;
use crate::modules::{construct_module, refused};
use crate::realm::Realm;
use embed_base::OutsideKind;
use host_values::{Callee, Class, HostValue, Key, Kind, ObjId, Target};
use std::alloc::{AllocError, Global};
use wasm_store::laws::order;

/// The argument with this number, undefined where it is missing.
fn argument(args: &[HostValue], index: usize) -> Result<HostValue, AllocError>
    ensures { IfOk result (λ v. v ≡ slice_index_or args.now index values.Undefined) }
{
    match args.get(index) {
        Some(value) => value.clone(),
        None => Ok(HostValue::Undefined),
    }
}

/// The first argument.
fn first_argument(args: &[HostValue]) -> Result<HostValue, AllocError>
    ensures { IfOk result (λ v. v ≡ first_argument args.now) }
{
    argument(args, 0)
}

/// The second argument.
fn second_argument(args: &[HostValue]) -> Result<HostValue, AllocError>
    ensures { IfOk result (λ v. v ≡ second_argument args.now) }
{
    argument(args, 1)
}

/// `new` of a predefined class. The error comes only where memory is wanting; nothing is said of the realm then, here and below.
pub fn construct(
    alloc: Global,
    realm: &mut Realm,
    class: Class,
    args: &[HostValue],
) -> Result<Answer, AllocError>
    requires sound { IsSound realm.old }
    ensures gives { (load : Loading) → IsLoading load → IfOk result (λ a. Gives (spec.constructed load realm.old class args.now) a realm.new) }
    ensures sound { IfOk result (λ a. IsSound realm.new) }
    ensures starts { IfOk result (λ a. CanStart realm.new.store a) }
    ensures later { IfOk result (λ a. IsLater realm.old.store realm.new.store) }
{
    order();
    match class {
        Class::Module => {
            let bytes = first_argument(args)?;
            construct_module(alloc, realm, &bytes)
        }
        Class::Instance => {
            let module = first_argument(args)?;
            let imports = second_argument(args)?;
            construct_instance(alloc, realm, &module, &imports)
        }
        _ => Ok(refused(OutsideKind::NotYet)),
    }
}

/// A call of a method, of a predefined function, or, with the empty name, of a predefined object itself.
pub fn method(
    alloc: Global,
    realm: &mut Realm,
    object: Target,
    name: &str,
    args: &[HostValue],
) -> Result<Answer, AllocError>
    requires sound { IsSound realm.old }
    ensures gives { IfOk result (λ a. Gives (spec.method_called realm.old object name.now args.now) a realm.new) }
    ensures sound { IfOk result (λ a. IsSound realm.new) }
    ensures store { IfOk result (λ a. realm.new.store ≡ realm.old.store) }
{
    let _ = name;
    match object {
        Target::Builtin(Class::Readbuffer) => {
            let name = first_argument(args)?;
            readbuffer(alloc, realm, &name)
        }
        _ => Ok(refused(OutsideKind::NotYet)),
    }
}

/// A member of a function object.
fn function_member(realm: &Realm, callee: Callee) -> Answer
    requires named { (a : FuncAddr) → callee ≡ callees.Exported a → IsCallable realm.now.store a }
    ensures gives { (key : Key) → Gives (spec.kind_read realm.now key (Some (kinds.Function callee))) result realm.now }
{
    match callee {
        Callee::Exported(func) => {
            let count = realm.store.func(func).ty().params.as_slice().len();
            Answer::Value(HostValue::Number(count as i64))
        }
        _ => refused(OutsideKind::NotYet),
    }
}

/// A member of an object that is read, where the heap alone doesn't decide it.
pub fn member(realm: &Realm, object: ObjId, key: &Key) -> Answer
    requires sound { IsSound realm.now }
    ensures gives { Gives (spec.member_read realm.now object key.now) result realm.now }
{
    if !realm.heap.has_object(object) {
        return refused(OutsideKind::NotYet);
    }
    match realm.heap.kind(object) {
        Kind::Instance { exports } => {
            if key.is_name("exports") {
                Answer::Value(HostValue::Object(*exports))
            } else {
                refused(OutsideKind::ObjectMember)
            }
        }
        Kind::Buffer(_) => {
            if key.is_name("byteLength") {
                refused(OutsideKind::NotYet)
            } else {
                refused(OutsideKind::ObjectMember)
            }
        }
        Kind::Function(callee) => function_member(realm, *callee),
        _ => refused(OutsideKind::NotYet),
    }
}

/// A member of an object that is written, where the heap alone doesn't decide it.
pub fn set_member(realm: &Realm, object: ObjId, key: &Key, value: &HostValue) -> Answer
    ensures gives { Gives (spec.member_written realm.now object key.now value.now) result realm.now }
{
    let _ = realm;
    let _ = object;
    let _ = key;
    let _ = value;
    refused(OutsideKind::NotYet)
}
