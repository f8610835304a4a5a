ghost use Rattle.std.specs.Prelude.{◌≡◌, ℕ, List, Some, None, Ok, Err, IfOk, IfSome, IsSomeAnd, MatchOption, true, length, slice_index_or, ◌≤◌, ◌<◌, ◌^◌};
ghost use Rattle.wasm_grammar.specs.Decoding.{Decoded, Decodes};
ghost use Rattle.wasm_store.specs.Store.{instance_at};
ghost use Rattle.wasm_store.specs.Whole.{IsLater, own_type, AllHaveCode, HasSameCode};
ghost use Rattle.wasm_store.specs.Allocated.{func_addr};
ghost use Rattle.wasm_instance.specs.Laws.{IsStart};
ghost use Rattle.embed_script.specs.Functions.{Modules, decoded_of, typed, module_of, compiled_of, exported_index, is_self_contained, is_i32, are_i32, is_one_i32, is_word_type, has_word_type, exported, started, instance_with, instance_of, kind_of};
ghost use Rattle.embed_script.specs.ModuleFiles.{AreDecodings};
ghost use Rattle.embed_script.specs.Serving.{IsCallable};
ghost use Rattle.embed_script.specs.Stops.{Meets, MeetsIn, Leaves, Offers};

use crate::charge::{CALL, charge};
use crate::functions::run;
use crate::module_file::ModuleFile;
use crate::state::State;
use crate::stop::{Stop, refuse};
use embed_base::{Outside, OutsideKind, Place};
use std::alloc::Global;
use wasm_grammar::{DecodeError, Foreign, decode};
use wasm_instance::{Instantiated, instantiate};
use wasm_store::laws::{indices, order, types_stay};
use wasm_store::{Instance, Store};
use wasm_syntax::{Export, ExportDesc, FuncAddr, FuncType, InstAddr, Module, ValType};
use wasm_valid::{Invalid, ValidModule, validate};

/// The bytes of the file with a name.
fn file_named<'a>(files: &'a [ModuleFile], name: &str) -> Option<&'a [u8]>
    ensures bytes { (modules : Modules) → AreDecodings files.now modules → MatchOption result (decoded_of modules name.now ≡ None) (λ bytes. IsSomeAnd (decoded_of modules name.now) (λ d. Decodes bytes.now d)) }
    ensures within { IfSome result (λ bytes. length bytes.now ≤ 2 ^ 24) }
{
    for file in files {
        if file.name.as_str() == name {
            return Some(file.bytes.as_slice());
        }
    }
    None
}

/// The kind of a type or instruction that is out of the profile.
fn kind(what: Foreign) -> OutsideKind
    ensures { result ≡ kind_of what }
{
    match what {
        Foreign::Float => OutsideKind::Float,
        Foreign::Simd => OutsideKind::Simd,
    }
}

/// A valid module.
fn valid_module(alloc: Global, read: Module) -> Result<ValidModule, Stop>
    ensures { Meets result (typed read) }
{
    match validate(alloc, read) {
        Ok(valid) => Ok(valid),
        Err(Invalid::Invalid { .. }) => Err(Stop::CompileError),
        Err(Invalid::NoMemory) => Err(Stop::NoMemory),
    }
}

/// The module of a file's bytes.
fn load_module(alloc: Global, bytes: &[u8]) -> Result<ValidModule, Stop>
    requires { length bytes.now ≤ 2 ^ 24 }
    ensures { (d : Decoded) → Decodes bytes.now d → Meets result (module_of d) }
{
    match decode(alloc, bytes) {
        Ok(read) => valid_module(alloc, read),
        Err(DecodeError::Malformed) => Err(Stop::CompileError),
        Err(DecodeError::Outside { place, what }) => Err(Stop::Outside(Outside {
            kind: kind(what),
            place: Place::Module(place),
        })),
        Err(DecodeError::NoMemory) => Err(Stop::NoMemory),
    }
}

/// The module of the file with a name, where there is one.
fn module_named(
    alloc: Global,
    files: &[ModuleFile],
    name: &str,
) -> Result<Option<ValidModule>, Stop>
    ensures { (modules : Modules) → AreDecodings files.now modules → Meets result (compiled_of (decoded_of modules name.now)) }
{
    match file_named(files, name) {
        Some(bytes) => Ok(Some(load_module(alloc, bytes)?)),
        None => Ok(None),
    }
}

/// The number of the function that is exported by a name.
fn exported_index(exports: &[Export], name: &str) -> Option<u32>
    ensures { result ≡ exported_index exports.now name.now }
{
    for export in exports {
        if export.name.as_str() == name {
            return match export.desc {
                ExportDesc::Func(index) => Some(index),
                _ => None,
            };
        }
    }
    None
}

/// Whether a module has no imports.
fn is_self_contained(module: &Module) -> bool
    ensures { result ≡ is_self_contained «module».now }
{
    module.imports.is_empty()
}

fn is_i32(ty: ValType) -> bool
    ensures { result ≡ is_i32 ty }
{
    match ty {
        ValType::I32 => true,
        ValType::I64 | ValType::FuncRef | ValType::ExternRef => false,
    }
}

fn are_i32(types: &[ValType]) -> bool
    ensures { result ≡ are_i32 types.now }
{
    types.iter().all(|ty| is_i32(*ty))
}

fn is_one_i32(types: &[ValType]) -> bool
    ensures { result ≡ is_one_i32 types.now }
{
    match types {
        [ty] => is_i32(*ty),
        _ => false,
    }
}

/// Whether a type has i32 parameters and one i32 result.
fn is_word_type(ty: &FuncType) -> bool
    ensures { result ≡ is_word_type ty.now }
{
    are_i32(ty.params.as_slice()) && is_one_i32(ty.results.as_slice())
}

/// Whether a function of a module's own has such a type.
fn has_word_type(module: &Module, index: u32) -> bool
    ensures { result ≡ has_word_type (own_type «module».now index) }
{
    let Some(func) = module.funcs.get(index as usize) else {
        return false;
    };
    match module.types.get(func.ty as usize) {
        Some(ty) => is_word_type(ty),
        None => false,
    }
}

/// The number of the function that a script may call by a name.
fn offered(module: &Module, name: &str) -> Option<u32>
    ensures { Offers «module».now result (exported (Some «module».now) name.now) }
{
    let index = exported_index(module.exports.as_slice(), name)?;
    if is_self_contained(module) && has_word_type(module, index) {
        return Some(index);
    }
    None
}

/// The function with an index, or another where there is none.
fn function_or(funcs: &[FuncAddr], index: u32, other: FuncAddr) -> FuncAddr
    ensures { result ≡ slice_index_or funcs.now index other }
{
    match funcs.get(index as usize) {
        Some(func) => *func,
        None => other,
    }
}

/// The function with an index in an instance.
fn function_of(store: &Store, instance: InstAddr, index: u32) -> FuncAddr
    requires { «instance».0 < length store.now.instances }
    ensures { result ≡ slice_index_or (instance_at store.now «instance»).funcs index (func_addr 0) }
{
    let funcs = store.instance(instance).funcs.as_slice();
    function_or(funcs, index, FuncAddr(0))
}

/// Runs a start function, where there is one.
fn begin(alloc: Global, start: Option<FuncAddr>, state: &mut State) -> Result<(), Stop>
    requires start { IsStart state.old.store start }
    requires code { AllHaveCode state.old.store }
    ensures meets { Leaves result state.new (started start state.old) }
    ensures later { IsLater state.old.store state.new.store }
    ensures same_code { HasSameCode state.old.store state.new.store }
{
    order();
    match start {
        Some(func) => {
            let _results = run(alloc, func, &[], state)?;
            Ok(())
        }
        None => Ok(()),
    }
}

/// A new instance of a module without imports, and its function with this index.
fn new_instance(
    alloc: Global,
    owner: ValidModule,
    index: u32,
    state: &mut State,
) -> Result<FuncAddr, Stop>
    requires self_contained { is_self_contained owner ≡ true }
    requires word { has_word_type (own_type owner index) ≡ true }
    requires code { AllHaveCode state.old.store }
    ensures meets { MeetsIn result state.new (instance_with owner index state.old) }
    ensures later { IsLater state.old.store state.new.store }
    ensures callable { IfOk result (λ func. IsCallable state.new.store func × AllHaveCode state.new.store) }
{
    order();
    types_stay();
    indices();
    let address = state.store.add_module(alloc, owner)?;
    let imports = Instance::blank(alloc, address);
    match instantiate(alloc, &mut state.store, address, &imports)? {
        Instantiated::Ready { instance, start } => {
            let func = function_of(&state.store, instance, index);
            begin(alloc, start, state)?;
            Ok(func)
        }
        Instantiated::Trapped(_) => Err(Stop::RuntimeError),
        Instantiated::PastLimit => Err(Stop::RangeError),
    }
}

/// The function that a new instance of a file's module exports by a name.
pub(crate) fn instance(
    alloc: Global,
    files: &[ModuleFile],
    file: &str,
    name: &str,
    place: u32,
    state: &mut State,
) -> Result<FuncAddr, Stop>
    requires { AllHaveCode state.old.store }
    ensures meets { (modules : Modules) → AreDecodings files.now modules → MeetsIn result state.new (instance_of modules file.now name.now place state.old) }
    ensures later { IsLater state.old.store state.new.store }
    ensures callable { IfOk result (λ func. IsCallable state.new.store func × AllHaveCode state.new.store) }
{
    order();
    charge(CALL, state)?; // readbuffer
    charge(CALL, state)?; // new WebAssembly.Module
    let module = module_named(alloc, files, file)?;
    charge(CALL, state)?; // new WebAssembly.Instance
    let Some(owner) = module else {
        return Err(refuse(place, OutsideKind::NotYet));
    };
    match offered(owner.module(), name) {
        Some(index) => new_instance(alloc, owner, index, state),
        None => Err(refuse(place, OutsideKind::NotYet)),
    }
}
