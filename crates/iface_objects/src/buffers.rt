//! Files as buffers.
ghost use Rattle.std.specs.Prelude.{◌≡◌, IfOk, MatchOption, None, Some};
ghost use Rattle.iface_objects.specs.Modules.{buffer_made, buffer_named, file_named};
ghost use Rattle.iface_objects.specs.Realms.{Gives};

use crate::answer::Answer;
use crate::file::ModuleFile;
use crate::realm::Realm;
use embed_base::PlainList;
use host_values::{ErrorClass, HostValue, Kind};
use std::alloc::{AllocError, Global};

/// The bytes of the file with a name.
fn file_named<'a>(files: &'a [ModuleFile], name: &str) -> Option<&'a [u8]>
    ensures { MatchOption result (file_named files.now name.now ≡ None) (λ bytes. file_named files.now name.now ≡ Some bytes.now) }
{
    for file in files {
        if file.name.as_str() == name {
            return Some(file.bytes.as_slice());
        }
    }
    None
}

/// A new ArrayBuffer of these bytes.
fn make_buffer(alloc: Global, realm: &mut Realm, bytes: PlainList<u8>) -> Result<Answer, AllocError>
    ensures { IfOk result (λ a. Gives (buffer_made realm.old bytes) a realm.new) }
{
    let number = realm.buffers.len() as u64;
    realm.buffers.push(bytes)?;
    let object = realm.heap.add(alloc, Kind::Buffer(number))?;
    Ok(Answer::Value(HostValue::Object(object)))
}

/// `readbuffer(name)`.
pub(crate) fn readbuffer(
    alloc: Global,
    realm: &mut Realm,
    name: &HostValue,
) -> Result<Answer, AllocError>
    ensures { IfOk result (λ a. Gives (buffer_named realm.old name.now) a realm.new) }
{
    let HostValue::Text(text) = name else {
        return Ok(Answer::Throw(ErrorClass::TypeError));
    };
    match file_named(realm.files.as_slice(), text.as_str()) {
        Some(bytes) => {
            let copy = Vec::from_slice(alloc, bytes)?;
            make_buffer(alloc, realm, PlainList::from_vec(copy))
        }
        None => Ok(Answer::Throw(ErrorClass::TypeError)),
    }
}
