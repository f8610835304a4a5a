ghost use Rattle.std.specs.Prelude.{◌≡◌, ◌≤◌, [], ◌∷◌, None, Some, IfNone, IfSome, is_none, string_bytes};
ghost use Rattle.std.specs.Option.{option_copied};
ghost use Rattle.embed_base.specs.Counts.{raised};
ghost use Rattle.embed_base.specs.Contents.{contents_of, content_of, content_or_empty};
ghost use Rattle.embed_base.specs.MemoryCalls.{ReadGives, found_at};

use crate::files::{FileError, Files};
use std::alloc::Global;
use std::marker::Model;

/// The content of the first file of a name.
fn find<'a>(files: &'a [(String, Vec<u8>)], name: &str) -> Option<&'a Vec<u8>>
    ensures none { IfNone result (content_of (contents_of files.now) name.now ≡ None) }
    ensures some { IfSome result (λ bytes. content_of (contents_of files.now) name.now ≡ Some bytes.now.items) }
{
    for file in files {
        if file.0.as_str() == name {
            return Some(&file.1);
        }
    }
    None
}

/// Files in memory, some of whose reads fail. The first pair of a name counts.
#[derive(Drop)]
pub struct MemFiles {
    files: Vec<(String, Vec<u8>)>,
    fail_at: Vec<u64>,
    calls: u64,
    faults: u64,
    failed: Option<String>,
}

impl Model for MemFiles {
    ghost use Rattle.std.specs.Prelude.{◌≤◌, string_bytes};
    ghost use Rattle.std.specs.Option.{option_map};
    ghost use Rattle.embed_base.specs.Counts.{last_count};
    ghost use Rattle.embed_base.specs.Contents.{contents_of};
    ghost use Rattle.embed_base.specs.Memory.{MemoryFiles};

    ghost Value = { MemoryFiles };

    ghost view = { λ s. record { files = contents_of s.files.items; fail_at = s.fail_at.items; calls = s.calls; faults = s.faults; failed = option_map string_bytes s.failed } };
}

impl MemFiles {
    /// Files of these names and bytes. The reads whose numbers, counted from 0, stand in `fail_at` fail.
    pub fn new(files: Vec<(String, Vec<u8>)>, fail_at: Vec<u64>) -> MemFiles
        ensures { result ≡ record { files = contents_of files.items; fail_at = fail_at.items; calls = 0; faults = 0; failed = None } }
    {
        MemFiles {
            files,
            fail_at,
            calls: 0,
            faults: 0,
            failed: None,
        }
    }

    // The content that a read of this number finds.
    fn found(&self, call: u64, name: &str) -> Option<&Vec<u8>>
        ensures none { IfNone result (found_at self.now call name.now ≡ None) }
        ensures some { IfSome result (λ bytes. found_at self.now call name.now ≡ Some bytes.now.items) }
    {
        if self.fail_at.contains(&call) {
            return None;
        }
        find(&self.files, name)
    }

    // Counts a read of this name that failed.
    fn fail(&mut self, name: String) -> FileError
        ensures answer { result ≡ FileError.Failed }
        ensures counted { self.new ≡ record self.old { faults = raised self.old.faults 1; failed = Some (string_bytes name) } }
        ensures faults_stay { self.old.faults ≤ self.new.faults }
    {
        self.faults = self.faults.saturating_add(1);
        self.failed = Some(name);
        FileError::Failed
    }
}

impl Files for MemFiles {
    ghost content = { λ s name. content_of s.files name };

    ghost faults = { λ s. s.faults };

    ghost taken = { λ s. 0 };

    ghost failed = { λ s. s.failed };

    ghost absent = { λ s name. is_none (content_of s.files name) };

    fn read_whole(
        &mut self,
        alloc: Global,
        name: &str,
        limit: u64,
        into: &mut Vec<u8>,
    ) -> Result<(), FileError>
        ensures gives { ReadGives self.old name.now limit result into.new.items self.new }
        ensures faults_stay { self.old.faults ≤ self.new.faults }
    {
        into.clear();
        let call = self.calls;
        self.calls = call.saturating_add(1);
        let asked = String::from_str(alloc, name)?;
        let Some(content) = self.found(call, name) else {
            return Err(self.fail(asked));
        };
        if content.len() as u64 > limit {
            return Err(FileError::TooLong);
        }
        into.extend_from_slice(content)?;
        Ok(())
    }
}

/// Files in memory whose reads never fail. The first pair of a name counts, and a name that isn't in the list is an empty
/// file.
#[derive(Drop)]
pub struct SureFiles {
    files: Vec<(String, Vec<u8>)>,
}

impl Model for SureFiles {
    ghost use Rattle.embed_base.specs.Contents.{Contents, contents_of};

    ghost Value = { Contents };

    ghost view = { λ s. contents_of s.files.items };
}

impl SureFiles {
    /// Files of these names and bytes.
    pub fn new(files: Vec<(String, Vec<u8>)>) -> SureFiles
        ensures { result ≡ contents_of files.items }
    {
        SureFiles { files }
    }
}

impl Files for SureFiles {
    ghost content = { λ s name. Some (content_or_empty s name) };

    ghost faults = { λ s. 0 };

    ghost taken = { λ s. 0 };

    ghost failed = { λ s. None };

    fn read_whole(
        &mut self,
        _alloc: Global,
        name: &str,
        limit: u64,
        into: &mut Vec<u8>,
    ) -> Result<(), FileError> {
        into.clear();
        let Some(content) = find(&self.files, name) else {
            return Ok(());
        };
        if content.len() as u64 > limit {
            return Err(FileError::TooLong);
        }
        into.extend_from_slice(content)?;
        Ok(())
    }
}
