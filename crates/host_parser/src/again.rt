//! The first later declaration of a script.

ghost use Rattle.std.specs.Prelude.{◌≡◌, [], IfOk, None, cond};
ghost use Rattle.host_parser.specs.Repeats as spec;

use embed_base::SharedString;
use host_nodes::{Declared, Mention};
use std::alloc::{AllocError, Global};
use std::collections::BTreeSet;

/// A declaration of a name that its scope has declared before.
#[derive(Debug, Drop)]
pub struct Again {
    pub place: u32,
    pub name: SharedString,
}

// The declaration that stands first.
fn lesser(found: Option<Again>, declared: &Declared) -> Result<Option<Again>, AllocError>
    ensures { IfOk result (λ r. r ≡ spec.lesser found (spec.again_of declared.now)) }
{
    if let Some(first) = found {
        if first.place <= declared.place {
            return Ok(Some(first));
        }
    }
    Ok(Some(Again {
        place: declared.place,
        name: declared.name.clone()?,
    }))
}

// What is found at a name that is new to its scope, or isn't.
fn found_at(
    found: Option<Again>,
    is_new: bool,
    declared: &Declared,
) -> Result<Option<Again>, AllocError>
    ensures { IfOk result (λ r. r ≡ cond is_new found (spec.lesser found (spec.again_of declared.now))) }
{
    if is_new {
        return Ok(found);
    }
    lesser(found, declared)
}

// The first declaration that repeats a name of this scope, or what was found before.
fn repeated(
    alloc: Global,
    found: Option<Again>,
    declared: &[Declared],
) -> Result<Option<Again>, AllocError>
    ensures { IfOk result (λ r. r ≡ spec.repeated [] found declared.now) }
{
    let mut names: BTreeSet<&str> = BTreeSet::new(alloc);
    let mut found = found;
    for one in declared {
        let is_new = names.insert(one.name.as_str())?;
        found = found_at(found, is_new, one)?;
    }
    Ok(found)
}

/// The first later declaration of a script, by the names that it declares and what it mentions.
pub fn first_again(
    alloc: Global,
    declared: &[Declared],
    mentions: &[Mention],
) -> Result<Option<Again>, AllocError>
    ensures { IfOk result (λ r. r ≡ spec.repeated_in (spec.repeated [] None declared.now) mentions.now) }
{
    let mut found = repeated(alloc, None, declared)?;
    for mention in mentions {
        if let Mention::Ends(scope) = mention {
            found = repeated(alloc, found, scope.as_slice())?;
        }
    }
    Ok(found)
}
