ghost use Rattle.std.specs.Prelude.{◌≡◌, ℕ, List, Some, None, IfOk};
ghost use Rattle.std.specs.List.{list_all, list_any};
ghost use Rattle.std.specs.Char.{is_ascii_digit};
ghost use Rattle.std.specs.Str.{bytes_eq};
ghost use Rattle.embed_cmd.specs.Words.{script_of, is_short_number, units_of, budget_of, module_of, modules_of, command_of, texts_of};
ghost use Rattle.embed_cmd.specs.Sorting.{command_of_sorted};

use crate::sorting::{Sorted, parts, sort_words};
use embed_base::limits::{MOST_BUDGET, MOST_MODULES, USUAL_BUDGET};
use embed_base::{PlainList, PlainString};
use std::alloc::{AllocError, Global};

/// The digits of a budget.
const MOST_DIGITS: usize = 13;

/// What a command line asks for: the script's path, each module's name and path in the order of the words, and how many
/// units the run may take.
#[derive(Debug, Drop)]
pub struct Asked {
    pub script: PlainString,
    pub modules: PlainList<(PlainString, PlainString)>,
    pub budget: u64,
}

/// The script's path, if the positional words are `run` and a path.
fn script(alloc: Global, positional: &[PlainString]) -> Result<Option<PlainString>, AllocError>
    ensures { IfOk result (λ path. path ≡ script_of positional.now) }
{
    let [word, path] = positional else {
        return Ok(None);
    };
    if word.as_str() != "run" || path.as_str().is_empty() {
        return Ok(None);
    }
    Ok(Some(PlainString::from_str(alloc, path.as_str())?))
}

/// A text is digits alone.
fn are_digits(text: &str) -> bool
    ensures { result ≡ list_all is_ascii_digit text.now }
{
    text.bytes().all(|b| b.is_ascii_digit())
}

/// A text is 1 to 13 digits.
fn is_short_number(text: &str) -> bool
    ensures { result ≡ is_short_number text.now }
{
    !text.is_empty() && text.len() <= MOST_DIGITS && are_digits(text)
}

/// The units that a value names.
fn units(value: &str) -> Option<u64>
    ensures { result ≡ units_of value.now }
{
    if !is_short_number(value) {
        return None;
    }
    match value.parse::<u64>() {
        Ok(units) if units <= MOST_BUDGET => Some(units),
        _ => None,
    }
}

/// The budget that the values of `--steps` name.
fn budget(values: &[PlainString]) -> Option<u64>
    ensures { result ≡ budget_of values.now }
{
    match values {
        [] => Some(USUAL_BUDGET),
        [value] => units(value.as_str()),
        _ => None,
    }
}

/// A module's name and path.
fn module(alloc: Global, value: &str) -> Result<Option<(PlainString, PlainString)>, AllocError>
    ensures { IfOk result (λ found. found ≡ module_of value.now) }
{
    let Some((name, path)) = parts(value) else {
        return Ok(None);
    };
    if name.is_empty() || path.is_empty() {
        return Ok(None);
    }
    let name = PlainString::from_str(alloc, name)?;
    let path = PlainString::from_str(alloc, path)?;
    Ok(Some((name, path)))
}

/// Whether one of the modules has a name.
fn has_name(modules: &[(PlainString, PlainString)], name: &str) -> bool
    ensures { result ≡ list_any (λ m. bytes_eq m.0 name.now) modules.now }
{
    modules.iter().any(|module| module.0.as_str() == name)
}

/// The modules that the values of `--module` name.
fn modules(
    alloc: Global,
    values: &[PlainString],
) -> Result<Option<PlainList<(PlainString, PlainString)>>, AllocError>
    ensures { IfOk result (λ found. found ≡ modules_of values.now) }
{
    if values.len() > MOST_MODULES {
        return Ok(None);
    }
    let mut modules = PlainList::new(alloc);
    for value in values {
        let Some(module) = module(alloc, value.as_str())? else {
            return Ok(None);
        };
        if has_name(modules.as_slice(), module.0.as_str()) {
            return Ok(None);
        }
        modules.push(module)?;
    }
    Ok(Some(modules))
}

/// What sorted words ask for.
fn asked_by(alloc: Global, sorted: &Sorted) -> Result<Option<Asked>, AllocError>
    ensures { IfOk result (λ asked. asked ≡ command_of_sorted sorted.now) }
{
    let Some(script) = script(alloc, sorted.positional.as_slice())? else {
        return Ok(None);
    };
    let Some(budget) = budget(sorted.steps.as_slice()) else {
        return Ok(None);
    };
    let Some(modules) = modules(alloc, sorted.modules.as_slice())? else {
        return Ok(None);
    };
    Ok(Some(Asked {
        script,
        modules,
        budget,
    }))
}

/// Reads the words after the program's name: `run`, a script's path, and options anywhere. None is no command line.
pub fn read_words(alloc: Global, words: &[String]) -> Result<Option<Asked>, AllocError>
    ensures { IfOk result (λ asked. asked ≡ command_of (texts_of words.now)) }
{
    match sort_words(alloc, words)? {
        Some(sorted) => asked_by(alloc, &sorted),
        None => Ok(None),
    }
}
