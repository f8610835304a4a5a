ghost use Rattle.std.specs.Prelude.{◌≡◌, ℕ, List};
ghost use Rattle.std.specs.Prelude.{slice_get, Ok};
ghost use Rattle.embed_script.specs.Ends.{at_place};
ghost use Rattle.embed_script.specs.Functions.{word_of, words_of};
ghost use Rattle.embed_script.specs.Stops.{Meets, MeetsAs};
ghost use Rattle.embed_script.specs.Words.{argument_of, words_in};

use crate::stop::{Stop, refuse};
use crate::value::Value;
use embed_base::OutsideKind;
use std::alloc::Global;

/// How many values 32 bits have.
const WORDS: i64 = 4_294_967_296;

/// ToInt32, as the number that the 32 bits spell.
fn word(place: u32, value: &Value) -> Result<u32, Stop>
    ensures { Meets result (at_place place (word_of value.now)) }
{
    match value {
        Value::Number(number) => Ok(number.rem_euclid(WORDS) as u32),
        Value::Text(_) => Err(refuse(place, OutsideKind::TextNumber)),
    }
}

/// The argument for a parameter. A missing one is `undefined`.
fn argument(place: u32, values: &[Value], index: usize) -> Result<u32, Stop>
    ensures { Meets result (at_place place (argument_of (slice_get values.now index))) }
{
    match values.get(index) {
        Some(value) => word(place, value),
        None => Ok(0),
    }
}

/// The arguments for so many parameters.
pub(crate) fn words(
    alloc: Global,
    count: usize,
    place: u32,
    values: &[Value],
) -> Result<Vec<u32>, Stop>
    ensures { MeetsAs words_in result (at_place place (words_of count values.now)) }
{
    let mut words = Vec::new(alloc);
    for index in 0..count {
        let word = argument(place, values, index)?;
        words.push(word)?;
    }
    Ok(words)
}
