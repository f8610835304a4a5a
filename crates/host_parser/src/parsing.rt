//! From tokens to a script's tree.

ghost use Rattle.std.specs.Prelude.{◌≡◌};
ghost use Rattle.host_lexer.specs.Tokens.{InOrder};
ghost use Rattle.host_grammar.specs.Refusals.{Parsed, IsParsed};
ghost use Rattle.host_parser.specs.Parsing.{IsAnswer, IsWhole, Gives};

use crate::again::first_again;
use crate::resolve::resolve;
use crate::script::Script;
use embed_base::SharedString;
use host_grammar::laws;
use host_lexer::Token;
use host_nodes::{Built, build};
use host_states::{Refusal, refusal_of};
use std::alloc::{AllocError, Global};
use thiserror::Error;

/// Why tokens are no script. The place is a token's first byte, or the length of the text where only more tokens are missing.
#[derive(Debug, Drop, Error)]
pub enum ParseError {
    /// No script goes on so.
    #[error("unexpected at {0}")]
    Unexpected(u32),
    /// The token opens a construct too many.
    #[error("too deep at {0}")]
    TooDeep(u32),
    /// A name is declared again in its scope.
    #[error("declared again at {place}")]
    Early { place: u32, name: SharedString },
    #[error("out of memory")]
    NoMemory,
}

impl From<AllocError> for ParseError {
    ghost use Rattle.host_parser.specs.declared.parsing.ParseError.TheVariants.{NoMemory};
    ghost use Rattle.std.specs.Prelude.{◌≡◌};

    ghost from_gives = { λ _ e. e ≡ NoMemory };

    fn from(_: AllocError) -> Self {
        ParseError::NoMemory
    }
}

// The tree of a script whose nodes are built, or its first later declaration.
fn finish(alloc: Global, tokens: &[Token], built: Built, len: u32) -> Result<Script, ParseError>
    requires in_order { InOrder 0 len tokens.now }
    requires whole { IsWhole tokens.now built }
    ensures { IsAnswer tokens.now len result }
{
    let declared = built.declared.as_slice();
    let mentions = built.mentions.as_slice();
    if let Some(again) = first_again(alloc, declared, mentions)? {
        return Err(ParseError::Early {
            place: again.place,
            name: again.name,
        });
    }
    let bindings = resolve(alloc, declared, mentions)?;
    Ok(Script::of_built(built, bindings, len))
}

fn read(alloc: Global, tokens: &[Token], len: u32) -> Result<Script, ParseError>
    requires { InOrder 0 len tokens.now }
    ensures { IsAnswer tokens.now len result }
{
    match refusal_of(alloc, tokens, len)? {
        Some(Refusal::Unexpected(place)) => Err(ParseError::Unexpected(place)),
        Some(Refusal::TooDeep(place)) => Err(ParseError::TooDeep(place)),
        None => {
            let built = build(alloc, tokens)?;
            finish(alloc, tokens, built, len)
        }
    }
}

/// The tree of the script with these tokens, which are in order and of kinds that `tokens` gives, or why there is none. `len` is the length
/// of the text, and the place where only more tokens are missing. The lesser place decides, and a later declaration comes after both
/// others. It takes time in proportion to the tokens, but for the order of names, and never calls itself.
pub fn parse(alloc: Global, tokens: &[Token], len: u32) -> Result<Script, ParseError>
    requires { InOrder 0 len tokens.now }

    // Each answer is what the tokens are read as.
    ensures told { IsAnswer tokens.now len result }

    // What they are read as is answered, unless memory runs out.
    ensures only { (p : Parsed) → IsParsed tokens.now len p → Gives p len result }
{
    laws::readings_are_one();
    laws::scripts_are_accepted();
    read(alloc, tokens, len)
}
