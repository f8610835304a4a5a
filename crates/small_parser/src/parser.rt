//! From the tokens of a script to its tree.
ghost use Rattle.std.specs.Prelude.{◌≡◌, ◌⊎◌, List, IfOk};
ghost use Rattle.small_parser.specs.Grammar as grammar;
ghost use Rattle.small_parser.specs.Grammar.{IsScript};
ghost use Rattle.small_parser.specs.Shows.{ScriptShows};
ghost use Rattle.small_parser.specs.Gives.{Gives};

use crate::reader::{Phase, Reader};
use crate::script::{ParseError, Script};
use small_lexer::Token;
use std::alloc::Global;

/// The tree of the script that the tokens spell (ECMA-262, sections 13 to 16). `len` is the length of its text. The time
/// that it takes grows linearly with the number of tokens and of their bytes.
pub fn parse(alloc: Global, tokens: &[Token], len: u32) -> Result<Script, ParseError>

    // What is found is the tree of a script with these tokens.
    ensures found { IfOk result (λ s. (d : grammar.Script) × IsScript tokens.now d × ScriptShows d s.nodes s.top) }

    // The tokens of a script give its tree, unless memory runs out.
    ensures only { (d : grammar.Script) → IsScript tokens.now d → Gives result d }

    ensures len { IfOk result (λ s. s.len ≡ len) }
{
    let mut reader = Reader::new(alloc);
    for token in tokens {
        let went = reader.step(alloc, token)?;
        if !went {
            return Err(ParseError::NotYet);
        }
    }
    if !reader.keeps_names() {
        return Err(ParseError::NotYet);
    }
    let Reader {
        nodes,
        top,
        phase,
        ..
    } = reader;
    match phase {
        Phase::Items => Ok(Script { top, nodes, len }),
        _ => Err(ParseError::NotYet),
    }
}

/// Whether tokens are those of a script is decided, and they are those of one script alone, whatever the tokens are.
pub fn parses_once()
    ensures decided { (ts : List Token) → ((d : grammar.Script) × IsScript ts d) ⊎ ((d : grammar.Script) → ¬ IsScript ts d) }
    ensures once { (ts : List Token) (d e : grammar.Script) → IsScript ts d → IsScript ts e → d ≡ e }
{}
