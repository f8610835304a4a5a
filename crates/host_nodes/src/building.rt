//! From the tokens of a script to its nodes.

ghost use Rattle.std.specs.Prelude.{IfOk, map};
ghost use Rattle.host_grammar.specs.Derivations.{Script};
ghost use Rattle.host_grammar.specs.Conditions.{IsScript};
ghost use Rattle.host_grammar.specs.Printing.{seen};
ghost use Rattle.host_nodes.specs.Built.{IsBuilt};

use crate::builder::{Builder, Built};
use host_grammar::laws;
use host_lexer::Token;
use std::alloc::{AllocError, Global};

/// The nodes of a script by its tokens. It takes time in proportion to their number.
pub fn build(alloc: Global, tokens: &[Token]) -> Result<Built, AllocError>
    requires { (x : Script) × IsScript (map seen tokens.now) x }
    ensures { IfOk result (λ b. (x : Script) → IsScript (map seen tokens.now) x → IsBuilt x b) }
{
    laws::scripts_are_accepted();
    let mut builder = Builder::new(alloc)?;
    for token in tokens {
        builder.step(token)?;
    }
    builder.ended()?;
    match builder.finish() {
        Some(built) => Ok(built),
        None => unreachable!(),
    }
}
