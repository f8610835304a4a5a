ghost use Rattle.std.specs.Prelude.{IfOk};
ghost use Rattle.host_states.specs.Refused.{Tells};

use crate::reader::Reader;
use crate::state::Move;
use host_grammar::laws;
use host_lexer::Token;
use std::alloc::{AllocError, Global};

/// Why tokens are no script's: no script goes on so from the token at this byte, or it opens a construct too many.
#[derive(Clone, Copy, PartialEq, Eq, Debug)]
pub enum Refusal {
    Unexpected(u32),
    TooDeep(u32),
}

/// Why tokens are no script's, or nothing where they are. `len` is the length of the text, and the place where only more tokens
/// are missing. It takes time in proportion to their number.
pub fn refusal_of(alloc: Global, tokens: &[Token], len: u32) -> Result<Option<Refusal>, AllocError>
    ensures { IfOk result (λ r. Tells tokens.now len r) }
{
    laws::scripts_are_accepted();
    laws::states_go_on();
    laws::refusals_are_least();
    laws::depth_is_counted();
    let mut reader = Reader::new(alloc);
    for token in tokens {
        match reader.step(token)? {
            Move::Refused => return Ok(Some(Refusal::Unexpected(token.from))),
            Move::TooDeep => return Ok(Some(Refusal::TooDeep(token.from))),
            Move::Went => {}
        }
    }
    if !reader.is_whole() {
        return Ok(Some(Refusal::Unexpected(len)));
    }
    Ok(None)
}
