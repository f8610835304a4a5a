ghost use Rattle.std.specs.Prelude.{◌≡◌, ℕ, ◌+◌, ◌<◌, List, [], length, map, take, slice_get, Some, None};
ghost use Rattle.host_lexer.specs.declared.token.Token.{Token};
ghost use Rattle.host_grammar.specs.Derivations.{Script, Postfix, no_part};
ghost use Rattle.host_grammar.specs.Conditions.{IsScript};
ghost use Rattle.host_grammar.specs.Machine.{Level, State, accept, run, start, step, expr_of};
ghost use Rattle.host_grammar.specs.Printing.{Printed, Sign, seen, chain_then, postfix_then, script_then};
ghost use Rattle.host_grammar.specs.Refusals.{IsParsed, Parsed, IsSame, tree, Begins, IsUnexpected, IsTooDeep, most_open};
ghost use Rattle.host_grammar.specs.Spelling.{level_then, within, state_then};
ghost use Rattle.host_grammar.specs.Counting as counting;

/// The tokens of a script are a prefix of a script's.
pub fn scripts_begin()
    ensures { (tokens : List Token) (len : ℕ) (s : Script) → IsParsed tokens len (tree s) → Begins (map seen tokens) }
{}

/// The reader begins with nothing read, and accepts the script of no tokens.
pub fn nothing_is_read()
    ensures accepts { accept start ≡ Some no_part }
    ensures reads { state_then start [] ≡ [] }
{}

/// An expression that is read is spelt by what stands before its last operand and by that operand.
pub fn expressions_close()
    ensures { (d : ℕ) (l : Level) (u : Postfix) (y : List Printed) → chain_then d (expr_of l u) y ≡ level_then d l (postfix_then (within l d) u y) }
{}

/// The reader accepts tokens exactly where they are a script's, with its derivation, and tokens are one script's at most.
pub fn scripts_are_accepted()
    ensures sound { (signs : List Sign) (s : State) (x : Script) → run start signs ≡ Some s → accept s ≡ Some x → IsScript signs x }
    ensures complete { (signs : List Sign) (x : Script) → IsScript signs x → (s : State) × (run start signs ≡ Some s) × (accept s ≡ Some x) }
    ensures one { (signs : List Sign) (x z : Script) → IsScript signs x → IsScript signs z → x ≡ z }
{}

/// The reader has a state after tokens exactly where they are a prefix of some script's.
pub fn states_go_on()
    ensures viable { (signs : List Sign) (s : State) → run start signs ≡ Some s → Begins signs }
    ensures reached { (signs : List Sign) → Begins signs → (s : State) × (run start signs ≡ Some s) }
    ensures next { (signs : List Sign) (k : ℕ) (s : State) (t : Sign) → run start (take k signs) ≡ Some s → slice_get signs k ≡ Some t → run start (take (k + 1) signs) ≡ step s t }
{}

/// A token that the reader refuses stands at the least place such that the tokens through it are a prefix of no script's; where
/// it ends and accepts nothing, only more tokens are missing.
pub fn refusals_are_least()
    ensures token { (signs : List Sign) (k : ℕ) (s : State) (t : Sign) → run start (take k signs) ≡ Some s → slice_get signs k ≡ Some t → step s t ≡ None → IsUnexpected signs k }
    ensures missing { (signs : List Sign) (s : State) → run start signs ≡ Some s → accept s ≡ None → IsUnexpected signs (length signs) }
{}

/// The constructs that the reader counts are those of the printing; the first token that opens too many is too deep, and none is
/// where all tokens up to the end, or up to the one that is refused, open no more than may be open.
pub fn depth_is_counted()
    ensures counted { (signs : List Sign) (x : Script) → IsScript signs x → script_then x [] ≡ counting.counts start signs }
    ensures deep { (signs : List Sign) (k : ℕ) (s r : State) (t : Sign) → run start (take k signs) ≡ Some s → slice_get signs k ≡ Some t → step s t ≡ Some r
        → most_open < counting.opens s t.kind → counting.AreWithin signs k → IsTooDeep signs k }
    ensures no_more { (signs : List Sign) → counting.AreWithin signs (length signs) → (k : ℕ) → ¬ IsTooDeep signs k }
    ensures refused { (signs : List Sign) (n : ℕ) → IsUnexpected signs n → counting.AreWithin signs n → (k : ℕ) → ¬ IsTooDeep signs k }
{}

/// Tokens are read as one tree, or refused in one way at one place.
pub fn readings_are_one()
    ensures { (tokens : List Token) (len : ℕ) (a b : Parsed) → IsParsed tokens len a → IsParsed tokens len b → IsSame a b }
{}
