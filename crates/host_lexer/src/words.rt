ghost use Rattle.std.specs.Prelude.{◌≡◌, MatchOption};
ghost use Rattle.host_lexer.specs.declared.token.Word.{Word};
ghost use Rattle.host_lexer.specs.Spellings.{word_chars};

use crate::token::Word;

/// The reserved word that is spelt so, if there is one.
pub fn word_of(text: &str) -> Option<Word>
    ensures { MatchOption result ((w : Word) → ¬ (word_chars w ≡ text.now)) (λ w. word_chars w ≡ text.now) }
{
    let word = match text {
        "arguments" => Word::Arguments,
        "await" => Word::Await,
        "break" => Word::Break,
        "case" => Word::Case,
        "catch" => Word::Catch,
        "class" => Word::Class,
        "const" => Word::Const,
        "continue" => Word::Continue,
        "debugger" => Word::Debugger,
        "default" => Word::Default,
        "delete" => Word::Delete,
        "do" => Word::Do,
        "else" => Word::Else,
        "enum" => Word::Enum,
        "eval" => Word::Eval,
        "export" => Word::Export,
        "extends" => Word::Extends,
        "false" => Word::False,
        "finally" => Word::Finally,
        "for" => Word::For,
        "function" => Word::Function,
        "if" => Word::If,
        "implements" => Word::Implements,
        "import" => Word::Import,
        "in" => Word::In,
        "instanceof" => Word::InstanceOf,
        "interface" => Word::Interface,
        "let" => Word::Let,
        "new" => Word::New,
        "null" => Word::Null,
        "package" => Word::Package,
        "private" => Word::Private,
        "protected" => Word::Protected,
        "public" => Word::Public,
        "return" => Word::Return,
        "static" => Word::Static,
        "super" => Word::Super,
        "switch" => Word::Switch,
        "this" => Word::This,
        "throw" => Word::Throw,
        "true" => Word::True,
        "try" => Word::Try,
        "typeof" => Word::TypeOf,
        "undefined" => Word::Undefined,
        "var" => Word::Var,
        "void" => Word::Void,
        "while" => Word::While,
        "with" => Word::With,
        "yield" => Word::Yield,
        _ => return None,
    };
    Some(word)
}
