ghost use Rattle.std.specs.Prelude.{◌≡◌};
ghost use Rattle.host_lexer.specs.Spellings.{word_chars};

use host_lexer::Word;

/// The spelling of a reserved word.
pub fn word_text(word: Word) -> &'static str
    ensures { result.now ≡ word_chars word }
{
    match word {
        Word::Arguments => "arguments",
        Word::Await => "await",
        Word::Break => "break",
        Word::Case => "case",
        Word::Catch => "catch",
        Word::Class => "class",
        Word::Const => "const",
        Word::Continue => "continue",
        Word::Debugger => "debugger",
        Word::Default => "default",
        Word::Delete => "delete",
        Word::Do => "do",
        Word::Else => "else",
        Word::Enum => "enum",
        Word::Eval => "eval",
        Word::Export => "export",
        Word::Extends => "extends",
        Word::False => "false",
        Word::Finally => "finally",
        Word::For => "for",
        Word::Function => "function",
        Word::If => "if",
        Word::Implements => "implements",
        Word::Import => "import",
        Word::In => "in",
        Word::InstanceOf => "instanceof",
        Word::Interface => "interface",
        Word::Let => "let",
        Word::New => "new",
        Word::Null => "null",
        Word::Package => "package",
        Word::Private => "private",
        Word::Protected => "protected",
        Word::Public => "public",
        Word::Return => "return",
        Word::Static => "static",
        Word::Super => "super",
        Word::Switch => "switch",
        Word::This => "this",
        Word::Throw => "throw",
        Word::True => "true",
        Word::Try => "try",
        Word::TypeOf => "typeof",
        Word::Undefined => "undefined",
        Word::Var => "var",
        Word::Void => "void",
        Word::While => "while",
        Word::With => "with",
        Word::Yield => "yield",
    }
}
