use embed_base::PlainString;
use small_lexer::{Mark, Token, TokenKind, Word};
use small_parser::{Form, Node, NodeId, Operator, ParseError, Script, parse};
use std::alloc::{AllocError, Global};
use std::test::Fail;

// The kind of a token that is written as a word: a text begins with `'`.
fn kind_of(alloc: Global, word: &str) -> Result<TokenKind, AllocError> {
    let kind = match word {
        "let" => TokenKind::Word(Word::Let),
        "new" => TokenKind::Word(Word::New),
        "=" => TokenKind::Mark(Mark::Equals),
        ";" => TokenKind::Mark(Mark::Semicolon),
        "(" => TokenKind::Mark(Mark::Open),
        ")" => TokenKind::Mark(Mark::Close),
        "," => TokenKind::Mark(Mark::Comma),
        "+" => TokenKind::Mark(Mark::Plus),
        "-" => TokenKind::Mark(Mark::Minus),
        "*" => TokenKind::Mark(Mark::Star),
        "." => TokenKind::Mark(Mark::Dot),
        _ => match word.parse::<u64>() {
            Ok(value) => TokenKind::Number(value),
            Err(_) => match word.strip_prefix("'") {
                Some(inside) => TokenKind::Text(PlainString::from_str(alloc, inside)?),
                None => TokenKind::Name(PlainString::from_str(alloc, word)?),
            },
        },
    };
    Ok(kind)
}

// The tokens that are written as words between spaces, the first at 0 and each one further.
fn tokens_of(alloc: Global, text: &str) -> Result<Vec<Token>, AllocError> {
    let mut tokens = Vec::new(alloc);
    let mut from = 0u32;
    for word in text.split_whitespace() {
        let to = from.saturating_add(1);
        let kind = kind_of(alloc, word)?;
        tokens.push(Token {
            kind,
            from,
            to,
            after_line: false,
        })?;
        from = to;
    }
    Ok(tokens)
}

// The tree of a text of words, or why there is none.
fn tree_of(alloc: Global, text: &str) -> Result<Script, ParseError> {
    let tokens = tokens_of(alloc, text)?;
    parse(alloc, tokens.as_slice(), 7)
}

fn sign_of(operator: Operator) -> &'static str {
    match operator {
        Operator::Plus => "+",
        Operator::Minus => "-",
        Operator::Times => "*",
    }
}

// Writes a node as its place and its form, with the numbers of its parts.
fn write_node(alloc: Global, out: &mut String, node: &Node) -> Result<(), AllocError> {
    let place = node.place;
    out.push_str(format!(in alloc; "{place}:")?.as_str())?;
    match &node.form {
        Form::Number(value) => out.push_str(format!(in alloc; "{value}")?.as_str())?,
        Form::Text(inside) => out.push_str(format!(in alloc; "'{}", inside.as_str())?.as_str())?,
        Form::Name(name) => out.push_str(name.as_str())?,
        Form::Chain(left, NodeId(last)) => {
            for operand in left.as_slice() {
                let sign = sign_of(operand.operator);
                out.push_str(format!(in alloc;
                    "#{}{sign}{} ",
                    operand.node.0, operand.place
                )?.as_str())?;
            }
            out.push_str(format!(in alloc; "#{last}")?.as_str())?;
        }
        Form::Call { callee, arguments } => {
            out.push_str(callee.as_str())?;
            out.push_str("()")?;
            for argument in arguments.as_slice() {
                out.push_str(format!(in alloc; " #{}", argument.0)?.as_str())?;
            }
        }
        Form::Bind { name, file, export } => {
            out.push_str(format!(in alloc;
                "bind {} '{} {}",
                name.as_str(),
                file.as_str(),
                export.as_str()
            )?
            .as_str())?;
        }
        Form::Let { name, value } => {
            out.push_str(format!(in alloc; "let {} #{}", name.as_str(), value.0)?.as_str())?;
        }
        Form::Print { arguments } => {
            out.push_str("print")?;
            for argument in arguments.as_slice() {
                out.push_str(format!(in alloc; " #{}", argument.0)?.as_str())?;
            }
        }
    }
    Ok(())
}

// The nodes of a tree one after another, and then its statements.
fn outline(alloc: Global, script: &Script) -> Result<String, AllocError> {
    let mut out = String::new(alloc);
    for node in script.nodes.as_slice() {
        write_node(alloc, &mut out, node)?;
        out.push_str("; ")?;
    }
    for statement in script.top.as_slice() {
        out.push_str(format!(in alloc; "#{} ", statement.0)?.as_str())?;
    }
    Ok(out)
}

// An item that binds `f`, of 24 tokens.
const ITEM: &str =
    "let f = new WebAssembly . Instance ( new WebAssembly . Module ( readbuffer ( 'm ) ) ) . exports . g ;";

// That item between other text.
fn with_item(alloc: Global, before: &str, after: &str) -> Result<String, AllocError> {
    let mut text = String::from_str(alloc, before)?;
    text.push_str(ITEM)?;
    text.push_str(after)?;
    Ok(text)
}

// The words of a text without the one of a number.
fn without(alloc: Global, text: &str, number: usize) -> Result<String, AllocError> {
    let mut rest = String::new(alloc);
    for (at, word) in text.split_whitespace().enumerate() {
        if at != number {
            rest.push_str(word)?;
            rest.push_str(" ")?;
        }
    }
    Ok(rest)
}

// A `let` whose value stands in so many parentheses.
fn nested(alloc: Global, before: &str, depth: u32, after: &str) -> Result<String, AllocError> {
    let mut text = String::from_str(alloc, before)?;
    for _ in 0..depth {
        text.push_str(" (")?;
    }
    text.push_str(" 1")?;
    for _ in 0..depth {
        text.push_str(" )")?;
    }
    text.push_str(after)?;
    Ok(text)
}

#[test]
fn trees_have_their_nodes_and_places(rt: HostRuntime) -> Result<(), Fail> {
    let alloc = rt.alloc();
    let cases = [
        ("", ""),
        ("print ( ) ;", "0:print; #0 "),
        (
            "let a = 6 ; print ( 'a , a ) ;",
            "3:6; 0:let a #0; 7:'a; 9:a; 5:print #2 #3; #1 #4 ",
        ),
        (
            "print ( 2 - 3 * 4 - ( 5 - 6 ) ) ;",
            "2:2; 4:3; 6:4; 5:#1*5 #2; 9:5; 11:6; 10:#4-10 #5; 3:#0-3 #3-7 #6; 0:print #7; #8 ",
        ),
        (
            "let b = ( ( 1 + 2 ) ) * 3 ;",
            "5:1; 7:2; 6:#0+6 #1; 11:3; 10:#2*10 #3; 0:let b #4; #5 ",
        ),
    ];
    for (text, wanted) in cases {
        let script = tree_of(alloc, text)?;
        assert_eq!(rt; outline(alloc, &script)?.as_str(), wanted, "{text}");
        assert_eq!(rt; script.len, 7);
    }
    let empty = parse(alloc, &[], 0)?;
    assert_eq!(rt; empty.nodes.len(), 0);
    Ok(())
}

#[test]
fn other_tokens_are_refused(rt: HostRuntime) -> Result<(), Fail> {
    let alloc = rt.alloc();
    let cases = [
        "let a = 1 ; let a = 2 ;",
        "print ( a ) ;",
        "let a = b ; let b = 1 ;",
        "let print = 1 ;",
        "let a = a ;",
        "print ( print ) ;",
        "let x = 1",
        "print ( 1 )",
        "print ( 1 , ) ;",
        "print ( , 1 ) ;",
        "print ( ( ) ) ;",
        "print ( ( 1 , 2 ) ) ;",
        "let a = ( 1 ;",
        "let a = 1 ) ;",
        "print ( 1 ;",
        "print ( 1 2 ) ;",
        "print ( 1 + ) ;",
        "print ( * 1 ) ;",
        "let 1 = 1 ;",
        "let a 1 ;",
        "print 1 ;",
        "1 ;",
        ";",
        "a ( 1 ) ;",
    ];
    for text in cases {
        assert!(rt;
            matches!(tree_of(alloc, text), Err(ParseError::NotYet)),
            "{text}"
        );
    }
    Ok(())
}

#[test]
fn items_and_calls_have_their_nodes_and_places(rt: HostRuntime) -> Result<(), Fail> {
    let alloc = rt.alloc();
    let cases = [
        ("", "", "0:bind f 'm g; #0 "),
        (
            "",
            " print ( f ( 1 , 2 , ) + f ( ) ) ;",
            "0:bind f 'm g; 28:1; 30:2; 27:f() #1 #2; 35:f(); 33:#3+33 #4; 24:print #5; #0 #6 ",
        ),
        (
            "let a = 1 ; ",
            " let b = f ( f ( a ) , ( a ) * a ) ; print ( b ) ;",
            "3:1; 0:let a #0; 5:bind f 'm g; 36:a; 35:f() #3; 40:a; 43:a; 42:#5*42 #6; 33:f() #4 #7; 29:let b #8; 48:b; 46:print #10; #1 #2 #9 #11 ",
        ),
    ];
    for (before, after, wanted) in cases {
        let text = with_item(alloc, before, after)?;
        let script = tree_of(alloc, text.as_str())?;
        assert_eq!(rt;
            outline(alloc, &script)?.as_str(),
            wanted,
            "{before} {after}"
        );
    }
    Ok(())
}

#[test]
fn names_by_which_an_item_loads_may_be_declared_without_one(rt: HostRuntime) -> Result<(), Fail> {
    let alloc = rt.alloc();
    let script = tree_of(
        alloc,
        "let readbuffer = 1 ; let WebAssembly = readbuffer ; let exports = 2 ;",
    )?;
    assert_eq!(rt; script.top.len(), 3);
    let text = with_item(
        alloc,
        "let exports = 1 ; let Module = 2 ; ",
        " let Instance = 3 ;",
    )?;
    assert_eq!(rt; tree_of(alloc, text.as_str())?.top.len(), 4);
    Ok(())
}

#[test]
fn other_uses_beside_an_item_are_refused(rt: HostRuntime) -> Result<(), Fail> {
    let alloc = rt.alloc();
    let cases = [
        ("", " print ( f ) ;"),
        ("", " let a = f ;"),
        ("", " print ( f ( f ) ) ;"),
        ("", " let a = 1 ; print ( a ( ) ) ;"),
        ("", " print ( g ( ) ) ;"),
        ("", " print ( f ( , ) ) ;"),
        ("", " print ( f ( 1 , , ) ) ;"),
        ("", " print ( f ( 1 2 ) ) ;"),
        ("", " print ( f ( 1 ) , ) ;"),
        ("", " print ( f ( 1 ) ;"),
        ("", " print ( f ( ( ) ) ) ;"),
        ("", " print ( f ( ) ( ) ) ;"),
        ("", " print ( ( f ) ( ) ) ;"),
        ("", " f ( ) ;"),
        ("", " let f = 1 ;"),
        ("", " let readbuffer = 1 ;"),
        ("", " let WebAssembly = 1 ;"),
        ("", " print ( readbuffer ( 'm ) ) ;"),
        ("let readbuffer = 1 ; ", ""),
        ("let WebAssembly = 1 ; ", ""),
        ("let f = 1 ; ", ""),
        ("print ( f ( ) ) ; ", ""),
    ];
    for (before, after) in cases {
        let text = with_item(alloc, before, after)?;
        assert!(rt;
            matches!(tree_of(alloc, text.as_str()), Err(ParseError::NotYet)),
            "{before} {after}"
        );
    }
    let twice = with_item(alloc, ITEM, "")?;
    assert!(rt; matches!(tree_of(alloc, twice.as_str()), Err(ParseError::NotYet)));
    Ok(())
}

#[test]
fn items_with_other_tokens_are_refused(rt: HostRuntime) -> Result<(), Fail> {
    let alloc = rt.alloc();
    for number in 0..24 {
        let text = without(alloc, ITEM, number)?;
        assert!(rt;
            matches!(tree_of(alloc, text.as_str()), Err(ParseError::NotYet)),
            "{number}"
        );
    }
    let cases = [
        "let f = new WebAssembly . Module ( new WebAssembly . Instance ( readbuffer ( 'm ) ) ) . exports . g ;",
        "let f = new WebAssembly . Instance ( new WebAssembly . Module ( readbuffer ( m ) ) ) . exports . g ;",
        "let f = new WebAssembly . Instance ( new WebAssembly . Module ( readbuffer ( 'm ) ) ) . exports . 'g ;",
        "let f = new WebAssembly . Instance ( new WebAssembly . Module ( readbuffer ( 'm ) ) ) . exports . g ( ) ;",
        "let f = new WebAssembly . Instance ( new WebAssembly . Module ( readbuffer ( 'm ) ) ) . exports . print ;",
        "let f = 1 + new WebAssembly . Instance ( new WebAssembly . Module ( readbuffer ( 'm ) ) ) . exports . g ;",
        "let print = new WebAssembly . Instance ( new WebAssembly . Module ( readbuffer ( 'm ) ) ) . exports . g ;",
        "print ( new WebAssembly . Instance ( new WebAssembly . Module ( readbuffer ( 'm ) ) ) . exports . g ) ;",
    ];
    for text in cases {
        assert!(rt;
            matches!(tree_of(alloc, text), Err(ParseError::NotYet)),
            "{text}"
        );
    }
    Ok(())
}

#[test]
fn at_most_256_parentheses_are_open(rt: HostRuntime) -> Result<(), Fail> {
    let alloc = rt.alloc();
    let cases = [
        ("let a =", 256, " ;", true),
        ("let a =", 257, " ;", false),
        ("print (", 255, " ) ;", true),
        ("print (", 256, " ) ;", false),
    ];
    for (before, depth, after, fits) in cases {
        let text = nested(alloc, before, depth, after)?;
        let tree = tree_of(alloc, text.as_str());
        assert_eq!(rt; tree.is_ok(), fits, "{before} {depth}");
    }
    let calls = [
        (" let a = f (", 255, " ) ;", true),
        (" let a = f (", 256, " ) ;", false),
        (" print ( f (", 254, " ) ) ;", true),
        (" print ( f (", 255, " ) ) ;", false),
    ];
    for (before, depth, after, fits) in calls {
        let text = nested(alloc, with_item(alloc, "", before)?.as_str(), depth, after)?;
        let tree = tree_of(alloc, text.as_str());
        assert_eq!(rt; tree.is_ok(), fits, "{before} {depth}");
    }
    let full = nested(
        alloc,
        with_item(alloc, "", " let a =")?.as_str(),
        0,
        " * f ( ) ;",
    )?;
    assert!(rt; tree_of(alloc, full.as_str()).is_ok());
    Ok(())
}
