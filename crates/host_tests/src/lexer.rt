use small_lexer::{LexError, Token, TokenKind, tokens};
use std::alloc::Global;
use std::process::Abort;
use std::test::Fail;

// A token as a short text: `|` where it stands after a line end, its kind, and its ends.
fn shown(alloc: Global, token: &Token) -> Result<String, Fail> {
    let line = if token.after_line { "|" } else { "" };
    let (from, to) = (token.from, token.to);
    let text = match &token.kind {
        TokenKind::Name(name) => { format!(in alloc; "{line}{from}-{to} name {}", name.as_str())? }
        TokenKind::Word(word) => format!(in alloc; "{line}{from}-{to} {word:?}")?,
        TokenKind::Number(number) => format!(in alloc; "{line}{from}-{to} number {number}")?,
        TokenKind::Text(text) => { format!(in alloc; "{line}{from}-{to} text {}", text.as_str())? }
        TokenKind::Mark(mark) => format!(in alloc; "{line}{from}-{to} {mark:?}")?,
    };
    Ok(text)
}

// The tokens of a text, each shown and then `;`, or `not yet`.
fn all_shown(rt: &impl Abort, alloc: Global, text: &str) -> Result<String, Fail> {
    assert!(rt; text.len() < 1000);
    let mut all = String::new(alloc);
    match tokens(alloc, text) {
        Ok(found) => {
            for token in &found {
                let one = shown(alloc, token)?;
                all.push_str(one.as_str())?;
                all.push_str(";")?;
            }
        }
        Err(LexError::NotYet) => all.push_str("not yet")?,
        Err(LexError::NoMemory) => all.push_str("out of memory")?,
    }
    Ok(all)
}

#[test]
fn texts_split_as_the_form_says(rt: HostRuntime) -> Result<(), Fail> {
    let cases = [
        ("", ""),
        (" \n ", ""),
        (
            "let a = 6;\nprint(\"a\", a);",
            "0-3 Let;4-5 name a;6-7 Equals;8-9 number 6;9-10 Semicolon;|11-16 name print;16-17 Open;17-20 text a;20-21 Comma;22-23 name a;23-24 Close;24-25 Semicolon;",
        ),
        (
            "a+$_9-b3*c",
            "0-1 name a;1-2 Plus;2-5 name $_9;5-6 Minus;6-8 name b3;8-9 Star;9-10 name c;",
        ),
        ("letx", "0-4 name letx;"),
        ("newx", "0-4 name newx;"),
        (
            "new W.Module(readbuffer(\"m\"))\n.exports . f",
            "0-3 New;4-5 name W;5-6 Dot;6-12 name Module;12-13 Open;13-23 name readbuffer;23-24 Open;24-27 text m;27-28 Close;28-29 Close;|30-31 Dot;31-38 name exports;39-40 Dot;41-42 name f;",
        ),
        (".5 ..", "0-1 Dot;1-2 number 5;3-4 Dot;4-5 Dot;"),
        ("\n0 \n\n \"\"x", "|1-2 number 0;|6-8 text ;8-9 name x;"),
        ("9007199254740991", "0-16 number 9007199254740991;"),
        (
            "\" !#$%&'()*+,-./0123456789:;<=>?@ABCDEFGHIJKLMNOPQRSTUVWXYZ[]^_`abcdefghijklmnopqrstuvwxyz{|}~\"",
            "0-95 text  !#$%&'()*+,-./0123456789:;<=>?@ABCDEFGHIJKLMNOPQRSTUVWXYZ[]^_`abcdefghijklmnopqrstuvwxyz{|}~;",
        ),
        ("01", "not yet"),
        ("1a", "not yet"),
        ("1.5", "not yet"),
        ("0x10", "not yet"),
        ("9007199254740992", "not yet"),
        ("99999999999999999999999999", "not yet"),
        ("\"a", "not yet"),
        ("\"é\"", "not yet"),
        ("\"\\n\"", "not yet"),
        ("é", "not yet"),
        ("a\tb", "not yet"),
        ("a\rb", "not yet"),
        ("'a'", "not yet"),
        ("6 / 2", "not yet"),
        ("while", "not yet"),
        ("a : b", "not yet"),
        ("1.a", "not yet"),
        ("1.", "not yet"),
        ("export", "not yet"),
    ];
    for (text, expected) in cases {
        let got = all_shown(&rt, rt.alloc(), text)?;
        assert_eq!(rt; got.as_str(), expected, "at {text}");
    }
    Ok(())
}
