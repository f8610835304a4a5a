use host_lexer::{LexError, Token, TokenKind, tokens};
use std::alloc::Global;
use std::process::Abort;
use std::test::Fail;

// A token as a short text: `|` where it stands after a line end, its ends, its kind and its value.
fn shown(alloc: Global, token: &Token) -> Result<String, Fail> {
    let line = if token.after_line { "|" } else { "" };
    let (from, to) = (token.from, token.to);
    let text = match &token.kind {
        TokenKind::Name(name) => { format!(in alloc; "{line}{from}-{to} name {}", name.as_str())? }
        TokenKind::Word(word) => format!(in alloc; "{line}{from}-{to} {word:?}")?,
        TokenKind::Number(number) => format!(in alloc; "{line}{from}-{to} number {number}")?,
        TokenKind::BigInt(number) => format!(in alloc; "{line}{from}-{to} bigint {number}")?,
        TokenKind::Text(text) => { format!(in alloc; "{line}{from}-{to} text {}", text.as_str())? }
        TokenKind::Mark(mark) => format!(in alloc; "{line}{from}-{to} {mark:?}")?,
    };
    Ok(text)
}

// The tokens of a text, each shown and then `;`, or the refusal with its place.
fn all_shown(rt: &impl Abort, alloc: Global, text: &str) -> Result<String, Fail> {
    assert!(rt; text.len() < 1000);
    let mut all = String::new(alloc);
    match tokens(alloc, text) {
        Ok(found) => {
            for token in &found {
                let one = shown(alloc, token)?;
                all.push_str(one.as_str())?;
                all.push_str(";")?;
            }
        }
        Err(LexError::BadToken(place)) => {
            let told = format!(in alloc; "bad {place}")?;
            all.push_str(told.as_str())?;
        }
        Err(LexError::NumberOutside(place)) => {
            let told = format!(in alloc; "outside {place}")?;
            all.push_str(told.as_str())?;
        }
        Err(LexError::NoMemory) => all.push_str("out of memory")?,
    }
    Ok(all)
}

// Each text is read as is written beside it.
fn all_are_read(rt: &impl Abort, alloc: Global, cases: &[(&str, &str)]) -> Result<(), Fail> {
    for (text, wanted) in cases {
        let found = all_shown(rt, alloc, text)?;
        assert_eq!(rt; found.as_str(), *wanted, "{text}");
    }
    Ok(())
}

static WORDS_ARE_NO_NAMES: [(&str, &str); 49] = [
    ("arguments", "0-9 Arguments;"),
    ("await", "0-5 Await;"),
    ("break", "0-5 Break;"),
    ("case", "0-4 Case;"),
    ("catch", "0-5 Catch;"),
    ("class", "0-5 Class;"),
    ("const", "0-5 Const;"),
    ("continue", "0-8 Continue;"),
    ("debugger", "0-8 Debugger;"),
    ("default", "0-7 Default;"),
    ("delete", "0-6 Delete;"),
    ("do", "0-2 Do;"),
    ("else", "0-4 Else;"),
    ("enum", "0-4 Enum;"),
    ("eval", "0-4 Eval;"),
    ("export", "0-6 Export;"),
    ("extends", "0-7 Extends;"),
    ("false", "0-5 False;"),
    ("finally", "0-7 Finally;"),
    ("for", "0-3 For;"),
    ("function", "0-8 Function;"),
    ("if", "0-2 If;"),
    ("implements", "0-10 Implements;"),
    ("import", "0-6 Import;"),
    ("in", "0-2 In;"),
    ("instanceof", "0-10 InstanceOf;"),
    ("interface", "0-9 Interface;"),
    ("let", "0-3 Let;"),
    ("new", "0-3 New;"),
    ("null", "0-4 Null;"),
    ("package", "0-7 Package;"),
    ("private", "0-7 Private;"),
    ("protected", "0-9 Protected;"),
    ("public", "0-6 Public;"),
    ("return", "0-6 Return;"),
    ("static", "0-6 Static;"),
    ("super", "0-5 Super;"),
    ("switch", "0-6 Switch;"),
    ("this", "0-4 This;"),
    ("throw", "0-5 Throw;"),
    ("true", "0-4 True;"),
    ("try", "0-3 Try;"),
    ("typeof", "0-6 TypeOf;"),
    ("undefined", "0-9 Undefined;"),
    ("var", "0-3 Var;"),
    ("void", "0-4 Void;"),
    ("while", "0-5 While;"),
    ("with", "0-4 With;"),
    ("yield", "0-5 Yield;"),
];

#[test]
fn words_are_no_names(rt: HostRuntime) -> Result<(), Fail> {
    all_are_read(&rt, rt.alloc(), &WORDS_ARE_NO_NAMES)
}

static WORDS_THAT_GO_ON_ARE_NAMES: [(&str, &str); 11] = [
    ("arguments1", "0-10 name arguments1;"),
    ("await1", "0-6 name await1;"),
    ("break1", "0-6 name break1;"),
    ("case1", "0-5 name case1;"),
    ("catch1", "0-6 name catch1;"),
    ("class1", "0-6 name class1;"),
    ("const1", "0-6 name const1;"),
    ("continue1", "0-9 name continue1;"),
    ("Let", "0-3 name Let;"),
    ("let$", "0-4 name let$;"),
    ("letlet", "0-6 name letlet;"),
];

#[test]
fn words_that_go_on_are_names(rt: HostRuntime) -> Result<(), Fail> {
    all_are_read(&rt, rt.alloc(), &WORDS_THAT_GO_ON_ARE_NAMES)
}

static MARKS_ARE_TOLD_APART: [(&str, &str); 27] = [
    ("===", "0-3 StrictEquals;"),
    ("!==", "0-3 StrictNotEquals;"),
    ("<=", "0-2 LessEquals;"),
    (">=", "0-2 GreaterEquals;"),
    ("&&", "0-2 And;"),
    ("||", "0-2 Or;"),
    ("++", "0-2 Increment;"),
    ("--", "0-2 Decrement;"),
    ("{", "0-1 OpenBrace;"),
    ("}", "0-1 CloseBrace;"),
    ("(", "0-1 OpenParen;"),
    (")", "0-1 CloseParen;"),
    ("[", "0-1 OpenBracket;"),
    ("]", "0-1 CloseBracket;"),
    (".", "0-1 Dot;"),
    (";", "0-1 Semicolon;"),
    (",", "0-1 Comma;"),
    (":", "0-1 Colon;"),
    ("<", "0-1 Less;"),
    (">", "0-1 Greater;"),
    ("=", "0-1 Equals;"),
    ("+", "0-1 Plus;"),
    ("-", "0-1 Minus;"),
    ("*", "0-1 Star;"),
    ("/", "0-1 Slash;"),
    ("%", "0-1 Percent;"),
    ("!", "0-1 Not;"),
];

#[test]
fn marks_are_told_apart(rt: HostRuntime) -> Result<(), Fail> {
    all_are_read(&rt, rt.alloc(), &MARKS_ARE_TOLD_APART)
}

static THE_LONGEST_MARK_COMES_FIRST: [(&str, &str); 17] = [
    ("====", "0-3 StrictEquals;3-4 Equals;"),
    ("!=", "0-1 Not;1-2 Equals;"),
    ("==", "0-1 Equals;1-2 Equals;"),
    ("+++", "0-2 Increment;2-3 Plus;"),
    ("---", "0-2 Decrement;2-3 Minus;"),
    ("<==", "0-2 LessEquals;2-3 Equals;"),
    (">>=", "0-1 Greater;1-3 GreaterEquals;"),
    ("&&&", "bad 2"),
    ("|||", "bad 2"),
    ("a&b", "bad 1"),
    ("a|b", "bad 1"),
    ("...", "0-1 Dot;1-2 Dot;2-3 Dot;"),
    ("*=", "0-1 Star;1-2 Equals;"),
    ("/=", "0-1 Slash;1-2 Equals;"),
    ("=>", "0-1 Equals;1-2 Greater;"),
    ("!==!", "0-3 StrictNotEquals;3-4 Not;"),
    ("a/b", "0-1 name a;1-2 Slash;2-3 name b;"),
];

#[test]
fn the_longest_mark_comes_first(rt: HostRuntime) -> Result<(), Fail> {
    all_are_read(&rt, rt.alloc(), &THE_LONGEST_MARK_COMES_FIRST)
}

static WHITE_SPACE_AND_COMMENTS_MAKE_NO_TOKEN: [(&str, &str); 26] = [
    ("", ""),
    (" \t\u{b}\u{c}\u{a0}\u{feff}a", "9-10 name a;"),
    ("\u{feff}a", "3-4 name a;"),
    ("a\nb", "0-1 name a;|2-3 name b;"),
    ("a\rb", "0-1 name a;|2-3 name b;"),
    ("a\r\nb", "0-1 name a;|3-4 name b;"),
    ("\na", "|1-2 name a;"),
    ("a//x\nb", "0-1 name a;|5-6 name b;"),
    ("a// x", "0-1 name a;"),
    ("a//x\rb", "0-1 name a;|5-6 name b;"),
    ("//", ""),
    ("a/*x*/b", "0-1 name a;6-7 name b;"),
    ("a/*\n*/b", "0-1 name a;|6-7 name b;"),
    ("a/*\r*/b", "0-1 name a;|6-7 name b;"),
    ("/**/a", "4-5 name a;"),
    ("/***/a", "5-6 name a;"),
    ("/*/*/a", "5-6 name a;"),
    ("a /* b\n", "bad 2"),
    ("/*/a", "bad 0"),
    ("a /*", "bad 2"),
    ("/* * /", "bad 0"),
    ("// /*\na", "|6-7 name a;"),
    ("\r", ""),
    ("\u{85}a", "bad 0"),
    ("\u{2003}a", "bad 0"),
    ("a\u{3000}", "bad 1"),
];

#[test]
fn white_space_and_comments_make_no_token(rt: HostRuntime) -> Result<(), Fail> {
    all_are_read(&rt, rt.alloc(), &WHITE_SPACE_AND_COMMENTS_MAKE_NO_TOKEN)
}

static LINE_SEPARATORS_STAND_IN_TEXTS_ALONE: [(&str, &str); 9] = [
    ("a\u{2028}b", "bad 1"),
    ("\u{2029}", "bad 0"),
    ("// \u{2029}", "bad 3"),
    ("//\u{2028}\n", "bad 2"),
    ("a /* \u{2028} */", "bad 5"),
    ("a /* \u{2029}\u{2028} */", "bad 5"),
    ("a /* \u{2028}", "bad 2"),
    ("'\u{2028}'", "0-5 text \u{2028};"),
    ("\"\u{2029}\"", "0-5 text \u{2029};"),
];

#[test]
fn line_separators_stand_in_texts_alone(rt: HostRuntime) -> Result<(), Fail> {
    all_are_read(&rt, rt.alloc(), &LINE_SEPARATORS_STAND_IN_TEXTS_ALONE)
}

static NAMES_ARE_READ_BY_CHARACTER: [(&str, &str); 20] = [
    ("é", "0-2 name é;"),
    ("aé$_1", "0-6 name aé$_1;"),
    ("日本", "0-6 name 日本;"),
    ("$", "0-1 name $;"),
    ("_", "0-1 name _;"),
    ("a\u{300}", "0-3 name a\u{300};"),
    ("\u{300}", "bad 0"),
    ("a b", "0-1 name a;2-3 name b;"),
    ("a-b", "0-1 name a;1-2 Minus;2-3 name b;"),
    ("é é", "0-2 name é;3-5 name é;"),
    ("a@", "bad 1"),
    ("#", "bad 0"),
    ("é#", "bad 2"),
    ("\\", "bad 0"),
    ("?", "bad 0"),
    ("`", "bad 0"),
    ("~", "bad 0"),
    ("^", "bad 0"),
    ("a\0", "bad 1"),
    ("a\u{7f}", "bad 1"),
];

#[test]
fn names_are_read_by_character(rt: HostRuntime) -> Result<(), Fail> {
    all_are_read(&rt, rt.alloc(), &NAMES_ARE_READ_BY_CHARACTER)
}

static NUMBERS_LIE_IN_THE_PROFILE: [(&str, &str); 33] = [
    ("0", "0-1 number 0;"),
    ("7", "0-1 number 7;"),
    ("10", "0-2 number 10;"),
    ("01", "outside 0"),
    ("00", "outside 0"),
    ("0x", "outside 0"),
    ("0X1", "outside 0"),
    ("0x0", "0-3 number 0;"),
    ("0x1F", "0-4 number 31;"),
    ("0xfF", "0-4 number 255;"),
    ("0x001", "0-5 number 1;"),
    ("0xg", "outside 0"),
    ("1_0", "outside 0"),
    ("1.5", "outside 0"),
    ("1.", "outside 0"),
    ("1e3", "outside 0"),
    ("1$", "outside 0"),
    ("1é", "outside 0"),
    (".5", "0-1 Dot;1-2 number 5;"),
    ("a.1", "0-1 name a;1-2 Dot;2-3 number 1;"),
    ("1 .a", "0-1 number 1;2-3 Dot;3-4 name a;"),
    ("1.a", "outside 0"),
    ("-1", "0-1 Minus;1-2 number 1;"),
    ("9007199254740991", "0-16 number 9007199254740991;"),
    ("9007199254740992", "outside 0"),
    ("0x1fffffffffffff", "0-16 number 9007199254740991;"),
    ("0x20000000000000", "outside 0"),
    ("99999999999999999999999999999999999999999999", "outside 0"),
    ("0b1", "outside 0"),
    ("0o7", "outside 0"),
    ("0x1.8", "outside 0"),
    ("1N", "outside 0"),
    ("0.0", "outside 0"),
];

#[test]
fn numbers_lie_in_the_profile(rt: HostRuntime) -> Result<(), Fail> {
    all_are_read(&rt, rt.alloc(), &NUMBERS_LIE_IN_THE_PROFILE)
}

static BIG_INTS_LIE_IN_THE_PROFILE: [(&str, &str); 16] = [
    ("0n", "0-2 bigint 0;"),
    ("1n", "0-2 bigint 1;"),
    ("01n", "outside 0"),
    ("0xn", "outside 0"),
    ("0xan", "0-4 bigint 10;"),
    ("1nn", "outside 0"),
    ("n1", "0-2 name n1;"),
    ("1n.a", "outside 0"),
    ("1n .a", "0-2 bigint 1;3-4 Dot;4-5 name a;"),
    ("1.5n", "outside 0"),
    (
        "170141183460469231731687303715884105727n",
        "0-40 bigint 170141183460469231731687303715884105727;",
    ),
    ("170141183460469231731687303715884105728n", "outside 0"),
    (
        "0x7fffffffffffffffffffffffffffffffn",
        "0-35 bigint 170141183460469231731687303715884105727;",
    ),
    ("0x80000000000000000000000000000000n", "outside 0"),
    ("0xffffffffffffffffffffffffffffffffffn", "outside 0"),
    ("9007199254740992n", "0-17 bigint 9007199254740992;"),
];

#[test]
fn big_ints_lie_in_the_profile(rt: HostRuntime) -> Result<(), Fail> {
    all_are_read(&rt, rt.alloc(), &BIG_INTS_LIE_IN_THE_PROFILE)
}

static ESCAPES_STAND_FOR_CHARACTERS: [(&str, &str); 48] = [
    ("\"\\n\\t\\r\\\\\\\"\\'\"", "0-14 text \n\t\r\\\"';"),
    ("'\\n\\t\\r\\\\\\\"\\''", "0-14 text \n\t\r\\\"';"),
    ("'\\0'", "0-4 text \0;"),
    ("'\\0a'", "0-5 text \0a;"),
    ("'\\01'", "bad 0"),
    ("'\\09'", "bad 0"),
    ("'\\1'", "bad 0"),
    ("'\\x41'", "0-6 text A;"),
    ("'\\xFf'", "0-6 text \u{ff};"),
    ("'\\x4'", "bad 0"),
    ("'\\x4g'", "bad 0"),
    ("'\\x'", "bad 0"),
    ("'\\X41'", "bad 0"),
    ("'\\u0041'", "0-8 text A;"),
    ("'\\u00e9x'", "0-9 text éx;"),
    ("'\\u004'", "bad 0"),
    ("'\\u004g'", "bad 0"),
    ("'\\ud800'", "bad 0"),
    ("'\\uDFFF'", "bad 0"),
    ("'\\ud7ff'", "0-8 text \u{d7ff};"),
    ("'\\ue000'", "0-8 text \u{e000};"),
    ("'\\ud83d\\ude00'", "bad 0"),
    ("'\\u{41}'", "0-8 text A;"),
    ("'\\u{0000000041}'", "0-16 text A;"),
    ("'\\u{10fFff}'", "0-12 text \u{10ffff};"),
    ("'\\u{110000}'", "bad 0"),
    ("'\\u{d800}'", "bad 0"),
    ("'\\u{dfff}'", "bad 0"),
    ("'\\u{ffffffffffffffffffffffffffffffffffffffff}'", "bad 0"),
    ("'\\u{}'", "bad 0"),
    ("'\\u{41'", "bad 0"),
    ("'\\u{4g}'", "bad 0"),
    ("'\\u{41", "bad 0"),
    ("'\\u'", "bad 0"),
    ("'\\U0041'", "bad 0"),
    ("'\\q'", "bad 0"),
    ("'\\b'", "bad 0"),
    ("'\\v'", "bad 0"),
    ("'\\N'", "bad 0"),
    ("'\\\n'", "bad 0"),
    ("'\\'", "bad 0"),
    ("'\\", "bad 0"),
    ("'\\\r'", "bad 0"),
    ("'\\00'", "bad 0"),
    ("\"\\0\"", "0-4 text \0;"),
    ("'\\u{ 41}'", "bad 0"),
    ("'\\u{41 }'", "bad 0"),
    ("'\\x41\\u0042\\u{43}\\n'", "0-20 text ABC\n;"),
];

#[test]
fn escapes_stand_for_characters(rt: HostRuntime) -> Result<(), Fail> {
    all_are_read(&rt, rt.alloc(), &ESCAPES_STAND_FOR_CHARACTERS)
}

static TEXTS_END_WITH_THEIR_QUOTE: [(&str, &str); 13] = [
    ("''", "0-2 text ;"),
    ("\"\"", "0-2 text ;"),
    ("'a", "bad 0"),
    ("a 'b", "bad 2"),
    ("'", "bad 0"),
    ("\"a'b\"", "0-5 text a'b;"),
    ("'a\"b'", "0-5 text a\"b;"),
    ("'a\nb'", "bad 0"),
    ("'a\rb'", "bad 0"),
    ("'a\tb'", "0-5 text a\tb;"),
    ("'é日'", "0-7 text é日;"),
    ("'//'", "0-4 text //;"),
    ("'a''b'", "0-3 text a;3-6 text b;"),
];

#[test]
fn texts_end_with_their_quote(rt: HostRuntime) -> Result<(), Fail> {
    all_are_read(&rt, rt.alloc(), &TEXTS_END_WITH_THEIR_QUOTE)
}

static THE_FIRST_REFUSAL_DECIDES: [(&str, &str); 5] = [
    ("@ 01", "bad 0"),
    ("01 @", "outside 0"),
    ("a 01 @", "outside 2"),
    ("é '\\q' 01", "bad 3"),
    ("1 2 /* 01", "bad 4"),
];

#[test]
fn the_first_refusal_decides(rt: HostRuntime) -> Result<(), Fail> {
    all_are_read(&rt, rt.alloc(), &THE_FIRST_REFUSAL_DECIDES)
}
