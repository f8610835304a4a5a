use host_lexer::tokens;
use host_parser::{Binding, ParseError, Predefined, Script, parse};
use std::alloc::Global;
use std::process::Abort;
use std::test::Fail;

// A binding: `g` and a global's number, `l` and a local's, `c` and `k` where it is a constant, a predefined name, or `u`.
fn shown(alloc: Global, binding: Binding) -> Result<String, Fail> {
    let text = match binding {
        Binding::Unknown => format!(in alloc; " u")?,
        Binding::Predefined(name) => format!(in alloc; " {name:?}")?,
        Binding::Global(slot) => {
            let kind = if slot.constant { "c" } else { "g" };
            format!(in alloc; " {kind}{}", slot.number)?
        }
        Binding::Local(slot) => {
            let kind = if slot.constant { "k" } else { "l" };
            format!(in alloc; " {kind}{}", slot.number)?
        }
    };
    Ok(text)
}

// How many functions, other items and global bindings a script has, and what its references are bound to.
fn summary(alloc: Global, script: &Script) -> Result<String, Fail> {
    let functions = script.functions().len();
    let top = script.top().len();
    let globals = script.globals();
    let mut text = format!(in alloc; "{functions} {top} {globals}")?;
    for binding in script.bindings() {
        let one = shown(alloc, *binding)?;
        text.push_str(one.as_str())?;
    }
    Ok(text)
}

fn answer(alloc: Global, parsed: Result<Script, ParseError>) -> Result<String, Fail> {
    match parsed {
        Ok(script) => summary(alloc, &script),
        Err(ParseError::Unexpected(place)) => Ok(format!(in alloc; "unexpected {place}")?),
        Err(ParseError::TooDeep(place)) => Ok(format!(in alloc; "too deep {place}")?),
        Err(ParseError::Early { place, name }) => {
            let name = name.as_str();
            Ok(format!(in alloc; "{name} again {place}")?)
        }
        Err(ParseError::NoMemory) => Ok(format!(in alloc; "out of memory")?),
    }
}

fn told(rt: &impl Abort, alloc: Global, text: &str) -> Result<String, Fail> {
    assert!(rt; text.len() < 10000);
    let len = text.len() as u32;
    match tokens(alloc, text) {
        Ok(found) => answer(alloc, parse(alloc, found.as_slice(), len)),
        Err(_) => Ok(format!(in alloc; "no tokens")?),
    }
}

fn all_are_told(rt: &impl Abort, alloc: Global, cases: &[(&str, &str)]) -> Result<(), Fail> {
    for (text, wanted) in cases {
        let found = told(rt, alloc, text)?;
        assert_eq!(rt; found.as_str(), *wanted, "{text}");
    }
    Ok(())
}

static NAMES_ARE_BOUND_BY_THE_INNERMOST_SCOPE: [(&str, &str); 13] = [
    ("", "0 0 0"),
    ("a;", "0 1 0 u"),
    ("let a;a;", "0 2 1 g0 g0"),
    ("a;const a=1;", "0 2 1 c0 c0"),
    ("let a;function f(){a;}let b;b;f;", "1 4 3 g1 g1 g2 g2 g0"),
    ("{let a;{let b;a;b;}a;}b;", "0 2 0 l0 l1 l0 l1 l0 u"),
    (
        "function f(a,b){let c=a;{let a=b;a;}return c;}",
        "1 0 1 l2 l0 l3 l1 l3 l2",
    ),
    ("try{e;}catch(e){e;let x=e;}", "0 1 0 u l0 l1 l0"),
    ("{a;let a;}", "0 1 0 l0 l0"),
    ("let a;{let a;a;}a;", "0 3 1 g0 l0 l0 g0"),
    ("{const a=1;a;}", "0 1 0 k0 k0"),
    ("({a,b:c});new d();", "0 2 0 u u u"),
    ("{let a;}{let b;let a;a;}", "0 2 0 l0 l0 l1 l1"),
];

#[test]
fn names_are_bound_by_the_innermost_scope(rt: HostRuntime) -> Result<(), Fail> {
    all_are_told(&rt, rt.alloc(), &NAMES_ARE_BOUND_BY_THE_INNERMOST_SCOPE)
}

static PREDEFINED_NAMES_STAND_BELOW_DECLARED_ONES: [(&str, &str); 13] = [
    (
        "print;readbuffer;utf8Text;Object;BigInt;Number;String;Promise;",
        "0 8 0 Print Readbuffer Utf8Text Object BigInt Number String Promise",
    ),
    (
        "Uint8Array;Error;TypeError;RangeError;ReferenceError;SyntaxError;WebAssembly;",
        "0 7 0 Uint8Array Error TypeError RangeError ReferenceError SyntaxError WebAssembly",
    ),
    ("Print;prints;object;Array;", "0 4 0 u u u u"),
    ("print(a);", "0 1 0 Print u"),
    ("print=1;", "0 1 0 Print"),
    ("let print;print;", "0 2 1 g0 g0"),
    ("let a=print;const print=a;", "0 2 2 g0 c1 c1 g0"),
    ("function print(){}print(Error);", "1 1 1 g0 Error"),
    ("function f(Object){Object;Error;}", "1 0 1 l0 Error"),
    ("{let Promise;Promise;}Promise;", "0 2 0 l0 l0 Promise"),
    ("try{}catch(Error){Error;}Error;", "0 2 0 l0 Error"),
    ("new WebAssembly.Module(a);", "0 1 0 WebAssembly u"),
    ("({String,a:Number,BigInt:b});", "0 1 0 String Number u"),
];

#[test]
fn predefined_names_stand_below_declared_ones(rt: HostRuntime) -> Result<(), Fail> {
    all_are_told(&rt, rt.alloc(), &PREDEFINED_NAMES_STAND_BELOW_DECLARED_ONES)
}

static A_NAME_IS_DECLARED_ONCE_IN_A_SCOPE: [(&str, &str); 33] = [
    ("let a;let a;", "a again 10"),
    ("let a,a;", "a again 6"),
    ("let a;const b=1;let b;", "b again 20"),
    ("let a;function a(){}", "a again 15"),
    ("function f(){}function f(){}", "f again 23"),
    ("function f(a,a){}", "a again 13"),
    ("function f(a){let a;}", "a again 18"),
    ("function f(a){{let a;}}", "1 0 1 l1"),
    ("try{}catch(e){let e;}", "e again 18"),
    ("{let a;}{let a;}", "0 2 0 l0 l0"),
    ("{let b;let b;}let a;let a;", "b again 11"),
    ("let a;let a;(", "unexpected 13"),
    ("let a=1", "unexpected 7"),
    ("(a)=1;", "unexpected 3"),
    ("const a=1;const a=1;", "a again 16"),
    ("const a=1,b=2,a=3;", "a again 14"),
    ("function f(){}let f;", "f again 18"),
    ("let f;{}function f(){}", "f again 17"),
    ("function f(f){}", "1 0 1"),
    ("function f(){let f;}", "1 0 1 l0"),
    ("function f(){let a;let a;}", "a again 23"),
    ("function f(a,b){const b=1;}", "b again 22"),
    ("function f(a){try{}catch(a){}}", "1 0 1"),
    ("function f(a){}function g(a){}", "2 0 2"),
    ("if(a){let b;let b;}", "b again 16"),
    ("if(a);else{let b;let b;}", "b again 21"),
    ("while(a){let b,b;}", "b again 15"),
    ("try{let b;let b;}catch{}", "b again 14"),
    ("try{let e;}catch(e){}", "0 1 0 l0"),
    ("try{}catch{let e;const e=1;}", "e again 23"),
    ("try{}catch(e){{let e;}}", "0 1 0 l1"),
    ("let é;let e\u{301};let é;", "é again 19"),
    ("{{let a;let a;}let b;let b;}let c;let c;", "a again 12"),
];

#[test]
fn a_name_is_declared_once_in_a_scope(rt: HostRuntime) -> Result<(), Fail> {
    all_are_told(&rt, rt.alloc(), &A_NAME_IS_DECLARED_ONCE_IN_A_SCOPE)
}

static THE_257TH_OPEN_CONSTRUCT_IS_TOO_DEEP: [(u32, &str); 3] = [
    (1, "unexpected 1"),
    (256, "unexpected 256"),
    (257, "too deep 256"),
];

#[test]
fn the_257th_open_construct_is_too_deep(rt: HostRuntime) -> Result<(), Fail> {
    for (count, wanted) in &THE_257TH_OPEN_CONSTRUCT_IS_TOO_DEEP {
        let mut text = String::new(rt.alloc());
        for _ in 0..*count {
            text.push_str("(")?;
        }
        let found = told(&rt, rt.alloc(), text.as_str())?;
        assert_eq!(rt; found.as_str(), *wanted);
    }
    Ok(())
}
