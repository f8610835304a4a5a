use host_lexer::tokens;
use host_states::{Refusal, refusal_of};
use std::alloc::Global;
use std::process::Abort;
use std::test::Fail;

// Why a text is no script, with its place, or nothing where it is one.
pub fn told(rt: &impl Abort, alloc: Global, text: &str) -> Result<String, Fail> {
    assert!(rt; text.len() < 10000);
    let len = text.len() as u32;
    let mut told = String::new(alloc);
    match tokens(alloc, text) {
        Ok(found) => match refusal_of(alloc, found.as_slice(), len) {
            Ok(None) => {}
            Ok(Some(Refusal::Unexpected(place))) => told = format!(in alloc; "unexpected {place}")?,
            Ok(Some(Refusal::TooDeep(place))) => told = format!(in alloc; "too deep {place}")?,
            Err(_) => told.push_str("out of memory")?,
        },
        Err(_) => told.push_str("no tokens")?,
    }
    Ok(told)
}

// Each text is read as is written beside it.
fn all_are_told(rt: &impl Abort, alloc: Global, cases: &[(&str, &str)]) -> Result<(), Fail> {
    for (text, wanted) in cases {
        let found = told(rt, alloc, text)?;
        assert_eq!(rt; found.as_str(), *wanted, "{text}");
    }
    Ok(())
}

static EXPRESSIONS_STAND_AS_THE_GRAMMAR_SAYS: [(&str, &str); 34] = [
    ("", ""),
    (";", ""),
    ("a;", ""),
    ("a", "unexpected 1"),
    ("1;2n;'x';true;false;null;undefined;", ""),
    ("a.b;", ""),
    ("a.if;", ""),
    ("a.1;", "unexpected 2"),
    ("a.'b';", "unexpected 2"),
    ("a['b'];", ""),
    ("a[];", "unexpected 2"),
    ("a[b;", "unexpected 3"),
    ("a[b,c];", "unexpected 3"),
    ("f();", ""),
    ("f(a,);", ""),
    ("f(a,b)(c).d[e];", ""),
    ("f(,);", "unexpected 2"),
    ("f(a,,b);", "unexpected 4"),
    ("f(a b);", "unexpected 4"),
    ("f(a", "unexpected 3"),
    ("[];", ""),
    ("[a,];", ""),
    ("[,];", "unexpected 1"),
    ("[a b];", "unexpected 3"),
    ("[a);", "unexpected 2"),
    ("();", "unexpected 1"),
    ("(a;", "unexpected 2"),
    ("a);", "unexpected 1"),
    ("(a", "unexpected 2"),
    ("(a]", "unexpected 2"),
    ("a,b;", "unexpected 1"),
    ("a b;", "unexpected 2"),
    ("this;", "unexpected 0"),
    ("*;", "unexpected 0"),
];

#[test]
fn expressions_stand_as_the_grammar_says(rt: HostRuntime) -> Result<(), Fail> {
    all_are_told(&rt, rt.alloc(), &EXPRESSIONS_STAND_AS_THE_GRAMMAR_SAYS)
}

static OBJECTS_AND_NEW_STAND_AS_THE_GRAMMAR_SAYS: [(&str, &str); 23] = [
    ("({});", ""),
    ("({a});", ""),
    ("({a,});", ""),
    ("({a:1,'b':2,if:3});", ""),
    ("({if});", "unexpected 4"),
    ("({'a'});", "unexpected 5"),
    ("({,});", "unexpected 2"),
    ("({a:});", "unexpected 4"),
    ("({1:2});", "unexpected 2"),
    ("({a b});", "unexpected 4"),
    ("({a:1 b});", "unexpected 6"),
    ("({a:1]);", "unexpected 5"),
    ("new A();", ""),
    ("new A;", "unexpected 5"),
    ("new A.b.if(1,);", ""),
    ("new (A)();", "unexpected 4"),
    ("new A[0]();", "unexpected 5"),
    ("new A()();", ""),
    ("new A().b;", ""),
    ("new if();", "unexpected 4"),
    ("new A(,);", "unexpected 6"),
    ("new A.();", "unexpected 6"),
    ("new;", "unexpected 3"),
];

#[test]
fn objects_and_new_stand_as_the_grammar_says(rt: HostRuntime) -> Result<(), Fail> {
    all_are_told(&rt, rt.alloc(), &OBJECTS_AND_NEW_STAND_AS_THE_GRAMMAR_SAYS)
}

static OPERATORS_STAND_AS_THE_GRAMMAR_SAYS: [(&str, &str); 21] = [
    ("-a;", ""),
    ("- -a;", ""),
    ("--a;", "unexpected 0"),
    ("!a;", ""),
    ("typeof a;", ""),
    ("typeof;", "unexpected 6"),
    ("-;", "unexpected 1"),
    ("+a;", "unexpected 0"),
    ("a+b-c*d/e%f;", ""),
    ("a++b;", "unexpected 1"),
    ("a+ +b;", "unexpected 3"),
    ("a+-b;", ""),
    ("a<b>c<=d>=e;", ""),
    ("a===b!==c;", ""),
    ("a==b;", "unexpected 2"),
    ("a!=b;", "unexpected 1"),
    ("a!;", "unexpected 1"),
    ("a&&b||c;", ""),
    ("a||;", "unexpected 3"),
    ("a*;", "unexpected 2"),
    ("a typeof b;", "unexpected 2"),
];

#[test]
fn operators_stand_as_the_grammar_says(rt: HostRuntime) -> Result<(), Fail> {
    all_are_told(&rt, rt.alloc(), &OPERATORS_STAND_AS_THE_GRAMMAR_SAYS)
}

static ASSIGNMENTS_STAND_AS_THE_GRAMMAR_SAYS: [(&str, &str); 19] = [
    ("a=b;", ""),
    ("a.b=c;", ""),
    ("a[b]=c;", ""),
    ("f(a).b=c;", ""),
    ("(a).b=c;", ""),
    ("(a)=b;", "unexpected 3"),
    ("(a.b)=c;", "unexpected 5"),
    ("f()=b;", "unexpected 3"),
    ("a+b=c;", "unexpected 3"),
    ("-a=b;", "unexpected 2"),
    ("-a.b=c;", "unexpected 4"),
    ("a=b=c;", "unexpected 3"),
    ("f(a=b);", "unexpected 3"),
    ("1=a;", "unexpected 1"),
    ("'a'=b;", "unexpected 3"),
    ("[]=a;", "unexpected 2"),
    ("new A()=b;", "unexpected 7"),
    ("a=;", "unexpected 2"),
    ("a=b", "unexpected 3"),
];

#[test]
fn assignments_stand_as_the_grammar_says(rt: HostRuntime) -> Result<(), Fail> {
    all_are_told(&rt, rt.alloc(), &ASSIGNMENTS_STAND_AS_THE_GRAMMAR_SAYS)
}

static BLOCKS_COME_BEFORE_OBJECTS: [(&str, &str); 13] = [
    ("{}", ""),
    ("{};", ""),
    ("{a:1}", "unexpected 2"),
    ("{}.a;", "unexpected 2"),
    ("{}=a;", "unexpected 2"),
    ("a={};", ""),
    ("{a;}", ""),
    ("{a}", "unexpected 2"),
    ("{", "unexpected 1"),
    ("}", "unexpected 0"),
    ("{{;}}", ""),
    ("if(a){}.b;", "unexpected 7"),
    ("{]", "unexpected 1"),
];

#[test]
fn blocks_come_before_objects(rt: HostRuntime) -> Result<(), Fail> {
    all_are_told(&rt, rt.alloc(), &BLOCKS_COME_BEFORE_OBJECTS)
}

static DECLARATIONS_STAND_AS_THE_GRAMMAR_SAYS: [(&str, &str); 17] = [
    ("let a;", ""),
    ("let a,b=1,c;", ""),
    ("let;", "unexpected 3"),
    ("let a b;", "unexpected 6"),
    ("let a=;", "unexpected 6"),
    ("let a,;", "unexpected 6"),
    ("let if;", "unexpected 4"),
    ("let a=1,2;", "unexpected 8"),
    ("let", "unexpected 3"),
    ("let a.b;", "unexpected 5"),
    ("let a;let a;", ""),
    ("const a=1;", ""),
    ("const a=1,b=2;", ""),
    ("const a;", "unexpected 7"),
    ("const a=1,b;", "unexpected 11"),
    ("const 1=a;", "unexpected 6"),
    ("var a;", "unexpected 0"),
];

#[test]
fn declarations_stand_as_the_grammar_says(rt: HostRuntime) -> Result<(), Fail> {
    all_are_told(&rt, rt.alloc(), &DECLARATIONS_STAND_AS_THE_GRAMMAR_SAYS)
}

static IF_AND_ELSE_STAND_AS_THE_GRAMMAR_SAYS: [(&str, &str); 19] = [
    ("if(a)b;", ""),
    ("if(a)b;else c;", ""),
    ("if(a)b else c;", "unexpected 7"),
    ("if(a)else;", "unexpected 5"),
    ("if a;", "unexpected 3"),
    ("if();", "unexpected 3"),
    ("if(a)", "unexpected 5"),
    ("if(a);else", "unexpected 10"),
    ("if(a)let b;", "unexpected 5"),
    ("if(a){let b;}", ""),
    ("if(a);else const b=1;", "unexpected 11"),
    ("if(a)if(b);else;", ""),
    ("if(a)if(b);else;else;", ""),
    ("if(a)if(b);else;else;else;", "unexpected 21"),
    ("else;", "unexpected 0"),
    (";else;", "unexpected 1"),
    ("{if(a);}else;", "unexpected 8"),
    ("if(a)while(b)if(c);else;else;", ""),
    ("if(a)\nb;", ""),
];

#[test]
fn if_and_else_stand_as_the_grammar_says(rt: HostRuntime) -> Result<(), Fail> {
    all_are_told(&rt, rt.alloc(), &IF_AND_ELSE_STAND_AS_THE_GRAMMAR_SAYS)
}

static LOOPS_STAND_AS_THE_GRAMMAR_SAYS: [(&str, &str); 14] = [
    ("while(a)b;", ""),
    ("while(a)break;", ""),
    ("break;", "unexpected 0"),
    ("continue;", "unexpected 0"),
    ("if(a)break;", "unexpected 5"),
    ("while(a){if(b)continue;}", ""),
    ("while(a);break;", "unexpected 9"),
    ("while(a)break", "unexpected 13"),
    ("while(a)break b;", "unexpected 14"),
    ("while a;", "unexpected 6"),
    ("while();", "unexpected 6"),
    ("while(a){try{break;}catch{continue;}}", ""),
    ("do;", "unexpected 0"),
    ("for(;;);", "unexpected 0"),
];

#[test]
fn loops_stand_as_the_grammar_says(rt: HostRuntime) -> Result<(), Fail> {
    all_are_told(&rt, rt.alloc(), &LOOPS_STAND_AS_THE_GRAMMAR_SAYS)
}

static FUNCTIONS_STAND_AS_THE_GRAMMAR_SAYS: [(&str, &str); 26] = [
    ("return;", "unexpected 0"),
    ("function f(){return;}", ""),
    ("function f(){return 1;}", ""),
    ("function f(){return\n1;}", "unexpected 20"),
    ("function f(){return/*\n*/1;}", "unexpected 24"),
    ("function f(){return\n;}", ""),
    ("function f(){return}", "unexpected 19"),
    ("while(a){function f(){}}", "unexpected 9"),
    ("function f(){break;}", "unexpected 13"),
    ("while(a){}function f(){}", ""),
    ("function f(){while(a){return;}}", ""),
    ("function f(){function g(){}}", "unexpected 13"),
    ("function(){}", "unexpected 8"),
    ("function f{}", "unexpected 10"),
    ("function f(a,b,){}", ""),
    ("function f(,){}", "unexpected 11"),
    ("function f(a,,b){}", "unexpected 13"),
    ("function f(a b){}", "unexpected 13"),
    ("function f(a)b;", "unexpected 13"),
    ("function f(){", "unexpected 13"),
    ("function f(1){}", "unexpected 11"),
    ("function if(){}", "unexpected 9"),
    ("a;function f(){}b;", ""),
    ("function f(){}()", "unexpected 15"),
    ("a=function(){};", "unexpected 2"),
    ("if(a)function f(){}", "unexpected 5"),
];

#[test]
fn functions_stand_as_the_grammar_says(rt: HostRuntime) -> Result<(), Fail> {
    all_are_told(&rt, rt.alloc(), &FUNCTIONS_STAND_AS_THE_GRAMMAR_SAYS)
}

static THROW_AND_TRY_STAND_AS_THE_GRAMMAR_SAYS: [(&str, &str); 16] = [
    ("throw a;", ""),
    ("throw;", "unexpected 5"),
    ("throw\na;", "unexpected 6"),
    ("throw", "unexpected 5"),
    ("try{}catch{}", ""),
    ("try{}catch(e){}", ""),
    ("try{}", "unexpected 5"),
    ("try{}catch", "unexpected 10"),
    ("try{};", "unexpected 5"),
    ("try a;", "unexpected 4"),
    ("try{}catch(){}", "unexpected 11"),
    ("try{}catch(e);", "unexpected 13"),
    ("try{}catch e{}", "unexpected 11"),
    ("try{}finally{}", "unexpected 5"),
    ("try{}catch(e){}catch{}", "unexpected 15"),
    ("catch{}", "unexpected 0"),
];

#[test]
fn throw_and_try_stand_as_the_grammar_says(rt: HostRuntime) -> Result<(), Fail> {
    all_are_told(&rt, rt.alloc(), &THROW_AND_TRY_STAND_AS_THE_GRAMMAR_SAYS)
}

static RESERVED_WORDS_AND_LINE_ENDS: [(&str, &str); 25] = [
    ("switch(a){}", "unexpected 0"),
    ("class A{}", "unexpected 0"),
    ("import a;", "unexpected 0"),
    ("async;", ""),
    ("of;", ""),
    ("static;", "unexpected 0"),
    ("yield;", "unexpected 0"),
    ("await;", "unexpected 0"),
    ("eval;", "unexpected 0"),
    ("arguments;", "unexpected 0"),
    ("undefined=a;", "unexpected 9"),
    ("a\nb;", "unexpected 2"),
    ("a\n;", ""),
    ("a.\nb;", ""),
    ("typeof\na;", ""),
    ("let\na\n=\n1\n;", ""),
    ("function f(){return\r1;}", "unexpected 20"),
    ("function f(){return//\n1;}", "unexpected 22"),
    ("function f(){return/**/1;}", ""),
    ("function f(){return 1\n;}", ""),
    ("throw a\n;", ""),
    ("throw\r\na;", "unexpected 7"),
    ("throw/*\r*/a;", "unexpected 10"),
    ("while(a){break\n;continue\n;}", ""),
    ("\u{feff}a;\r", ""),
];

#[test]
fn reserved_words_and_line_ends(rt: HostRuntime) -> Result<(), Fail> {
    all_are_told(&rt, rt.alloc(), &RESERVED_WORDS_AND_LINE_ENDS)
}
