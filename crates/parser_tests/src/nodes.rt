use host_lexer::tokens;
use host_nodes::{Form, Node};
use host_parser::parse;
use std::alloc::Global;
use std::process::Abort;
use std::test::Fail;

fn of_statement(form: &Form) -> &'static str {
    match form {
        Form::Empty => "empty",
        Form::Block { .. } => "block",
        Form::Expression(_) => "expression",
        Form::Assign { .. } => "assign",
        Form::If { .. } => "if",
        Form::IfElse { .. } => "else",
        Form::While { .. } => "while",
        Form::Break => "break",
        Form::Continue => "continue",
        Form::Return(_) => "return",
        Form::Throw(_) => "throw",
        Form::Try { .. } => "try",
        Form::Let(_) => "let",
        Form::Const(_) => "const",
        _ => "operand",
    }
}

fn kind_of(form: &Form) -> &'static str {
    match form {
        Form::Undefined => "undefined",
        Form::Null => "null",
        Form::Boolean(_) => "boolean",
        Form::Number(_) => "number",
        Form::BigInt(_) => "bigint",
        Form::Text(_) => "text",
        Form::Name { .. } => "name",
        Form::Array(_) => "array",
        Form::Object(_) => "object",
        Form::Member { .. } => "member",
        Form::Index { .. } => "index",
        Form::Call { .. } => "call",
        Form::New { .. } => "new",
        Form::Prefix { .. } => "prefix",
        Form::Chain { .. } => "chain",
        _ => of_statement(form),
    }
}

// The kinds of nodes with their places, in the order of their numbers.
fn listed(alloc: Global, nodes: &[Node]) -> Result<String, Fail> {
    let mut text = String::new(alloc);
    for node in nodes {
        let kind = kind_of(&node.form);
        let one = format!(in alloc; " {kind}@{}", node.place)?;
        text.push_str(one.as_str())?;
    }
    Ok(text)
}

fn told(rt: &impl Abort, alloc: Global, text: &str) -> Result<String, Fail> {
    assert!(rt; text.len() < 10000);
    let len = text.len() as u32;
    match tokens(alloc, text) {
        Ok(found) => match parse(alloc, found.as_slice(), len) {
            Ok(script) => listed(alloc, script.nodes()),
            Err(_) => Ok(format!(in alloc; "no script")?),
        },
        Err(_) => Ok(format!(in alloc; "no tokens")?),
    }
}

fn all_are_told(rt: &impl Abort, alloc: Global, cases: &[(&str, &str)]) -> Result<(), Fail> {
    for (text, wanted) in cases {
        let found = told(rt, alloc, text)?;
        assert_eq!(rt; found.as_str(), *wanted, "{text}");
    }
    Ok(())
}

static OPERATORS_STAND_AFTER_THEIR_OPERANDS: [(&str, &str); 21] = [
    (
        "a+b*c;",
        " name@0 name@2 name@4 chain@3 chain@1 expression@0",
    ),
    (
        "a*b+c;",
        " name@0 name@2 chain@1 name@4 chain@3 expression@0",
    ),
    ("a-b-c;", " name@0 name@2 name@4 chain@1 expression@0"),
    (
        "a||b&&c;",
        " name@0 name@3 name@6 chain@4 chain@1 expression@0",
    ),
    ("-a.b;", " name@1 member@2 prefix@0 expression@0"),
    ("!-a;", " name@2 prefix@1 prefix@0 expression@0"),
    ("f(a,b);", " name@0 name@2 name@4 call@1 expression@0"),
    ("(a.b)(1);", " name@1 member@2 number@6 call@5 expression@0"),
    ("new A.b(c);", " name@4 member@5 name@8 new@7 expression@0"),
    ("x=a[1];", " name@0 name@2 number@4 index@3 assign@0"),
    (
        "({a:1,'b':2,c});",
        " number@4 number@10 name@12 object@1 expression@0",
    ),
    (
        "typeof undefined===null||true;",
        " undefined@7 prefix@0 null@19 chain@16 boolean@25 chain@23 expression@0",
    ),
    ("1n;'x';", " bigint@0 expression@0 text@3 expression@3"),
    (
        "a<b===c>=d;",
        " name@0 name@2 chain@1 name@6 name@9 chain@7 chain@3 expression@0",
    ),
    (
        "(a||b)&&c;",
        " name@1 name@4 chain@2 name@8 chain@6 expression@0",
    ),
    (
        "a-(b-c);",
        " name@0 name@3 name@5 chain@4 chain@1 expression@0",
    ),
    (
        "- -a*b;",
        " name@3 prefix@2 prefix@0 name@5 chain@4 expression@0",
    ),
    (
        "!a.b(c)[d];",
        " name@1 member@2 name@5 call@4 name@8 index@7 prefix@0 expression@0",
    ),
    (
        "new A(new B());",
        " name@4 name@10 new@11 new@5 expression@0",
    ),
    ("a['b']=c;", " name@0 text@2 index@1 name@7 assign@0"),
    (
        "f(a).b=[c,d];",
        " name@0 name@2 call@1 member@4 name@8 name@10 array@7 assign@0",
    ),
];

#[test]
fn operators_stand_after_their_operands(rt: HostRuntime) -> Result<(), Fail> {
    all_are_told(&rt, rt.alloc(), &OPERATORS_STAND_AFTER_THEIR_OPERANDS)
}

static STATEMENTS_STAND_AFTER_THEIR_PARTS: [(&str, &str); 15] = [
    (";", " empty@0"),
    ("let a=1,b;", " name@4 number@6 name@8 let@0"),
    ("const a=[];", " name@6 array@8 const@0"),
    (
        "if(a)b;else{}",
        " name@3 name@5 expression@5 block@11 else@0",
    ),
    (
        "while(a)if(b)c;",
        " name@6 name@11 name@13 expression@13 if@8 while@0",
    ),
    (
        "try{throw a;}catch(e){e;}",
        " name@10 throw@4 block@3 name@22 expression@22 block@21 try@0",
    ),
    ("try{}catch{}", " block@3 block@10 try@0"),
    ("function f(a){return a;}", " name@21 return@14 block@13"),
    (
        "while(1){break;continue;}",
        " number@6 break@9 continue@15 block@8 while@0",
    ),
    (
        "if(a)if(b);else;",
        " name@3 name@8 empty@10 empty@15 else@5 if@0",
    ),
    (
        "if(a)b;else if(c)d;else e;",
        " name@3 name@5 expression@5 name@15 name@17 expression@17 name@24 expression@24 else@12 else@0",
    ),
    ("function f(){return\n;}", " return@13 block@12"),
    (
        "const a=1,b=2;",
        " name@6 number@8 name@10 number@12 const@0",
    ),
    ("{let a;{;}}", " name@5 let@1 empty@8 block@7 block@0"),
    ("throw {};", " object@6 throw@0"),
];

#[test]
fn statements_stand_after_their_parts(rt: HostRuntime) -> Result<(), Fail> {
    all_are_told(&rt, rt.alloc(), &STATEMENTS_STAND_AFTER_THEIR_PARTS)
}
