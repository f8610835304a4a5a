//! Scripts with what their runs print, how they end, and the units that they take where the whole of it stands.

use crate::runs::{first_print, right_rows};
use std::test::Fail;

static STATEMENTS: [(&str, &str); 17] = [
    ("let a = 1; const b = 2; print(a, b);", "1 2\ndone ["),
    ("let a; print(a);", "undefined\ndone ["),
    (";;;", "done [3]"),
    (
        "{ let a = 1; { let a = 2; print(a); } print(a); }",
        "2\n1\ndone [",
    ),
    ("if (1) print('y'); else print('n');", "y\ndone ["),
    ("if (0) print('y'); else print('n');", "n\ndone ["),
    ("if ('') print('y');", "done ["),
    (
        "let i = 0; while (i < 3) { print(i); i = i + 1; }",
        "0\n1\n2\ndone [",
    ),
    (
        "let i = 0; while (true) { i = i + 1; if (i === 3) break; print(i); }",
        "1\n2\ndone [",
    ),
    (
        "let i = 0; while (i < 4) { i = i + 1; if (i === 2) continue; print(i); }",
        "1\n3\n4\ndone [",
    ),
    ("while (false) { } print(1);", "1\ndone ["),
    ("let a = 1; { a = 2; } print(a);", "2\ndone ["),
    ("function f() { return; } print(f());", "undefined\ndone ["),
    ("function f() { 5; } print(f());", "undefined\ndone ["),
    (
        "function f(a) { if (a) return 1; return 2; } print(f(true), f(false));",
        "1 2\ndone [",
    ),
    ("throw 1;", "uncaught: 1 ["),
    ("throw 'x';", "uncaught: x ["),
];

#[test]
fn statements(rt: HostRuntime) -> Result<(), Fail> {
    assert_eq!(rt; right_rows(rt.alloc(), &STATEMENTS)?, STATEMENTS.len());
    Ok(())
}

static COMPLETIONS: [(&str, &str); 18] = [
    ("try { throw 7; } catch (e) { print(e); }", "7\ndone ["),
    ("try { throw 7; } catch { print('c'); }", "c\ndone ["),
    (
        "try { print(1); } catch (e) { print(2); } print(3);",
        "1\n3\ndone [",
    ),
    (
        "try { try { throw 1; } catch (e) { throw 2; } } catch (e) { print(e); }",
        "2\ndone [",
    ),
    (
        "let i = 0; while (i < 2) { try { i = i + 1; continue; } catch (e) { } } print(i);",
        "2\ndone [",
    ),
    (
        "while (true) { try { break; } catch (e) { } } print('out');",
        "out\ndone [",
    ),
    (
        "while (true) { try { throw 1; } catch (e) { break; } } print('out');",
        "out\ndone [",
    ),
    (
        "function f() { while (true) { try { return 5; } catch (e) { print('no'); } } } print(f());",
        "5\ndone [",
    ),
    (
        "function f() { try { throw 1; } catch (e) { return e; } } print(f());",
        "1\ndone [",
    ),
    (
        "function f() { throw 'deep'; } function g() { f(); print('no'); } try { g(); } catch (e) { print(e); }",
        "deep\ndone [",
    ),
    ("function f() { throw 'deep'; } f();", "uncaught: deep ["),
    (
        "try { let x = 1; throw x; } catch (e) { let y = e; print(y); } let x = 3; print(x);",
        "1\n3\ndone [",
    ),
    (
        "let i = 0; while (i < 3) { let j = i; i = i + 1; if (j === 1) { continue; } print(j); }",
        "0\n2\ndone [",
    ),
    (
        "try { q; } catch (e) { print(e.name); }",
        "ReferenceError\ndone [",
    ),
    (
        "try { null.x; } catch (e) { print(e); }",
        "TypeError\ndone [",
    ),
    (
        "try { 1n / 0n; } catch (e) { print(e); }",
        "RangeError\ndone [",
    ),
    (
        "try { 1 / 0; } catch (e) { print('no'); }",
        "outside: number at 8 [",
    ),
    (
        "function f(n) { if (n === 0) throw 'end'; f(n - 1); } try { f(5); } catch (e) { print(e); }",
        "end\ndone [",
    ),
];

#[test]
fn completions(rt: HostRuntime) -> Result<(), Fail> {
    assert_eq!(rt; right_rows(rt.alloc(), &COMPLETIONS)?, COMPLETIONS.len());
    Ok(())
}

static OPERATORS: [(&str, &str); 29] = [
    (
        "print(1 + 2, 5 - 3, 2 * 3, 7 / 7, 7 % 4, -(3));",
        "3 2 6 1 3 -3\ndone [",
    ),
    (
        "print(1n + 2n, 5n - 3n, 2n * 3n, 7n / 2n, 7n % 4n, -3n);",
        "3n 2n 6n 3n 3n -3n\ndone [",
    ),
    (
        "print('a' + 1, 1 + 'a', 'a' + 1n, 'a' + null, 'a' + undefined, true + 'x');",
        "a1 1a a1 anull aundefined truex\ndone [",
    ),
    (
        "print(1 < 2, 2 <= 2, 3 > 4, 4 >= 5, 1n < 2);",
        "true true false false true\ndone [",
    ),
    (
        "print(1 === 1n, 1 === 1, 'a' === 'a', null === undefined, 1 !== 2);",
        "false true true false true\ndone [",
    ),
    (
        "print(1 && 2, 0 && 2, 0 || 3, 1 || 3, '' || 0 || 'x', 1 && 2 && 0);",
        "2 0 3 1 x 0\ndone [",
    ),
    (
        "print(!0, !1, !'', !'a', !null);",
        "true false true false true\ndone [",
    ),
    (
        "print(typeof 1, typeof 'a', typeof 1n, typeof true, typeof undefined);",
        "number string bigint boolean undefined\ndone [",
    ),
    (
        "print(typeof null, typeof {}, typeof [], typeof print, typeof q);",
        "object object object function undefined\ndone [",
    ),
    ("print(10 - 3 - 2, 2 * 3 % 4, 1 + 2 * 3);", "5 2 7\ndone ["),
    (
        "print(undefined < 1, undefined >= undefined);",
        "false false\ndone [",
    ),
    ("0 && q; 1 || q; print('ok');", "ok\ndone ["),
    ("1 && q;", "uncaught: ReferenceError ["),
    ("1n / 0n;", "uncaught: RangeError ["),
    ("1 + 1n;", "uncaught: TypeError ["),
    ("print(1 / 2);", "outside: number at 8 ["),
    ("print(1 / 0);", "outside: number at 8 ["),
    ("undefined - 1;", "outside: number at 10 ["),
    ("'a' - 1;", "outside: text-number at 4 ["),
    ("'a' < 'b';", "outside: text-order at 4 ["),
    ("'a' < 1;", "outside: text-number at 4 ["),
    ("[] + 1;", "outside: to-primitive at 3 ["),
    ("-[];", "outside: to-primitive at 0 ["),
    ("-'a';", "outside: text-number at 0 ["),
    ("-undefined;", "outside: number at 0 ["),
    ("-9007199254740991 - 1;", "outside: number at 18 ["),
    ("9007199254740991 + 1;", "outside: number at 17 ["),
    ("1 + 2 - 'a';", "outside: text-number at 6 ["),
    ("typeof Object;", "outside: builtin-value at 7 ["),
];

#[test]
fn operators(rt: HostRuntime) -> Result<(), Fail> {
    assert_eq!(rt; right_rows(rt.alloc(), &OPERATORS)?, OPERATORS.len());
    Ok(())
}

static NAMES: [(&str, &str); 25] = [
    ("print(a); let a = 1;", "uncaught: ReferenceError ["),
    ("print(q);", "uncaught: ReferenceError ["),
    ("q = 1;", "uncaught: ReferenceError ["),
    ("const a = 1; a = 2;", "uncaught: TypeError ["),
    ("a = 2; const a = 1;", "uncaught: ReferenceError ["),
    ("a = 2; let a;", "uncaught: ReferenceError ["),
    ("typeof a; let a;", "uncaught: ReferenceError ["),
    ("{ print(b); let b; }", "uncaught: ReferenceError ["),
    ("let q = q;", "uncaught: ReferenceError ["),
    ("throw q;", "uncaught: ReferenceError ["),
    ("{ const k = 1; k = 2; }", "uncaught: TypeError ["),
    ("q = print('first');", "first\nuncaught: ReferenceError ["),
    ("function f() { return 1; } f = 2; print(f);", "2\ndone ["),
    ("print = 1;", "outside: builtin-write at 0 ["),
    ("Object = 1;", "outside: builtin-write at 0 ["),
    ("let x = Object;", "outside: builtin-value at 8 ["),
    ("let Object = 3; print(Object);", "3\ndone ["),
    (
        "let x = 1; { print(typeof x); let y = x; print(y); }",
        "number\n1\ndone [",
    ),
    (
        "try { throw 1; } catch (e) { e = 2; print(e); }",
        "2\ndone [",
    ),
    (
        "let e = 5; try { throw 1; } catch (e) { print(e); } print(e);",
        "1\n5\ndone [",
    ),
    (
        "function f(a, b) { b = 3; let c = a; return c + b; } print(f(1));",
        "4\ndone [",
    ),
    (
        "function f() { return g; } let g = 9; print(f());",
        "9\ndone [",
    ),
    ("print(f()); function f() { return 4; }", "4\ndone ["),
    ("let p = print; p('via');", "via\ndone ["),
    (
        "const k = 1; { const k = 2; print(k); } print(k);",
        "2\n1\ndone [",
    ),
];

#[test]
fn names(rt: HostRuntime) -> Result<(), Fail> {
    assert_eq!(rt; right_rows(rt.alloc(), &NAMES)?, NAMES.len());
    Ok(())
}

static MEMBERS: [(&str, &str); 37] = [
    (
        "let o = { a: 1, b: 2 }; print(o.a, o['b'], o.c);",
        "1 2 undefined\ndone [",
    ),
    (
        "let o = { }; o.x = 3; o['y'] = 4; o[1] = 5; print(o.x, o.y, o['1'], o[1]);",
        "3 4 5 5\ndone [",
    ),
    (
        "let o = { a: 1, 'b c': 2, if: 3 }; print(o.a, o['b c'], o.if);",
        "1 2 3\ndone [",
    ),
    ("let a = 1; let o = { a }; print(o.a);", "1\ndone ["),
    ("let o = { a: 1, a: 2 }; print(o.a);", "2\ndone ["),
    (
        "print('abc'.length, [1, 2].length, [4, 5][1], [4][7]);",
        "3 2 5 undefined\ndone [",
    ),
    (
        "function f(a, b) { } print(f.length, print.length);",
        "2 0\ndone [",
    ),
    (
        "let e = Error('m'); print(e.name, e.message, e);",
        "Error m Error: m\ndone [",
    ),
    (
        "let a = []; a[0] = 2; print(a[0], a.length);",
        "2 1\ndone [",
    ),
    ("null.x;", "uncaught: TypeError ["),
    ("undefined.x;", "uncaught: TypeError ["),
    ("null[1n];", "uncaught: TypeError ["),
    ("null.x = print('v');", "v\nuncaught: TypeError ["),
    ("1 .x;", "outside: primitive-member at 2 ["),
    ("'a'.b;", "outside: primitive-member at 3 ["),
    ("1 .x = 2;", "outside: primitive-member at 2 ["),
    ("let o = {}; o.toString;", "outside: inherited at 13 ["),
    ("let o = {}; o[1n];", "outside: key at 13 ["),
    ("let o = {}; o.__proto__ = 1;", "outside: inherited at 13 ["),
    ("let o = { __proto__: 1 };", "outside: proto-key at 10 ["),
    (
        "let o = { a: print('a'), __proto__: print('b') };",
        "a\noutside: proto-key at 25 [",
    ),
    ("let a = []; a.x;", "outside: array-member at 13 ["),
    ("let a = []; a[1] = 2;", "outside: array-hole at 13 ["),
    ("let a = []; a.length = 1;", "outside: array-member at 13 ["),
    ("let a = []; a.push;", "outside: builtin-value at 13 ["),
    ("print.x;", "outside: function-member at 5 ["),
    ("print.x = 1;", "outside: object-write at 5 ["),
    (
        "let e = Error(); e.stack;",
        "outside: object-member at 18 [",
    ),
    (
        "let e = Error(); e.name = 1;",
        "outside: object-write at 18 [",
    ),
    ("Object.x;", "outside: builtin-member at 6 ["),
    ("Object.keys;", "outside: builtin-value at 6 ["),
    ("WebAssembly.Module;", "outside: builtin-value at 11 ["),
    ("WebAssembly.nope;", "outside: builtin-member at 11 ["),
    ("Object.x = 1;", "outside: builtin-write at 6 ["),
    ("Object.keys.x = 1;", "outside: builtin-value at 6 ["),
    ("Object[1n] = 1;", "outside: key at 6 ["),
    (
        "WebAssembly['Module'].x;",
        "outside: builtin-member at 21 [",
    ),
];

#[test]
fn members(rt: HostRuntime) -> Result<(), Fail> {
    assert_eq!(rt; right_rows(rt.alloc(), &MEMBERS)?, MEMBERS.len());
    Ok(())
}

static CALLS: [(&str, &str); 34] = [
    (
        "function f(a, b) { return b; } print(f(1), f(1, 2), f(1, 2, 3));",
        "undefined 2 2\ndone [",
    ),
    ("1();", "uncaught: TypeError ["),
    ("let o = { f: print }; o.f('m');", "m\ndone ["),
    (
        "let o = {}; o.f(print('arg'));",
        "arg\nuncaught: TypeError [",
    ),
    ("print();", "\ndone ["),
    (
        "print(1, 'a', 2n, null, undefined, true);",
        "1 a 2n null undefined true\ndone [",
    ),
    (
        "print({}, [], print, Error('m'), TypeError());",
        "[Object] [Array] [Function] Error: m TypeError\ndone [",
    ),
    (
        "print(String(1), String(2n), String(), Number(true), Number(), Number(3n));",
        "1 2  1 0 3\ndone [",
    ),
    ("print(BigInt(4), BigInt(true));", "4n 1n\ndone ["),
    ("Number('1');", "outside: text-number at 6 ["),
    ("Number(undefined);", "outside: number at 6 ["),
    ("BigInt(null);", "uncaught: TypeError ["),
    (
        "let k = Object.keys({ b: 1, '3': 4, a: 2 }); print(k[0], k[1], k[2], k.length);",
        "3 b a 3\ndone [",
    ),
    ("Object.keys(1);", "outside: argument at 11 ["),
    ("Object.keys(null);", "uncaught: TypeError ["),
    ("let a = [1]; print(a.push(5), a[1]);", "2 5\ndone ["),
    ("let a = []; a.push();", "outside: argument at 18 ["),
    ("throw new TypeError('m');", "uncaught: TypeError: m ["),
    ("throw TypeError();", "uncaught: TypeError ["),
    ("function f() { } new f();", "outside: construct at 22 ["),
    ("new Object();", "outside: construct at 10 ["),
    ("new Object.keys();", "outside: construct at 15 ["),
    (
        "let a = []; new a.push();",
        "outside: builtin-value at 17 [",
    ),
    ("let p = print; new p();", "outside: construct at 20 ["),
    ("let o = {}; new o();", "uncaught: TypeError ["),
    ("Object();", "uncaught: TypeError ["),
    ("WebAssembly();", "uncaught: TypeError ["),
    ("new WebAssembly();", "uncaught: TypeError ["),
    ("WebAssembly.nope();", "outside: builtin-member at 11 ["),
    ("WebAssembly.Module(1);", "uncaught: TypeError ["),
    (
        "function p(x) { print(x); return x; } p(1) + p(2) * p(3);",
        "1\n2\n3\ndone [",
    ),
    (
        "function p(x) { print(x); return print; } p('f')(p('a'), p('b'));",
        "f\na\nb\n[Function] [Function]\ndone [",
    ),
    (
        "function p(x) { print(x); return x; } let o = {}; o[p('k')] = p('v'); print(o.k);",
        "k\nv\nv\ndone [",
    ),
    ("[print('a'), print('b')];", "a\nb\ndone ["),
];

#[test]
fn calls(rt: HostRuntime) -> Result<(), Fail> {
    assert_eq!(rt; right_rows(rt.alloc(), &CALLS)?, CALLS.len());
    Ok(())
}

static EFFECTS: [(&str, &str); 8] = [
    ("readbuffer('a');", "call Readbuffer at 10 ["),
    ("utf8Text(1);", "call Utf8Text at 8 ["),
    ("new Promise(print);", "new Promise at 11 ["),
    ("new Uint8Array(3);", "new Uint8Array at 14 ["),
    ("Promise.resolve(1);", "method Promise resolve at 15 ["),
    ("new WebAssembly.Memory({});", "new Memory at 22 ["),
    (
        "WebAssembly.validate(1);",
        "method WebAssembly validate at 20 [",
    ),
    (
        "WebAssembly['validate'](1);",
        "method WebAssembly validate at 23 [",
    ),
];

#[test]
fn effects(rt: HostRuntime) -> Result<(), Fail> {
    assert_eq!(rt; right_rows(rt.alloc(), &EFFECTS)?, EFFECTS.len());
    Ok(())
}

static CHARGES: [(&str, &str); 23] = [
    ("", "done [0]"),
    (";", "done [1]"),
    ("let a = 1;", "done [1]"),
    ("let a = 1, b = 2;", "done [1]"),
    ("{ ; }", "done [2]"),
    ("if (1) ;", "done [2]"),
    ("if (0) ;", "done [1]"),
    ("while (false) ;", "done [1]"),
    ("let i = 0; while (i < 2) { i = i + 1; }", "done [8]"),
    (
        "let i = 0; while (true) { i = i + 1; if (i === 2) break; }",
        "done [11]",
    ),
    ("print(1);", "1\ndone [2]"),
    ("function f() { } f();", "done [2]"),
    ("function f() { ; } f();", "done [3]"),
    ("function f() { return 1; } f();", "done [3]"),
    ("try { ; } catch { ; }", "done [2]"),
    ("try { throw 1; } catch { ; }", "done [3]"),
    ("throw 1;", "uncaught: 1 [1]"),
    ("1();", "uncaught: TypeError [2]"),
    ("new Object();", "outside: construct at 10 [2]"),
    ("let a = []; a.push(1);", "done [3]"),
    ("null.f();", "uncaught: TypeError [1]"),
    ("let o = {}; o.f();", "uncaught: TypeError [3]"),
    ("Object.x();", "outside: builtin-member at 6 [1]"),
];

#[test]
fn charges(rt: HostRuntime) -> Result<(), Fail> {
    assert_eq!(rt; right_rows(rt.alloc(), &CHARGES)?, CHARGES.len());
    Ok(())
}

#[test]
fn first_script(rt: HostRuntime) -> Result<(), Fail> {
    let told = first_print(rt.alloc(), "let a = 6; print(\"a\", a * 7);")?;
    assert!(rt; told.as_str() == "a 42 at 16");
    Ok(())
}
