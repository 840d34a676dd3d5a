// Sources, with their trees and dead tokens worked out by hand.
use crate::show::push_module;
use rpy_base::Text;
use rpy_parse::{ParseFault, parse};
use rpy_token::{TokenFault, Tokens, tokens};
use std::alloc::{AllocError, Global};
use std::test::Fail;

fn read(alloc: Global, source: &str) -> Result<Tokens, TokenFault> {
    let text = Text::from_bytes(alloc, source.as_bytes())?;
    if text.bytes().len() > 1048576 {
        return Err(TokenFault::NoMem);
    }
    tokens(alloc, &text)
}

#[test]
fn sources_have_trees(rt: HostRuntime) -> Result<(), Fail> {
    let alloc = rt.alloc();
    for (source, want) in [
        ("", " 0:"),
        (
            "x = a.b[c](d)\n",
            " (Const x#6 (Call#5 (Index#3 (Attr#1 a#0 b) c#2) d#4)) 7: 1 1 1 1 1 1 1",
        ),
        (
            "def f():\n  return\\\n  not a is not b\n",
            " (Def f#0 [(Return#5 (Not#4 (IsNot#3 a#1 b#2)))]) 6: 1 3 3 3 3 2",
        ),
        (
            "x = -1 - -2 * 3 == (4 or 5)\n",
            " (Const x#11 (Eq#10 (Sub#6 (Neg#1 1#0) (Mul#5 (Neg#3 2#2) 3#4)) (Or#9 4#7 5#8))) 12: 1 1 1 1 1 1 1 1 1 1 1 1",
        ),
        (
            "import os, sys\nfrom a.b import c\nfrom d import (e, f,)\nx = [1, 'a' 'b', (), (2), (3,)]\n",
            " (Import#0.os.sys) (From#1.a.b .c) (From#2.d .e.f) (Const x#10 (List#9 1#3 'ab#4 (Tuple#5) 2#6 (Tuple#8 3#7))) 11: 1 2 3 4 4 4 4 4 4 4 4",
        ),
        (
            "class A(b.B):\n    'doc'\n    pass\n    y = {1: -2, x: a[i],}\n    def m(self, a, b=3, *c): pass\nclass C: pass\nclass D():\n    def n(*a,): return\n",
            " (Class A#0.b.B (Const y#9 (Dict#8 1#1 (Neg#3 2#2) x#4 (Index#7 a#5 i#6))) (Def m#10 self#11 a#12 b#13=3#14 c#15* [(Pass#16)])) (Class C#17) (Class D#18 (Def n#19 a#20* [(Return#21)])) 22: 1 4 4 4 4 4 4 4 4 4 5 5 5 5 5 5 5 6 7 8 8 8",
        ),
        (
            "def f(a=1, b=2,):\n    return a, not b\n    raise E(a, b)\n    assert a and b or c, 'why' 'not'\n    del a[0].b(c)[1:][2]\n    print a, b.c\n    print\n",
            " (Def f#0 a#1=1#2 b#3=2#4 [(Return#9 (Tuple#8 a#5 (Not#7 b#6)))(Raise#14 (Call#13 E#10 a#11 b#12))(Assert#20 (Or#19 (And#17 a#15 b#16) c#18))(Del#30 (Slice#28 (Call#26 (Attr#24 (Index#23 a#21 0#22) b) c#25) 1#27 _) 2#29)(Print#34 a#31 (Attr#33 b#32 c))(Print#35)]) 36: 1 1 1 1 1 2 2 2 2 2 3 3 3 3 3 4 4 4 4 4 4 5 5 5 5 5 5 5 5 5 5 6 6 6 6 7",
        ),
        (
            "def f():\n    a = b.c, (d[0]) = e\n    a.b += 1; a[0] //= 2 * 3; f(a[:1]);\n    (a)\n",
            " (Def f#0 [(Assign#9 a#1 (Tuple#7 (Attr#3 b#2 c) (Item#6 d#4 0#5)) e#8)(AddAssign#13 (Attr#11 a#10 b) 1#12)(FloorDivAssign#20 (Item#16 a#14 0#15) (Mul#19 2#17 3#18))(Expr#26 (Call#25 f#21 (Slice#24 a#22 _ 1#23)))(Expr#28 a#27)]) 29: 1 2 2 2 2 2 2 2 2 2 3 3 3 3 3 3 3 3 3 3 3 3 3 3 3 3 3 4 4",
        ),
        (
            "def f(x):\n    if x is not None: pass\n    elif x not in [a for a, b in c if a < 1]:\n        pass\n    else: return x\n    while x:\n        if x: break\n    for a, (b, c[0]) in x: continue\n",
            " (Def f#0 x#1 [(If#5 (IsNot#4 x#2 None#3) [(Pass#6)] (NotWithin#17 x#7 (Comp#16 a#8 (Tuple#11 a#9 b#10) c#12 (Lt#15 a#13 1#14))) [(Pass#18)] [(Return#20 x#19)])(While#22 x#21 [(If#24 x#23 [(Break#25)] [])])(For#34 (Tuple#32 a#26 (Tuple#31 b#27 (Item#30 c#28 0#29))) x#33 [(Continue#35)])]) 36: 1 1 2 2 2 2 2 3 3 3 3 3 3 3 3 3 3 3 4 5 5 6 6 7 7 7 8 8 8 8 8 8 8 8 8 8",
        ),
        (
            "def f(x):\n    try:\n        pass\n    except A: pass\n    except (B, c.D,), e: pass\n    except F as g: pass\n    except: pass\n    else: a\n    finally: b\n",
            " (Def f#0 x#1 [(Try#2 [(Pass#3)] (Clause#4 .A [(Pass#5)]) (Clause#6 .B .c.D as e [(Pass#7)]) (Clause#8 .F as g [(Pass#9)]) (Clause#10* [(Pass#11)]) [(Expr#13 a#12)] [(Expr#15 b#14)])]) 16: 1 1 2 3 4 4 5 5 6 6 7 7 8 8 9 9",
        ),
        (
            "def f(x):\n    try: pass\n    finally:\n        while x: break\n        try: pass\n        except A, e: raise e\n",
            " (Def f#0 x#1 [(Try#2 [(Pass#3)] [] [(While#5 x#4 [(Break#6)])(Try#7 [(Pass#8)] (Clause#9 .A as e [(Raise#11 e#10)]) [])])]) 12: 1 1 2 2 4 4 4 5 5 6 6 6",
        ),
        (
            "if __name__ == '__ma' 'in__':\n    def junk\n      while:\n    pass )\nif __name__ == \"__main__\": junk if )\n'text'\npass\ny = 1 + 2 << 3 & ~4 | 5 ^ 6\n",
            " (Const y#12 (BitOr#11 (BitAnd#7 (Shl#4 (Add#2 1#0 2#1) 3#3) (Invert#6 4#5)) (BitXor#10 5#8 6#9))) 13: 8 8 8 8 8 8 8 8 8 8 8 8 8",
        ),
    ] {
        let list = read(alloc, source)?;
        let module = parse(alloc, &list)?;
        let mut text = String::new(alloc);
        push_module(&mut text, &module)?;
        assert_eq!(rt; text.as_str(), want, "{source:?}");
    }
    Ok(())
}

/// The number of the dead token, or none where the source is a module.
fn dead(alloc: Global, source: &str) -> Result<Option<u32>, Fail> {
    let list = read(alloc, source)?;
    match parse(alloc, &list) {
        Ok(_) => Ok(None),
        Err(ParseFault::Syntax(at)) => Ok(Some(at)),
        Err(ParseFault::NoMem) => Err(AllocError.into()),
    }
}

/// In the body of a function the first token has the number 8.
#[test]
fn statements_have_dead_tokens(rt: HostRuntime) -> Result<(), Fail> {
    for (body, want) in [
        ("break", Some(8)),
        ("while a: break", None),
        ("if a: continue", Some(11)),
        ("while a:\n  try: pass\n  finally: break", Some(19)),
        ("try: pass\n finally:\n  while a: break", None),
        ("while a: pass\n else: pass", Some(13)),
        ("try: pass\n finally: return", Some(14)),
        ("try: pass\n finally:\n  while a: return a", Some(19)),
        (
            "try: pass\n finally:\n  try: pass\n  finally: pass",
            Some(20),
        ),
        ("try: pass\n finally:\n  try: pass\n  except: pass", None),
        ("try: pass\n except: pass\n finally: return", Some(18)),
        ("try: pass\n except: pass\n except A: pass", Some(16)),
        ("try: pass\n except A: pass\n except: pass", None),
        ("try: pass\n else: pass", Some(12)),
        ("try: pass", Some(12)),
        (
            "try: pass\n except A: pass\n else: pass\n except: pass",
            Some(21),
        ),
        ("try: pass\n except A, B, c: pass", Some(16)),
        ("try: pass\n except (): pass", Some(14)),
        ("try: pass\n except A as b.c: pass", Some(16)),
        ("f(a) = 1", Some(12)),
        ("f(a).b = 1", None),
        ("(a) = 1", None),
        ("(a) += 1", Some(11)),
        ("a, b += 1", Some(11)),
        ("a[1:] = b", Some(13)),
        ("a = f() = 1", Some(13)),
        ("a = 1 = b", Some(11)),
        ("[a] = b", Some(11)),
        ("() = a", Some(10)),
        ("a == b = 1", Some(11)),
        ("a[1:] -= 1", Some(13)),
        ("del a", Some(10)),
        ("del a.b", Some(12)),
        ("del a[0:]", Some(14)),
        ("del f(a)[0]", None),
        ("del a[0], b[0]", Some(13)),
        ("for f(a) in b: pass", Some(13)),
        ("for (a, b), in c: pass", None),
        ("for a in b, c: pass", Some(12)),
        ("for f(a).b in c: pass", None),
        ("print a,", Some(11)),
        ("print >> a", Some(9)),
        ("a; b;", None),
        ("a;; b", Some(10)),
        (";", Some(8)),
        ("if a: b; if c: d", Some(13)),
        ("if a: if b: c", Some(11)),
        ("assert a, b", Some(11)),
        ("raise", Some(9)),
        ("raise a, b", Some(10)),
        ("return a,", None),
        ("global a", Some(8)),
        ("a if b else c", Some(9)),
    ] {
        let source = format!(in rt.alloc(); "def f(a):\n {body}")?;
        let got = dead(rt.alloc(), source.as_str())?;
        assert_eq!(rt; got, want, "{source:?}");
    }
    Ok(())
}

#[test]
fn members_have_dead_tokens(rt: HostRuntime) -> Result<(), Fail> {
    for (source, want) in [
        ("def f(a=1, b): pass", Some(8)),
        ("def f(a=1, *b): pass", None),
        ("def f(*a, b): pass", Some(6)),
        ("def f(*a,): pass", None),
        ("def f(a, *): pass", Some(6)),
        ("def f(a,,): pass", Some(5)),
        ("def f((a)): pass", Some(3)),
        ("import a.b", Some(2)),
        ("import a,", Some(3)),
        ("from a import (b, c,)", None),
        ("from a import (b", Some(5)),
        ("from a import *", Some(3)),
        ("from .a import b", Some(1)),
        ("a = 1, 2", Some(3)),
        ("a.b = 1", Some(1)),
        ("1", Some(0)),
        ("f()", Some(1)),
        ("if a: pass", Some(1)),
        ("return", Some(0)),
        ("class A(b, c): pass", Some(4)),
        ("class A:\n import b", Some(5)),
        ("class A: b = 1", Some(3)),
        ("@a\ndef f(): pass", Some(0)),
        ("x = 1;", Some(3)),
        ("x = (1,2", Some(6)),
        ("x = lambda: 1", Some(2)),
        ("if __name__ == \"__main_\": a", Some(4)),
        ("if __name__ == \"__main__x\": a", Some(3)),
        ("if __name__ == \"\" \"__main__\" \"\": a", None),
        ("if __name__ != \"__main__\": a", Some(2)),
        ("if __name == \"__main__\": a", Some(1)),
        ("if __name__ == \"__main__\":", Some(6)),
        ("if __name__ == \"__main__\":\n if a:\n  b\n c\nd = 1", None),
        ("if __name__ == \"__main__\": a\nelse: b", Some(7)),
        ("def f(): pass\n def", Some(7)),
        ("def f(): x = y = ", Some(9)),
    ] {
        let got = dead(rt.alloc(), source)?;
        assert_eq!(rt; got, want, "{source:?}");
    }
    Ok(())
}

/// A first text, a second one so many times, and a last.
fn repeated(
    alloc: Global,
    first: &str,
    again: &str,
    n: usize,
    last: &str,
) -> Result<String, AllocError> {
    let mut out = String::new(alloc);
    out.push_str(first)?;
    for _turn in 0..n {
        out.push_str(again)?;
    }
    out.push_str(last)?;
    Ok(out)
}

/// What repeats takes no stack.
#[test]
fn long_sources_are_read(rt: HostRuntime) -> Result<(), Fail> {
    for (first, again, last) in [
        ("", "x = 1\n", ""),
        ("def f():\n", " f()\n", ""),
        ("def f(): f", "; f", ""),
        ("def f(): f", " = f", ""),
        ("def f(): print f", ", f", ""),
        ("def f():\n if 1: f\n", " elif 1: f\n", ""),
        ("def f():\n try: f\n", " except A: f\n", ""),
        ("import f", ", f", ""),
        ("if __name__ == '__main__'", " ''", ": f"),
        ("if __name__ == '__main__': f", " f", ""),
        ("if __name__ == '__main__':\n", " f\n", ""),
        ("class A:\n", " x = 1\n", ""),
    ] {
        let source = repeated(rt.alloc(), first, again, 12000, last)?;
        let got = dead(rt.alloc(), source.as_str())?;
        assert_eq!(rt; got, None, "{first:?}");
    }
    Ok(())
}
