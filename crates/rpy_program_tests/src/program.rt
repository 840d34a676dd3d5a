// Whole calls that run programs.
use csub_reader::{CFault, read_c};
use csub_tree::{CFile, CFunction, CStmt};
use rpy_base::{HeapWatch, Leaks, MemSink, NoMem, Tally, Text, pair_of};
use rpy_calls::{files_of, words_of};
use rpy_top::rpyc;
use std::alloc::Global;
use std::test::Fail;

const RETURNS: &str = "def entry_point(argv):\n    return 0\n";

const WRAPS: &str = "def entry_point(argv):\n    print 9223372036854775807 + 1\n    return 0\n";

const DIVIDES: &str = "def entry_point(argv):\n    print -7 // 2, -7 % 2, 7 % -2\n    return 0\n";

const CALLS: &str =
    "def f(x):\n    return x * 3 + 1\ndef entry_point(argv):\n    return f(len(argv))\n";

const CALLS_OTHER: &str =
    "def f(x):\n    return x - 5\ndef entry_point(argv):\n    return f(len(argv))\n";

const FAILS: &str =
    "def f(x):\n    print x\n    return 7 // x\ndef entry_point(argv):\n    return f(len(argv) - 1)\n";

const LOOPS: &str =
    "def entry_point(argv):\n    i = 0\n    while i < 4:\n        i += 1\n        if i == 2:\n            continue\n        print i, chr(i + 64), i > 2\n    return i\n";

const GROWS: &str =
    "def entry_point(argv):\n    s = 'ab'\n    i = 0\n    while i < 3:\n        s = s + str(i + 10)\n        i += 1\n    print s, s[1:4], len(s)\n    return i\n";

// A bound that wraps.
const SLICES: &str =
    "def entry_point(argv):\n    n = 9223372036854775807\n    n = n + len(argv)\n    print 'abc'[:n]\n    return 0\n";

// A walk over a string whose length is known.
const WALKS: &str =
    "def f(p):\n    for c in p:\n        print c\n    return 0\ndef entry_point(argv):\n    return f('x') + f(',')\n";

const BOXES: &str =
    "class Box(object):\n    def __init__(self, v):\n        self.v = v\ndef find(n):\n    if n > 3:\n        return Box(n)\n    return None\ndef entry_point(argv):\n    b = find(len(argv) + 4)\n    if b is not None:\n        print b.v\n    return 0\n";

// An attribute that is set to itself.
const KEEPS: &str =
    "class C(object):\n    def __init__(self, n):\n        self.f = str(n)\ndef entry_point(argv):\n    x = C(12)\n    x.f = x.f\n    a = x\n    a = a\n    print a.f\n    return 0\n";

const CHAINS: &str =
    "class Node(object):\n    def __init__(self, link):\n        self.link = link\ndef entry_point(argv):\n    n = None\n    i = 0\n    while i < 1000:\n        n = Node(n)\n        i += 1\n    n = None\n    print i\n    return 0\n";

const METHODS: &str =
    "class A(object):\n    def name(self):\n        return 1\nclass B(A):\n    def name(self):\n        return 2\ndef inc(n):\n    return n + 1\ndef dec(n):\n    return n - 1\ndef twice(f, n):\n    return f(f(n))\ndef pick(n):\n    if n > 1:\n        return B()\n    return A()\ndef entry_point(argv):\n    f = inc\n    if len(argv) > 1:\n        f = dec\n    x = pick(len(argv))\n    print x.name(), twice(f, 10), isinstance(x, B)\n    return 0\n";

// Two instances that hold each other, and one that holds the other.
const HOLD_BOTH: &str =
    "class N(object):\n    def __init__(self):\n        self.o = None\ndef entry_point(argv):\n    a = N()\n    b = N()\n    a.o = b\n    b.o = a\n    return 0\n";

const HOLDS_ONE: &str =
    "class N(object):\n    def __init__(self):\n        self.o = None\ndef entry_point(argv):\n    a = N()\n    b = N()\n    a.o = b\n    return 0\n";

const OVERFLOWS: &str =
    "from rpython.rlib.rarithmetic import ovfcheck\ndef entry_point(argv):\n    try:\n        x = ovfcheck(9223372036854775807 + 1)\n    except OverflowError:\n        print 'ovf'\n        return 1\n    return x\n";

const RAISES: &str =
    "class Bad(Exception):\n    pass\ndef entry_point(argv):\n    try:\n        raise Bad()\n    finally:\n        print 'end'\n    return 0\n";

// An exception while arguments are owned.
const DROPS: &str =
    "def f(a, b, c):\n    return len(a) + len(b) + c\ndef g(n):\n    if n > 0:\n        raise ValueError\n    return n\ndef entry_point(argv):\n    try:\n        return f(str(100), str(200), g(1))\n    except ValueError:\n        print 'caught'\n    return 0\n";

const COVERS: &str =
    "def f(n):\n    try:\n        return 10 / n\n    except ZeroDivisionError:\n        print 'zero'\n    finally:\n        print 'fin'\n    return -1\ndef entry_point(argv):\n    print f(len(argv)), f(len(argv) - 1)\n    return 0\n";

// A test that is known and calls that never return, before links that pass on tuples of other lengths.
const BREAKS: &str =
    "def fail(n):\n    raise ValueError\ndef f(n):\n    t = (1, 2, 3)\n    while True:\n        n += t[0]\n        if n == 5:\n            u = (1, 2)\n            fail(n)\n            print t == u\n            break\n        if n > 6:\n            t = (4, 5)\n            break\n    return t[1]\ndef entry_point(argv):\n    print f(6)\n    try:\n        print f(4)\n    except ValueError:\n        print 'none'\n    return 0\n";

const LISTS: &str =
    "import os\nL = [1, 2, 3]\nM = [['a', 'bc'], []]\ndef item(l, i):\n    try:\n        return l[i]\n    except IndexError:\n        return -1\ndef entry_point(argv):\n    l = [5, 3]\n    l.append(7)\n    l.insert(0, 1)\n    print len(l), l.pop(), l.pop(0), item(l, -1), item(l, 2)\n    k = l + L\n    k += l\n    k.reverse()\n    for x in k[1:6]:\n        print x\n    del k[0]\n    print len(k), 9 in k, len(k * 2), M[0][1], len(M[1])\n    print '-'.join([w + str(len(w)) for w in 'ab,c,,d'.split(',') if w])\n    for a in argv:\n        print a\n    return len(argv)\n";

const TURNS: &str =
    "def entry_point(argv):\n    i = 0\n    while i < 1000:\n        l = [i, i]\n        i += 1\n    return i\n";

const HUGE: &str = "def entry_point(argv):\n    l = [0] * 1000000000000000000\n    return len(l)\n";

const OUTSIDE: &str = "def entry_point(argv):\n    l = [1, 2]\n    print l[5]\n    return 0\n";

// A key that is set again goes last.
const MAPS: &str =
    "def entry_point(argv):\n    d = {'a': 1, 'b': 2, 'c': 3}\n    d['a'] = 10\n    del d['b']\n    d['b'] = 20\n    for k, v in d.items():\n        print k, v\n    return len(d)\n";

// Keys of each kind, with an index and without one, in constants too.
const KEYS: &str =
    "class P(object):\n    def __init__(self, n):\n        self.n = n\nW = {1: 'one', 2: 'two', 1: 'eins'}\nT = {('a', 1): 3, ('b', 2): 4}\ndef look(d, k):\n    try:\n        return d[k]\n    except KeyError:\n        return -1\ndef entry_point(argv):\n    d = {}\n    i = 0\n    while i < 40:\n        d[str(i)] = i\n        i += 1\n    i = 0\n    while i < 38:\n        del d[str(i)]\n        i += 1\n    print len(d), '38' in d, '37' in d, look(d, '39'), look(d, '0')\n    o = {}\n    for w in ['x', 'yy', 'x']:\n        o[w] = P(len(w))\n    p = o.get('z')\n    if p is None:\n        p = o['yy']\n    print p.n, len(o), W[1], 3 in W, T[('b', 2)], T.get(('a', 2), 7)\n    c = {}\n    for x in 'hello':\n        c[x] = c.get(x, 0) + 1\n    for x, n in c.items():\n        print x + str(n)\n    f = {True: 'b', False: 'a'}\n    print f[len(argv) > 1] + f[True], ''.join(f.values()), len([k for k in c if c[k] > 1])\n    for k in f:\n        print k\n    return len(c)\n";

const MISSING: &str = "def entry_point(argv):\n    d = {1: 'a'}\n    return len(d[2])\n";

const UNTYPED: &str = "def entry_point(argv):\n    return 1 + 'a'\n";

// The status of a call over one file, and what its sinks took.
pub fn run_of(alloc: Global, line: &str, source: &str) -> Result<(u8, MemSink, MemSink), NoMem> {
    let words = words_of(alloc, line)?;
    let mut files = files_of(alloc, "a.py", source.as_bytes())?;
    let mut out = MemSink::new(alloc);
    let mut err = MemSink::new(alloc);
    let tally = Box::new(alloc, Tally::new())?;
    let leaks = Box::new(alloc, Leaks::new(alloc))?;
    let mut watch = pair_of(alloc, tally, leaks)?;
    let answered = rpyc(alloc, &words, &mut files, &mut out, &mut err, &mut watch);
    Ok((answered, out, err))
}

// What a run prints and how it ends, by its C text and by its low-level program.
#[test]
fn programs_run(rt: HostRuntime) -> Result<(), Fail> {
    let alloc = rt.alloc();
    for (line, source, status, printed, said) in [
        ("a.py", RETURNS, 0, "", "returned 0\n"),
        ("a.py", WRAPS, 0, "-9223372036854775808\n", "returned 0\n"),
        ("a.py", DIVIDES, 0, "-4 1 -1\n", "returned 0\n"),
        ("--steps 0 a.py", RETURNS, 12, "", "steps spent\n"),
        ("--steps 1 a.py", RETURNS, 0, "", "returned 0\n"),
        ("a.py", CALLS, 0, "", "returned 4\n"),
        ("a.py -- x y", CALLS, 0, "", "returned 10\n"),
        ("a.py", CALLS_OTHER, 0, "", "returned -4\n"),
        ("a.py", FAILS, 11, "0\n", "failed ZeroDivisionError\n"),
        ("a.py -- x", FAILS, 0, "1\n", "returned 7\n"),
        (
            "a.py",
            LOOPS,
            0,
            "1 A False\n3 C True\n4 D True\n",
            "returned 4\n",
        ),
        ("--steps 3 a.py", LOOPS, 12, "1 A False\n", "steps spent\n"),
        ("a.py", GROWS, 0, "ab101112 b10 8\n", "returned 3\n"),
        ("--steps 37 a.py", GROWS, 12, "", "steps spent\n"),
        ("a.py", SLICES, 11, "", "failed NegativeSlice\n"),
        ("a.py", WALKS, 0, "x\n,\n", "returned 0\n"),
        ("a.py", BOXES, 0, "5\n", "returned 0\n"),
        ("--steps 7 a.py", METHODS, 0, "1 12 False\n", "returned 0\n"),
        (
            "--steps 7 a.py -- q",
            METHODS,
            0,
            "2 8 True\n",
            "returned 0\n",
        ),
        ("a.py", OVERFLOWS, 0, "ovf\n", "returned 1\n"),
        ("--steps 9 a.py", DROPS, 12, "", "steps spent\n"),
        ("a.py", COVERS, 0, "fin\nzero\nfin\n10 -1\n", "returned 0\n"),
        ("a.py", BREAKS, 0, "5\nnone\n", "returned 0\n"),
        (
            "a.py -- foo",
            LISTS,
            0,
            "4 7 1 3 -1\n5\n3\n2\n1\n3\n6 False 12 bc 0\nab2-c1-d1\nprogram\nfoo\n",
            "returned 2\n",
        ),
        ("--steps 4001 a.py", TURNS, 0, "", "returned 1000\n"),
        ("--steps 4000 a.py", TURNS, 12, "", "steps spent\n"),
        ("a.py", HUGE, 12, "", "steps spent\n"),
        ("a.py", OUTSIDE, 11, "", "failed IndexError\n"),
        ("a.py", MAPS, 0, "a 10\nc 3\nb 20\n", "returned 3\n"),
        (
            "--steps 16 a.py",
            MAPS,
            0,
            "a 10\nc 3\nb 20\n",
            "returned 3\n",
        ),
        ("--steps 15 a.py", MAPS, 12, "a 10\nc 3\n", "steps spent\n"),
        (
            "a.py",
            KEYS,
            0,
            "2 True False 39 -1\n2 2 eins False 4 7\nh1\ne1\nl2\no1\nab ba 1\nTrue\nFalse\n",
            "returned 4\n",
        ),
        ("a.py", MISSING, 10, "", "raised KeyError\n"),
        (
            "a.py",
            UNTYPED,
            4,
            "",
            "a.py:2: conflict: binary int+ char\n",
        ),
        ("b.py", RETURNS, 8, "", "b.py: no such file\n"),
        (
            "--steps 01 a.py",
            RETURNS,
            1,
            "",
            "usage: rpy COMMAND [OPTION..] FILE.. [-- ARG..]\n",
        ),
    ] {
        for command in ["run", "llrun"] {
            let line = format!(in alloc; "{command} {line}")?;
            let (answered, out, err) = run_of(alloc, line.as_str(), source)?;
            assert_eq!(rt; err.taken(), said.as_bytes(), "{line:?} on {source:?}");
            assert_eq!(rt; answered, status, "{line:?} on {source:?}");
            assert_eq!(rt; out.taken(), printed.as_bytes(), "{line:?} on {source:?}");
        }
    }
    Ok(())
}

#[test]
fn samples_are_summed_up(rt: HostRuntime) -> Result<(), Fail> {
    let alloc = rt.alloc();
    for (line, printed) in [
        (
            "sample 0",
            "source 58\nending returned 1\noutput 2\nsteps 1\n",
        ),
        (
            "sample 3",
            "source 313\nending returned 32\noutput 3\nsteps 4\n",
        ),
        (
            "sample 10",
            "source 908\nending returned 2328\noutput 5\nsteps 16\n",
        ),
    ] {
        let (answered, out, err) = run_of(alloc, line, "")?;
        assert_eq!(rt; answered, 0, "{line:?}");
        assert_eq!(rt; out.taken(), printed.as_bytes(), "{line:?}");
        assert_eq!(rt; err.taken(), b"".as_slice(), "{line:?}");
    }
    Ok(())
}

// Reports follow the ending of a run by the C text. A block is left only where a ring of references holds it.
#[test]
fn runs_report(rt: HostRuntime) -> Result<(), Fail> {
    let alloc = rt.alloc();
    for (line, source, status, printed, said) in [
        (
            "run --leaks --tally a.py",
            CALLS,
            0,
            "",
            "returned 4\ntally: made 3, gone 3, left 0\nleaks: none\n",
        ),
        (
            "run --steps 38 --tally a.py",
            GROWS,
            0,
            "ab101112 b10 8\n",
            "returned 3\ntally: made 10, gone 10, left 0\n",
        ),
        (
            "run --tally a.py",
            KEEPS,
            0,
            "12\n",
            "returned 0\ntally: made 5, gone 5, left 0\n",
        ),
        (
            "run --tally a.py",
            CHAINS,
            0,
            "1000\n",
            "returned 0\ntally: made 1003, gone 1003, left 0\n",
        ),
        (
            "run --steps 5 --tally a.py",
            HOLD_BOTH,
            0,
            "",
            "returned 0\ntally: made 5, gone 3, left 2\n",
        ),
        (
            "run --tally a.py",
            HOLDS_ONE,
            0,
            "",
            "returned 0\ntally: made 5, gone 5, left 0\n",
        ),
        (
            "run --tally a.py",
            RAISES,
            10,
            "end\n",
            "raised a.Bad\ntally: made 4, gone 4, left 0\n",
        ),
        (
            "run --tally a.py -- foo",
            LISTS,
            0,
            "4 7 1 3 -1\n5\n3\n2\n1\n3\n6 False 12 bc 0\nab2-c1-d1\nprogram\nfoo\n",
            "returned 2\ntally: made 24, gone 24, left 0\n",
        ),
        (
            "run --steps 10 --tally a.py",
            DROPS,
            0,
            "caught\n",
            "returned 0\ntally: made 5, gone 5, left 0\n",
        ),
    ] {
        let (answered, out, err) = run_of(alloc, line, source)?;
        assert_eq!(rt; err.taken(), said.as_bytes(), "{line:?} on {source:?}");
        assert_eq!(rt; answered, status, "{line:?} on {source:?}");
        assert_eq!(rt; out.taken(), printed.as_bytes(), "{line:?} on {source:?}");
    }
    Ok(())
}

// A put of out that fails ends a run.
#[test]
fn runs_fail(rt: HostRuntime) -> Result<(), Fail> {
    let alloc = rt.alloc();
    for command in ["run a.py", "llrun a.py"] {
        let words = words_of(alloc, command)?;
        let mut files = files_of(alloc, "a.py", DIVIDES.as_bytes())?;
        let mut out = MemSink::new(alloc);
        let mut err = MemSink::new(alloc);
        out.fail_at(0, 2);
        let mut watch: Vec<Box<dyn HeapWatch>> = Vec::new(alloc);
        let answered = rpyc(alloc, &words, &mut files, &mut out, &mut err, &mut watch);
        assert_eq!(rt; answered, 9, "{command:?}");
        assert_eq!(rt; out.taken(), b"-4".as_slice(), "{command:?}");
        assert_eq!(rt; err.taken(), b"".as_slice(), "{command:?}");
    }
    Ok(())
}

// The C file of a program.
fn file_of(alloc: Global, source: &str) -> Result<CFile, CFault> {
    let (_, out, _) = match run_of(alloc, "build a.py", source) {
        Ok(ran) => ran,
        Err(NoMem) => return Err(CFault::NoMem),
    };
    match Text::from_bytes(alloc, out.taken()) {
        Ok(text) => read_c(alloc, &text),
        Err(NoMem) => Err(CFault::NoMem),
    }
}

fn count_named(functions: &[CFunction], name: &[u8]) -> usize {
    let mut count: usize = 0;
    for function in functions {
        if function.name.bytes() == name {
            count = count.saturating_add(1);
        }
    }
    count
}

// Whether a statement calls or reads a block.
fn reaches_out(statement: &CStmt) -> bool {
    match statement {
        CStmt::Call(_, _, _)
        | CStmt::CallFn(_, _, _, _, _)
        | CStmt::GetField(_, _, _, _)
        | CStmt::GetItem(_, _, _, _) => true,
        _ => false,
    }
}

fn function_reaches_out(function: &CFunction) -> bool {
    for block in function.blocks.as_slice() {
        for statement in block.as_slice() {
            if reaches_out(statement) {
                return true;
            }
        }
    }
    false
}

// Each function of a program is one C function of its name, and arithmetic needs no help.
#[test]
fn functions_keep_their_names(rt: HostRuntime) -> Result<(), Fail> {
    let alloc = rt.alloc();
    for source in [CALLS, CALLS_OTHER] {
        let file = file_of(alloc, source)?;
        let functions = file.functions.as_slice();
        assert_eq!(rt; count_named(functions, b"a.f"), 1);
        assert_eq!(rt; count_named(functions, b"a.entry_point"), 1);
        for function in functions {
            if function.name.bytes() == b"a.f".as_slice() {
                assert!(rt; !function_reaches_out(function));
            }
        }
    }
    Ok(())
}
