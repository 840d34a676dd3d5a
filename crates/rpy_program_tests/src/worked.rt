// Whole calls on worked programs: lists, dicts, arguments, and how many steps they take.
use crate::program::run_of;
use rpy_base::{HeapWatch, Leaks, MemSink, NoMem, Tally, Text, pair_of};
use rpy_calls::{files_of, words_of};
use rpy_top::rpyc;
use std::alloc::Global;
use std::test::Fail;

// A stack language.
pub const STACK: &str =
    "import os, sys\nfrom rpython.rlib.rarithmetic import ovfcheck\n\nclass StopRun(Exception):\n    def __init__(self, code):\n        self.code = code\n\nclass Machine(object):\n    limit = 100\n    def __init__(self):\n        self.stack = []\n        self.names = {}\n    def push(self, n):\n        if len(self.stack) >= self.limit:\n            raise StopRun(2)\n        self.stack.append(n)\n    def pop(self):\n        try:\n            return self.stack.pop()\n        except IndexError:\n            raise StopRun(3)\n\ndef op_add(m):\n    b = m.pop()\n    a = m.pop()\n    m.push(a + b)\n\ndef op_mul(m):\n    b = m.pop()\n    a = m.pop()\n    try:\n        m.push(ovfcheck(a * b))\n    except OverflowError:\n        print 'overflow'\n        raise StopRun(4)\n\ndef op_show(m):\n    print m.pop()\n\nOPS = {'+': op_add, '*': op_mul, '.': op_show}\n\ndef run(m, text):\n    for word in text.split(' '):\n        if word in OPS:\n            OPS[word](m)\n        elif word.endswith('!'):\n            m.names[word[:-1]] = m.pop()\n        elif word in m.names:\n            m.push(m.names[word])\n        else:\n            m.push(int(word))\n\ndef entry_point(argv):\n    if len(argv) < 2:\n        os.write(1, 'usage\\n')\n        return 1\n    m = Machine()\n    try:\n        run(m, argv[1])\n    except StopRun, e:\n        print 'stop', e.code\n        return e.code\n    except ValueError:\n        print 'bad word'\n        return 5\n    print len(m.stack), 'left'\n    return 0\n\ndef target(driver, args):\n    return entry_point, None\n\nif __name__ == '__main__':\n    sys.exit(entry_point(sys.argv))\n";

const ITEMS: &str =
    "def entry_point(argv):\n    l = [1, 2]\n    try:\n        print l[5]\n    except IndexError:\n        print 'no'\n    return 0\n";

const OWNS: &str =
    "def f(a, b, c):\n    return len(a) + len(b) + c\ndef g(n):\n    if n > 0:\n        raise ValueError\n    return n\ndef entry_point(argv):\n    try:\n        return f(str(100), [1, 2], g(1))\n    except ValueError:\n        print 'caught'\n    return 0\n";

const ORDER: &str =
    "def entry_point(argv):\n    d = {'a': 1, 'b': 2, 'c': 3}\n    d['a'] = 10\n    del d['b']\n    d['b'] = 20\n    for k, v in d.items():\n        print k, v\n    return len(d)\n";

const FAMILY: &str =
    "def f(a):\n    return a\ndef g(a, b):\n    return a + b\nTABLE = {'f': f, 'g': g}\ndef entry_point(argv):\n    h = TABLE['f']\n    return h(1)\n";

const KEYS: &str =
    "def entry_point(argv):\n    d = {}\n    i = 0\n    while i < 100000:\n        d[i * 7] = i\n        i += 1\n    return len(d)\n";

const POPS: &str =
    "def entry_point(argv):\n    l = []\n    i = 0\n    while i < 100000:\n        l.append(str(i))\n        i += 1\n    n = 0\n    while len(l) > 0:\n        n += len(l.pop())\n    return n\n";

pub const CHAIN: &str =
    "class Node(object):\n    def __init__(self, link):\n        self.link = link\ndef entry_point(argv):\n    n = None\n    i = 0\n    while i < 100000:\n        n = Node(n)\n        i += 1\n    n = None\n    print i\n    return 0\n";

pub const TURNS: &str =
    "def entry_point(argv):\n    i = 0\n    while i < 1000:\n        l = [i, i]\n        i += 1\n    return i\n";

pub const PROGRAM: &str = "3 4 + . 2 x! x x * . 9223372036854775807 x *";

fn words_with(alloc: Global, line: &str, word: &str) -> Result<Vec<Text>, NoMem> {
    let mut words = words_of(alloc, line)?;
    if !word.is_empty() {
        words.push(Text::from_bytes(alloc, word.as_bytes())?)?;
    }
    Ok(words)
}

// A call whose last word, which may have blanks, is given apart.
pub fn told(
    alloc: Global,
    line: &str,
    word: &str,
    name: &str,
    source: &[u8],
) -> Result<(u8, MemSink, MemSink), NoMem> {
    let words = words_with(alloc, line, word)?;
    let mut files = files_of(alloc, name, source)?;
    let mut out = MemSink::new(alloc);
    let mut err = MemSink::new(alloc);
    let tally = Box::new(alloc, Tally::new())?;
    let leaks = Box::new(alloc, Leaks::new(alloc))?;
    let mut watch = pair_of(alloc, tally, leaks)?;
    let answered = rpyc(alloc, &words, &mut files, &mut out, &mut err, &mut watch);
    Ok((answered, out, err))
}

// What a word makes the stack language print, by the C text, by the low-level program, and by the C text in a file.
#[test]
fn a_stack_language_runs(rt: HostRuntime) -> Result<(), Fail> {
    let alloc = rt.alloc();
    let (_, text, _) = run_of(alloc, "build a.py", STACK)?;
    let (_, again, _) = run_of(alloc, "build a.py", STACK)?;
    assert_eq!(rt; text.taken(), again.taken());
    for (word, printed, said) in [
        (PROGRAM, "7\n4\noverflow\nstop 4\n", "returned 4\n"),
        ("", "usage\n", "returned 1\n"),
        ("1 2", "2 left\n", "returned 0\n"),
        ("+", "stop 3\n", "returned 3\n"),
        ("q", "bad word\n", "returned 5\n"),
    ] {
        for (line, name, source) in [
            ("run a.py --", "a.py", STACK.as_bytes()),
            ("llrun a.py --", "a.py", STACK.as_bytes()),
            ("crun c.c --", "c.c", text.taken()),
        ] {
            let (status, out, err) = told(alloc, line, word, name, source)?;
            assert_eq!(rt; err.taken(), said.as_bytes(), "{line:?} with {word:?}");
            assert_eq!(rt; status, 0, "{line:?} with {word:?}");
            assert_eq!(rt; out.taken(), printed.as_bytes(), "{line:?} with {word:?}");
        }
    }
    Ok(())
}

// Programs with lists and dicts end so at these bounds, by both runs.
#[test]
fn worked_programs_run(rt: HostRuntime) -> Result<(), Fail> {
    let alloc = rt.alloc();
    for (line, source, status, printed, said) in [
        ("a.py", ITEMS, 0, "no\n", "returned 0\n"),
        ("a.py", OWNS, 0, "caught\n", "returned 0\n"),
        (
            "--steps 16 a.py",
            ORDER,
            0,
            "a 10\nc 3\nb 20\n",
            "returned 3\n",
        ),
        ("--steps 15 a.py", ORDER, 12, "a 10\nc 3\n", "steps spent\n"),
        ("a.py", FAMILY, 5, "", "a.py:8: family\n"),
        ("--steps 200002 a.py", KEYS, 0, "", "returned 100000\n"),
        ("--steps 200001 a.py", KEYS, 12, "", "steps spent\n"),
        ("--steps 888892 a.py", POPS, 0, "", "returned 488890\n"),
        ("--steps 888891 a.py", POPS, 12, "", "steps spent\n"),
        ("--steps 300001 a.py", CHAIN, 0, "100000\n", "returned 0\n"),
        ("--steps 300000 a.py", CHAIN, 12, "", "steps spent\n"),
    ] {
        for command in ["run", "llrun"] {
            let line = format!(in alloc; "{command} {line}")?;
            let (answered, out, err) = run_of(alloc, line.as_str(), source)?;
            assert_eq!(rt; err.taken(), said.as_bytes(), "{line:?} on {source:?}");
            assert_eq!(rt; answered, status, "{line:?} on {source:?}");
            assert_eq!(rt; out.taken(), printed.as_bytes(), "{line:?} on {source:?}");
        }
    }
    Ok(())
}

// All blocks are released; at a bound there are at most three for each value that is held.
#[test]
fn blocks_are_released(rt: HostRuntime) -> Result<(), Fail> {
    let alloc = rt.alloc();
    for (line, word, source, end) in [
        ("run --tally a.py --", PROGRAM, STACK, "left 0\n"),
        ("run --tally a.py", "", OWNS, "left 0\n"),
        ("run --tally a.py", "", ORDER, "left 0\n"),
        ("run --tally a.py", "", KEYS, "left 0\n"),
        ("run --tally a.py", "", POPS, "left 0\n"),
        ("run --tally a.py", "", CHAIN, "left 0\n"),
        ("run --leaks a.py", "", CHAIN, "leaks: none\n"),
        ("run --tally --steps 4001 a.py", "", TURNS, "left 0\n"),
        ("run --tally --steps 2001 a.py", "", TURNS, "left 3\n"),
    ] {
        let (_, _, err) = told(alloc, line, word, "a.py", source.as_bytes())?;
        let is_end = match err.taken().strip_suffix(end.as_bytes()) {
            Some(_) => true,
            None => false,
        };
        assert!(rt; is_end, "{line:?} on {source:?}");
    }
    Ok(())
}
