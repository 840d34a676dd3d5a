// Whole calls over files and sinks in memory.
use rpy_base::{HeapWatch, Leaks, MemSink, NoMem, Seq, Tally, Text, pair_of};
use rpy_calls::{files_of, words_of};
use rpy_top::{are_module_names, are_short, rpyc, translate};
use std::alloc::Global;
use std::test::Fail;

const RETURNS: &str = "def entry_point(argv):\n    return 0\n";

const WRAPS: &str = "def entry_point(argv):\n    print 9223372036854775807 + 1\n    return 0\n";

const SUMS: &str =
    "def entry_point(argv):\n    x = 2 * 3 - 10\n    y = x * x\n    print y\n    x = y - x\n    return x\n";

const DICTS: &str = "def entry_point(argv):\n    print len({1: 2})\n    return 0\n";

fn starts_as_text(out: &[u8]) -> bool {
    match out.strip_prefix(b"/* C-sub 1 */\n".as_slice()) {
        Some(_) => true,
        None => false,
    }
}

#[test]
fn words_and_sources_have_statuses(rt: HostRuntime) -> Result<(), Fail> {
    let alloc = rt.alloc();
    let usage = "usage: rpy COMMAND [OPTION..] FILE.. [-- ARG..]\n";
    for (line, source, status, said) in [
        ("build a.py", RETURNS, 0, ""),
        ("build a.py", WRAPS, 0, ""),
        ("build a.py", SUMS, 0, ""),
        ("", RETURNS, 1, usage),
        ("build", RETURNS, 1, usage),
        ("build -a.py", RETURNS, 1, usage),
        ("build os.py", RETURNS, 1, usage),
        ("build while.py", RETURNS, 1, usage),
        ("build a.py a.py", RETURNS, 1, usage),
        ("make a.py", RETURNS, 1, usage),
        ("build b.py", RETURNS, 8, "b.py: no such file\n"),
        (
            "build a.py",
            "def entry_point(argv)\n    return 0\n",
            2,
            "a.py:1: syntax\n",
        ),
        (
            "build a.py",
            "def entry_point(x):\r\n    return (1 + 2)",
            0,
            "",
        ),
        (
            "build a.py",
            "def entry_point(x):\n    print {1: 2}[1]\n    return len(x)\n",
            0,
            "",
        ),
        (
            "build a.py",
            "def entry_point(argv):\n    return\n",
            5,
            "a.py:1: entry point result\n",
        ),
        (
            "build a.py",
            "def entry_point(argv):\n    return x\n",
            3,
            "a.py:2: unknown name\n",
        ),
        (
            "build a.py",
            "def entry_point(argv):\n    return 1 + 'a'\n",
            4,
            "a.py:2: conflict: binary int+ char\n",
        ),
        (
            "build a.py",
            "def entry_point(argv):\n    return 007\n",
            0,
            "",
        ),
        ("build a.py", "", 3, "a.py:1: no entry point\n"),
    ] {
        let words = words_of(alloc, line)?;
        let mut files = files_of(alloc, "a.py", source.as_bytes())?;
        let mut out = MemSink::new(alloc);
        let mut err = MemSink::new(alloc);
        let mut watch: Vec<Box<dyn HeapWatch>> = Vec::new(alloc);
        let answered = rpyc(alloc, &words, &mut files, &mut out, &mut err, &mut watch);
        assert_eq!(rt; answered, status, "the status of {line:?} on {source:?}");
        assert_eq!(rt;
            err.taken(),
            said.as_bytes(),
            "what {line:?} said of {source:?}"
        );
        assert_eq!(rt;
            starts_as_text(out.taken()),
            status == 0,
            "what {line:?} wrote of {source:?}"
        );
        assert_eq!(rt;
            out.taken().is_empty(),
            status != 0,
            "what {line:?} wrote of {source:?}"
        );
    }
    Ok(())
}

#[test]
fn watchers_are_left_as_they_were(rt: HostRuntime) -> Result<(), Fail> {
    let alloc = rt.alloc();
    let words = words_of(alloc, "build a.py")?;
    let mut files = files_of(alloc, "a.py", RETURNS.as_bytes())?;
    let mut out = MemSink::new(alloc);
    let mut err = MemSink::new(alloc);
    let tally = Box::new(alloc, Tally::new())?;
    let leaks = Box::new(alloc, Leaks::new(alloc))?;
    let mut watch = pair_of(alloc, tally, leaks)?;
    rpyc(alloc, &words, &mut files, &mut out, &mut err, &mut watch);
    let mut texts = Text::new(alloc);
    for watcher in &watch {
        texts.append(watcher.report(alloc)?.bytes())?;
    }
    assert_eq!(rt;
        texts.bytes(),
        b"tally: made 0, gone 0, left 0\nleaks: none\n".as_slice()
    );
    Ok(())
}

// Row by row: which read fails, which put of out and of err fails after how many bytes.
#[test]
fn faults_have_statuses(rt: HostRuntime) -> Result<(), Fail> {
    let alloc = rt.alloc();
    for (line, read, out_put, err_put, status, said) in [
        ("build a.py", true, false, false, 8, "a.py: not read\n"),
        ("build a.py", false, true, false, 9, ""),
        ("build b.py", false, false, true, 9, "b.py: n"),
        ("build a.py", true, false, true, 9, "a.py: n"),
        ("build a.py", false, false, true, 0, ""),
    ] {
        let words = words_of(alloc, line)?;
        let mut files = files_of(alloc, "a.py", RETURNS.as_bytes())?;
        let mut out = MemSink::new(alloc);
        let mut err = MemSink::new(alloc);
        if read {
            files.fail_at(0)?;
        }
        if out_put {
            out.fail_at(0, 14);
        }
        if err_put {
            err.fail_at(0, 7);
        }
        let mut watch: Vec<Box<dyn HeapWatch>> = Vec::new(alloc);
        let answered = rpyc(alloc, &words, &mut files, &mut out, &mut err, &mut watch);
        assert_eq!(rt; answered, status, "{line:?} {read} {out_put} {err_put}");
        assert_eq!(rt;
            err.taken(),
            said.as_bytes(),
            "{line:?} {read} {out_put} {err_put}"
        );
        if out_put {
            assert_eq!(rt; out.taken(), b"/* C-sub 1 */\n".as_slice());
        }
    }
    Ok(())
}

#[test]
fn a_source_past_its_limit_is_too_long(rt: HostRuntime) -> Result<(), Fail> {
    let alloc = rt.alloc();
    for (length, status, said) in [
        (1048576, 3, "dir/a.py:1: no entry point\n"),
        (1048577, 15, "dir/a.py: too long\n"),
    ] {
        let words = words_of(alloc, "build dir/a.py")?;
        let mut source = Vec::new(alloc);
        for _ in 0..length {
            source.push(b'#')?;
        }
        let mut files = files_of(alloc, "dir/a.py", source.as_slice())?;
        let mut out = MemSink::new(alloc);
        let mut err = MemSink::new(alloc);
        let mut watch: Vec<Box<dyn HeapWatch>> = Vec::new(alloc);
        let answered = rpyc(alloc, &words, &mut files, &mut out, &mut err, &mut watch);
        assert_eq!(rt; answered, status, "{length} bytes");
        assert_eq!(rt; err.taken(), said.as_bytes(), "{length} bytes");
    }
    Ok(())
}

#[test]
fn translate_answers_the_text_of_build(rt: HostRuntime) -> Result<(), Fail> {
    let alloc = rt.alloc();
    let words = words_of(alloc, "build a.py")?;
    let mut files = files_of(alloc, "a.py", SUMS.as_bytes())?;
    let mut out = MemSink::new(alloc);
    let mut err = MemSink::new(alloc);
    let mut watch: Vec<Box<dyn HeapWatch>> = Vec::new(alloc);
    rpyc(alloc, &words, &mut files, &mut out, &mut err, &mut watch);
    let mut names = Seq::new(alloc);
    names.push(Text::from_bytes(alloc, b"a")?)?;
    let mut sources = Seq::new(alloc);
    sources.push(Text::from_bytes(alloc, SUMS.as_bytes())?)?;
    assert!(rt; are_module_names(names.as_slice()));
    assert!(rt; are_short(sources.as_slice()));
    assert_eq!(rt; names.len(), 1);
    assert_eq!(rt; sources.len(), 1);
    let text = translate(alloc, &sources, &names)?;
    assert_eq!(rt; text.bytes(), out.taken());
    Ok(())
}

#[test]
fn modules_have_names(rt: HostRuntime) -> Result<(), Fail> {
    let alloc = rt.alloc();
    let mut names = Seq::new(alloc);
    let mut sources = Seq::new(alloc);
    for (name, source) in [("a", DICTS), ("b", RETURNS)] {
        names.push(Text::from_bytes(alloc, name.as_bytes())?)?;
        sources.push(Text::from_bytes(alloc, source.as_bytes())?)?;
    }
    assert!(rt; are_module_names(names.as_slice()));
    assert!(rt; are_short(sources.as_slice()));
    assert_eq!(rt; names.len(), 2);
    assert_eq!(rt; sources.len(), 2);
    let text = translate(alloc, &sources, &names)?;
    assert!(rt; starts_as_text(text.bytes()));
    for (name, is_one) in [
        ("while", false),
        ("os", false),
        ("9a", false),
        ("a.b", false),
        ("_a9", true),
    ] {
        let mut names = Seq::new(alloc);
        names.push(Text::from_bytes(alloc, name.as_bytes())?)?;
        assert_eq!(rt; are_module_names(names.as_slice()), is_one, "{name:?}");
    }
    Ok(())
}

fn with_signs(alloc: Global, signs: usize) -> Result<Text, NoMem> {
    let mut source = Text::from_bytes(alloc, b"x = 1")?;
    for _ in 0..signs {
        source.append(b" + 1")?;
    }
    source.append(b"\n")?;
    Ok(source)
}

fn with_blocks(alloc: Global, blocks: usize) -> Result<Text, NoMem> {
    let mut source = Text::new(alloc);
    for depth in 0..blocks {
        for _ in 0..depth {
            source.append(b" ")?;
        }
        source.append(b"if 1:\n")?;
    }
    Ok(source)
}

fn refusal_of(alloc: Global, source: &Text) -> Result<(u8, Text), NoMem> {
    let words = words_of(alloc, "build a.py")?;
    let mut files = files_of(alloc, "a.py", source.bytes())?;
    let mut out = MemSink::new(alloc);
    let mut err = MemSink::new(alloc);
    let mut watch: Vec<Box<dyn HeapWatch>> = Vec::new(alloc);
    let answered = rpyc(alloc, &words, &mut files, &mut out, &mut err, &mut watch);
    Ok((answered, Text::from_bytes(alloc, err.taken())?))
}

#[test]
fn sources_are_refused_on_their_lines(rt: HostRuntime) -> Result<(), Fail> {
    let alloc = rt.alloc();
    for (source, line, kind) in [
        ("def entry_point(argv):\n\treturn 0\n", 2, "bad indent"),
        (
            "def entry_point(argv):\n    return 0\n  \n  x = 1\n",
            4,
            "bad indent",
        ),
        ("\0", 1, "bad byte"),
        ("x = 1 $\n", 1, "bad byte"),
        ("x = 09\n", 1, "bad number"),
        ("x = 1.5\n", 1, "bad number"),
        ("x = 'a\n", 1, "open string"),
        ("x = 9223372036854775808\n", 1, "bad number"),
        ("x = (((((((((((((((((", 1, "limit brackets"),
        ("x = '''a\n", 1, "open string"),
        ("x = 1\ny = 1 +\n", 2, "syntax"),
        ("x = (1,\n2", 2, "syntax"),
        ("def f(a):\n    break\n", 2, "syntax"),
        ("def f(a):\n    a + 1 = 2\n", 2, "syntax"),
    ] {
        let (status, said) = refusal_of(alloc, &Text::from_bytes(alloc, source.as_bytes())?)?;
        assert_eq!(rt; status, 2, "{source:?}");
        assert_eq!(rt;
            said.bytes(),
            format!(in alloc; "a.py:{line}: {kind}\n")?.as_bytes(),
            "{source:?}"
        );
    }
    for (source, status, said) in [
        (with_signs(alloc, 64)?, 3, "a.py:1: no entry point\n"),
        (with_signs(alloc, 65)?, 2, "a.py:1: limit operators\n"),
        (with_blocks(alloc, 34)?, 2, "a.py:34: limit blocks\n"),
    ] {
        let (answered, text) = refusal_of(alloc, &source)?;
        assert_eq!(rt; answered, status, "{said:?}");
        assert_eq!(rt; text.bytes(), said.as_bytes());
    }
    Ok(())
}

// The status of a build of files that are there, and its line.
fn build_of(alloc: Global, words: &[Text], first: &str, second: &str) -> Result<(u8, Text), NoMem> {
    let mut files = files_of(alloc, "a.py", first.as_bytes())?;
    files.add(
        Text::from_bytes(alloc, b"b.py")?,
        Text::from_bytes(alloc, second.as_bytes())?,
    )?;
    let mut out = MemSink::new(alloc);
    let mut err = MemSink::new(alloc);
    let mut watch: Vec<Box<dyn HeapWatch>> = Vec::new(alloc);
    let answered = rpyc(alloc, words, &mut files, &mut out, &mut err, &mut watch);
    Ok((answered, Text::from_bytes(alloc, err.taken())?))
}

const IMPORTS: &str = "import b\ndef entry_point(argv):\n    return 0\n";

#[test]
fn files_make_one_program(rt: HostRuntime) -> Result<(), Fail> {
    let alloc = rt.alloc();
    for (line, first, second, status, said) in [
        (
            "build a.py b.py",
            IMPORTS,
            "X = 1\nY = X << 63\n",
            3,
            "b.py:2: bad constant\n",
        ),
        ("build a.py b.py", IMPORTS, "X = 1\nY = X << 62\n", 0, ""),
        ("build a.py", IMPORTS, "", 3, "a.py:1: no module\n"),
        (
            "build b.py a.py",
            IMPORTS,
            "X = 1\nX = 2\n",
            3,
            "b.py:2: bound twice\n",
        ),
        (
            "build b.py a.py",
            IMPORTS,
            "X = 1\n",
            3,
            "b.py:1: no entry point\n",
        ),
        (
            "build a.py b.py",
            IMPORTS,
            "class X(Y): pass\n",
            3,
            "b.py:1: unknown name\n",
        ),
        (
            "build a.py b.py c.py",
            IMPORTS,
            "X = \n",
            8,
            "c.py: no such file\n",
        ),
        (
            "build a.py b.py",
            IMPORTS,
            "\nX = \n",
            2,
            "b.py:2: syntax\n",
        ),
    ] {
        let words = words_of(alloc, line)?;
        let (answered, text) = build_of(alloc, &words, first, second)?;
        assert_eq!(rt; answered, status, "{line:?} on {second:?}");
        assert_eq!(rt; text.bytes(), said.as_bytes(), "{line:?} on {second:?}");
    }
    for (count, status, said) in [
        (64, 8, "m0.py: no such file\n"),
        (65, 15, "too many files\n"),
    ] {
        let mut words = words_of(alloc, "build")?;
        for i in 0..count {
            words.push(Text::from_bytes(alloc, format!(in alloc; "m{i}.py")?.as_bytes())?)?;
        }
        let (answered, text) = build_of(alloc, &words, "", "")?;
        assert_eq!(rt; answered, status, "{count} files");
        assert_eq!(rt; text.bytes(), said.as_bytes(), "{count} files");
    }
    Ok(())
}

const GRAPH: &str =
    "graph a.entry_point\nblock 0(v0)\n  goto 6(v0)\nblock 1(v1)\n  return v1\nblock 2(v2)\n  raise v2\nblock 3()\n  goto 3()\nblock 4(v3)\n  v4 = none\n  goto 1(v4)\nblock 5(v5 v6)\n  goto 1(v6)\nblock 6(v7)\n  v8 = word\n  caught v8\n  on any 2(v8)\n  else 5(v7 v8)\n";

const BRANCHES: &str =
    "def entry_point(argv):\n    if len(argv) > 1:\n        x = 1\n    else:\n        x = 'a'\n    print x\n    return 0\n";

const BOX: &str =
    "class Box(object):\n    def __init__(self, v):\n        self.v = v\ndef find(n):\n    if n > 3:\n        return Box(n)\n    return None\ndef entry_point(argv):\n    b = find(len(argv) + 4)\n    if b is not None:\n        print b.v\n    return 0\n";

const BOXED: &str =
    "a.Box.__init__(self: a.Box, v: int+) -> None\na.find(n: int+) -> a.Box?\na.entry_point(argv: list#0) -> int+\na.Box.v: int+\nlist#0: str\n";

const FAMILY: &str =
    "def f(a):\n    return a\ndef g(a, b):\n    return a + b\nTABLE = {'f': f, 'g': g}\ndef entry_point(argv):\n    h = TABLE['f']\n    return h(1)\n";

const MODIFIED: &str = "L = [1, 2]\ndef entry_point(argv):\n    L.append(3)\n    return len(L)\n";

const UNBOUND: &str =
    "def entry_point(argv):\n    if len(argv) > 1:\n        x = 1\n    return x\n";

const UNREACHED: &str = "def bad():\n    return 1 + 'a'\ndef entry_point(argv):\n    return 0\n";

#[test]
fn programs_are_shown(rt: HostRuntime) -> Result<(), Fail> {
    let alloc = rt.alloc();
    for (line, source, status, written, said) in [
        ("flow a.py", RETURNS, 0, GRAPH, ""),
        (
            "flow a.py",
            "def entry_point(argv):\n    return x\n",
            3,
            "",
            "a.py:2: unknown name\n",
        ),
        ("flow a.py", "x = 1.5\n", 2, "", "a.py:1: bad number\n"),
        ("check a.py", RETURNS, 0, "ok\n", ""),
        ("check a.py", UNREACHED, 0, "ok\n", ""),
        ("check a.py", BRANCHES, 4, "", "a.py:6: conflict: name\n"),
        ("annotate a.py", BOX, 0, BOXED, ""),
        ("check a.py", FAMILY, 5, "", "a.py:8: family\n"),
        ("check a.py", MODIFIED, 5, "", "a.py:3: constant modified\n"),
        ("annotate a.py", UNBOUND, 5, "", "a.py:4: maybe unbound\n"),
    ] {
        let words = words_of(alloc, line)?;
        let mut files = files_of(alloc, "a.py", source.as_bytes())?;
        let mut out = MemSink::new(alloc);
        let mut err = MemSink::new(alloc);
        let mut watch: Vec<Box<dyn HeapWatch>> = Vec::new(alloc);
        let answered = rpyc(alloc, &words, &mut files, &mut out, &mut err, &mut watch);
        assert_eq!(rt; answered, status, "the status of {source:?}");
        assert_eq!(rt;
            out.taken(),
            written.as_bytes(),
            "what was written of {source:?}"
        );
        assert_eq!(rt; err.taken(), said.as_bytes(), "what was said of {source:?}");
    }
    Ok(())
}
