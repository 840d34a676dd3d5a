// Whole calls on broken sources and C texts, failing files and sinks, and watchers.
use crate::worked::{CHAIN, PROGRAM, STACK, TURNS, told};
use rpy_base::{HeapWatch, Leaks, MemSink, NoMem, Tally, Text, pair_of};
use rpy_calls::{Refuses, files_of, words_of};
use rpy_top::rpyc;
use std::alloc::Global;
use std::test::Fail;

const RETURNS: &str = "def entry_point(argv):\n    return 0\n";

const ENDLESS: &str =
    "def f(n):\n    return f(n)\ndef entry_point(argv):\n    return f(len(argv))\n";

const IMPORTS: &str = "import b\ndef entry_point(argv):\n    return b.X\n";

// A C text up to the statements of its function, and behind them.
const BEFORE: &str =
    "/* C-sub 1 */\n#include \"rpy_prim.h\"\nstruct s0 {\n    Signed a0;\n};\nstatic Signed f0(void);\n/* main */\nstatic Signed f0(void)\n{\n    struct s0 *v0;\n    Signed v1;\nb0:\n    v0 = (struct s0 *)RPY_NEW(struct s0);\n";

const BEHIND: &str = "    return 0L;\n}\n";

#[test]
fn sources_are_checked(rt: HostRuntime) -> Result<(), Fail> {
    let alloc = rt.alloc();
    for (source, status, printed, said) in [
        (
            "def entry_point(argv):\n\treturn 0\n",
            2,
            "",
            "a.py:2: bad indent\n",
        ),
        (
            "def entry_point(argv):\n    return 0\n  x = 1\n",
            2,
            "",
            "a.py:3: bad indent\n",
        ),
        ("\0", 2, "", "a.py:1: bad byte\n"),
        ("x = 1 $\n", 2, "", "a.py:1: bad byte\n"),
        ("x = 09\n", 2, "", "a.py:1: bad number\n"),
        ("x = 9223372036854775808\n", 2, "", "a.py:1: bad number\n"),
        ("x = (((((((((((((((((", 2, "", "a.py:1: limit brackets\n"),
        ("x = '''a\n", 2, "", "a.py:1: open string\n"),
        ("def entry_point(argv):\n    return 0", 0, "ok\n", ""),
        ("def entry_point(argv):\r\n    return 0\r\n", 0, "ok\n", ""),
        (
            "def entry_point(argv):\n    return\n",
            5,
            "",
            "a.py:1: entry point result\n",
        ),
    ] {
        let (answered, out, err) = told(alloc, "check a.py", "", "a.py", source.as_bytes())?;
        assert_eq!(rt; err.taken(), said.as_bytes(), "{source:?}");
        assert_eq!(rt; answered, status, "{source:?}");
        assert_eq!(rt; out.taken(), printed.as_bytes(), "{source:?}");
    }
    Ok(())
}

// What wrong statements of a C text are told as.
#[test]
fn c_texts_are_stuck_or_refused(rt: HostRuntime) -> Result<(), Fail> {
    let alloc = rt.alloc();
    for (statements, status, said) in [
        (
            "    RPY_FREE(v0);\n    v1 = ((struct s0 *)v0)->a0;\n",
            7,
            "stuck 1 at statement 3\n",
        ),
        (
            "    v1 = ((struct s0 *)v0)->a0;\n",
            7,
            "stuck 4 at statement 2\n",
        ),
        (
            "    v0 = NULL;\n    RPY_FREE(v0);\n",
            7,
            "stuck 5 at statement 3\n",
        ),
        ("    RPY_PUT(256L);\n", 7, "stuck 7 at statement 2\n"),
        ("    v1 = RPY_DIV(1L, 0L);\n", 7, "stuck 7 at statement 2\n"),
        ("    RPY_STEP(-1L);\n", 7, "stuck 9 at statement 2\n"),
        ("    v1 = RPY_ARGLEN(1L);\n", 7, "stuck 10 at statement 2\n"),
        ("    v1 = 007L;\n", 6, "c.c:14: not C-sub\n"),
        ("    v2 = 0L;\n", 6, "c.c: declaration 3 not checked\n"),
        ("    v1 = 7L;\n", 0, "returned 0\n"),
    ] {
        let mut text = Text::from_bytes(alloc, BEFORE.as_bytes())?;
        text.append(statements.as_bytes())?;
        text.append(BEHIND.as_bytes())?;
        let (answered, out, err) = told(alloc, "crun c.c", "", "c.c", text.bytes())?;
        assert_eq!(rt; err.taken(), said.as_bytes(), "{statements:?}");
        assert_eq!(rt; answered, status, "{statements:?}");
        assert_eq!(rt; out.taken(), b"".as_slice(), "{statements:?}");
    }
    Ok(())
}

// The read of either file fails: the line names it.
#[test]
fn reads_fail(rt: HostRuntime) -> Result<(), Fail> {
    let alloc = rt.alloc();
    for (call, said) in [(0, "a.py: not read\n"), (1, "b.py: not read\n")] {
        let words = words_of(alloc, "build a.py b.py")?;
        let mut files = files_of(alloc, "a.py", IMPORTS.as_bytes())?;
        files.add(
            Text::from_bytes(alloc, b"b.py")?,
            Text::from_bytes(alloc, b"X = 1\n")?,
        )?;
        files.fail_at(call)?;
        let mut out = MemSink::new(alloc);
        let mut err = MemSink::new(alloc);
        let mut watch: Vec<Box<dyn HeapWatch>> = Vec::new(alloc);
        let answered = rpyc(alloc, &words, &mut files, &mut out, &mut err, &mut watch);
        assert_eq!(rt; answered, 8, "{call}");
        assert_eq!(rt; err.taken(), said.as_bytes(), "{call}");
        assert_eq!(rt; out.taken(), b"".as_slice(), "{call}");
    }
    Ok(())
}

// A run of the stack language in which a put of a sink fails.
fn failing(alloc: Global, call: u64, is_out: bool) -> Result<(u8, MemSink, MemSink), NoMem> {
    let mut words = words_of(alloc, "run a.py --")?;
    words.push(Text::from_bytes(alloc, PROGRAM.as_bytes())?)?;
    let mut files = files_of(alloc, "a.py", STACK.as_bytes())?;
    let mut out = MemSink::new(alloc);
    let mut err = MemSink::new(alloc);
    if is_out {
        out.fail_at(call, 0);
    } else {
        err.fail_at(call, 0);
    }
    let mut watch: Vec<Box<dyn HeapWatch>> = Vec::new(alloc);
    let answered = rpyc(alloc, &words, &mut files, &mut out, &mut err, &mut watch);
    Ok((answered, out, err))
}

fn is_first_part(part: &[u8], whole: &str) -> bool {
    match whole.as_bytes().strip_prefix(part) {
        Some(_) => true,
        None => false,
    }
}

// Each put of out fails, and then of err, until there are no more.
#[test]
fn puts_fail(rt: HostRuntime) -> Result<(), Fail> {
    let alloc = rt.alloc();
    for is_out in [true, false] {
        let mut failed: u64 = 0;
        for call in 0..1000 {
            let (answered, out, err) = failing(alloc, call, is_out)?;
            assert!(rt;
                is_first_part(out.taken(), "7\n4\noverflow\nstop 4\n"),
                "put {call}"
            );
            assert!(rt; is_first_part(err.taken(), "returned 4\n"), "put {call}");
            if answered == 0 {
                break;
            }
            assert_eq!(rt; answered, 9, "put {call}");
            failed = call + 1;
        }
        assert!(rt; failed > 0 && failed < 1000, "{is_out}");
    }
    Ok(())
}

fn leaks_first(alloc: Global) -> Result<(u8, MemSink), NoMem> {
    let words = words_of(alloc, "run --steps 4001 --leaks --tally a.py")?;
    let mut files = files_of(alloc, "a.py", TURNS.as_bytes())?;
    let mut out = MemSink::new(alloc);
    let mut err = MemSink::new(alloc);
    let leaks = Box::new(alloc, Leaks::new(alloc))?;
    let tally = Box::new(alloc, Tally::new())?;
    let mut watch = pair_of(alloc, leaks, tally)?;
    let answered = rpyc(alloc, &words, &mut files, &mut out, &mut err, &mut watch);
    Ok((answered, err))
}

// Reports of those watchers that are asked for, in the order of the list.
#[test]
fn watchers_report_in_their_order(rt: HostRuntime) -> Result<(), Fail> {
    let alloc = rt.alloc();
    let (status, said) = leaks_first(alloc)?;
    assert_eq!(rt; status, 0);
    assert_eq!(rt;
        said.taken(),
        b"returned 1000\nleaks: none\ntally: made 2003, gone 2003, left 0\n".as_slice()
    );
    let line = "run --steps 4001 --leaks --tally a.py";
    let (status, _, said) = told(alloc, line, "", "a.py", TURNS.as_bytes())?;
    assert_eq!(rt; status, 0);
    assert_eq!(rt;
        said.taken(),
        b"returned 1000\ntally: made 2003, gone 2003, left 0\nleaks: none\n".as_slice()
    );
    Ok(())
}

// A second watcher of the name refuses the third block.
#[test]
fn a_run_is_refused(rt: HostRuntime) -> Result<(), Fail> {
    let alloc = rt.alloc();
    let words = words_of(alloc, "run --tally a.py")?;
    let mut files = files_of(alloc, "a.py", TURNS.as_bytes())?;
    let mut out = MemSink::new(alloc);
    let mut err = MemSink::new(alloc);
    let tally = Box::new(alloc, Tally::new())?;
    let refuses = Box::new(alloc, Refuses::new(2))?;
    let mut watch = pair_of(alloc, tally, refuses)?;
    let answered = rpyc(alloc, &words, &mut files, &mut out, &mut err, &mut watch);
    assert_eq!(rt; answered, 13);
    assert_eq!(rt; err.taken(), b"".as_slice());
    Ok(())
}

// Without an option nothing is reported, and the watchers that come back tell what they saw.
#[test]
fn watchers_come_back(rt: HostRuntime) -> Result<(), Fail> {
    let alloc = rt.alloc();
    let words = words_of(alloc, "run --steps 4001 a.py")?;
    let mut files = files_of(alloc, "a.py", TURNS.as_bytes())?;
    let mut out = MemSink::new(alloc);
    let mut err = MemSink::new(alloc);
    let tally = Box::new(alloc, Tally::new())?;
    let leaks = Box::new(alloc, Leaks::new(alloc))?;
    let mut watch = pair_of(alloc, tally, leaks)?;
    rpyc(alloc, &words, &mut files, &mut out, &mut err, &mut watch);
    assert_eq!(rt; err.taken(), b"returned 1000\n".as_slice());
    let mut texts = Text::new(alloc);
    for watcher in &watch {
        texts.append(watcher.report(alloc)?.bytes())?;
    }
    assert_eq!(rt;
        texts.bytes(),
        b"tally: made 2003, gone 2003, left 0\nleaks: none\n".as_slice()
    );
    Ok(())
}

#[test]
fn runs_end_as_stated(rt: HostRuntime) -> Result<(), Fail> {
    let alloc = rt.alloc();
    for (line, source, status, printed, said) in [
        ("run --steps 5 a.py", ENDLESS, 12, "", "steps spent\n"),
        ("llrun --steps 5 a.py", ENDLESS, 12, "", "steps spent\n"),
        (
            "run --leaks a.py",
            CHAIN,
            0,
            "100000\n",
            "returned 0\nleaks: none\n",
        ),
        ("run a.py", RETURNS, 0, "", "returned 0\n"),
    ] {
        let (answered, out, err) = told(alloc, line, "", "a.py", source.as_bytes())?;
        assert_eq!(rt; err.taken(), said.as_bytes(), "{line:?}");
        assert_eq!(rt; answered, status, "{line:?}");
        assert_eq!(rt; out.taken(), printed.as_bytes(), "{line:?}");
    }
    Ok(())
}
