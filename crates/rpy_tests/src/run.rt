// Whole calls that run C files in memory.
use rpy_base::{HeapWatch, Leaks, MemSink, NoMem, Tally, pair_of};
use rpy_calls::{Refuses, files_of, words_of};
use rpy_top::rpyc;
use std::alloc::Global;
use std::test::Fail;

// Frees a block twice.
const TWICE: &str =
    "/* C-sub 1 */\n#include \"rpy_prim.h\"\nstruct s0 {\n    Signed a0;\n};\nstatic Signed f0(void);\n/* main */\nstatic Signed f0(void)\n{\n    struct s0 *v0;\nb0:\n    v0 = (struct s0 *)RPY_NEW(struct s0);\n    RPY_FREE(v0);\n    RPY_FREE(v0);\n    return 0L;\n}\n";

// Frees it once.
const ONCE: &str =
    "/* C-sub 1 */\n#include \"rpy_prim.h\"\nstruct s0 {\n    Signed a0;\n};\nstatic Signed f0(void);\n/* main */\nstatic Signed f0(void)\n{\n    struct s0 *v0;\nb0:\n    v0 = (struct s0 *)RPY_NEW(struct s0);\n    RPY_FREE(v0);\n    return 0L;\n}\n";

// Prints a byte, makes a block, and pays a step.
const PAYS: &str =
    "/* C-sub 1 */\n#include \"rpy_prim.h\"\nstruct s0 {\n    Signed a0;\n};\nstatic Signed f0(void);\n/* main */\nstatic Signed f0(void)\n{\n    struct s0 *v0;\nb0:\n    RPY_PUT(65L);\n    v0 = (struct s0 *)RPY_NEW(struct s0);\n    RPY_STEP(1L);\n    return -7L;\n}\n";

const HEAD: &str = "/* C-sub 1 */\n#include \"rpy_prim.h\"\nstruct s0 {\n";

// The status of a call over one file, and what its sinks took.
pub fn run_of(
    alloc: Global,
    line: &str,
    name: &str,
    text: &str,
) -> Result<(u8, MemSink, MemSink), NoMem> {
    let words = words_of(alloc, line)?;
    let mut files = files_of(alloc, name, text.as_bytes())?;
    let mut out = MemSink::new(alloc);
    let mut err = MemSink::new(alloc);
    let tally = Box::new(alloc, Tally::new())?;
    let leaks = Box::new(alloc, Leaks::new(alloc))?;
    let mut watch = pair_of(alloc, tally, leaks)?;
    let answered = rpyc(alloc, &words, &mut files, &mut out, &mut err, &mut watch);
    Ok((answered, out, err))
}

#[test]
fn c_files_run(rt: HostRuntime) -> Result<(), Fail> {
    let alloc = rt.alloc();
    for (line, text, status, printed, said) in [
        ("crun c.c", TWICE, 7, "", "stuck 5 at statement 3\n"),
        (
            "crun --tally --leaks c.c",
            TWICE,
            7,
            "",
            "stuck 5 at statement 3\n",
        ),
        ("crun c.c", ONCE, 0, "", "returned 0\n"),
        (
            "crun --leaks --steps 0 --tally c.c -- x",
            ONCE,
            0,
            "",
            "returned 0\ntally: made 1, gone 1, left 0\nleaks: none\n",
        ),
        (
            "crun --leaks c.c",
            PAYS,
            0,
            "A",
            "returned -7\nleak 0 s0 1\n",
        ),
        (
            "crun --steps 0 --tally c.c",
            PAYS,
            12,
            "A",
            "steps spent\ntally: made 1, gone 0, left 1\n",
        ),
        ("crun c.c", "", 6, "", "c.c:1: not C-sub\n"),
        ("crun --tally c.c", HEAD, 6, "", "c.c:4: not C-sub\n"),
        ("crun d.c", ONCE, 8, "", "d.c: no such file\n"),
    ] {
        let (answered, out, err) = run_of(alloc, line, "c.c", text)?;
        assert_eq!(rt; err.taken(), said.as_bytes(), "{line:?} on {text:?}");
        assert_eq!(rt; answered, status, "{line:?} on {text:?}");
        assert_eq!(rt; out.taken(), printed.as_bytes(), "{line:?} on {text:?}");
    }
    Ok(())
}

// A watcher refuses a block: nothing is said. It refuses its report: the ending and the reports before it are said.
#[test]
fn a_watcher_refuses(rt: HostRuntime) -> Result<(), Fail> {
    let alloc = rt.alloc();
    for (most, said) in [(0, ""), (1, "returned 0\nleaks: none\n")] {
        let words = words_of(alloc, "crun --tally --leaks c.c")?;
        let mut files = files_of(alloc, "c.c", ONCE.as_bytes())?;
        let mut out = MemSink::new(alloc);
        let mut err = MemSink::new(alloc);
        let leaks = Box::new(alloc, Leaks::new(alloc))?;
        let refuses = Box::new(alloc, Refuses::new(most))?;
        let mut watch = pair_of(alloc, leaks, refuses)?;
        let answered = rpyc(alloc, &words, &mut files, &mut out, &mut err, &mut watch);
        assert_eq!(rt; answered, 13, "{most} blocks");
        assert_eq!(rt; err.taken(), said.as_bytes(), "{most} blocks");
    }
    Ok(())
}

// A put that fails: of out, and of err.
#[test]
fn sinks_of_a_run_fail(rt: HostRuntime) -> Result<(), Fail> {
    let alloc = rt.alloc();
    for (fails_out, printed, said) in [(true, "", ""), (false, "A", "returned -7\nta")] {
        let words = words_of(alloc, "crun --tally c.c")?;
        let mut files = files_of(alloc, "c.c", PAYS.as_bytes())?;
        let mut out = MemSink::new(alloc);
        let mut err = MemSink::new(alloc);
        if fails_out {
            out.fail_at(0, 0);
        } else {
            err.fail_at(0, 14);
        }
        let tally = Box::new(alloc, Tally::new())?;
        let leaks = Box::new(alloc, Leaks::new(alloc))?;
        let mut watch = pair_of(alloc, tally, leaks)?;
        let answered = rpyc(alloc, &words, &mut files, &mut out, &mut err, &mut watch);
        assert_eq!(rt; answered, 9, "{fails_out}");
        assert_eq!(rt; out.taken(), printed.as_bytes(), "{fails_out}");
        assert_eq!(rt; err.taken(), said.as_bytes(), "{fails_out}");
    }
    Ok(())
}
