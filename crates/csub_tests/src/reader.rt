// What is read, and where a text is refused: the contracts say only that what is read is spelled so.
use csub_reader::{CFault, read_c, read_text};
use genc_writer::write_c;
use rpy_base::{NoMem, Text};
use std::alloc::Global;
use std::test::Fail;

// A function of one variable, whose statement stands in line 9.
const BEFORE: &str =
    "/* C-sub 1 */\n#include \"rpy_prim.h\"\nstatic Signed f0(void);\n/* main */\nstatic Signed f0(void)\n{\n    Signed v0;\nb0:\n";

const FREES_TWICE: &str =
    "/* C-sub 1 */\n#include \"rpy_prim.h\"\nstruct s0 {\n    Signed a0;\n};\nstatic Signed f0(void);\n/* main */\nstatic Signed f0(void)\n{\n    struct s0 *v0;\nb0:\n    v0 = (struct s0 *)RPY_NEW(struct s0);\n    RPY_FREE(v0);\n    RPY_FREE(v0);\n    return 0L;\n}\n";

const DECLARATIONS: &str =
    "/* C-sub 1 */\n#include \"rpy_prim.h\"\nstruct s0 {\n};\nstruct s1 {\n    struct s0 a0;\n    Signed a1;\n    struct s1 *a2;\n    Char items[];\n};\nstruct s2 {\n    Fn items[];\n};\nstatic void f0(struct s1 *v0, Fn v1);\nstatic struct s1 *f1(Bool v0);\nstatic Signed f2(void);\nstatic struct s1 g0 = { { }, -1L, NULL, { (Char)72, (Char)105 } };\nstatic struct s1 g1 = { { { { { }, { RPY_TRUE } }, RPY_MIN } }, (struct s1 *)&g0, (Fn)f2 };\nstatic struct s0 g2 = { };\n/*  */\nstatic void f0(struct s1 *v0, Fn v1)\n{\n    Char v2;\nb0:\n    return;\n}\n/* A.get_1 */\nstatic struct s1 *f1(Bool v0)\n{\nb0:\n    if (v0) goto b1; else goto b0;\nb1:\n    return NULL;\n}\n/* main */\nstatic Signed f2(void)\n{\nb0:\n    return 0L;\n}\n";

fn text_of(alloc: Global, start: &str, line: &str, end: &str) -> Result<Text, NoMem> {
    let mut text = Text::from_bytes(alloc, start.as_bytes())?;
    text.append(line.as_bytes())?;
    text.append(end.as_bytes())?;
    Ok(text)
}

// The line at which a text is refused; 0 where it is read, and then spelled as it was.
fn line_of(alloc: Global, text: &Text) -> Result<u64, CFault> {
    match read_text(alloc, text) {
        Ok(file) => {
            let again = write_c(alloc, &file)?;
            Ok(if again == *text { 0 } else { 1000 })
        }
        Err(CFault::NotText(line)) => Ok(line),
        Err(fault) => Err(fault),
    }
}

#[test]
fn statements_are_read(rt: HostRuntime) -> Result<(), Fail> {
    let alloc = rt.alloc();
    for line in [
        "v18446744073709551615 = 0L;",
        "v0 = 9223372036854775807L;",
        "v0 = -9223372036854775807L;",
        "v0 = RPY_MIN;",
        "v0 = v10;",
        "v0 = (Char)255;",
        "v0 = RPY_TRUE;",
        "v0 = RPY_FALSE;",
        "v0 = NULL;",
        "v0 = (struct s0 *)&g3;",
        "v0 = (Fn)f2;",
        "v0 = RPY_NEG(v1);",
        "v0 = RPY_ADD(v1, -2L);",
        "v0 = RPY_ADD_OVF(v1, RPY_MIN);",
        "v0 = RPY_FEQ(NULL, (Fn)f0);",
        "v0 = ((struct s1 *)v2)->a3;",
        "((struct s1 *)v2)->a3 = v4;",
        "v0 = ((struct s1 *)v2)->items[v3];",
        "((struct s1 *)v2)->items[3L] = v4;",
        "v0 = (struct s1 *)RPY_NEW(struct s2);",
        "v0 = (struct s1 *)RPY_NEWARRAY(struct s2, v3);",
        "RPY_FREE(v0);",
        "RPY_STEP(1L);",
        "f0();",
        "v0 = f1(v1, NULL);",
        "((void (*)(void))v0)();",
        "v0 = ((struct s1 * (*)(Signed, struct s0 *))v2)(v3, 4L);",
        "v0 = (struct s1 *)RPY_EXC_TYPE();",
        "v0 = (struct s1 *)RPY_EXC_VALUE();",
        "RPY_EXC_SET(v0, v1);",
        "RPY_EXC_CLEAR();",
        "v0 = RPY_ARGC();",
        "v0 = RPY_ARGLEN(v1);",
        "v0 = RPY_ARG(v1, 0L);",
        "RPY_PUT(10L);",
        "goto b0;\nb1:",
        "if (v0) goto b1; else goto b2;\nb1:",
        "return;\nb1:",
        "return v0;\nb1:",
        "RPY_FAIL(5);\nb1:",
        "RPY_RAISED(v0);\nb1:",
    ] {
        let mut start = text_of(alloc, BEFORE, "    ", line)?;
        start.append(b"\n    return 0L;\n}\n")?;
        assert_eq!(rt; line_of(alloc, &start)?, 0, "{line}");
    }
    Ok(())
}

#[test]
fn other_lines_are_refused(rt: HostRuntime) -> Result<(), Fail> {
    let alloc = rt.alloc();
    for (line, refused) in [
        ("    v0 =  1L;\n", 9),
        ("    v0  = 1L;\n", 9),
        ("     v0 = 1L;\n", 9),
        ("   v0 = 1L;\n", 9),
        ("    v0 = 1L; \n", 9),
        ("    v0 = 1L;\r\n", 9),
        ("    v0 = 007L;\n", 9),
        ("    v00 = 7L;\n", 9),
        ("    v0 = -0L;\n", 9),
        ("    v0 = 7;\n", 9),
        ("    v0 = 9223372036854775808L;\n", 9),
        ("    v0 = -9223372036854775808L;\n", 9),
        ("    v18446744073709551616 = 0L;\n", 9),
        ("    v0 = (Char)256;\n", 9),
        ("    v0 = RPY_ADD(1L);\n", 9),
        ("    v0 = RPY_ARGC(0L);\n", 9),
        ("    v0 = RPY_FREE(v0);\n", 9),
        ("    RPY_ADD(1L, 1L);\n", 9),
        ("    RPY_FREE(NULL);\n", 9),
        ("    RPY_FAIL(0);\n", 9),
        ("    RPY_FAIL(6);\n", 9),
        ("    v0 = f1(v1,v2);\n", 9),
        ("    v0 = v1\n", 9),
        ("}\n", 9),
        ("b1:\n", 9),
        ("\n", 9),
        ("    return 0L;\n", 10),
        ("    return 0L;\nb2:\n", 10),
        ("    v0 = 1L;\n    v0 = 1L\n", 10),
    ] {
        let text = text_of(alloc, BEFORE, line, "    return 0L;\n}\n")?;
        assert_eq!(rt; line_of(alloc, &text)?, refused, "{line}");
    }
    Ok(())
}

#[test]
fn files_are_read_or_refused(rt: HostRuntime) -> Result<(), Fail> {
    let alloc = rt.alloc();
    for (start, end, line) in [
        (FREES_TWICE, "", 0),
        (DECLARATIONS, "", 0),
        ("", "", 1),
        ("/* C-sub 1 */", "", 1),
        ("/* C-sub 1 */\n#include \"rpy_prim.h\"\n", "", 3),
        (
            "/* C-sub 1 */\n#include \"rpy_prim.h\"\nstruct s0 {\n",
            "",
            4,
        ),
        (
            "/* C-sub 1 */\n#include \"rpy_prim.h\"\nstruct s1 {\n",
            "",
            3,
        ),
        (FREES_TWICE, "\n", 17),
        (FREES_TWICE, "static Signed f1(void);\n", 17),
        (FREES_TWICE, "/* a b */\n", 17),
        (FREES_TWICE, "/* b */\nstatic Signed f2(void)\n", 18),
        (FREES_TWICE, "/* b */\nstatic Signed f1(void)\n{\n}\n", 20),
        (
            FREES_TWICE,
            "/* b */\nstatic Signed f1(void)\n{\n    Signed v1;\n",
            20,
        ),
        (
            FREES_TWICE,
            "/* b */\nstatic Signed f1(void)\n{\nb0:\n    return 0L;\n}",
            22,
        ),
        (BEFORE, "", 9),
    ] {
        let text = text_of(alloc, start, end, "")?;
        assert_eq!(rt; line_of(alloc, &text)?, line, "{start}{end}");
    }
    Ok(())
}

#[test]
fn cells_are_read_or_refused(rt: HostRuntime) -> Result<(), Fail> {
    let alloc = rt.alloc();
    for (cells, line) in [
        ("{ }", 9),
        ("{ { } }", 9),
        ("{ 1L, { { }, NULL }, { 2L } }", 9),
        ("{}", 8),
        ("{  }", 8),
        ("{ 1L }}", 8),
        ("{ { 1L }", 8),
        ("{ 1L, }", 8),
        ("{ , 1L }", 8),
        ("1L", 8),
        ("{ 1L 2L }", 8),
        ("{ v0 }", 8),
    ] {
        let mut text = text_of(
            alloc,
            "/* C-sub 1 */\n#include \"rpy_prim.h\"\nstruct s0 {\n};\nstatic Signed f0(void);\nstatic Signed f1(void);\nstatic struct s0 g0 = { };\n",
            "static struct s0 g1 = ",
            cells,
        )?;
        text.append(b";\n")?;
        assert_eq!(rt; line_of(alloc, &text)?, line, "{cells}");
    }
    Ok(())
}

// A file whose one static has cells nested this deep.
fn nested(alloc: Global, levels: usize) -> Result<Text, NoMem> {
    let head = "/* C-sub 1 */\n#include \"rpy_prim.h\"\n";
    let mut text = text_of(
        alloc,
        head,
        "static Signed f0(void);\n",
        "static struct s0 g0 =",
    )?;
    for _ in 0..levels {
        text.append(b" {")?;
    }
    for _ in 0..levels {
        text.append(b" }")?;
    }
    text.append(b";\n/* main */\nstatic Signed f0(void)\n{\nb0:\n    return 0L;\n}\n")?;
    Ok(text)
}

#[test]
fn cells_nest_so_deep(rt: HostRuntime) -> Result<(), Fail> {
    let alloc = rt.alloc();
    let text = nested(alloc, 2_000)?;
    assert_eq!(rt; line_of(alloc, &text), Ok(0));
    let deeper = nested(alloc, 2_002)?;
    assert_eq!(rt; line_of(alloc, &deeper), Err(CFault::NoMem));
    Ok(())
}

// A function with a pointer and a word, and these lines after its first statement.
fn with_lines(alloc: Global, lines: &str) -> Result<Text, NoMem> {
    let start =
        "/* C-sub 1 */\n#include \"rpy_prim.h\"\nstruct s0 {\n    Signed a0;\n};\nstatic Signed f0(void);\n/* main */\nstatic Signed f0(void)\n{\n    struct s0 *v0;\n    Signed v1;\nb0:\n    v0 = (struct s0 *)RPY_NEW(struct s0);\n";
    text_of(alloc, start, lines, "    return 0L;\n}\n")
}

// Whether the file that a text spells is spelled as that text, and read from there as the same file:
// one whose spelling is the text again.
fn comes_back(alloc: Global, text: &Text) -> Result<bool, CFault> {
    let file = read_c(alloc, text)?;
    let spelled = write_c(alloc, &file)?;
    let again = read_c(alloc, &spelled)?;
    let respelled = write_c(alloc, &again)?;
    Ok(spelled == *text && respelled == spelled)
}

#[test]
fn checked_files_come_back(rt: HostRuntime) -> Result<(), Fail> {
    let alloc = rt.alloc();
    let twice = Text::from_bytes(alloc, FREES_TWICE.as_bytes())?;
    assert_eq!(rt; comes_back(alloc, &twice), Ok(true));
    for lines in [
        "",
        "    RPY_FREE(v0);\n    RPY_FREE(v0);\n",
        "    RPY_FREE(v0);\n    v1 = ((struct s0 *)v0)->a0;\n",
        "    v1 = ((struct s0 *)v0)->a0;\n",
        "    v0 = NULL;\n    RPY_FREE(v0);\n",
        "    RPY_PUT(256L);\n",
        "    v1 = RPY_DIV(1L, 0L);\n",
        "    RPY_STEP(-1L);\n",
        "    v1 = RPY_ARGLEN(1L);\n",
        "    v1 = 7L;\n",
    ] {
        let text = with_lines(alloc, lines)?;
        assert_eq!(rt; comes_back(alloc, &text), Ok(true), "{lines}");
    }
    Ok(())
}

#[test]
fn broken_files_are_told_apart(rt: HostRuntime) -> Result<(), Fail> {
    let alloc = rt.alloc();
    for (lines, fault) in [
        ("    v1 = 007L;\n", CFault::NotText(14)),
        ("    v1 =  7L;\n", CFault::NotText(14)),
        ("    v2 = 0L;\n", CFault::NotChecked(3)),
    ] {
        let text = with_lines(alloc, lines)?;
        assert_eq!(rt; read_c(alloc, &text).err(), Some(fault), "{lines}");
    }
    Ok(())
}
