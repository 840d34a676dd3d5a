// Whole calls on every operation on strings, characters and tuples, a line of the table for each.
use crate::run::run_of;
use std::test::Fail;

// A program up to what it prints, and behind that.
const BEFORE: &str =
    "import os\nT = (1, 'ab', 'c')\nE = ''\n\ndef maybe(n):\n    if n > 1:\n        return None\n    return 'text'\n\ndef walked(text):\n    out = ''\n    for c in text:\n        out = c + out\n    return out\n\ndef entry_point(argv):\n    s = 'hello'\n    c = s[1]\n    w = '\\t pad\\n'\n    n = maybe(len(argv))\n    none = maybe(2)\n    t = (s, c, 7)\n    one = len(argv)\n    print ";

const BEHIND: &str = "\n    return 0\n";

#[test]
fn operations_on_texts(rt: HostRuntime) -> Result<(), Fail> {
    let alloc = rt.alloc();
    let before = BEFORE;
    let behind = BEHIND;
    for (expression, printed) in [
        // literals
        ("'', 'a', 'ab\\x00c'", " a ab\0c\n"),
        // constants
        ("E, T[0], T[1], T[2]", " 1 ab c\n"),
        // sums
        (
            "s + s, s + c, c + s, c + c, s + '', n + s",
            "hellohello helloe ehello ee hello texthello\n",
        ),
        // products
        (
            "s * 2, s * 0, c * 3, s * -one, n * one",
            "hellohello  eee  text\n",
        ),
        // orders
        (
            "s < 'help', s < c, c < s, 'ab' < 'abc', 'b' <= 'ab', s >= s, c > 'a'",
            "True False True True False True True\n",
        ),
        // equality
        (
            "s == 'hello', s != 'hello', c == 'e', c == s, n == 'text', none == 'text', none == None, n != None",
            "True False True False True False True True\n",
        ),
        // equality of tuples
        (
            "t == ('hello', 'e', 7), t != ('hello', 'x', 7), t == (s + '', 'e' + '', one + 6)",
            "True True True\n",
        ),
        // identity with None
        (
            "n is None, none is None, s is not None, c is None, t is None",
            "False True True False False\n",
        ),
        // in a string
        (
            "'ell' in s, c in s, 'x' in s, 'x' not in s, '' in s, 'tex' in n, c in c",
            "True True False True True True True\n",
        ),
        // in a tuple
        (
            "7 in (1, 7), s in ('a', 'hello'), c in ('x', 'e'), s not in ('a', c), None in (n, 'a')",
            "True True True True False\n",
        ),
        // truth
        (
            "not s, not '', bool(c), bool(n), bool(none), not none, bool(E)",
            "False True True True False True False\n",
        ),
        // and, or
        (
            "s or 'x', E or 'x', s and c, E and s, 'x' or s",
            "hello x e  x\n",
        ),
        // lengths
        ("len(s), len(E), len(c), len(t), len(n)", "5 0 1 3 4\n"),
        // numbers of characters
        ("ord(c), chr(one + 64), ord('\\xff')", "101 A 255\n"),
        // str
        (
            "str(-120), str(0), str(-9223372036854775807 - 1), str(True), str(one > 5), str(s), str(c)",
            "-120 0 -9223372036854775808 True False hello e\n",
        ),
        // indices
        (
            "s[0], s[-1], s[one + 3], n[2], t[0], t[1], t[2]",
            "h o o x hello e 7\n",
        ),
        // slices
        (
            "s[1:3], s[one:], s[:one], s[:], s[2:100], s[4:2], c[0:1], n[1:2]",
            "el ello h hello llo  e e\n",
        ),
        // all but the last
        ("s[:-1], c[:-1], E[:-1], n[:-1]", "hell   tex\n"),
        // find
        (
            "s.find('l'), s.find('lo'), s.find('x'), s.find(''), n.find('x'), c.find('e')",
            "2 3 -1 0 2 0\n",
        ),
        // startswith, endswith
        (
            "s.startswith('he'), s.startswith('x'), s.startswith(''), s.endswith('lo'), s.endswith('hello!'), n.endswith('t')",
            "True False True True False True\n",
        ),
        // strip
        (
            "w.strip(), s.strip(), '   '.strip(), c.strip(), n.strip()",
            "pad hello  e text\n",
        ),
        // tests of characters
        (
            "c.isdigit(), c.isalpha(), c.isspace(), '7'.isdigit(), ' '.isspace()",
            "False True False True True\n",
        ),
        // os.write
        ("os.write(1, 'out '), os.write(1, c)", "out e4 1\n"),
        // walks
        ("walked(s), walked(E), walked(n)", "olleh  txet\n"),
        // displays and items of tuples
        (
            "(s, 1)[1], (1, (s, c))[1][0], ((c, c) == ('e', 'e'))",
            "1 hello True\n",
        ),
    ] {
        let source = format!(in alloc; "{before}{expression}{behind}")?;
        let (answered, out, err) = run_of(alloc, "run --leaks a.py", "a.py", source.as_str())?;
        assert_eq!(rt;
            err.taken(),
            b"returned 0\nleaks: none\n".as_slice(),
            "{expression}"
        );
        assert_eq!(rt; answered, 0, "{expression}");
        assert_eq!(rt; out.taken(), printed.as_bytes(), "{expression}");
    }
    Ok(())
}
