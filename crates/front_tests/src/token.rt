// Sources, with their tokens and faults worked out by hand.
use rpy_base::Text;
use rpy_token::{LimitKind, TokenFault, TokenKind, Tokens, line_of, tokens};
use std::alloc::{AllocError, Global};
use std::fmt::Write;
use std::test::Fail;

fn read(alloc: Global, source: &[u8]) -> Result<Tokens, TokenFault> {
    let text = Text::from_bytes(alloc, source)?;
    if text.bytes().len() > 1048576 {
        return Err(TokenFault::NoMem);
    }
    tokens(alloc, &text)
}

fn push_bytes(out: &mut String, bytes: &[u8]) -> Result<(), AllocError> {
    for b in bytes {
        out.push(char::from(*b))?;
    }
    Ok(())
}

fn push_kind(out: &mut String, kind: &TokenKind) -> Result<(), AllocError> {
    match kind {
        TokenKind::Name(text) => push_bytes(out, text.bytes()),
        TokenKind::Int(n) => write!(out, "{n}"),
        TokenKind::Str(text) => {
            out.push('<')?;
            push_bytes(out, text.bytes())?;
            out.push('>')
        }
        TokenKind::Word(word) => write!(out, "{word:?}"),
        TokenKind::Sign(sign) => write!(out, "{sign:?}"),
        TokenKind::Newline => out.push_str("NL"),
        TokenKind::Indent => out.push_str("IN"),
        TokenKind::Dedent => out.push_str("DE"),
        TokenKind::End => out.push_str("END"),
    }
}

/// The kinds of the tokens, with the places and the line of each if they are asked for.
fn shown(alloc: Global, list: &Tokens, places: bool) -> Result<String, AllocError> {
    let mut out = String::new(alloc);
    for token in list.as_slice() {
        push_kind(&mut out, &token.kind)?;
        if places {
            write!(out, ":{}:{}:{}", token.start, token.end, token.line)?;
        }
        out.push(' ')?;
    }
    Ok(out)
}

#[test]
fn sources_have_kinds(rt: HostRuntime) -> Result<(), Fail> {
    for (source, want) in [
        ("", "END "),
        ("  # only a comment\n\t\n", "END "),
        ("x = 017 + 0xfF", "x Equal 15 Plus 255 NL END "),
        (
            "a//=b<<c<=d",
            "a FloorDivAssign b ShiftLeft c LessEqual d NL END ",
        ),
        (
            "x = (1,\n  2)\n",
            "x Equal OpenParen 1 Comma 2 CloseParen NL END ",
        ),
        ("r'\\n\\'' B\"\"\"a\nb\"\"\"", "<\\n\\'> <a\nb> NL END "),
        ("'\\x41\\1012\\q\\\n.'", "<AA2\\q.> NL END "),
        (
            "if a:\n  b\n    # c\n  d\ne",
            "If a Colon NL IN b NL d NL DE e NL END ",
        ),
        (
            "if a:\n  if b:\n   c",
            "If a Colon NL IN If b Colon NL IN c NL DE DE END ",
        ),
        ("x = 1 \\\r\n + 2\r\n", "x Equal 1 Plus 2 NL END "),
        ("rb'c' not_x in is", "rb <c> not_x In Is NL END "),
        (
            ")]} @ ~",
            "CloseParen CloseBracket CloseBrace At Tilde NL END ",
        ),
        ("9223372036854775807 0", "9223372036854775807 0 NL END "),
    ] {
        let list = read(rt.alloc(), source.as_bytes())?;
        let text = shown(rt.alloc(), &list, false)?;
        assert_eq!(rt; text.as_str(), want, "{source:?}");
    }
    Ok(())
}

#[test]
fn tokens_have_places_and_lines(rt: HostRuntime) -> Result<(), Fail> {
    for (source, want) in [
        (
            "if a:\n b",
            "If:0:2:1 a:3:4:1 Colon:4:5:1 NL:5:6:1 IN:7:7:2 b:7:8:2 NL:8:8:2 DE:8:8:2 END:8:8:2 ",
        ),
        (
            "'''\n'''\r\nx\n",
            "<\n>:0:7:1 NL:7:9:2 x:9:10:3 NL:10:11:3 END:11:11:4 ",
        ),
    ] {
        let list = read(rt.alloc(), source.as_bytes())?;
        let text = shown(rt.alloc(), &list, true)?;
        assert_eq!(rt; text.as_str(), want, "{source:?}");
    }
    Ok(())
}

#[test]
fn sources_have_faults(rt: HostRuntime) {
    for (source, want) in [
        ("def f(x):\n\treturn x\n", TokenFault::BadIndent(10)),
        ("if a:\n    b\n  x = 1\n", TokenFault::BadIndent(12)),
        ("\0", TokenFault::BadByte(0)),
        ("x = 1 $\n", TokenFault::BadByte(6)),
        ("x ! y", TokenFault::BadByte(2)),
        ("x \\ \n", TokenFault::BadByte(2)),
        ("x\ry", TokenFault::BadByte(1)),
        ("# \u{b}", TokenFault::BadByte(2)),
        ("'a\u{7f}", TokenFault::BadByte(2)),
        ("x = 09\n", TokenFault::BadNumber(4)),
        ("x = 9223372036854775808\n", TokenFault::BadNumber(4)),
        ("0x", TokenFault::BadNumber(0)),
        ("1.5", TokenFault::BadNumber(0)),
        ("'a\\400'", TokenFault::BadNumber(2)),
        ("'\\x4g'", TokenFault::BadNumber(1)),
        ("x = r'a\n'", TokenFault::OpenString(4)),
        ("x = '''a\n", TokenFault::OpenString(4)),
        ("'\\", TokenFault::OpenString(0)),
        ("r'\\'", TokenFault::OpenString(0)),
    ] {
        let got = read(rt.alloc(), source.as_bytes()).err();
        assert_eq!(rt; got, Some(want), "{source:?}");
    }
}

/// A first text, a second one so many times, and a last.
fn repeated(
    alloc: Global,
    first: &str,
    again: &str,
    n: usize,
    last: &str,
) -> Result<String, AllocError> {
    let mut out = String::new(alloc);
    out.push_str(first)?;
    for _turn in 0..n {
        out.push_str(again)?;
    }
    out.push_str(last)?;
    Ok(out)
}

/// Lines of 0, 1, 2 and more spaces, each a block in the one before.
fn nested(alloc: Global, blocks: usize) -> Result<String, AllocError> {
    let mut out = String::new(alloc);
    for depth in 0..blocks {
        for _turn in 0..depth {
            out.push(' ')?;
        }
        out.push_str("if 1:\n")?;
    }
    Ok(out)
}

#[test]
fn limits_stand_at_the_token_that_passes_them(rt: HostRuntime) -> Result<(), Fail> {
    let alloc = rt.alloc();
    let brackets = TokenFault::Limit(LimitKind::Brackets, 20);
    let operators = TokenFault::Limit(LimitKind::Operators, 262);
    let words = TokenFault::Limit(LimitKind::Operators, 319);
    for (first, again, n, last, fault) in [
        ("x = ", "(", 16, "", None),
        ("x = ", "(", 17, "", Some(brackets)),
        ("x = 1", " + 1", 64, "\n", None),
        ("x = 1", " + 1", 65, "\n", Some(operators)),
        ("x = 1", " + 1", 64, ", 1 + 1", None),
        ("(1", " + 1", 64, ") + 1", None),
        ("(1)", " is 1", 63, "", None),
        ("(1)", " is 1", 64, "", Some(words)),
        (")", "[]", 64, "", None),
    ] {
        let source = repeated(alloc, first, again, n, last)?;
        let got = read(alloc, source.as_bytes()).err();
        assert_eq!(rt; got, fault, "{first} {again} {n} {last}");
    }
    assert_eq!(rt; read(alloc, nested(alloc, 33)?.as_bytes()).err(), None);
    let deeper = read(alloc, nested(alloc, 34)?.as_bytes()).err();
    assert_eq!(rt; deeper, Some(TokenFault::Limit(LimitKind::Blocks, 759)));
    Ok(())
}

#[test]
fn lines_are_counted_from_one(rt: HostRuntime) -> Result<(), Fail> {
    let text = Text::from_bytes(rt.alloc(), b"a\r\nb\n")?;
    assert!(rt; text.bytes().len() < 10);
    for (at, line) in [(0, 1), (2, 1), (3, 2), (5, 3), (99, 3)] {
        assert_eq!(rt; line_of(&text, at), line, "{at}");
    }
    Ok(())
}

#[test]
fn tokens_are_found_by_their_number(rt: HostRuntime) -> Result<(), Fail> {
    let list = read(rt.alloc(), b"a\nbc")?;
    assert_eq!(rt; list.len(), 5);
    let token = list.get(2);
    assert_eq!(rt; (token.start, token.end, token.line), (2, 4, 2));
    Ok(())
}
