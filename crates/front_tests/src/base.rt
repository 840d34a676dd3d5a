// Values from outside: worked sums, texts of numbers, and files, sinks and watchers in memory.
use rpy_base::word::*;
use rpy_base::*;
use std::test::Fail;

#[test]
fn words_wrap_and_divide(rt: HostRuntime) {
    for (a, b, sum, quotient, rest) in [
        (i64::MAX, 1, i64::MIN, i64::MAX, 0),
        (-7, 2, -5, -4, 1),
        (7, -2, 5, -4, -1),
        (-8, -2, -10, 4, 0),
        (i64::MIN, -1, i64::MAX, i64::MIN, 0),
        (0, -5, -5, 0, 0),
    ] {
        assert_eq!(rt; wrap_add(a, b), sum, "{a} + {b}");
        if b != 0 {
            assert_eq!(rt; floor_div(a, b), quotient, "{a} / {b}");
            assert_eq!(rt; floor_mod(a, b), rest, "{a} % {b}");
        }
    }
}

#[test]
fn numbers_have_texts(rt: HostRuntime) -> Result<(), Fail> {
    for n in [0, -1, 42, i64::MIN, i64::MAX] {
        let text = decimal(rt.alloc(), n)?;
        assert_eq!(rt; parse_word(text.bytes()), Some(n), "{n}");
    }
    assert_eq!(rt;
        udecimal(rt.alloc(), u64::MAX)?.bytes(),
        b"18446744073709551615".as_slice()
    );
    assert_eq!(rt; parse_word(b" \x0b+0012\n"), Some(12));
    for no_number in ["- 1", "9223372036854775808", "", " ", "0x1", "1L"] {
        assert_eq!(rt; parse_word(no_number.as_bytes()), None, "{no_number:?}");
    }
    Ok(())
}

#[test]
fn memory_keeps_what_it_is_given(rt: HostRuntime) -> Result<(), Fail> {
    let alloc = rt.alloc();
    let mut files = MemFiles::new(alloc);
    files.add(
        Text::from_bytes(alloc, b"a")?,
        Text::from_bytes(alloc, b"first")?,
    )?;
    files.add(
        Text::from_bytes(alloc, b"a")?,
        Text::from_bytes(alloc, b"second")?,
    )?;
    files.fail_at(1)?;
    let name = Text::from_bytes(alloc, b"a")?;
    for (limit, got, bytes) in [
        (5, Ok(Got::Whole), "first"),
        (5, Err(ReadError::Failed), ""),
        (4, Ok(Got::TooLong), ""),
    ] {
        let mut into = Vec::new(alloc);
        assert_eq!(rt;
            files.read(alloc, &name, &mut into, limit),
            got,
            "limit {limit}"
        );
        assert_eq!(rt; into.as_slice(), bytes.as_bytes(), "limit {limit}");
    }
    let mut sink = MemSink::new(alloc);
    sink.fail_at(1, 2);
    assert_eq!(rt; sink.put(b"ab"), Ok(()));
    assert_eq!(rt; sink.put(b"cde"), Err(PutError::Failed));
    assert_eq!(rt; sink.taken(), b"abcd".as_slice());
    assert_eq!(rt; sink.faults(), 1);
    Ok(())
}

#[test]
fn watchers_report(rt: HostRuntime) -> Result<(), Fail> {
    let alloc = rt.alloc();
    let tally = Box::new(alloc, Tally::new())?;
    let leaks = Box::new(alloc, Leaks::new(alloc))?;
    let mut watch = pair_of(alloc, tally, leaks)?;
    let mut texts = Text::new(alloc);
    for watcher in &watch {
        texts.append(watcher.report(alloc)?.bytes())?;
    }
    watch.clear();
    assert_eq!(rt;
        texts.bytes(),
        b"tally: made 0, gone 0, left 0\nleaks: none\n".as_slice()
    );
    let mut leaks = Leaks::new(alloc);
    leaks.made(alloc, 7, 3, 2)?;
    leaks.made(alloc, 8, 0, 5)?;
    leaks.made(alloc, 9, 1, 1)?;
    leaks.gone(8);
    assert_eq!(rt;
        leaks.report(alloc)?.bytes(),
        b"leak 7 s3 2\nleak 9 s1 1\n".as_slice()
    );
    leaks.made(alloc, 4, 0, 0)?;
    leaks.gone(7);
    leaks.gone(4);
    assert_eq!(rt; leaks.report(alloc)?.bytes(), b"leak 9 s1 1\n".as_slice());
    leaks.gone(9);
    assert_eq!(rt; leaks.report(alloc)?.bytes(), b"leaks: none\n".as_slice());
    Ok(())
}
