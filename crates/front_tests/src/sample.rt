// The sizes of two samples, and one sample whole.
use rpy_sample::sample_text;
use std::test::Fail;

#[test]
fn samples_have_their_sizes(rt: HostRuntime) -> Result<(), Fail> {
    for (k, size) in [(0, 58), (1, 143), (10, 908)] {
        let text = sample_text(rt.alloc(), k)?;
        assert_eq!(rt; text.bytes().len(), size);
    }
    Ok(())
}

#[test]
fn a_sample_of_one_function(rt: HostRuntime) -> Result<(), Fail> {
    let text = sample_text(rt.alloc(), 1)?;
    let lines =
        "def f0(x):\n    while x > 1000:\n        x = x // 2\n    return x * 3 + 0\ndef entry_point(argv):\n    x = 1\n    x = f0(x)\n    print x\n    return x\n";
    assert_eq!(rt; text.bytes(), lines.as_bytes());
    Ok(())
}
