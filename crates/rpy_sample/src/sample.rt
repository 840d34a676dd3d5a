// The sample program.
ghost use Rattle.std.specs.Prelude.{◌≡◌, ◌++◌, ◌≤◌, IfOk, OnOk, codes};
ghost use Rattle.std.specs.Fmt.{decimal};
ghost use Rattle.rpy_sample.specs.Sample as spec;

use rpy_base::{NoMem, Text, udecimal};
use std::alloc::Global;

// A line of its parts: before a number, the number and after it.
fn push_line(
    alloc: Global,
    before: &[u8],
    i: u32,
    after: &[u8],
    into: &mut Text,
) -> Result<(), NoMem>
    ensures { OnOk result (into.new ≡ into.old ++ before.now ++ decimal i ++ after.now) }
{
    into.append(before)?;
    into.append(udecimal(alloc, i as u64)?.bytes())?;
    into.append(after)
}

fn push_function(alloc: Global, i: u32, into: &mut Text) -> Result<(), NoMem>
    ensures { OnOk result (into.new ≡ into.old ++ spec.function i) }
{
    push_line(alloc, b"def f", i, b"(x):\n", into)?;
    into.append(b"    while x > 1000:\n        x = x // 2\n")?;
    push_line(alloc, b"    return x * 3 + ", i, b"\n", into)
}

fn push_functions(alloc: Global, k: u32, into: &mut Text) -> Result<(), NoMem>
    ensures { OnOk result (into.new ≡ into.old ++ spec.functions k) }
{
    for i in 0..k {
        push_function(alloc, i, into)?;
    }
    Ok(())
}

fn push_calls(alloc: Global, k: u32, into: &mut Text) -> Result<(), NoMem>
    ensures { OnOk result (into.new ≡ into.old ++ spec.calls k) }
{
    for i in 0..k {
        push_line(alloc, b"    x = f", i, b"(x)\n", into)?;
    }
    Ok(())
}

/// The text of the sample program for `k`, which is at most 10000: `k` functions, and an entry point
/// that calls each after the other.
pub fn sample_text(alloc: Global, k: u32) -> Result<Text, NoMem>
    ensures { IfOk result (λ text. text ≡ spec.sample k) }
{
    let mut text = Text::new(alloc);
    push_functions(alloc, k, &mut text)?;
    text.append(b"def entry_point(argv):\n    x = 1\n")?;
    push_calls(alloc, k, &mut text)?;
    text.append(b"    print x\n    return x\n")?;
    Ok(text)
}
