// Places in a source.
ghost use Rattle.std.specs.Prelude.{◌≡◌};
ghost use Rattle.rpy_token.specs.Fault as spec;

/// The place at which the rest of a source of this size begins.
pub fn place(size: u32, rest: &[u8]) -> u32
    ensures { result ≡ spec.place size rest.now }
{
    match u32::try_from(rest.len()) {
        Ok(left) => size.saturating_sub(left),
        Err(_) => 0,
    }
}
