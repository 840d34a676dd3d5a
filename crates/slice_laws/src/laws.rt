// Laws of slices.
ghost use Rattle.slice_laws.specs.Slices.{SlicesAreDone};

/// A slice of a string, or of a byte, of which a string is made first, by bounds that may be absent; `None` fails. Nothing
/// catches its failures.
pub fn slices_are_done()
    ensures { SlicesAreDone }
{}
