// Laws of what is asked for.
ghost use Rattle.rtyped_texts.specs.Having.{EmptyStringsStand, JoinsHaveTheirs, SplitsHaveTheirs};

/// What `split` and `join` ask for stands at its numbers, with what that asks for itself, where strings of bytes and the empty
/// string do; and the empty string stands so in the statics of every such program.
pub fn texts_have_theirs()
    ensures splits { SplitsHaveTheirs }
    ensures joins { JoinsHaveTheirs }
    ensures empty { EmptyStringsStand }
{}
