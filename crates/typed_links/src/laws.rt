// Laws of links and exits.
ghost use Rattle.typed_links.specs.Exits.{ExitsAreDoneInTyped};
ghost use Rattle.typed_links.specs.Links.{LinksAreConverted};

/// What a link passes on is converted to what is known of the variables that take it, where it is below that, and conversions that are asked for stand.
pub fn links_are_converted()
    ensures { LinksAreConverted }
{}

/// Of each block of a program that passed its checks, one operation never gives a value, or what the exit passes on, gives back, asks and raises is done.
pub fn exits_are_done()
    ensures { ExitsAreDoneInTyped }
{}
