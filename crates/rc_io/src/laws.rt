//! What is proved of the definitions.

ghost use Rattle.rc_io.specs.Bytes.{GrowsByNothing, GrowsByBoth};

/// Appending nothing to a sink's bytes changes nothing, and appending twice is appending both at once.
///
/// The call does nothing. Its contract is the law, for whoever speaks of a sink over several writes.
pub fn growth_adds_up()
    ensures nothing { GrowsByNothing }
    ensures both { GrowsByBoth }
{}
