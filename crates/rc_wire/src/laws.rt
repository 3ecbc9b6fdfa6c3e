//! What holds of paths. Nothing is computed here.

ghost use Rattle.rc_wire.specs.Reading.{PathsAreItems};

/// Tokens are taken as paths exactly where they are items of paths, one after the other, and give what those say.
pub fn paths_are_items()
    ensures { PathsAreItems }
{}
