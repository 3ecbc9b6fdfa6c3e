//! What is proved of outcomes, each law on a function that does nothing.

ghost use Rattle.rc_cli.specs.Laws.{TextsAreFresh, WorkersChangeNothing};

/// Two listed command lines that differ in the number of workers alone come to the same, over any files: the same text and
/// status, the same refusal, or the same file that isn't there.
pub fn workers_change_nothing()
    ensures { WorkersChangeNothing }
{}

/// The SPEF text that a session gives behind any of its commands is the text of a fresh run with one worker, over files that link to the
/// layout which the accepted edits have left, with the same rules.
pub fn texts_are_fresh()
    ensures { TextsAreFresh }
{}
