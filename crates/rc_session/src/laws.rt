//! What is proved of sessions, each law on a function that does nothing.

ghost use Rattle.rc_session.specs.Laws.{RepliesFollow, RefusedEditsChangeNothing, LayoutsStayAccepted};

/// The replies to two lists of commands are those to the first, and those to the second in the state that the first leaves.
pub fn replies_follow()
    ensures { RepliesFollow }
{}

/// A refused edit changes nothing: all later replies are those of the session without it.
pub fn refused_edits_change_nothing()
    ensures { RefusedEditsChangeNothing }
{}

/// The layout that the accepted edits of a session leave is one that nothing refuses.
pub fn layouts_stay_accepted()
    ensures { LayoutsStayAccepted }
{}
