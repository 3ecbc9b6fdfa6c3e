//! What is proved of the definitions. Nothing is computed here.

ghost use Rattle.rc_layout.specs.FactLaws.{EditsAreCandidates, LinkedAreLayouts, PutsKeepFacts};
ghost use Rattle.rc_layout.specs.Values.{EachHasValue, EachIsRefused};

/// What a technology and a design link to has all facts of a layout.
pub fn linked_are_layouts()
    ensures { LinkedAreLayouts }
{}

/// A net with other paths may take the place of the old one.
pub fn edits_are_candidates()
    ensures { EditsAreCandidates }
{}

/// A layout with such a net in the old one's place keeps all facts.
pub fn puts_keep_facts()
    ensures { PutsKeepFacts }
{}

/// The entries of a list have values exactly where each of them has one, and these in their order.
pub fn lists_have_values<A, B>()
    ensures { EachHasValue A B }
{}

/// The entries of a list are refused exactly as the first of them that is.
pub fn first_refusals_stand<A, B>()
    ensures { EachIsRefused A B }
{}
