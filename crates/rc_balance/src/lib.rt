//! A law on extractions: each is balanced.
#![tactic(auto)]

ghost use Rattle.rc_balance.specs.BalanceLaw.{ExtractionsAreBalanced};

/// The extraction of every layout by every rule file is balanced: a net's total is the sum of its capacitances, and each
/// coupling leads from its net to another one and stands once in both, with one value.
pub fn extractions_are_balanced()
    ensures { ExtractionsAreBalanced }
{}
