//! Laws of lifting, as contracts of calls that do nothing.

ghost use Rattle.proof_lift.specs.Leaves.{LiftedTextsClose, RefutationsAreLifted};

/// If a text is lifted, the result closes the cube over the formula.
pub fn lifted_texts_close()
    ensures { LiftedTextsClose }
{}

/// Each refutation of a leaf's formula by reverse unit propagation alone is lifted.
pub fn refutations_are_lifted()
    ensures { RefutationsAreLifted }
{}
