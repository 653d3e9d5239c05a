//! Laws of accepted proofs, as contracts of calls that do nothing.

ghost use Rattle.proof_check.specs.BinaryProof.{BinarySoundness};

/// No assignment satisfies a formula that has an accepted proof in binary form.
pub fn accepted_binary_proofs_are_sound()
    ensures { BinarySoundness }
{}
