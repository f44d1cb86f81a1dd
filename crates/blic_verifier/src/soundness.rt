// What an accepted conversation with a wrong answer shows.
ghost use Rattle.blic_verifier.specs.SoundnessLaws.{BadIsFixedBefore, FewBadAtADraw, FewBadInAll, WrongTruthHasBadDraw, WrongValueHasBadDraw};

/// An accepted conversation with a wrong answer has a bad draw (challenge), whoever sent the replies; which elements are bad is
/// fixed before the draw.
pub fn soundness_law()
    ensures value { WrongValueHasBadDraw }
    ensures truth { WrongTruthHasBadDraw }
    ensures fixed { BadIsFixedBefore }
{}

/// Given that the modulus is prime, at most two elements for each claim are bad at a draw, and over all draws at most
/// two for each point of the circuit.
pub fn bad_count_law()
    ensures draw { FewBadAtADraw }
    ensures all { FewBadInAll }
{}
