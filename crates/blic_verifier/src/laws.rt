// The laws of verdicts and of conversations, over the definitions that other contracts cite.
ghost use Rattle.blic_verifier.specs.VerdictLaws.{DoneIsAcceptance, FaultIsFixed, ShownFaultIsFirst};
ghost use Rattle.blic_verifier.specs.Certified.{CertifiedIsWorth};
ghost use Rattle.blic_verifier.specs.HearingLaws.{AreReplies, AsksGrow, HonestBytesEnd, SpelledIsRead};

/// What is said of each reply is acceptance, and the first fault, of the whole conversation.
pub fn verdict_law()
    ensures done { DoneIsAcceptance }
    ensures first { ShownFaultIsFirst }
    ensures fixed { FaultIsFixed }
{}

/// A conversation that ended with an accepted answer, whoever sent the replies: its transcript (talk) is accepted, and if the
/// answer is wrong it shows a bad draw (challenge).
pub fn certified_law()
    ensures { CertifiedIsWorth }
{}

/// A conversation over the bytes of a link: what was asked stays asked, replies are read as they were spelled, and once all honest
/// ones have come the answer is accepted.
pub fn hearing_law()
    ensures grow { AsksGrow }
    ensures spelled { SpelledIsRead }
    ensures replies { AreReplies }
    ensures honest { HonestBytesEnd }
{}
