// The law of acceptance.
ghost use Rattle.blic_verifier.specs.HonestLaws.{HonestConversationAccepts, HonestReplyFits, HonestRepliesPass, HonestRepliesPassWithTruth, TurnsAreOfNodes};

/// Whatever is drawn, the honest replies pass, and about the circuit of a formula their answer is the formula's truth.
/// No reply of an honest conversation is refused on the way.
pub fn acceptance_law()
    ensures value { HonestRepliesPass }
    ensures truth { HonestRepliesPassWithTruth }
    ensures conversation { HonestConversationAccepts }
{}

/// Honest replies fit their turns, and are of elements; turns are those of binary nodes and their free levels.
pub fn honest_reply_law()
    ensures fits { HonestReplyFits }
    ensures turns { TurnsAreOfNodes }
{}
