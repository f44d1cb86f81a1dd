// The laws of frames.
ghost use Rattle.std.specs.Prelude.{◌≡◌, ℕ, List, Option};
ghost use Rattle.blic_messages.specs.Replies.{Said};
ghost use Rattle.blic_messages.specs.declared.ask.Ask.{Ask};
ghost use Rattle.blic_messages.specs.Frames.{ask_spelling, reply_spelling};
ghost use Rattle.blic_messages.specs.Reading.{IsAsk, IsReply, Reads};
ghost use Rattle.blic_messages.specs.Fronts.{ask_grammar, reply_grammar};
ghost use Rattle.blic_messages.specs.FrontLaws.{SpellingsAreWhole, WholeIsSpelled, FrontStays, BrokenIsNoFrame, OneSpellingBegins, PartialBegins};

/// A frame says one thing: it is that of one reply, or of none.
pub fn frames_law()
    ensures { (frame : List ℕ) (r q : Option Said) → Reads frame r → Reads frame q → r ≡ q }
{}

/// What the bytes of a stream of asks begin with: the spelling of one ask, that of none whatever
/// follows, or neither yet. What is decided once stays so.
pub fn ask_front_law()
    ensures whole { SpellingsAreWhole ask_grammar IsAsk ask_spelling }
    ensures read { WholeIsSpelled ask_grammar IsAsk ask_spelling }
    ensures stay { FrontStays ask_grammar }
    ensures broken { BrokenIsNoFrame ask_grammar IsAsk ask_spelling }
    ensures prefix { OneSpellingBegins IsAsk ask_spelling }
    ensures partial { PartialBegins ask_grammar }
{}

/// What the bytes of a stream of replies begin with: the spelling of one reply, that of none whatever
/// follows, or neither yet. What is decided once stays so.
pub fn reply_front_law()
    ensures whole { SpellingsAreWhole reply_grammar IsReply reply_spelling }
    ensures read { WholeIsSpelled reply_grammar IsReply reply_spelling }
    ensures stay { FrontStays reply_grammar }
    ensures broken { BrokenIsNoFrame reply_grammar IsReply reply_spelling }
    ensures prefix { OneSpellingBegins IsReply reply_spelling }
    ensures partial { PartialBegins reply_grammar }
{}
