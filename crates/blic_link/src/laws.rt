// The laws of pace.
ghost use Rattle.blic_link.specs.PaceLaws.{KeepsPaceReceiving, KeepsPaceSending, KeepsPaceSendingAll};

/// An end of a link keeps pace if it has sent no more than what came asks for, and all of that
/// before it takes more. One that keeps pace still does after it receives a piece, if it had sent
/// all that was wanted, and after it sends what is wanted next, in one piece or in several.
pub fn pace_law()
    ensures receiving { KeepsPaceReceiving }
    ensures sending { KeepsPaceSending }
    ensures sending_all { KeepsPaceSendingAll }
{}
