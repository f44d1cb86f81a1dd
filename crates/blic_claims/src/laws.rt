// The laws of claims, over the definitions that other contracts cite.
ghost use Rattle.blic_claims.specs.ClaimLaws.{ClaimCountLaw, FewTurnsLaw, PlaceLaw, SomeClaimLaw};

/// The claims of a conversation are as many as its circuit says, each node has at least one, and each claim has a place
/// that is fixed by the circuit. Its turns are fewer than 2^60.
pub fn claims_law()
    ensures count { ClaimCountLaw }
    ensures some { SomeClaimLaw }
    ensures place { PlaceLaw }
    ensures few { FewTurnsLaw }
{}
