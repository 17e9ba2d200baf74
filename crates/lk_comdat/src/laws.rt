//! What the claims have to do with lk_model's groups, as the contract of a function that does nothing.

ghost use Rattle.lk_comdat.specs.ClaimLaws.{ClaimsGoOn, ClaimedHaveHolders, HoldersAreFirst, DropsTheSame, DropsOneByOne};

/// A claim that is answered adds what is not yet claimed; a signature is one of the claimed exactly where
/// it has a holder; after any claims its holder is the first that claimed it; and lk_model drops by the
/// signatures in the table what it drops by all that were claimed, group by group those that have a
/// holder.
pub fn claims_are_the_models()
    ensures goes_on { ClaimsGoOn }
    ensures claimed { ClaimedHaveHolders }
    ensures first { HoldersAreFirst }
    ensures dropped { DropsTheSame }
    ensures one_by_one { DropsOneByOne }
{}
