//! The refusals of these passes are lk_model's answer of a static link: a law, as the contract of a function that
//! does nothing.

ghost use Rattle.lk_inputs.specs.AnswerLaws.{FaultsAreTheModels, LimitIsTheModels, RefusalsAreTheModels, ResolutionGoesOn};

/// A command's answer is the first of: words that wait, too many inputs, the refusal of its inputs; else that of
/// what they are resolved to, which is the limit on names or the faults of names that the resolver reports, or
/// that of the scan where there is a resolution.
pub fn answers_are_the_models()
    ensures refused { RefusalsAreTheModels }
    ensures faults { FaultsAreTheModels }
    ensures limit { LimitIsTheModels }
    ensures goes_on { ResolutionGoesOn }
{}
