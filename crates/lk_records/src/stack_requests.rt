//! Whether the program of a link gets an executable stack (GNU's `.note.GNU-stack`).

ghost use Rattle.std.specs.Prelude.{◌≡◌, List, map};
ghost use Rattle.std.specs.List.{list_any};
ghost use Rattle.lk_model.specs.FileHeader.{exec_stack_of};
ghost use Rattle.lk_model.specs.Resolving.{resolve};
ghost use Rattle.lk_model.specs.Views.{Input};
ghost use Rattle.lk_model.specs.InputNames.{input_summary};
ghost use Rattle.lk_resolve.specs.Given.{found_in};
ghost use Rattle.lk_records.specs.StackRequests.{asks};
ghost use Rattle.lk_report.specs.declared.causes.OptionRecord.{OptionRecord};
ghost use Rattle.lk_resolve.specs.Settling.{IsFound};

use lk_model::summaries::InputSummary;
use lk_resolve::Resolution;

/// Whether the input with a number asks for an executable stack.
fn asks(summaries: &[InputSummary], input: u32) -> bool
    ensures { result ≡ asks summaries.now input }
{
    match summaries.get(input as usize) {
        Some(summary) => summary.exec_stack,
        None => false,
    }
}

/// Whether one of these inputs asks for an executable stack.
fn any_asks(summaries: &[InputSummary], inputs: &[u32]) -> bool
    ensures { result ≡ list_any (asks summaries.now) inputs.now }
{
    inputs.iter().any(|input| asks(summaries, *input))
}

/// Whether an added object asks for an executable stack, by the summaries of all inputs.
#[tactic(auto, using(crate::proofs::StacksAsked::stack_asked))]
pub fn exec_stack(summaries: &[InputSummary], resolution: &Resolution) -> bool
    ensures { (options : OptionRecord) (xs : List Input) → summaries.now ≡ map input_summary xs → IsFound resolution.now (found_in options.entry xs) → result ≡ exec_stack_of (resolve options xs) }
{
    any_asks(summaries, resolution.added().as_slice())
}
