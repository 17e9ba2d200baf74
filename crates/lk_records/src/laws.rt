//! What this crate asks of inputs, and that the inputs of a command have it, as the contract of a function that
//! does nothing.

ghost use Rattle.lk_records.specs.Occurrences.{CommandsAreCounted};

/// The occurrence of each input of a command is the number of inputs before it that have its path.
pub fn inputs_of_commands_are_counted()
    ensures { CommandsAreCounted }
{}
