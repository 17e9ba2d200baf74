//! The end of the program: an answer is said, and the exit status returned.

ghost use Rattle.std.specs.Prelude.{◌≡◌};
ghost use Rattle.lk_report.specs.Spoken.{Says};
ghost use Rattle.lk_probe.specs.Answering.{exit_of, text_said};

use lk_report::{Bytes, Sink, Status, say};

/// Says an answer, its text or that of the status in its place, and returns the exit status.
#[tactic(auto, using(crate::proofs::TextSaid::put_says))]
pub fn say_answer<S: Sink>(answer: Result<Bytes, Status>, says: &mut S) -> u8
    ensures said { Says (S.spoken says.old) (S.spoken says.new) (text_said answer) }
    ensures exit { result ≡ exit_of answer }
{
    match answer {
        Ok(text) => {
            let _put = says.put(text.as_slice());
            0
        }
        Err(status) => {
            say(&status, says);
            status.exit_code()
        }
    }
}
