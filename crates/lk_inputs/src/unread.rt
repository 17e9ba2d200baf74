//! Why a look-up or a read has no answer.

ghost use Rattle.std.specs.Prelude.{◌≡◌};
ghost use Rattle.lk_inputs.specs.Unread.{unread_status};
ghost use Rattle.lk_inputs.specs.declared.unread.Unread.TheVariants as unread;

use lk_report::{Name, NoMemory, Status};

/// Why a look-up or a read has no answer.
#[derive(Drop)]
pub enum Unread {
    /// The call of this path failed, and the files counted a fault.
    Failed(Name),
    /// There was no memory for an answer.
    NoMemory,
}

impl From<NoMemory> for Unread {
    ghost from_gives = { λ _ e. e ≡ unread.NoMemory };

    fn from(_want: NoMemory) -> Unread {
        Unread::NoMemory
    }
}

/// The status of a look-up or a read without an answer.
pub fn status_of(unread: Unread) -> Status
    ensures { result ≡ unread_status unread }
{
    match unread {
        Unread::Failed(path) => Status::ReadFault(path),
        Unread::NoMemory => Status::NoMemory,
    }
}
