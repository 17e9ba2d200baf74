//! The header of an executable (gABI "ELF Header", "ELF Identification").

ghost use Rattle.std.specs.Prelude.{◌≡◌, not};
ghost use Rattle.std.specs.Bool.{then_some};
ghost use Rattle.lk_elf.specs.Records.{ehdr_at};
ghost use Rattle.lk_model.specs.Kinds.{has_magic, is_known_class};
ghost use Rattle.lk_model.specs.Loads.{LoadRefusal, is_executable_file};
ghost use Rattle.lk_loader.specs.LoadFaults.{Gives};

use crate::loads::LoadFault;
use lk_elf::Ehdr;
use lk_elf::numbers::{
    EI_CLASS, EI_DATA, EI_VERSION, ELFCLASS64, ELFDATA2LSB, ELFMAG, ET_EXEC, EV_CURRENT,
};

/// Whether the magic bytes are in front.
fn has_magic(image: &[u8]) -> bool
    ensures { result ≡ has_magic image.now }
{
    image.starts_with(&ELFMAG)
}

/// Whether class, byte order and version are those that are read here.
fn is_known_class(header: &Ehdr) -> bool
    ensures { result ≡ is_known_class header.now }
{
    header.e_ident[EI_CLASS] == ELFCLASS64
        && header.e_ident[EI_DATA] == ELFDATA2LSB
        && header.e_ident[EI_VERSION] == EV_CURRENT
}

/// The header of a file that is an executable.
///
/// # Errors
/// NotElf for any other file.
pub(crate) fn executable_header(image: &[u8]) -> Result<Ehdr, LoadFault>
    ensures { Gives (then_some (not (is_executable_file image.now)) LoadRefusal.NotElf) (ehdr_at image.now 0) result }
{
    let Ok(header) = Ehdr::read_at(image, 0) else {
        return Err(LoadFault::NotElf);
    };
    if has_magic(image) && is_known_class(&header) && header.e_type == ET_EXEC {
        return Ok(header);
    }
    Err(LoadFault::NotElf)
}
