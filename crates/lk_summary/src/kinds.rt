//! What a file is (gABI "ELF Header", "ELF Identification"): an archive and a text are reported by their
//! first bytes, then class, byte order, version, machine and type are looked at in this order.

ghost use Rattle.std.specs.Prelude.{◌≡◌, nat_eq, take, ◌==◌, ◌||◌, not};
ghost use Rattle.std.specs.List.{list_all, starts_with};
ghost use Rattle.lk_elf.specs.Numbers.{elfmag};
ghost use Rattle.lk_model.specs.Checks.{first_fault};
ghost use Rattle.lk_model.specs.Kinds.{kind_of, header_checks, is_archive, has_magic, is_text, is_text_byte, is_known_class};
ghost use Rattle.lk_summary.specs.FrontChecks.{header_of, kind_under};

use lk_elf::Ehdr;
use lk_elf::numbers::{
    EHDR_SIZE, EI_CLASS, EI_DATA, EI_VERSION, ELFCLASS64, ELFDATA2LSB, ELFMAG, EM_X86_64, ET_DYN,
    ET_REL, EV_CURRENT,
};
use lk_model::summaries::Kind;
use lk_report::InputFault;

fn is_archive(bytes: &[u8]) -> bool
    ensures { result ≡ is_archive bytes.now }
{
    bytes.starts_with(b"!<arch>") || bytes.starts_with(b"!<thin>")
}

/// Whether the magic bytes are in front.
fn has_magic(bytes: &[u8]) -> bool
    ensures { result ≡ has_magic bytes.now }
{
    bytes.starts_with(&ELFMAG)
}

fn is_text_byte(b: u8) -> bool
    ensures { result ≡ is_text_byte b }
{
    b == 9 || b == 10 || b == 13 || (32 <= b && b <= 126)
}

fn are_text_bytes(bytes: &[u8]) -> bool
    ensures { result ≡ list_all is_text_byte bytes.now }
{
    bytes.iter().all(|b| is_text_byte(*b))
}

fn is_text(bytes: &[u8]) -> bool
    ensures { result ≡ is_text bytes.now }
{
    let front = if bytes.len() < 4 { bytes } else { &bytes[..4] };
    !bytes.is_empty() && are_text_bytes(front)
}

/// The header of a file, or the fault of its first bytes.
fn header_of(bytes: &[u8]) -> Result<Ehdr, InputFault>
    ensures { result ≡ header_of bytes.now }
{
    if is_archive(bytes) {
        return Err(InputFault::Archive);
    }
    if has_magic(bytes) {
        let Ok(header) = Ehdr::read_at(bytes, 0) else {
            return Err(InputFault::NotElf);
        };
        return Ok(header);
    }
    if is_text(bytes) {
        return Err(InputFault::Script);
    }
    Err(InputFault::NotElf)
}

fn is_known_class(header: &Ehdr) -> bool
    ensures { result ≡ is_known_class header.now }
{
    header.e_ident[EI_CLASS] == ELFCLASS64
        && header.e_ident[EI_DATA] == ELFDATA2LSB
        && header.e_ident[EI_VERSION] == EV_CURRENT
}

/// The fault of a file's header.
#[tactic(auto, unfolding(lk_model::specs::Kinds::header_checks))]
fn header_fault(header: &Ehdr) -> Option<InputFault>
    ensures { result ≡ first_fault (header_checks header.now) }
{
    if !is_known_class(header) {
        return Some(InputFault::WrongClass);
    }
    if header.e_machine != EM_X86_64 {
        return Some(InputFault::WrongMachine);
    }
    if header.e_type != ET_REL && header.e_type != ET_DYN {
        return Some(InputFault::WrongType);
    }
    None
}

/// A relocatable or a shared object by its header, or the header's fault.
fn kind_under(header: &Ehdr) -> Result<Kind, InputFault>
    ensures { result ≡ kind_under header.now }
{
    if let Some(fault) = header_fault(header) {
        return Err(fault);
    }
    if header.e_type == ET_REL {
        Ok(Kind::Object)
    } else {
        Ok(Kind::Shared)
    }
}

/// What a file is, by its first bytes.
///
/// # Errors
/// The first fault that holds: an archive, a script, no ELF file (also where the file is shorter than its
/// header), another class, byte order or version, another machine, a type that is neither relocatable
/// nor shared.
#[tactic(auto, using(crate::proofs::FaultsFirst::header_reported))]
pub fn kind_of(bytes: &[u8]) -> Result<Kind, InputFault>
    ensures { result ≡ kind_of bytes.now }
{
    match header_of(bytes) {
        Ok(header) => kind_under(&header),
        Err(fault) => Err(fault),
    }
}
