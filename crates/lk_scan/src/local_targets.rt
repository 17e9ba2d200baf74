//! What the LOCAL symbols of an object mean to its references (gABI "Symbol Table").

ghost use Rattle.std.specs.Prelude.{◌≡◌, not};
ghost use Rattle.lk_model.specs.Elf.{elf_of};
ghost use Rattle.lk_model.specs.ScanFaults.{is_tls_local, is_tls_section, of_local_section};
ghost use Rattle.lk_resolve.specs.Settling.{is_place_kept};
ghost use Rattle.lk_scan.specs.Targets.{local_target};

use crate::targets::{Target, Way};
use lk_elf::numbers::STT_TLS;
use lk_model::summaries::{Home, Local};
use lk_obj_read::Object;
use lk_resolve::Resolution;

/// Whether a LOCAL symbol is defined in a section that is not linked.
fn is_dropped(resolution: &Resolution, input: u32, local: Local) -> bool
    ensures { result ≡ of_local_section local (λ s. not (is_place_kept resolution.now.kept input s)) }
{
    match local.home {
        Home::Section(section) => !resolution.is_kept(input, section),
        Home::Undefined | Home::Absolute | Home::Common | Home::Shared => false,
    }
}

/// Whether a LOCAL symbol is defined in a section that is thread-local.
fn is_in_tls_section(object: &Object, local: Local) -> bool
    ensures { result ≡ of_local_section local (is_tls_section (elf_of object.now)) }
{
    match local.home {
        Home::Section(section) => object.is_tls_section(section),
        Home::Undefined | Home::Absolute | Home::Common | Home::Shared => false,
    }
}

/// Whether a LOCAL symbol is thread-local.
fn is_tls_local(local: Local) -> bool
    ensures { result ≡ is_tls_local local }
{
    local.code == STT_TLS as u32
}

/// What a LOCAL symbol of an input means to its references.
pub fn local_target(resolution: &Resolution, object: &Object, input: u32, symbol: u32) -> Target
    ensures { result ≡ local_target resolution.now (elf_of object.now) input symbol }
{
    let local = object.local(symbol);
    let is_tls = is_tls_local(local);
    Target {
        way: Way::Local(symbol),
        is_undefined: false,
        is_dropped: is_dropped(resolution, input, local),
        is_tls,
        is_no_tls: !(is_tls || is_in_tls_section(object, local)),
        import: None,
    }
}
