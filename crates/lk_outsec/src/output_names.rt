//! The names of output sections (this project's own rule; the names are those of gABI "Special Sections").

ghost use Rattle.std.specs.Prelude.{◌≡◌, find, unwrap_or};
ghost use Rattle.std.specs.Option.{option_copied};
ghost use Rattle.lk_model.specs.Pieces.{common_name, goes_under, output_name};
ghost use Rattle.lk_outsec.specs.CommonNames.{array_names, first_names, older_names};

use lk_model::layouts::Class;

/// Whether a name is this one, or goes on from it after a dot with at least one byte more.
#[tactic(auto, using(crate::proofs::NamesUnder::dotted, crate::proofs::NamesUnder::short))]
fn goes_under(name: &[u8], base: &[u8]) -> bool
    ensures { result ≡ goes_under name.now base.now }
{
    name == base
        || (name.starts_with(base)
            && base.len() + 1 < name.len()
            && name[base.len()..].starts_with(b"."))
}

/// `.text`, `.rodata` or `.data`, where a name goes under it.
#[tactic(auto, unfolding(crate::specs::CommonNames::first_names))]
fn first_name(name: &[u8]) -> Option<&'static [u8]>
    ensures { option_copied result ≡ find (goes_under name.now) first_names }
{
    if goes_under(name, b".text") {
        return Some(b".text");
    }
    if goes_under(name, b".rodata") {
        return Some(b".rodata");
    }
    if goes_under(name, b".data") {
        return Some(b".data");
    }
    None
}

/// `.bss`, `.init_array` or `.fini_array`, where a name goes under it.
#[tactic(auto, unfolding(crate::specs::CommonNames::array_names))]
fn array_name(name: &[u8]) -> Option<&'static [u8]>
    ensures { option_copied result ≡ find (goes_under name.now) array_names }
{
    if goes_under(name, b".bss") {
        return Some(b".bss");
    }
    if goes_under(name, b".init_array") {
        return Some(b".init_array");
    }
    if goes_under(name, b".fini_array") {
        return Some(b".fini_array");
    }
    None
}

/// `.ctors`, `.dtors` or `.gcc_except_table`, where a name goes under it.
#[tactic(auto, unfolding(crate::specs::CommonNames::older_names))]
fn older_name(name: &[u8]) -> Option<&'static [u8]>
    ensures { option_copied result ≡ find (goes_under name.now) older_names }
{
    if goes_under(name, b".ctors") {
        return Some(b".ctors");
    }
    if goes_under(name, b".dtors") {
        return Some(b".dtors");
    }
    if goes_under(name, b".gcc_except_table") {
        return Some(b".gcc_except_table");
    }
    None
}

/// The name of the output section of a loaded section that is not thread-local, where it is one of a few; none
/// where it is the input section's own.
#[tactic(auto, using(crate::proofs::NamesUnder::common_reported))]
fn common_name(name: &[u8]) -> Option<&'static [u8]>
    ensures { unwrap_or (option_copied result) name.now ≡ common_name name.now }
{
    if let Some(base) = first_name(name) {
        return Some(base);
    }
    if let Some(base) = array_name(name) {
        return Some(base);
    }
    older_name(name)
}

/// The name of the output section, by class and the input section's name, where it is one of a few; none where it
/// is the input section's own.
#[tactic(auto, unfolding(lk_model::specs::Pieces::output_name))]
pub(crate) fn output_name(class: Class, name: &[u8]) -> Option<&'static [u8]>
    ensures { unwrap_or (option_copied result) name.now ≡ output_name class name.now }
{
    match class {
        Class::Tdata => Some(b".tdata"),
        Class::Tbss => Some(b".tbss"),
        Class::N => None,
        Class::R | Class::X | Class::W | Class::WX | Class::Bss => common_name(name),
    }
}
