//! What the class of an output section says of it: its number in the records, and whether sections of the class
//! are loaded, have bytes in the file, are executed or are thread-local (gABI "Sections", sh_type and sh_flags).

ghost use Rattle.std.specs.Prelude.{◌≡◌, ◌≤◌};
ghost use Rattle.lk_model.specs.FullPlace.{is_thread};
ghost use Rattle.lk_model.specs.SectionKeys.{class_number, in_file, is_alloc, is_executable, same_class};

use crate::layouts::Class;

/// The number of a class in the records of an image.
pub fn class_number(class: Class) -> u8
    ensures value { result ≡ class_number class }
    ensures small { result ≤ 7 }
{
    match class {
        Class::R => 0,
        Class::X => 1,
        Class::W => 2,
        Class::WX => 3,
        Class::Tdata => 4,
        Class::Tbss => 5,
        Class::Bss => 6,
        Class::N => 7,
    }
}

/// Whether two classes are one.
pub fn same_class(a: Class, b: Class) -> bool
    ensures { result ≡ same_class a b }
{
    class_number(a) == class_number(b)
}

/// Whether sections of the class are loaded into memory (SHF_ALLOC).
pub fn is_alloc(class: Class) -> bool
    ensures { result ≡ is_alloc class }
{
    !same_class(class, Class::N)
}

/// Whether the file has the bytes of sections of the class (not SHT_NOBITS).
pub fn in_file(class: Class) -> bool
    ensures { result ≡ in_file class }
{
    !(same_class(class, Class::Bss) || same_class(class, Class::Tbss))
}

/// Whether sections of the class are executed (SHF_EXECINSTR).
pub fn is_executable(class: Class) -> bool
    ensures { result ≡ is_executable class }
{
    same_class(class, Class::X) || same_class(class, Class::WX)
}

/// Whether sections of the class are thread-local (SHF_TLS).
pub fn is_thread(class: Class) -> bool
    ensures { result ≡ is_thread class }
{
    same_class(class, Class::Tdata) || same_class(class, Class::Tbss)
}
