//! Which classes of output sections share a segment.

ghost use Rattle.std.specs.Prelude.{◌≡◌};
ghost use Rattle.lk_model.specs.SectionOrder.{same_segment, segment_of};

use lk_model::classes::same_class;
use lk_model::layouts::Class;

/// Whether a class is one of those that are written.
fn is_written(class: Class) -> bool
    ensures { result ≡ same_segment (segment_of Class.W) (segment_of class) }
{
    match class {
        Class::W | Class::WX | Class::Tdata | Class::Tbss | Class::Bss => true,
        Class::R | Class::X | Class::N => false,
    }
}

/// Whether sections of two classes are in the same segment.
pub(crate) fn share_segment(a: Class, b: Class) -> bool
    ensures { result ≡ same_segment (segment_of a) (segment_of b) }
{
    match a {
        Class::R => same_class(b, Class::R),
        Class::X => same_class(b, Class::X),
        Class::N => same_class(b, Class::N),
        Class::W | Class::WX | Class::Tdata | Class::Tbss | Class::Bss => is_written(b),
    }
}
