//! What a loader refuses, as the contract of a function that does nothing.

ghost use Rattle.lk_law_loads.specs.TakenImages.{HeadersAreTaken, LinkIsTaken, PlacesAreTaken, WholeLinkIsTaken};

/// A loader takes every image that is laid out at a lawful placement within the limits, static or dynamic (gABI
/// "Program Loading", "Dynamic Section"): its headers pass the checks, and what DYNAMIC names is loaded. So it
/// takes the image of every command whose inputs have no fault, in both forms of the tail, and puts the linked
/// bytes of every piece at its address, with the rights of its segment.
pub fn images_are_taken()
    ensures headers { HeadersAreTaken }
    ensures places { PlacesAreTaken }
    ensures link { LinkIsTaken }
    ensures whole_link { WholeLinkIsTaken }
{}
