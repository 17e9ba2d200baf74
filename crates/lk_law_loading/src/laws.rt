//! What a loader makes of an image, as the contract of a function that does nothing.

ghost use Rattle.lk_law_loading.specs.LoadedPlaces.{HeadersAreRead, InputsAreLoadable, LinkIsLoaded, LoadableIsLoaded, WholeLinkIsLoaded};

/// A loader puts the linked bytes of every piece at its address, with the rights of its segment, zeros
/// where the file holds none, and thread-local pieces in the thread-local segment: in every image that is
/// laid out at a lawful placement within the limits, and so in that of every command whose inputs have no
/// fault. The program headers that it reads are those of the placement.
pub fn pieces_are_loaded()
    ensures headers { HeadersAreRead }
    ensures places { LoadableIsLoaded }
    ensures inputs { InputsAreLoadable }
    ensures link { LinkIsLoaded }
    ensures whole_link { WholeLinkIsLoaded }
{}
