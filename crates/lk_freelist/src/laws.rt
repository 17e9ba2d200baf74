//! What free lists have to do with lk_model's holes, first fit and fill, as the contract of a function that
//! does nothing.

ghost use Rattle.lk_freelist.specs.FreeLaws.{LeastOfKind, LeftAreFree, LeftAreHoles, NoneTooShort, PlacesAreFree, SameBytesSameHoles};

/// Holes are determined by their free bytes. What lk_model leaves of holes without some ranges are holes
/// again, and their bytes the free ones in none of the ranges. First fit's place is a multiple of the
/// alignment with all its bytes free, and leaves no hole that is too short; and the shortest hole of a
/// section is the shortest that its kind fills.
pub fn free_bytes_are_the_models()
    ensures same { SameBytesSameHoles }
    ensures holes { LeftAreHoles }
    ensures free { LeftAreFree }
    ensures places { PlacesAreFree }
    ensures enough { NoneTooShort }
    ensures least { LeastOfKind }
{}
