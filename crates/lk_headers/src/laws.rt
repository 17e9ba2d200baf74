//! That the headers over rows are lk_model's: a law, as the contract of a function that does nothing.

ghost use Rattle.lk_headers.specs.HeaderLaws.{FrontIsTheModels, HeadersAreThere, SectionBytesAreTheModels, SectionsAreTheModels};

/// Over the rows of the parts of a tail (each at the next multiple of 8, with its name and its length), the
/// headers are lk_model's: the file offset of the section headers; the headers before the seal, for the value
/// of the entry and the stack that the added objects ask for; the section headers and their bytes.
pub fn headers_are_the_models()
    ensures there { HeadersAreThere }
    ensures front { FrontIsTheModels }
    ensures sections { SectionsAreTheModels }
    ensures section_bytes { SectionBytesAreTheModels }
{}
