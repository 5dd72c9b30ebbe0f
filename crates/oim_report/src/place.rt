/// Where in a report the reason of a refusal applies.
#[derive(Clone, Copy, Debug, PartialEq, Eq)]
pub enum Place {
    /// The document, not a single fact. `OutOfMemory` also has the document as its place.
    Document,
    /// The fact with this number, counted from 1 in byte order of the identifiers.
    Fact(u64),
}
