/// The kind of the members of a taxonomy-defined dimension.
#[derive(Clone, Copy, Debug, PartialEq, Eq)]
pub enum DimensionKind {
    /// Names: `explicit` in a sheet.
    Explicit,
    /// Texts, or null: `typed` in a sheet.
    Typed,
}
