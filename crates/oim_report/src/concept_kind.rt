/// The kind of a concept's values. Values of every kind may be null.
#[derive(Clone, Copy, Debug, PartialEq, Eq)]
pub enum ConceptKind {
    /// Numbers: `numeric` in a sheet.
    Numeric,
    /// Texts: `text` in a sheet.
    Text,
    /// Expanded names: `name` in a sheet.
    Name,
}
