use crate::part::Part;
use crate::refusal::Refusal;

/// A fault of a report.
#[derive(Clone, Copy)]
pub struct Fault<'t> {
    /// The reason to refuse the report, with its place.
    pub refusal: Refusal,
    /// The part of the report to which the refusal's reason applies.
    pub part: Part<'t>,
}
