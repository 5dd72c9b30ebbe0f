use oim_names::Reason;

/// What is known about a fact.
#[derive(Clone, Copy)]
pub(crate) enum Judgement {
    Accepted,
    Refused(Reason),
    /// The fact was not judged, because a fact with a lesser identifier is refused.
    Unknown,
}

impl Judgement {
    pub(crate) fn is_refused(self) -> bool {
        matches!(self, Judgement::Refused(_))
    }
}
