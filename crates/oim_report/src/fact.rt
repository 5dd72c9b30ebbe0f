//! The members of a fact object, and all faults of a fact with their parts.

pub(crate) mod dimension_part;
pub(crate) mod fact_faults;
pub(crate) mod fact_members;
pub(crate) mod fact_part;
pub(crate) mod name_part;
pub(crate) mod value_part;
