ghost use Rattle.std.specs.Prelude.{◌≡◌, ◌≤◌, ◌<◌, ◌++◌, drop, length, slice_get};
ghost use Rattle.oim_names.specs.Reasons.{reasons};
ghost use Rattle.xbrlmerge_c.specs.Names.{name_numbered};

use oim_names::Reason;

const REASONS: [Reason; 33] = [
    Reason::OutOfMemory,
    Reason::NotJson,
    Reason::MemberForm,
    Reason::UnknownMember,
    Reason::DocumentType,
    Reason::Namespace,
    Reason::BaseUrl,
    Reason::TaxonomyUrl,
    Reason::Feature,
    Reason::Links,
    Reason::Notes,
    Reason::DimensionsMissing,
    Reason::NameForm,
    Reason::UnboundPrefix,
    Reason::ReservedNamespace,
    Reason::MissingConcept,
    Reason::UnknownConcept,
    Reason::UnknownDimension,
    Reason::DimensionValue,
    Reason::PeriodForm,
    Reason::PeriodOrder,
    Reason::UnitForm,
    Reason::UnitOnOther,
    Reason::LanguageForm,
    Reason::LanguageOnNumeric,
    Reason::ValueForm,
    Reason::NumberForm,
    Reason::NumberDigits,
    Reason::DecimalsForm,
    Reason::DecimalsRange,
    Reason::DecimalsOnOther,
    Reason::DisallowedDuplicates,
    Reason::SheetKind,
];

/// Returns the length in bytes of the name of the refusal with this number, or 0 if no refusal has
/// the number. Writes the name to the start of `out`; if `out` is shorter, `out` does not change.
#[unsafe(no_mangle)]
pub extern "C" fn xbrlmerge_refusal_name(number: u32, out: &mut [u8]) -> usize
    ensures length { result ≡ length (name_numbered number) }
    ensures fits { result ≤ length out.old → out.new ≡ name_numbered number ++ drop result out.old }
    ensures short { length out.old < result → out.new ≡ out.old }
{
    match reason_numbered(number) {
        Some(reason) => put_text(reason.name(), out),
        None => 0,
    }
}

/// Writes a text to the start of `out`, unless `out` is shorter. Returns the text's length.
pub(crate) fn put_text(text: &str, out: &mut [u8]) -> usize
    ensures length { result ≡ length text.now }
    ensures fits { result ≤ length out.old → out.new ≡ text.now ++ drop result out.old }
    ensures short { length out.old < result → out.new ≡ out.old }
{
    let text = text.as_bytes();
    if text.len() <= out.len() {
        out[..text.len()].copy_from_slice(text);
    }
    text.len()
}

fn reason_numbered(number: u32) -> Option<Reason>
    ensures { result ≡ slice_get reasons number }
{
    let index = number as usize;
    if index < REASONS.len() {
        Some(REASONS[index])
    } else {
        None
    }
}
