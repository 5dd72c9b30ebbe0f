use crate::subject::Subject;
use oim_names::Reason;
use oim_report::{MOST_REFERENCE_BYTES, Part};
use oim_value::{MOST_DECIMALS, MOST_DIGITS};
use serde_json::Value;
use std::alloc::AllocError;
use std::fmt;

/// Returns the words before and after the part at fault.
pub(crate) fn around(
    subject: Subject<'_>,
    reason: Reason,
    part: Part<'_>,
) -> (&'static str, &'static str) {
    match (part, reason, subject) {
        (Part::Two(_, _), Reason::DisallowedDuplicates, _) => (
            "the facts ",
            " have the same dimensions, and the report's own \"allowedDuplicates\" does not allow both",
        ),
        (Part::Two(_, _), Reason::SheetKind, _) => ("the entries ", " give one name two kinds"),
        (Part::Two(_, _), _, _) => ("the keys ", " name the same dimension"),
        (Part::Entity(_), Reason::NameForm, _) => (
            "",
            " is not an entity such as prefix:identifier",
        ),
        (_, Reason::UnknownMember, Subject::Sheet) => (before(reason), " in a sheet"),
        (Part::Value(Value::Null), Reason::UnitOnOther, _) => (
            "a \"unit\", even ",
            ", is only for concepts that are numeric in the sheet",
        ),
        (Part::Value(Value::Null), Reason::LanguageOnNumeric, _) => (
            "a \"language\", even ",
            ", is not for concepts that are numeric in the sheet",
        ),
        _ => (before(reason), behind(reason)),
    }
}

/// Appends the whole sentence of a fault whose part is not shown.
pub(crate) fn push_alone(line: &mut String, reason: Reason) -> Result<(), AllocError> {
    if reason == Reason::DecimalsForm {
        return write!(
            line,
            "\"decimals\" must be an integer from -{MOST_DECIMALS} to {MOST_DECIMALS}, without quotes, fraction or exponent, and zero without a sign"
        );
    }
    line.push_str(match reason {
        Reason::NotJson => "the file cannot be read as JSON",
        Reason::DocumentType => {
            "\"documentType\" is missing; it must be \"https://xbrl.org/2021/xbrl-json\""
        }
        Reason::DimensionsMissing => "the fact has no \"dimensions\"",
        Reason::MissingConcept => "the fact has no \"concept\" in \"dimensions\"",
        Reason::ValueForm => "the value is neither a string nor null; numbers need quotes",
        Reason::DecimalsOnOther => {
            "\"decimals\" is only for concepts that are numeric in the sheet"
        }
        _ => "the part at fault cannot be shown",
    })
}

/// Appends the last words of the sentence if they contain a limit, and nothing otherwise.
pub(crate) fn push_limit(line: &mut String, reason: Reason) -> Result<(), AllocError> {
    let bytes = Grouped(MOST_REFERENCE_BYTES);
    match reason {
        Reason::BaseUrl => write!(
            line,
            " is not an http or https URL of at most {bytes} bytes"
        ),
        Reason::TaxonomyUrl => write!(
            line,
            " of \"taxonomy\" is not a string, is longer than {bytes} bytes as written or as a URL, or is not an http or https URL when resolved against \"baseURL\""
        ),
        Reason::NumberDigits => write!(line, " has more than {MOST_DIGITS} digits"),
        Reason::DecimalsRange => write!(line, " is not from -{MOST_DECIMALS} to {MOST_DECIMALS}"),
        _ => Ok(()),
    }
}

/// A number from 1,000 to 999,999, printed with a comma after the thousands.
#[derive(Clone, Copy)]
struct Grouped(usize);

impl fmt::Display for Grouped {
    fn fmt<W: fmt::Write>(&self, f: &mut fmt::Formatter<W>) -> fmt::Result {
        write!(f, "{},{:03}", self.0 / 1000, self.0 % 1000)
    }
}

fn before(reason: Reason) -> &'static str {
    match reason {
        Reason::UnknownMember => "the format has no member ",
        Reason::SheetKind | Reason::Namespace => "the entry ",
        Reason::DocumentType => "the document type is ",
        Reason::BaseUrl => "the \"baseURL\" ",
        Reason::TaxonomyUrl => "the reference ",
        Reason::Feature => {
            "\"features\" must have \"allowedDuplicates\" once, with \"none\", \"complete\", \"consistent\" or \"all\"; it has "
        }
        Reason::Links => "the links ",
        Reason::Notes => "the note ",
        Reason::UnboundPrefix | Reason::ReservedNamespace => "the prefix of ",
        Reason::UnknownConcept => "the concept ",
        Reason::UnknownDimension | Reason::DimensionValue => "the dimension ",
        Reason::PeriodForm | Reason::PeriodOrder => "the period ",
        Reason::UnitForm | Reason::UnitOnOther => "the unit ",
        Reason::LanguageForm | Reason::LanguageOnNumeric => "the language ",
        Reason::ValueForm | Reason::NumberForm | Reason::NumberDigits => "the value ",
        Reason::DecimalsForm | Reason::DecimalsRange | Reason::DecimalsOnOther =>
            "the decimals value ",
        _ => "",
    }
}

fn behind(reason: Reason) -> &'static str {
    match reason {
        Reason::SheetKind => {
            " of the sheet has an unknown kind: a concept is \"numeric\", \"text\" or \"name\", a dimension \"explicit\" or \"typed\""
        }
        Reason::DocumentType => ", but must be \"https://xbrl.org/2021/xbrl-json\"",
        Reason::Namespace => {
            " of \"namespaces\" is not a prefix and a URI: neither may be empty, and a prefix has no colon or white space"
        }
        Reason::Links | Reason::Notes => " cannot be merged",
        Reason::NameForm => {
            " is not a name such as prefix:local, without white space or a second colon"
        }
        Reason::UnboundPrefix => " is not bound",
        Reason::ReservedNamespace => " is bound to https://xbrl.org/2021, which is reserved",
        Reason::UnknownConcept | Reason::UnknownDimension => " is not in the sheet",
        Reason::DimensionValue => {
            " does not fit the sheet: an explicit dimension takes a name such as prefix:local, a typed dimension a string or null"
        }
        _ => behind_content(reason),
    }
}

fn behind_content(reason: Reason) -> &'static str {
    match reason {
        Reason::PeriodForm => {
            " is neither a date and time such as 2024-12-31T00:00:00, without zone or fraction, nor two of these with / between them"
        }
        Reason::PeriodOrder => " ends before it starts",
        Reason::UnitForm => " is not a unit such as a:b, a:b*a:c or a:b/a:c",
        Reason::LanguageForm => " is not a language such as en or de-AT",
        Reason::LanguageOnNumeric => " is not for concepts that are numeric in the sheet",
        Reason::ValueForm => " is neither a string nor null; numbers need quotes",
        Reason::NumberForm => {
            " is not a plain number such as -1234.5, without exponent, thousands separator or white space; in the sheet, the concept is numeric"
        }
        Reason::DecimalsForm => " is not an integer without quotes",
        Reason::UnitOnOther | Reason::DecimalsOnOther => {
            " is only for concepts that are numeric in the sheet"
        }
        _ => "",
    }
}
