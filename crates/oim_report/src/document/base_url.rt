ghost use Rattle.std.specs.Prelude.{◌≡◌, ◌⊎◌, Some, None, IfOk, IfErr, IsTrue};
ghost use Rattle.serde_json.specs.View.{view};
ghost use Rattle.url.specs.Parser.{Gives, parse_url};
ghost use Rattle.oim_report.specs.Info.{base_url_said};
ghost use Rattle.oim_report.specs.References.{base_url, is_web};
ghost use Rattle.oim_report.specs.code.Findings.{is_base_refused};

use crate::json_values::json_member::JsonMember;
use crate::json_values::json_tree::within;
use crate::limits::MOST_REFERENCE_BYTES;
use oim_names::Reason;
use serde_json::Value;
use std::alloc::Global;
use std::marker::Model;
use url::{ParseError, ParseResult, Url};

/// The URL against which a report's relative taxonomy references are resolved.
#[derive(Drop)]
pub(crate) struct BaseUrl {
    url: Url,
}

impl Model for BaseUrl {
    ghost use Rattle.url.specs.Parts.{Parts, parts_code};

    ghost Value = { Parts };

    ghost coded = { parts_code };

    ghost view = { λ b. b.url };
}

impl BaseUrl {
    /// Resolves a reference against this base URL (URL Standard, section 4.4).
    pub(crate) fn join(&self, reference: &str) -> ParseResult<Url>
        ensures { Gives result (parse_url (Some self.now) reference.now) }
    {
        self.url.join(reference)
    }
}

pub(crate) fn is_web(url: &Url) -> bool
    ensures { result ≡ is_web url.now }
{
    matches!(url.scheme(), "http" | "https")
}

pub(crate) fn read_base_url(alloc: Global, tree: &Value) -> Result<Option<BaseUrl>, Reason>
    ensures ok { IfOk result (λ base. base_url_said (view tree.now) ≡ Some base) }
    ensures errors { IfErr result
        (λ r. (r ≡ Reason.OutOfMemory) ⊎ ((r ≡ Reason.BaseUrl) × (base_url_said (view tree.now) ≡ None))) }
{
    match JsonMember::of(within(tree, "documentInfo", "baseURL")) {
        JsonMember::Absent => Ok(None),
        JsonMember::Text(text) => Ok(Some(read_base(alloc, text)?)),
        _ => Err(Reason::BaseUrl),
    }
}

/// Reads the `baseURL` of a report (xBRL-JSON 1.0), which must be an http or https URL of at most
/// `MOST_REFERENCE_BYTES` bytes (own).
fn read_base(alloc: Global, text: &str) -> Result<BaseUrl, Reason>
    ensures ok { IfOk result (λ base. base_url text.now ≡ Some base) }
    ensures errors { IfErr result
        (λ r. (r ≡ Reason.OutOfMemory) ⊎ ((r ≡ Reason.BaseUrl) × IsTrue (is_base_refused text.now))) }
{
    if text.len() > MOST_REFERENCE_BYTES {
        return Err(Reason::BaseUrl);
    }
    match Url::parse(alloc, text) {
        Ok(url) if is_web(&url) => Ok(BaseUrl { url }),
        Err(ParseError::OutOfMemory | ParseError::Overflow) => Err(Reason::OutOfMemory),
        Ok(_) | Err(_) => Err(Reason::BaseUrl),
    }
}
