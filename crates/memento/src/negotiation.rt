ghost use Rattle.std.specs.Prelude.{◌≡◌, ◌≤◌, ℕ, IfSome, IsTrue, Some, length, if◌then◌else◌};
ghost use Rattle.std.specs.Option.{option_copied};
ghost use Rattle.lc_model.specs.Versions.Named.{is_by as is_by_it, version_among as named_among};
ghost use Rattle.memento.specs.Negotiation.{Negotiates};

use lc_model::Moment;
use lc_time::read_http_date;

// Whether the version is at or before the known moment, if there is one.
fn is_by(known: &Option<Moment>, version: Moment) -> bool
    ensures { result ≡ is_by_it known.now version }
{
    match known {
        None => true,
        Some(known) => version <= *known,
    }
}

// The version, if it is meant rather than the one before it.
fn meant(named: Moment, known: &Option<Moment>, version: Moment) -> Moment
    ensures { result ≡ (if is_by_it known.now version then version else named) }
{
    if is_by(known, version) {
        version
    } else {
        named
    }
}

/// The version of a known moment among these, the first of which is the base. It is the last one at or before it, or the
/// base where none is, or the newest where no moment is known. Linear in the versions.
pub fn version_among(versions: &[Moment], known: Option<Moment>) -> Moment
    requires { 1 ≤ length versions.now }
    ensures { named_among versions.now known ≡ Some result }
{
    let mut named = versions[0];
    for version in versions {
        named = meant(named, &known, *version);
    }
    named
}

/// The version that a request means, by the value of its `Accept-Datetime` where it has one, among these, the first of which is
/// the base. None exactly where the value says no moment. Linear in the versions.
pub fn negotiate(versions: &[Moment], known: Option<&[u8]>) -> Option<Moment>
    requires { 1 ≤ length versions.now }
    ensures said { IfSome result (Negotiates versions.now (option_copied known.entry)) }
    ensures exact { (version : ℕ) → Negotiates versions.now (option_copied known.entry) version → result ≡ Some version }
{
    match known {
        None => Some(version_among(versions, None)),
        Some(text) => negotiate_by(versions, text),
    }
}

// The version that the value of a field means.
fn negotiate_by(versions: &[Moment], text: &[u8]) -> Option<Moment>
    requires { 1 ≤ length versions.now }
    ensures said { IfSome result (Negotiates versions.now (Some text.now)) }
    ensures exact { (version : ℕ) → Negotiates versions.now (Some text.now) version → result ≡ Some version }
{
    let known = read_http_date(text)?;
    Some(version_among(versions, Some(known)))
}
