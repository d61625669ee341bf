ghost use Rattle.std.specs.Prelude.{◌≡◌, ◌↔◌, [], IsTrue, codes, None, Some, IfOk, IfSome};
ghost use Rattle.std.specs.List.{list_all};
ghost use Rattle.std.specs.Option.{option_copied};
ghost use Rattle.url.specs.Parts.{Parts, IsValid};
ghost use Rattle.connection_uri.specs.Base.{is_path_byte, base_of, IsPlainPath, IsBareHttp, IsPlain, IsBase, ReadsAsBase, BasesAreWritten, BasesAreRead, OneBase};

use crate::encoding::is_unreserved;
use lc_model::{NoMemory, PlainData};
use std::alloc::Global;
use std::marker::Model;
use url::{ParseError, Url};

const MOST_BYTES: usize = 4096;

/// The URL under which a publisher's documents are, as `http://lc.example/`, written as the URL Standard writes it. A
/// contract sees its text, its authority and its path.
#[derive(Drop)]
pub struct Base {
    url: Url,
}

impl Model for Base {
    ghost use Rattle.connection_uri.specs.Base.{BaseParts, base_of, IsPlain};

    ghost Value = { BaseParts };

    ghost view = { λ b. base_of b.url };

    ghost invariant = { λ b. IsPlain b.url };
}

impl Base {
    /// The base that a text says, if it is one. A base is UTF-8 and a URL by the URL Standard, of the scheme http. It has no user
    /// name, password, query or fragment, and as it is written at most 4,096 bytes. Its path ends with a slash. There a path has
    /// letters, digits, `-`, `.`, `_`, `~`, `%` and `/` alone.
    pub fn read(alloc: Global, text: &[u8]) -> Result<Option<Base>, NoMemory>
        ensures said { IfOk result (λ read. IfSome read (λ base. (url : Parts) × ReadsAsBase text.now url × (base ≡ base_of url))) }
        ensures exact { IfOk result (λ read. (url : Parts) → ReadsAsBase text.now url → read ≡ Some (base_of url)) }
    {
        let Ok(text) = std::str::from_utf8(text) else {
            return Ok(None);
        };
        match Url::parse(alloc, text) {
            Ok(url) if is_plain(&url) => Ok(Some(Base { url })),
            Err(ParseError::OutOfMemory | ParseError::Overflow) => Err(NoMemory),
            _ => Ok(None),
        }
    }

    /// The whole text.
    pub fn text(&self) -> &str
        ensures value { result.now ≡ self.now.text }
        ensures plain { IsBase self.now }
    {
        self.url.as_str()
    }

    /// The host, with the port if there is one.
    pub fn authority(&self) -> &str
        ensures value { result.now ≡ self.now.authority }
        ensures plain { IsBase self.now }
    {
        // The text says that this is a base.
        let _text = self.text();
        self.url.authority()
    }

    /// The path, which ends with a slash.
    pub fn path(&self) -> &str
        ensures value { result.now ≡ self.now.path }
        ensures plain { IsBase self.now }
    {
        self.url.path()
    }
}

impl PlainData for Base {
    fn copy(&self, _alloc: Global) -> Result<Base, NoMemory> {
        Ok(Base {
            url: self.url.clone()?,
        })
    }
}

/// Every base's text is `http://`, its authority, which is visible ASCII, and its path, which begins and ends with a slash.
pub fn bases_are_written()
    ensures { BasesAreWritten }
{}

/// Every base is what its own text reads as.
pub fn bases_are_read()
    ensures { BasesAreRead }
{}

/// Bases with the same text are the same.
pub fn one_base()
    ensures { OneBase }
{}

/// `http://hx/` is the text of a base whose authority is `hx`, and of none whose authority is `h`.
pub fn base_is_cut_once()
    ensures whole { IsBase (record { text = codes "http://hx/"; authority = codes "hx"; path = codes "/" }) }
    ensures elsewhere { IsBase (record { text = codes "http://hx/"; authority = codes "h"; path = codes "x/" }) → ⊥ }
{}

/// Whether the URL is a plain base.
fn is_plain(url: &Url) -> bool
    ensures plain { IsTrue result ↔ IsPlain url.now }
    ensures valid { IsValid url.now }
{
    let length = url.as_str().len();
    is_bare_http(url) && is_plain_path(url.path().as_bytes()) && length <= MOST_BYTES
}

fn is_bare_http(url: &Url) -> bool
    ensures { IsTrue result ↔ IsBareHttp url.now }
{
    is_http(url) && has_no_user(url) && has_no_tail(url)
}

fn is_http(url: &Url) -> bool
    ensures { IsTrue result ↔ (url.now.scheme ≡ codes "http") }
{
    url.scheme() == "http"
}

fn has_no_user(url: &Url) -> bool
    ensures { IsTrue result ↔ ((url.now.username ≡ []) × (url.now.password ≡ [])) }
{
    url.username().is_empty() && url.password().is_none()
}

fn has_no_tail(url: &Url) -> bool
    ensures { IsTrue result ↔ ((url.now.query ≡ None) × (url.now.fragment ≡ None)) }
{
    is_absent(url.query()) && is_absent(url.fragment())
}

fn is_absent(part: Option<&str>) -> bool
    ensures { IsTrue result ↔ (option_copied part.entry ≡ None) }
{
    part.is_none()
}

fn is_plain_path(path: &[u8]) -> bool
    ensures { IsTrue result ↔ IsPlainPath path.now }
{
    has_plain_bytes(path) && path.last().copied() == Some(b'/')
}

fn has_plain_bytes(path: &[u8]) -> bool
    ensures { result ≡ list_all is_path_byte path.now }
{
    path.iter().all(|byte| is_path_byte(*byte))
}

fn is_path_byte(byte: u8) -> bool
    ensures { result ≡ is_path_byte byte }
{
    is_unreserved(byte) || byte == b'%' || byte == b'/'
}
