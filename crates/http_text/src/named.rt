ghost use Rattle.std.specs.Prelude.{◌≡◌, ◌↔◌, length, All, IsTrue};
ghost use Rattle.std.specs.Str.{str_eq_ignore_ascii_case};
ghost use Rattle.httparse.specs.Spans.{IsWithin, IsHeaderWithin, header_bytes};
ghost use Rattle.http_text.specs.Fields.{is_named, values_of};
ghost use Rattle.http_text.specs.Named.{texts_at, AreValues, after};

use httparse::spans::HeaderSpan;

/// The values of the fields of one name: the first of them, and whether there are more.
#[derive(Clone, Copy)]
pub enum Values<'a> {
    Absent,
    One(&'a [u8]),
    More(&'a [u8]),
}

/// The values of the fields of this name. Takes time linear in the bytes of the names.
pub fn values_named<'a>(bytes: &'a [u8], fields: &[HeaderSpan], name: &[u8]) -> Values<'a>
    requires { All (IsHeaderWithin (length bytes.now)) fields.now }
    ensures { AreValues result (values_of name.now (texts_at bytes.now fields.now)) }
{
    let mut found = Values::Absent;
    for field in fields {
        if is_named(bytes, *field, name) {
            found = and(found, field.value.of(bytes));
        }
    }
    found
}

/// Whether the field has this name, without regard to case.
pub fn is_named(bytes: &[u8], field: HeaderSpan, name: &[u8]) -> bool
    requires { IsWithin (length bytes.now) field.name }
    ensures { result ≡ is_named name.now (header_bytes bytes.now field) }
{
    is_same(field.name.of(bytes), name)
}

/// Whether the texts are the same without regard to the case of ASCII letters.
pub fn is_same(text: &[u8], other: &[u8]) -> bool
    ensures { result ≡ str_eq_ignore_ascii_case text.now other.now }
{
    text.eq_ignore_ascii_case(other)
}

/// What was found, and one more value.
fn and<'a>(found: Values<'a>, value: &'a [u8]) -> Values<'a>
    ensures { result ≡ after found.entry value.entry }
{
    match found {
        Values::Absent => Values::One(value),
        Values::One(first) | Values::More(first) => Values::More(first),
    }
}
