ghost use Rattle.std.specs.Prelude.{◌≡◌, ◌<◌, ◌==◌, take, length, position, IfSome};
ghost use Rattle.http_text.specs.Request.{front_of};

/// How many bytes the head of a message may have.
pub const HEAD_BYTES: usize = 16_384;

/// The first bytes, up to so many.
pub fn first(bytes: &[u8], count: usize) -> &[u8]
    ensures { result.now ≡ take count bytes.now }
{
    if count < bytes.len() {
        &bytes[..count]
    } else {
        bytes
    }
}

/// The bytes in which a head has to end.
#[tactic(auto, unfolding(crate::specs::Request::front_of))]
pub fn front_of(bytes: &[u8]) -> &[u8]
    ensures { result.now ≡ front_of bytes.now }
{
    first(bytes, HEAD_BYTES)
}

/// The first place of this byte.
pub fn first_place(bytes: &[u8], mark: u8) -> Option<usize>
    ensures in_range { IfSome result (λ at. at < length bytes.now) }
    ensures first { result ≡ position (λ b. b == mark) bytes.now }
{
    bytes.iter().position(|byte| *byte == mark)
}
