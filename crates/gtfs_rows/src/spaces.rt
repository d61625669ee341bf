ghost use Rattle.std.specs.Prelude.{◌≡◌};
ghost use Rattle.gtfs_rows.specs.Spaces as spec;

/// The text without the spaces (U+0020) at its ends. A tab or a line break is no space. Linear in the text.
pub(crate) fn without_spaces(text: &[u8]) -> &[u8]
    ensures { result.now ≡ spec.without_spaces text.now }
{
    without_last_spaces(without_first_spaces(text))
}

#[tactic(auto, unfolding(crate::specs::Spaces::without_first_spaces))]
fn without_first_spaces(mut text: &[u8]) -> &[u8]
    ensures { result.now ≡ spec.without_first_spaces text.now }
{
    while let [b' ', rest @ ..] = text {
        text = rest;
    }
    text
}

#[tactic(auto, unfolding(crate::specs::Spaces::without_first_spaces))]
fn without_last_spaces(mut text: &[u8]) -> &[u8]
    ensures { result.now ≡ spec.without_last_spaces text.now }
{
    while let [rest @ .., b' '] = text {
        text = rest;
    }
    text
}
