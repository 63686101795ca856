// The filter's text in its file.
ghost use Rattle.std.specs.Prelude.{◌≡◌};
ghost use Rattle.listing.specs.FilterText.{without_line_feed};

// A text without its last byte, where that is a line feed.
#[tactic(auto, unfolding(crate::specs::FilterText::without_line_feed))]
pub fn without_line_feed(text: &[u8]) -> &[u8]
    ensures { result.now ≡ without_line_feed text.now }
{
    if text.len() == 0 {
        return text;
    }
    let last = text.len() - 1;
    if text[last] != b'\n' {
        return text;
    }
    &text[0..last]
}
