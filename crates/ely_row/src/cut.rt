//! A text cut at its first colon.

ghost use Rattle.std.specs.Prelude.{◌≡◌, ◌==◌, position};
ghost use Rattle.std.specs.Option.{option_map};
ghost use Rattle.ely_row.specs.Cuts.{cut_of};

fn first_colon(text: &[u8]) -> Option<usize>
    ensures { result ≡ position (λ b. b == 58) text.now }
{
    text.iter().position(|b| *b == b':')
}

/// What stands before the first colon and what behind it, where there is one.
pub(crate) fn cut(text: &[u8]) -> Option<(&[u8], &[u8])>
    ensures { option_map (λ parts. (parts.0.now, parts.1.now)) result ≡ cut_of text.now }
{
    match first_colon(text) {
        None => None,
        Some(at) => Some((&text[..at], &text[at + 1..])),
    }
}
