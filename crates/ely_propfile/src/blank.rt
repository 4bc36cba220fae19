//! The blanks round the parts of a line.

ghost use Rattle.std.specs.Prelude.{◌≡◌, ◌≤◌, length};
ghost use Rattle.std.specs.List.{prefix_len, suffix_len};
ghost use Rattle.ely_base.specs.Blanks.{is_blank};
ghost use Rattle.ely_propfile.specs.Lines.{trimmed_start, without_suffix, trimmed};

use crate::part::{from_offset, up_to};
use ely_base::is_blank;

/// How many blanks the text begins with.
fn leading_len(text: &[u8]) -> usize
    ensures value { result ≡ prefix_len is_blank text.now }
    ensures most { result ≤ length text.now }
{
    text.iter().take_while(|b| is_blank(**b)).count()
}

/// How many blanks the text ends with.
fn trailing_len(text: &[u8]) -> usize
    ensures value { result ≡ suffix_len is_blank text.now }
    ensures most { result ≤ length text.now }
{
    text.iter().rev().take_while(|b| is_blank(**b)).count()
}

/// The text without leading blanks.
pub fn trimmed_start(text: &[u8]) -> &[u8]
    ensures { result.now ≡ trimmed_start text.now }
{
    from_offset(text, leading_len(text))
}

/// The text without trailing blanks.
fn without_suffix(text: &[u8]) -> &[u8]
    ensures { result.now ≡ without_suffix is_blank text.now }
{
    up_to(text, text.len() - trailing_len(text))
}

/// The text without blanks at both ends.
pub fn trimmed(text: &[u8]) -> &[u8]
    ensures { result.now ≡ trimmed text.now }
{
    without_suffix(trimmed_start(text))
}
