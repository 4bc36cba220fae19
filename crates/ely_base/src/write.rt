//! Writing texts piece by piece behind what is there. Where memory runs out, a prefix of the text may be written.

ghost use Rattle.std.specs.Prelude.{◌≡◌, ◌++◌, OnOk, OnErr};
ghost use Rattle.std.specs.Fmt.{decimal};
ghost use Rattle.ely_base.specs.Appended.{Extends};
ghost use Rattle.ely_base.specs.Texts.{base64_text};
ghost use Rattle.ely_base.specs.Words.{word_text};

use crate::number::push_number;
use crate::refused::NoMemory;
use crate::texts::push_base64;
use crate::word::push_word;

/// Writes a text.
pub fn push_text(out: &mut Vec<u8>, text: &[u8]) -> Result<(), NoMemory>
    ensures ok { OnOk result (out.new.items ≡ out.old.items ++ text.now) }
    ensures err { OnErr result (Extends out.old.items out.new.items) }
{
    out.extend_from_slice(text)?;
    Ok(())
}

/// Writes a text and a number behind it.
pub fn push_counted(out: &mut Vec<u8>, text: &[u8], number: u64) -> Result<(), NoMemory>
    ensures ok { OnOk result (out.new.items ≡ out.old.items ++ (text.now ++ decimal number)) }
    ensures err { OnErr result (Extends out.old.items out.new.items) }
{
    push_text(out, text)?;
    push_number(out, number)?;
    Ok(())
}

/// Writes a text and another behind it.
pub fn push_both(out: &mut Vec<u8>, first: &[u8], second: &[u8]) -> Result<(), NoMemory>
    ensures ok { OnOk result (out.new.items ≡ out.old.items ++ (first.now ++ second.now)) }
    ensures err { OnErr result (Extends out.old.items out.new.items) }
{
    push_text(out, first)?;
    push_text(out, second)?;
    Ok(())
}

/// Writes a text and the coded word of bytes behind it.
pub fn push_worded(out: &mut Vec<u8>, text: &[u8], bytes: &[u8]) -> Result<(), NoMemory>
    ensures ok { OnOk result (out.new.items ≡ out.old.items ++ (text.now ++ word_text bytes.now)) }
    ensures err { OnErr result (Extends out.old.items out.new.items) }
{
    push_text(out, text)?;
    push_word(out, bytes)?;
    Ok(())
}

/// Writes a text and the base64 text of bytes behind it.
pub fn push_coded(out: &mut Vec<u8>, text: &[u8], bytes: &[u8]) -> Result<(), NoMemory>
    ensures ok { OnOk result
        (out.new.items ≡ out.old.items ++ (text.now ++ base64_text bytes.now)) }
    ensures err { OnErr result (Extends out.old.items out.new.items) }
{
    push_text(out, text)?;
    push_base64(out, bytes)?;
    Ok(())
}
