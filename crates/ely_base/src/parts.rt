//! Bytes cut at a byte, and how long a prefix of them is text.

ghost use Rattle.std.specs.Prelude.{◌≡◌, ◌==◌, ◌<◌, ◌+◌, ◌∷◌, length, position, IfSome};
ghost use Rattle.std.specs.Option.{option_map};
ghost use Rattle.std.specs.Str.Lossy.{utf8_valid_len};
ghost use Rattle.ely_base.specs.Parts.{parts_at, parts_left};

/// The length of the longest prefix that is UTF-8 (RFC 3629).
pub fn text_len(bytes: &[u8]) -> usize
    ensures { result ≡ utf8_valid_len bytes.now }
{
    match str::from_utf8(bytes) {
        Ok(_) => bytes.len(),
        Err(error) => error.valid_up_to(),
    }
}

/// The offset of the first such byte.
pub fn first_offset(bytes: &[u8], mark: u8) -> Option<usize>
    ensures { result ≡ position (λ b. b == mark) bytes.now }
{
    bytes.iter().position(|b| *b == mark)
}

/// The part up to the first such byte, and what stands behind that.
pub fn cut_at(bytes: &[u8], mark: u8) -> (&[u8], Option<&[u8]>)
    ensures parts { parts_at mark bytes.now
        ≡ result.0.now ∷ parts_left mark (option_map (λ rest. rest.now) result.1) }
    ensures shorter { IfSome result.1 (λ rest. length rest.now < length bytes.now) }
{
    match first_offset(bytes, mark) {
        None => (bytes, None),
        Some(offset) => (&bytes[..offset], Some(&bytes[offset + 1..])),
    }
}

/// How many such bytes there are.
#[tactic(auto, using(std::proofs::lemmas::List::Sums::count_by_more_yes, std::proofs::lemmas::List::Sums::count_by_more_no))]
pub fn count_of(bytes: &[u8], mark: u8) -> usize
    ensures { result + 1 ≡ length (parts_at mark bytes.now) }
{
    let mut count = 0;
    for b in bytes {
        if *b == mark {
            count += 1;
        }
    }
    count
}
