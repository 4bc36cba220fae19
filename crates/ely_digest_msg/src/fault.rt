//! The known names of a header's members, and the faults of a header. It stands on nothing else of the crate.

ghost use Rattle.std.specs.Prelude.{◌≡◌};
ghost use Rattle.ely_digest_msg.specs.Fields.{field_text};

/// The names that mean something in a header (RFC 7616 section 3.4). A member of another name is passed over.
#[derive(Clone, Copy, Debug, PartialEq, Eq)]
pub enum DigestField {
    Username,
    Realm,
    Nonce,
    Uri,
    Response,
    Nc,
    Cnonce,
    Qop,
    Algorithm,
    Opaque,
    Userhash,
}

/// Why a text is no header, the first fault. Offsets count bytes from the start of the header, from 0.
#[derive(Clone, Copy, Debug, PartialEq, Eq)]
pub enum DigestFault {
    /// The text doesn't begin with `Digest` and a space.
    Scheme,
    /// The offset where a token, `=`, a comma or the end was due.
    Token(usize),
    /// The offset of an opening quote that doesn't end.
    Quote(usize),
    /// A known name that stood before.
    Repeat(DigestField),
    /// A name that has to stand, and doesn't.
    Missing(DigestField),
    /// The user's name is empty, too long, no text, or holds NUL or LF.
    Name,
    /// The nonce count isn't eight lower-case hexadecimal digits.
    Nc,
    /// The algorithm is neither MD5 nor SHA-256.
    Algorithm,
    /// The quality of protection isn't `auth`.
    Qop,
    /// User names are said to be hashed, which isn't offered.
    Userhash,
}

impl DigestField {
    /// The name in lower case.
    pub fn text(self) -> &'static str
        ensures { result.now ≡ field_text self }
    {
        match self {
            DigestField::Username => "username",
            DigestField::Realm => "realm",
            DigestField::Nonce => "nonce",
            DigestField::Uri => "uri",
            DigestField::Response => "response",
            DigestField::Nc => "nc",
            DigestField::Cnonce => "cnonce",
            DigestField::Qop => "qop",
            DigestField::Algorithm => "algorithm",
            DigestField::Opaque => "opaque",
            DigestField::Userhash => "userhash",
        }
    }
}
