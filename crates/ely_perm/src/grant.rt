//! Texts that are granted, and what they imply.

ghost use Rattle.std.specs.Prelude.{◌≡◌};
ghost use Rattle.ely_perm.specs.Grants.{is_family_of, implies};

/// Whether the granted text ends with `:*` and the wanted one begins with all before that `*`.
fn is_family_of(grant: &[u8], wanted: &[u8]) -> bool
    ensures { result ≡ is_family_of grant.now wanted.now }
{
    grant.ends_with(b":*") && wanted.starts_with(&grant[..grant.len() - 1])
}

/// Whether the granted text implies the wanted one: it is `*`, it is the wanted text, or it ends with `:*` and the wanted text
/// begins with all before that `*`. Any bytes may be wanted.
pub fn implies(grant: &[u8], wanted: &[u8]) -> bool
    ensures { result ≡ implies grant.now wanted.now }
{
    grant == b"*".as_slice() || grant == wanted || is_family_of(grant, wanted)
}
