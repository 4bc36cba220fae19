//! How many members permissions have at most, and how long their texts are.

ghost use Rattle.std.specs.Prelude.{◌≡◌};
ghost use Rattle.std.specs.List.{list_all};
ghost use Rattle.ely_perm.specs.Bounds.{length_fits, text_fits, row_fits, fits};

use crate::permissions::Permissions;
use crate::row::PermRow;
use ely_base::Bytes;

/// How many members a list has at most: the rows, and the names, roles and granted texts of a row.
const MOST_MEMBERS: usize = 64;

/// How many bytes a granted text has at most. None is empty.
const MOST_BYTES: usize = 255;

/// Whether a list has no more members than are allowed.
fn length_fits<T>(members: &[T]) -> bool
    ensures { result ≡ length_fits members.now }
{
    members.len() <= MOST_MEMBERS
}

/// Whether a granted text has a length that is allowed.
fn text_fits(text: &[u8]) -> bool
    ensures { result ≡ text_fits text.now }
{
    1 <= text.len() && text.len() <= MOST_BYTES
}

/// Whether each of the granted texts fits.
fn texts_fit(texts: &[Bytes]) -> bool
    ensures { result ≡ list_all text_fits texts.now }
{
    texts.iter().all(|text| text_fits(text.bytes()))
}

/// Whether the row's names, roles and granted texts are few enough, and each of these texts fits.
fn row_fits(row: &PermRow) -> bool
    ensures { result ≡ row_fits row.now }
{
    length_fits(row.principals.all())
        && length_fits(row.roles.all())
        && length_fits(row.grant.all())
        && texts_fit(row.grant.all())
}

/// Whether each of the rows fits.
fn rows_fit(rows: &[PermRow]) -> bool
    ensures { result ≡ list_all row_fits rows.now }
{
    rows.iter().all(row_fits)
}

impl Permissions {
    /// Whether there are at most 64 rows, each with at most 64 principals, roles and granted texts, and each of these texts has 1
    /// to 255 bytes. It takes no memory.
    pub fn fits(&self) -> bool
        ensures { result ≡ fits self.now }
    {
        length_fits(self.rows.all()) && rows_fit(self.rows.all())
    }
}
