//! Keys and places as bytes, by which they are looked up. They are made without memory.

ghost use Rattle.std.specs.Prelude.{◌≡◌, ◌+◌, ◌≤◌, ◌++◌, length};
ghost use Rattle.std.specs.Vec.{vec_capacity};
ghost use Rattle.arrayvec.specs.ArrayVec.{array_vec_len};
ghost use Rattle.ely_cache.specs.Codes.{mech_code, key_of, place_code, sized, touched_code};

use arrayvec::ArrayVec;
use ely_base::Name;
use ely_row::{Edit, Mech};

/// One number for each mechanism.
fn mech_code(mech: Mech) -> u8
    ensures { result ≡ mech_code mech }
{
    match mech {
        Mech::Plain => 0,
        Mech::ScramSha1 => 1,
        Mech::ScramSha256 => 2,
        Mech::Digest => 3,
        Mech::DigestSha256 => 4,
    }
}

/// Adds bytes for which there is room.
fn put<const N: usize>(code: &mut ArrayVec<u8, N>, bytes: &[u8])
    requires { array_vec_len code.old + length bytes.now ≤ N }
    ensures items { code.new.items ≡ code.old.items ++ bytes.now }
    ensures len { array_vec_len code.new ≡ array_vec_len code.old + length bytes.now }
{
    let put = code.try_extend_from_slice(bytes);
    prove!(put.is_ok());
}

/// Adds a name behind its length, for which there is room.
fn put_sized<const N: usize>(code: &mut ArrayVec<u8, N>, name: &Name)
    requires { array_vec_len code.old + 256 ≤ N }
    ensures items { code.new.items ≡ code.old.items ++ sized name.now }
    ensures len { array_vec_len code.new ≤ array_vec_len code.old + 256 }
{
    let bytes = name.bytes();
    code.push(bytes.len() as u8);
    put(code, bytes);
}

/// A mechanism and a name as bytes that no others have.
pub fn key_of(name: &Name, mech: Mech) -> ArrayVec<u8, 256>
    ensures { result.items ≡ key_of name.now mech }
{
    let mut code = ArrayVec::new();
    code.push(mech_code(mech));
    put(&mut code, name.bytes());
    code
}

/// A realm and a name as bytes that no others have: each stands behind its length.
pub fn place_code(realm: &Name, name: &Name) -> ArrayVec<u8, 512>
    ensures { result.items ≡ place_code realm.now name.now }
{
    let mut code = ArrayVec::new();
    put_sized(&mut code, realm);
    put_sized(&mut code, name);
    code
}

/// What the codes of the places that an edit touches begin with, and those of no others: the realm, and for an edit of one
/// name that name.
fn touched_code(edit: &Edit) -> ArrayVec<u8, 512>
    ensures { result.items ≡ touched_code edit.now }
{
    let mut code = ArrayVec::new();
    put_sized(&mut code, edit.realm());
    if let Some(name) = edit.name() {
        put_sized(&mut code, name);
    }
    code
}

/// Writes what `touched_code` says of an edit in place of the bytes that stood there, which have room for it.
pub fn write_touched(start: &mut Vec<u8>, edit: &Edit)
    requires { 512 ≤ vec_capacity start.old }
    ensures items { start.new.items ≡ touched_code edit.now }
    ensures room { 512 ≤ vec_capacity start.new }
{
    start.clear();
    let put = start.extend_from_slice(touched_code(edit).as_slice());
    prove!(put.is_ok());
}
