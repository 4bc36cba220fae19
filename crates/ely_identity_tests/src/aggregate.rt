//! Identities that are assembled from a few listed rows, and the places that they are made from.

ghost use Rattle.std.specs.Prelude.{◌≡◌, find};
ghost use Rattle.std.specs.Option.{option_copied, option_map};
ghost use Rattle.ely_row.specs.Edits.{is_place};

use ely_aggregate::{RealmPlan, assemble, deps};
use ely_base::{Items, Name, NoMemory};
use ely_row::{Row, RowSource, SharedRow, StoredCred, Values};
use std::alloc::Global;
use std::test::Fail;

/// A row with its place.
#[derive(Drop)]
struct Listed {
    realm: Name,
    name: Name,
    row: SharedRow,
}

/// Rows in a list. Where they can't be shared, to share one is answered as want of memory.
#[derive(Drop)]
struct Listing {
    rows: Vec<Listed>,
    can_share: bool,
}

/// The row of the name in the realm.
fn row_in<'a>(rows: &'a [Listed], realm: &Name, name: &Name) -> Option<&'a SharedRow>
    ensures { option_copied result
        ≡ option_map (λ l. l.row) (find (λ l. is_place l.realm l.name realm.now name.now) rows.now) }
{
    for listed in rows {
        if realm.is(&listed.realm) && name.is(&listed.name) {
            return Some(&listed.row);
        }
    }
    None
}

impl RowSource for Listing {
    ghost rows = { λ t r n. option_map (λ l. l.row) (find (λ l. is_place l.realm l.name r n) t.rows.items) };

    fn row_now(&self, realm: &Name, name: &Name) -> Option<&Row> {
        match row_in(&self.rows, realm, name) {
            None => None,
            Some(shared) => Some(shared.row()),
        }
    }

    fn row_shared(&self, realm: &Name, name: &Name) -> Result<Option<SharedRow>, NoMemory> {
        match row_in(&self.rows, realm, name) {
            None => Ok(None),
            Some(shared) if self.can_share => Ok(Some(shared.share()?)),
            Some(_) => Err(NoMemory),
        }
    }
}

/// The name of a text.
fn name(alloc: Global, text: &[u8]) -> Result<Name, NoMemory> {
    match Name::read(alloc, text) {
        Ok(name) => Ok(name),
        Err(_) => Err(NoMemory),
    }
}

/// The names of a text with a comma between; none of the empty text.
fn names(alloc: Global, text: &str) -> Result<Vec<Name>, NoMemory> {
    let mut list = Vec::new(alloc);
    for part in text.split(',') {
        if !part.is_empty() {
            list.push(name(alloc, part.as_bytes())?)?;
        }
    }
    Ok(list)
}

/// The row with the attribute, where there is room for it. Its values stand in the text with a comma between.
fn with_attr(alloc: Global, row: Row, attr: &[u8], text: &str) -> Result<Row, NoMemory> {
    let attr = name(alloc, attr)?;
    let Ok(values) = Values::read(names(alloc, text)?) else {
        return Err(NoMemory);
    };
    if !row.has_attr_room(&attr) {
        return Err(NoMemory);
    }
    row.with_attr(attr, values)
}

/// A row with a password in a slot.
fn keyed(alloc: Global) -> Result<Row, NoMemory> {
    let Ok(cred) = StoredCred::read(alloc, b"clear", b"pencil") else {
        return Err(NoMemory);
    };
    let row = Row::new(alloc);
    if !row.has_cred_room(1) {
        return Err(NoMemory);
    }
    row.with(1, cred)
}

/// A row with or without a password, and with attributes.
fn row(alloc: Global, has_password: bool, attrs: &[(&str, &str)]) -> Result<Row, NoMemory> {
    let mut row = if has_password {
        keyed(alloc)?
    } else {
        Row::new(alloc)
    };
    for (attr, values) in attrs {
        row = with_attr(alloc, row, attr.as_bytes(), values)?;
    }
    Ok(row)
}

/// A row with 32 attributes: the names are the byte and one of the 32 from `A` on.
fn row_of_32(alloc: Global, first: u8) -> Result<Row, NoMemory> {
    let mut row = Row::new(alloc);
    for second in b'A'..b'a' {
        row = with_attr(alloc, row, &[first, second], "x")?;
    }
    Ok(row)
}

/// A row with its place, to be shared.
fn row_at(alloc: Global, realm: &str, user: &str, row: Row) -> Result<Listed, NoMemory> {
    Ok(Listed {
        realm: name(alloc, realm.as_bytes())?,
        name: name(alloc, user.as_bytes())?,
        row: SharedRow::new(alloc, row)?,
    })
}

/// The rows of `u` in the realms `keys`, `one`, `two` and `least`, and of `v` in `one` and `two`.
fn some_rows(alloc: Global) -> Result<Listing, NoMemory> {
    let table: [(&str, &str, bool, &[(&str, &str)]); 6] = [
        ("keys", "u", true, &[("shoe", "k")]),
        ("one", "u", true, &[("groups", "a,b")]),
        ("two", "u", false, &[("mail", "d"), ("groups", "c")]),
        ("one", "v", false, &[("groups", "e")]),
        ("two", "v", true, &[]),
        ("least", "u", false, &[("a", "x")]),
    ];
    let mut rows = Vec::new(alloc);
    for (realm, user, has_password, attrs) in table {
        rows.push(row_at(alloc, realm, user, row(alloc, has_password, attrs)?)?)?;
    }
    Ok(Listing {
        rows,
        can_share: true,
    })
}

/// An aggregate of the first realm for credentials and those of the text for attributes; the first realm alone, where there
/// is no text.
fn plan(alloc: Global, first: &str, authorization: Option<&str>) -> Result<RealmPlan, NoMemory> {
    let first = name(alloc, first.as_bytes())?;
    match authorization {
        None => Ok(RealmPlan::Basic(first)),
        Some(text) => Ok(RealmPlan::Aggregate {
            authentication: first,
            authorization: Items::of(names(alloc, text)?),
        }),
    }
}

/// A row as a text: whether it has a password, and its attributes with their values.
fn shown(alloc: Global, row: &Row) -> Result<Vec<u8>, NoMemory> {
    let mut text = Vec::new(alloc);
    text.push(if row.has_cred(1) { b'*' } else { b'-' })?;
    for (attr, values) in row.attrs() {
        text.push(b' ')?;
        text.extend_from_slice(attr.bytes())?;
        for value in values.all() {
            text.push(b'=')?;
            text.extend_from_slice(value.bytes())?;
        }
    }
    Ok(text)
}

/// The identity of the name by the plan as a text, which is empty where there is none.
fn assembled(
    alloc: Global,
    rows: &Listing,
    plan: &RealmPlan,
    user: &str,
) -> Result<Vec<u8>, NoMemory> {
    let user = name(alloc, user.as_bytes())?;
    match assemble::<Listing>(alloc, plan, &user, rows)? {
        None => Ok(Vec::new(alloc)),
        Some(shared) => shown(alloc, shared.row()),
    }
}

#[test]
fn the_first_realm_that_has_an_attribute_gives_it(rt: HostRuntime) -> Result<(), Fail> {
    let alloc = rt.alloc();
    let rows = some_rows(alloc)?;
    let table: [(&str, &str, &str); 8] = [
        ("keys", "one,two", "* groups=a=b mail=d"),
        ("keys", "two,one", "* groups=c mail=d"),
        ("keys", "void,one,void", "* groups=a=b"),
        ("keys", "void", "*"),
        ("keys", "", "*"),
        ("keys", "two,keys", "* groups=c mail=d shoe=k"),
        ("two", "one", "- groups=a=b"),
        ("two", "two,one", "- groups=c mail=d"),
    ];
    for (authentication, authorization, wanted) in table {
        let plan = plan(alloc, authentication, Some(authorization))?;
        let shown = assembled(alloc, &rows, &plan, "u")?;
        assert_eq!(rt; shown.as_slice(), wanted.as_bytes());
    }
    Ok(())
}

#[test]
fn there_is_no_identity_without_a_row_for_credentials(rt: HostRuntime) -> Result<(), Fail> {
    let alloc = rt.alloc();
    let rows = some_rows(alloc)?;
    let table: [(&str, Option<&str>, &str, &str); 8] = [
        ("keys", Some("one,two"), "v", ""),
        ("two", Some("one"), "v", "* groups=e"),
        ("void", Some("keys,one"), "u", ""),
        ("one", None, "u", "* groups=a=b"),
        ("one", None, "v", "- groups=e"),
        ("keys", None, "v", ""),
        ("void", None, "u", ""),
        ("one", None, "w", ""),
    ];
    for (first, authorization, user, wanted) in table {
        let plan = plan(alloc, first, authorization)?;
        let shown = assembled(alloc, &rows, &plan, user)?;
        assert_eq!(rt; shown.as_slice(), wanted.as_bytes());
    }
    Ok(())
}

/// How many attributes a row has, with the first and the last of them.
fn ends(alloc: Global, row: &Row) -> Result<(usize, Vec<u8>), NoMemory> {
    let mut text = Vec::new(alloc);
    if let Some((attr, _)) = row.attrs().first_key_value() {
        text.extend_from_slice(attr.bytes())?;
    }
    if let Some((attr, _)) = row.attrs().last_key_value() {
        text.push(b' ')?;
        text.extend_from_slice(attr.bytes())?;
    }
    Ok((row.attr_count(), text))
}

/// The same rows, and rows of `u` with 32 attributes each in the realms `low` and `high`.
fn many_rows(alloc: Global) -> Result<Listing, NoMemory> {
    let mut rows = some_rows(alloc)?;
    for (realm, first) in [("low", b'b'), ("high", b'c')] {
        rows.rows
            .push(row_at(alloc, realm, "u", row_of_32(alloc, first)?)?)?;
    }
    Ok(rows)
}

#[test]
fn the_first_32_attributes_stand_in_the_order_of_their_bytes(rt: HostRuntime) -> Result<(), Fail> {
    let alloc = rt.alloc();
    let rows = many_rows(alloc)?;
    let user = name(alloc, b"u")?;
    let table: [(&str, usize, &str); 7] = [
        ("least,one", 2, "a groups"),
        ("low", 32, "bA b`"),
        ("low,least", 32, "a b_"),
        ("least,low", 32, "a b_"),
        ("high,low,two", 32, "bA b`"),
        ("two,high", 32, "cA c`"),
        ("high,two,least", 32, "a c_"),
    ];
    for (authorization, count, wanted) in table {
        let plan = plan(alloc, "keys", Some(authorization))?;
        let shared = assemble::<Listing>(alloc, &plan, &user, &rows)?.ok_or(NoMemory)?;
        let (attrs, text) = ends(alloc, shared.row())?;
        assert_eq!(rt; attrs, count);
        assert_eq!(rt; text.as_slice(), wanted.as_bytes());
    }
    Ok(())
}

#[test]
fn a_basic_plan_shares_the_row_and_an_aggregate_makes_one(rt: HostRuntime) -> Result<(), Fail> {
    let alloc = rt.alloc();
    let mut rows = some_rows(alloc)?;
    let user = name(alloc, b"u")?;
    for (can_share, authorization, is_made) in [
        (true, None, true),
        (true, Some("one"), true),
        (false, None, false),
        (false, Some("one"), true),
    ] {
        rows.can_share = can_share;
        let plan = plan(alloc, "one", authorization)?;
        assert!(rt; assemble::<Listing>(alloc, &plan, &user, &rows).is_ok() == is_made);
    }
    Ok(())
}

/// The places with a slash in each and a comma between.
fn places(alloc: Global, plan: &RealmPlan, user: &str) -> Result<Vec<u8>, NoMemory> {
    let mut text = Vec::new(alloc);
    for (realm, name) in deps(alloc, plan, &name(alloc, user.as_bytes())?)?.all() {
        if !text.is_empty() {
            text.push(b',')?;
        }
        text.extend_from_slice(realm.bytes())?;
        text.push(b'/')?;
        text.extend_from_slice(name.bytes())?;
    }
    Ok(text)
}

/// That values of the type may move between threads and be shared by them.
fn crosses<T: Send + Sync>() {}

#[test]
fn the_places_stand_in_the_order_of_the_plan(rt: HostRuntime) -> Result<(), Fail> {
    crosses::<RealmPlan>();
    let alloc = rt.alloc();
    let table: [(&str, Option<&str>, &str); 4] = [
        ("one", None, "one/u"),
        ("keys", Some(""), "keys/u"),
        ("keys", Some("two,one"), "keys/u,two/u,one/u"),
        ("two", Some("one,two"), "two/u,one/u,two/u"),
    ];
    for (first, authorization, wanted) in table {
        let places = places(alloc, &plan(alloc, first, authorization)?, "u")?;
        assert_eq!(rt; places.as_slice(), wanted.as_bytes());
    }
    Ok(())
}
