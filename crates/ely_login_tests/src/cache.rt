//! Rows of calls of small caches, each with the users that have an entry afterwards.

ghost use Rattle.std.specs.Prelude.{◌≡◌, ◌<◌, ◌≤◌};

use ely_base::{Bytes, Name, NoMemory};
use ely_cache::{Cache, Caches, Offered, Peeked};
use ely_cred::{Ready, choose, derive};
use ely_hash::Steps;
use ely_row::{Deps, Edit, Mech, Params, Row, StoredCred};
use std::alloc::Global;
use std::marker::Brand;
use std::sync::ledger::{Blank, Ledger};
use std::test::Fail;

fn name(alloc: Global, text: &[u8]) -> Result<Name, NoMemory> {
    match Name::read(alloc, text) {
        Ok(name) => Ok(name),
        Err(_) => Err(NoMemory),
    }
}

/// A row with a clear password.
fn row_of(alloc: Global) -> Result<Row, NoMemory> {
    let row = Row::new(alloc);
    let Ok(cred) = StoredCred::read(alloc, b"clear", b"pencil") else {
        return Err(NoMemory);
    };
    if !row.has_cred_room(1) {
        return Err(NoMemory);
    }
    row.with(1, cred)
}

fn counted_ready<L: Ledger>(
    blank: Blank,
    alloc: Global,
    user: &Name,
    row: &Row,
) -> Result<Ready, NoMemory>
    requires name { blank.name ≡ L.name }
    requires parts { blank.parts ≡ L.parts }
    requires some { 0 < blank.parts }
{
    let mut steps = Steps::<L>::of(blank);
    match choose(row, Mech::Plain) {
        None => Err(NoMemory),
        Some(_) => derive::<L>(
            alloc,
            user,
            user,
            row,
            Mech::Plain,
            &Params::plain(alloc),
            &mut steps,
        ),
    }
}

/// The user's key, in a realm of the user's name.
fn ready(alloc: Global, user: &Name) -> Result<Ready, NoMemory> {
    counted_ready::<Brand>(Blank::new(1), alloc, user, &row_of(alloc)?)
}

/// Places, each a realm and a name there.
type Pairs<'a> = &'a [(&'a [u8], &'a [u8])];

fn places(alloc: Global, pairs: Pairs) -> Result<Deps, NoMemory> {
    let mut places = Vec::new(alloc);
    for (realm, user) in pairs {
        places.push((name(alloc, realm)?, name(alloc, user)?))?;
    }
    Ok(Deps::of(places))
}

/// A call, with whether its answer is yes, and the users a to d that have an entry afterwards.
#[derive(Clone, Copy)]
struct Step<'a> {
    call: Call<'a>,
    yes: bool,
    left: &'a [u8],
}

#[derive(Clone, Copy)]
enum Call<'a> {
    /// A key of the user that rests on these places.
    Offer(&'a [u8], Pairs<'a>),
    Find(&'a [u8], Mech),
    /// An edit of the name in the realm.
    Change(&'a [u8], &'a [u8]),
    Reload(&'a [u8]),
}

/// An edit of one name, or of a whole realm.
fn edit(alloc: Global, realm: &[u8], user: Option<&[u8]>) -> Result<Edit, NoMemory> {
    let realm = name(alloc, realm)?;
    match user {
        Some(user) => Ok(Edit::Remove {
            realm,
            name: name(alloc, user)?,
        }),
        None => Ok(Edit::Reload {
            realm,
            users: Bytes::copy_of(alloc, b"")?,
            groups: Bytes::copy_of(alloc, b"")?,
        }),
    }
}

/// Makes the call, and says whether its answer is yes.
fn made(alloc: Global, cache: &mut Cache, call: &Call<'_>) -> Result<bool, NoMemory> {
    match call {
        Call::Offer(user, pairs) => {
            let user = name(alloc, user)?;
            let ready = ready(alloc, &user)?;
            let deps = places(alloc, pairs)?;
            Ok(cache.offer(alloc, user, Mech::Plain, ready, deps) == Offered::Kept)
        }
        Call::Find(user, mech) => Ok(cache.find(&name(alloc, user)?, *mech)),
        Call::Change(realm, user) => {
            cache.drop_touched(&edit(alloc, realm, Some(*user))?);
            Ok(true)
        }
        Call::Reload(realm) => {
            cache.drop_touched(&edit(alloc, realm, None)?);
            Ok(true)
        }
    }
}

/// Whether exactly these of the users a to d have an entry.
fn holds(alloc: Global, cache: &Cache, wanted: &[u8]) -> Result<bool, NoMemory> {
    let mut all = cache.len() == wanted.len();
    for user in [b'a', b'b', b'c', b'd'] {
        let found = cache.peek(&name(alloc, &[user])?, Mech::Plain);
        all = all && found.is_some() == wanted.contains(&user);
    }
    Ok(all)
}

/// How many of the steps go as they should, up to the first that doesn't.
fn passed(alloc: Global, cache: Cache, steps: &[Step]) -> Result<usize, NoMemory> {
    let mut cache = cache;
    for (i, step) in steps.iter().enumerate() {
        let yes = made(alloc, &mut cache, &step.call)?;
        if yes != step.yes || !holds(alloc, &cache, step.left)? {
            return Ok(i);
        }
    }
    Ok(steps.len())
}

fn row<'a>(call: Call<'a>, yes: bool, left: &'a [u8]) -> Step<'a> {
    Step { call, yes, left }
}

const MAIN: Pairs = &[(b"main", b"u")];

#[test]
fn a_hit_goes_to_the_front_and_the_least_recently_used_goes(rt: HostRuntime) -> Result<(), Fail> {
    let steps = [
        row(Call::Offer(b"a", MAIN), true, b"a"),
        row(Call::Offer(b"b", MAIN), true, b"ab"),
        row(Call::Find(b"a", Mech::Plain), true, b"ab"),
        row(Call::Find(b"b", Mech::Digest), false, b"ab"),
        row(Call::Find(b"c", Mech::Plain), false, b"ab"),
        row(Call::Offer(b"c", MAIN), true, b"ac"),
        row(Call::Offer(b"a", MAIN), true, b"ac"),
        row(Call::Offer(b"d", MAIN), true, b"ad"),
    ];
    assert_eq!(rt;
        passed(rt.alloc(), Cache::new(rt.alloc(), 2)?, &steps)?,
        steps.len()
    );
    Ok(())
}

#[test]
fn two_names_in_turn_take_the_only_entry_from_each_other(rt: HostRuntime) -> Result<(), Fail> {
    let steps = [
        row(Call::Find(b"a", Mech::Plain), false, b""),
        row(Call::Offer(b"a", MAIN), true, b"a"),
        row(Call::Find(b"a", Mech::Plain), true, b"a"),
        row(Call::Find(b"b", Mech::Plain), false, b"a"),
        row(Call::Offer(b"b", MAIN), true, b"b"),
        row(Call::Find(b"a", Mech::Plain), false, b"b"),
    ];
    assert_eq!(rt;
        passed(rt.alloc(), Cache::new(rt.alloc(), 1)?, &steps)?,
        steps.len()
    );
    Ok(())
}

#[test]
fn an_edit_drops_what_rests_on_its_place(rt: HostRuntime) -> Result<(), Fail> {
    let steps = [
        // An authentication realm `keys`, and authorization realms.
        row(
            Call::Offer(b"a", &[(b"keys", b"a"), (b"one", b"a"), (b"keys", b"a")]),
            true,
            b"a",
        ),
        row(
            Call::Offer(b"b", &[(b"keys", b"b"), (b"one", b"b")]),
            true,
            b"ab",
        ),
        row(Call::Offer(b"c", &[(b"keys", b"c")]), true, b"abc"),
        // In no plan.
        row(Call::Change(b"keys", b"d"), true, b"abc"),
        row(Call::Change(b"two", b"a"), true, b"abc"),
        row(Call::Change(b"key", b"sa"), true, b"abc"),
        row(Call::Change(b"one", b"c"), true, b"abc"),
        // An authorization place alone, and then an authentication place.
        row(Call::Change(b"one", b"a"), true, b"bc"),
        row(Call::Change(b"keys", b"b"), true, b"c"),
        // An equal key replaces, with its places.
        row(Call::Offer(b"c", &[(b"one", b"c")]), true, b"c"),
        row(Call::Change(b"keys", b"c"), true, b"c"),
        row(Call::Change(b"one", b"c"), true, b""),
    ];
    assert_eq!(rt;
        passed(rt.alloc(), Cache::new(rt.alloc(), 4)?, &steps)?,
        steps.len()
    );
    Ok(())
}

#[test]
fn a_reload_drops_what_rests_on_its_realm_and_nothing_else(rt: HostRuntime) -> Result<(), Fail> {
    let steps = [
        row(Call::Offer(b"a", &[(b"ab", b"a")]), true, b"a"),
        row(
            Call::Offer(b"b", &[(b"x", b"b"), (b"ab", b"zz")]),
            true,
            b"ab",
        ),
        // Realms that begin as it does, and bytes that look like its own.
        row(
            Call::Offer(b"c", &[(b"abc", b"c"), (b"a", b"bc")]),
            true,
            b"abc",
        ),
        row(
            Call::Offer(b"d", &[(b"x", b"\x02ab"), (b"\x02ab", b"ab")]),
            true,
            b"abcd",
        ),
        row(Call::Reload(b"b"), true, b"abcd"),
        row(Call::Reload(b"ab"), true, b"cd"),
        row(Call::Offer(b"a", &[(b"ab", b"a")]), true, b"acd"),
        row(Call::Reload(b"abc"), true, b"ad"),
        row(Call::Reload(b"x"), true, b"a"),
        row(Call::Reload(b"ab"), true, b""),
    ];
    assert_eq!(rt;
        passed(rt.alloc(), Cache::new(rt.alloc(), 4)?, &steps)?,
        steps.len()
    );
    Ok(())
}

/// A call of the caches of realms, with what is then kept for the users a, b and c in each of three realms.
#[derive(Clone, Copy)]
struct Turn<'a> {
    realm: &'a [u8],
    call: Call<'a>,
    kept: &'a [u8],
}

/// Makes the call in the realm; an edit is of all realms.
fn take_turn(
    alloc: Global,
    caches: &mut Caches,
    realm: &[u8],
    call: &Call<'_>,
) -> Result<(), NoMemory> {
    let realm = name(alloc, realm)?;
    match call {
        Call::Offer(user, pairs) => {
            let user = name(alloc, user)?;
            let ready = ready(alloc, &user)?;
            let deps = places(alloc, pairs)?;
            caches.offer(alloc, &realm, user, Mech::Plain, ready, deps);
        }
        Call::Find(user, mech) => caches.use_key(&realm, &name(alloc, user)?, *mech),
        Call::Change(other, user) => caches.drop_touched(&edit(alloc, other, Some(*user))?),
        Call::Reload(other) => caches.drop_touched(&edit(alloc, other, None)?),
    }
    Ok(())
}

/// For each of three realms and three users: an x for a hit, a dot for a miss, and a dash where the realm has no cache.
fn shown(alloc: Global, caches: &Caches) -> Result<Vec<u8>, NoMemory> {
    let mut shown = Vec::new(alloc);
    for realm in [b"one", b"two", b"new"] {
        for user in [b'a', b'b', b'c'] {
            let found = caches.peek(&name(alloc, realm)?, &name(alloc, &[user])?, Mech::Plain);
            shown.push(match found {
                Peeked::Hit(_) => b'x',
                Peeked::Miss => b'.',
                Peeked::NoCache => b'-',
            })?;
        }
    }
    Ok(shown)
}

/// How many of the turns go as they should, up to the first that doesn't, of caches of two entries for two realms.
fn turned(alloc: Global, turns: &[Turn]) -> Result<usize, NoMemory> {
    let mut caches = Caches::new(alloc);
    caches.add(alloc, name(alloc, b"one")?, 2)?;
    caches.add(alloc, name(alloc, b"two")?, 2)?;
    for (i, each) in turns.iter().enumerate() {
        take_turn(alloc, &mut caches, each.realm, &each.call)?;
        if shown(alloc, &caches)?.as_slice() != each.kept {
            return Ok(i);
        }
    }
    Ok(turns.len())
}

fn in_realm<'a>(realm: &'a [u8], call: Call<'a>, kept: &'a [u8]) -> Turn<'a> {
    Turn { realm, call, kept }
}

#[test]
fn each_realm_has_its_own_entries_and_an_edit_reaches_all(rt: HostRuntime) -> Result<(), Fail> {
    let turns = [
        in_realm(b"one", Call::Offer(b"a", &[(b"keys", b"a")]), b"x.....---"),
        in_realm(b"two", Call::Offer(b"a", &[(b"keys", b"a")]), b"x..x..---"),
        in_realm(b"new", Call::Offer(b"a", MAIN), b"x..x..---"),
        in_realm(b"two", Call::Offer(b"b", MAIN), b"x..xx.---"),
        in_realm(b"one", Call::Offer(b"c", MAIN), b"x.xxx.---"),
        // The realm's own order: a is used in one of them, and goes in the other.
        in_realm(b"one", Call::Find(b"a", Mech::Plain), b"x.xxx.---"),
        in_realm(b"new", Call::Find(b"a", Mech::Plain), b"x.xxx.---"),
        in_realm(b"one", Call::Offer(b"b", MAIN), b"xx.xx.---"),
        in_realm(b"two", Call::Offer(b"c", &[(b"keys", b"c")]), b"xx..xx---"),
        in_realm(b"two", Call::Offer(b"a", &[(b"keys", b"a")]), b"xx.x.x---"),
        in_realm(b"one", Call::Change(b"keys", b"a"), b".x...x---"),
        in_realm(b"one", Call::Reload(b"main"), b".....x---"),
        in_realm(b"one", Call::Reload(b"keys"), b"......---"),
    ];
    assert_eq!(rt; turned(rt.alloc(), &turns)?, turns.len());
    Ok(())
}

fn crosses<T: Send + Sync>() {}

#[test]
fn a_cache_may_cross_threads(_rt: HostRuntime) {
    crosses::<Cache>();
    crosses::<Caches>();
}
