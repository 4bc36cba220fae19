//! Configurations that are taken, and the first fault of others.

use self::Form::{Joined, Kept, Own, Texts};
use ely_base::{Bytes, Items, Name, NoMemory, Refused, discard};
use ely_config::RealmFault::{Limit, Nested, Unknown};
use ely_config::Reference::{Authentication, Authorization, Of};
use ely_config::{Config, ConfigFault, Members, RealmConfig, RealmFault, RealmKind};
use ely_perm::{Mode, PermRow, Permissions};
use ely_pipeline::{Pipeline, RealmMapper, Rule};
use ely_roles::RoleMapper;
use ely_row::{Params, PropFault};
use std::alloc::Global;
use std::fmt::Debug;
use std::test::Fail;

/// What is there with what was made beside it. Where that wanted memory, what is there is let go here.
fn beside<A: Drop, B>(there: A, made: Result<B, NoMemory>) -> Result<(A, B), NoMemory> {
    match made {
        Ok(made) => Ok((there, made)),
        Err(NoMemory) => Err(NoMemory),
    }
}

/// The list with what was made behind it. Where that wanted memory, the list is let go here.
fn behind<T: Drop>(list: Vec<T>, made: Result<T, NoMemory>) -> Result<Vec<T>, NoMemory> {
    let (mut list, made) = beside(list, made)?;
    list.push(made)?;
    Ok(list)
}

const USERS: &[u8] = b"u=939e7578ed9e3c518a452acee763bce9\n";

const MAIN: &[u8] = b"main";

const MORE: &[u8] = b"more";

/// What a realm is.
#[derive(Clone, Copy)]
enum Form {
    /// Its identities are changed one by one.
    Own,
    /// They are those of a text of users and one of groups.
    Texts(&'static [u8], &'static [u8]),
    /// They have the credentials of one realm and the attributes of others.
    Joined(&'static [u8], &'static [&'static [u8]]),
    /// They are those of another realm, with so many keys kept.
    Kept(&'static [u8], u32),
}

/// A realm by its name, the roles that its role mapper gives (there is no mapper where there are none) and its form.
type Told = (&'static [u8], &'static [&'static [u8]], Form);

/// Where the realm mapper leads.
#[derive(Clone, Copy)]
enum Led {
    /// There is none.
    Nowhere,
    /// Always to this realm.
    Always(&'static [u8]),
    /// To the realms of pairs.
    Pairs(&'static [&'static [u8]]),
}

/// What members are made of.
#[derive(Clone, Copy)]
struct Parts {
    digest_realm: &'static [u8],
    realms: &'static [Told],
    /// The realms that the pipeline knows.
    known: &'static [Told],
    default_realm: &'static [u8],
    led: Led,
    /// The names that the decoder requires.
    names: &'static [&'static [u8]],
    /// The roles that the role mapper gives. There is no mapper where there are none.
    roles: &'static [&'static [u8]],
    /// How many rows of permissions there are.
    rows: u8,
}

/// The realm that is there where nothing is said.
const FIRST: Told = (MAIN, &[], Own);

const TWO: &[Told] = &[FIRST, (MORE, &[], Own)];

const PLAIN: Parts = Parts {
    digest_realm: b"ManagementRealm",
    realms: &[FIRST],
    known: &[FIRST],
    default_realm: MAIN,
    led: Led::Nowhere,
    names: &[MAIN],
    roles: &[],
    rows: 1,
};

fn name(alloc: Global, text: &[u8]) -> Result<Name, NoMemory> {
    Name::read(alloc, text).map_err(|_| NoMemory)
}

fn names(alloc: Global, texts: &[&[u8]]) -> Result<Items<Name>, NoMemory> {
    let mut list = Vec::new(alloc);
    for text in texts {
        list.push(name(alloc, text)?)?;
    }
    Ok(Items::of(list))
}

fn role_mapper(alloc: Global, roles: &[&[u8]]) -> Result<Option<RoleMapper>, NoMemory> {
    if roles.is_empty() {
        return Ok(None);
    }
    Ok(Some(RoleMapper::Constant {
        roles: names(alloc, roles)?,
    }))
}

fn properties(alloc: Global, users: &[u8], groups: &[u8]) -> Result<RealmKind, NoMemory> {
    Ok(RealmKind::Properties {
        plain: false,
        users: Bytes::copy_of(alloc, users)?,
        groups: Bytes::copy_of(alloc, groups)?,
    })
}

fn aggregate(alloc: Global, first: &[u8], others: &[&[u8]]) -> Result<RealmKind, NoMemory> {
    Ok(RealmKind::Aggregate {
        authentication: name(alloc, first)?,
        authorization: names(alloc, others)?,
    })
}

fn caching(alloc: Global, of: &[u8], limit: u32) -> Result<RealmKind, NoMemory> {
    Ok(RealmKind::Caching {
        of: name(alloc, of)?,
        limit,
    })
}

fn kind(alloc: Global, form: Form) -> Result<RealmKind, NoMemory> {
    match form {
        Own => Ok(RealmKind::Modifiable),
        Texts(users, groups) => properties(alloc, users, groups),
        Joined(first, others) => aggregate(alloc, first, others),
        Kept(of, limit) => caching(alloc, of, limit),
    }
}

fn realm(alloc: Global, told: Told) -> Result<RealmConfig, NoMemory> {
    let texts = beside(name(alloc, told.0)?, name(alloc, b"groups"))?;
    let mapped = beside(texts, role_mapper(alloc, told.1))?;
    let (((name, role_attribute), role_mapper), kind) = beside(mapped, kind(alloc, told.2))?;
    Ok(RealmConfig {
        name,
        role_attribute,
        kind,
        role_mapper,
    })
}

fn realms(alloc: Global, all: &[Told]) -> Result<Items<RealmConfig>, NoMemory> {
    let mut list = Vec::new(alloc);
    for told in all {
        list = behind(list, realm(alloc, *told))?;
    }
    Ok(Items::of(list))
}

/// The realm of that name without a rule.
fn unruled(alloc: Global, text: &[u8]) -> Result<(Name, Option<Rule>), NoMemory> {
    Ok((name(alloc, text)?, None))
}

/// The same as a pipeline knows them, without a rule.
fn known(alloc: Global, all: &[Told]) -> Result<Items<(Name, Option<Rule>)>, NoMemory> {
    let mut list = Vec::new(alloc);
    for told in all {
        list = behind(list, unruled(alloc, told.0))?;
    }
    Ok(Items::of(list))
}

/// A mapper by pairs to these realms.
fn by_pairs(alloc: Global, to: &[&[u8]]) -> Result<RealmMapper, NoMemory> {
    let mut list = Vec::new(alloc);
    for realm in to {
        list = behind(list, beside(name(alloc, b"a")?, name(alloc, realm)))?;
    }
    let (list, mark) = beside(list, name(alloc, b"@"))?;
    Ok(RealmMapper::MapAfter {
        mark,
        pairs: Items::of(list),
    })
}

fn realm_mapper(alloc: Global, led: Led) -> Result<Option<RealmMapper>, NoMemory> {
    match led {
        Led::Nowhere => Ok(None),
        Led::Always(realm) => Ok(Some(RealmMapper::Constant {
            realm: name(alloc, realm)?,
        })),
        Led::Pairs(to) => Ok(Some(by_pairs(alloc, to)?)),
    }
}

fn pipeline(alloc: Global, parts: &Parts) -> Result<Pipeline, NoMemory> {
    let led = beside(
        name(alloc, parts.default_realm)?,
        realm_mapper(alloc, parts.led),
    )?;
    let known = beside(led, known(alloc, parts.known))?;
    let (((default_realm, mapper), realms), names) = beside(known, names(alloc, parts.names))?;
    Ok(Pipeline {
        pre: None,
        post: None,
        default_realm,
        realms,
        mapper,
        decoder: Some(Rule::Require { names }),
    })
}

fn perm_row(alloc: Global) -> Result<PermRow, NoMemory> {
    let (principals, roles) = beside(names(alloc, &[MAIN])?, names(alloc, &[MORE]))?;
    Ok(PermRow {
        principals,
        roles,
        match_all: false,
        grant: Items::of(Vec::new(alloc)),
    })
}

fn permissions(alloc: Global, count: u8) -> Result<Permissions, NoMemory> {
    let mut rows = Vec::new(alloc);
    for _ in 0..count {
        rows = behind(rows, perm_row(alloc))?;
    }
    Ok(Permissions {
        mode: Mode::Or,
        rows: Items::of(rows),
    })
}

fn members(alloc: Global, parts: &Parts) -> Result<Members, NoMemory> {
    let texts = Bytes::copy_of(alloc, parts.digest_realm)?;
    let led = beside(texts, pipeline(alloc, parts))?;
    let mapped = beside(led, role_mapper(alloc, parts.roles))?;
    let granted = beside(mapped, permissions(alloc, parts.rows))?;
    let ((((digest_realm, pipeline), role_mapper), permissions), realms) = beside(
        granted,
        realms(alloc, parts.realms),
    )?;
    Ok(Members {
        digest_realm,
        params: Params::plain(alloc),
        permissions,
        role_mapper,
        realms,
        pipeline,
    })
}

/// How many realms the configuration of these members has, or its fault.
fn taken(alloc: Global, parts: &Parts) -> Result<Result<usize, ConfigFault>, NoMemory> {
    match Config::of(alloc, members(alloc, parts)?) {
        Ok(config) => {
            let count = config.realms().len();
            discard(config);
            Ok(Ok(count))
        }
        Err(Refused::Fault(fault)) => Ok(Err(fault)),
        Err(Refused::NoMemory) => Err(NoMemory),
    }
}

/// The same of members that have these realms and are plain for the rest.
fn realms_taken(
    alloc: Global,
    realms: &'static [Told],
) -> Result<Result<usize, ConfigFault>, NoMemory> {
    let parts = Parts {
        realms,
        known: realms,
        ..PLAIN
    };
    taken(alloc, &parts)
}

/// Some realms with the number of the first that isn't taken, and its fault, where one isn't.
type Row = (&'static [Told], Option<(usize, RealmFault)>);

/// What comes of such a row.
fn outcome(realms: &[Told], fault: Option<(usize, RealmFault)>) -> Result<usize, ConfigFault> {
    match fault {
        None => Ok(realms.len()),
        Some((at, fault)) => Err(ConfigFault::Realm { at, fault }),
    }
}

/// Realms in which at most one is faulty, and what comes of them.
const REALMS: [Row; 8] = [
    (
        &[FIRST, (b"file", &[MAIN; 64], Texts(USERS, b"u=a, b\n"))],
        None,
    ),
    (&[FIRST, (MORE, &[], Own)], None),
    (
        &[FIRST, (MAIN, &[MAIN; 65], Texts(b"x", b""))],
        Some((1, RealmFault::Twice)),
    ),
    (
        &[FIRST, (MORE, &[MAIN; 65], Own)],
        Some((1, RealmFault::RoleMapper)),
    ),
    (
        &[FIRST, (b"file", &[MAIN; 65], Texts(b"x", b""))],
        Some((1, RealmFault::RoleMapper)),
    ),
    (
        &[FIRST, (b"file", &[MAIN; 64], Texts(b"\nx", b"x"))],
        Some((1, RealmFault::Users(PropFault::BadLine(2)))),
    ),
    (
        &[FIRST, (b"file", &[], Texts(USERS, b"x"))],
        Some((1, RealmFault::Groups(PropFault::BadLine(1)))),
    ),
    (
        &[FIRST, (b"file", &[], Texts(b"u=0", b""))],
        Some((1, RealmFault::Users(PropFault::BadHex(1)))),
    ),
];

#[test]
fn the_first_faulty_realm_is_told(rt: HostRuntime) -> Result<(), Fail> {
    for (realms, fault) in REALMS {
        assert!(rt; realms_taken(rt.alloc(), realms)? == outcome(realms, fault));
    }
    Ok(())
}

/// A caching realm that is taken behind `FIRST`.
const CACHE: Told = (b"cache", &[], Kept(MAIN, 1));

/// Realms that refer to others, and what comes of them.
const REFERENCES: [Row; 25] = [
    (
        &[FIRST, (b"both", &[], Joined(MAIN, &[]))],
        Some((1, RealmFault::Authorization)),
    ),
    (&[FIRST, (b"both", &[], Joined(MAIN, &[MAIN; 15]))], None),
    (
        &[FIRST, (b"both", &[], Joined(MAIN, &[MAIN; 16]))],
        Some((1, RealmFault::Authorization)),
    ),
    (
        &[FIRST, (b"both", &[], Joined(b"no", &[]))],
        Some((1, RealmFault::Authorization)),
    ),
    (&[FIRST, (b"cache", &[], Kept(MAIN, 0))], Some((1, Limit))),
    (&[FIRST, (b"cache", &[], Kept(MAIN, 65_536))], None),
    (
        &[FIRST, (b"cache", &[], Kept(MAIN, 65_537))],
        Some((1, Limit)),
    ),
    (&[FIRST, (b"cache", &[], Kept(b"no", 0))], Some((1, Limit))),
    (
        &[FIRST, (b"cache", &[MAIN; 65], Kept(MAIN, 0))],
        Some((1, RealmFault::RoleMapper)),
    ),
    (
        &[FIRST, (b"both", &[], Joined(b"no", &[MAIN]))],
        Some((1, Unknown(Authentication))),
    ),
    (
        &[FIRST, (b"both", &[], Joined(MAIN, &[MAIN, b"no"]))],
        Some((1, Unknown(Authorization(1)))),
    ),
    (
        &[FIRST, (b"cache", &[], Kept(b"no", 1))],
        Some((1, Unknown(Of))),
    ),
    (
        &[FIRST, CACHE, (b"both", &[], Joined(b"cache", &[b"no"]))],
        Some((2, Nested(Authentication))),
    ),
    (
        &[
            FIRST,
            CACHE,
            (b"both", &[], Joined(MAIN, &[MAIN, b"cache", b"no"])),
        ],
        Some((2, Nested(Authorization(1)))),
    ),
    (
        &[FIRST, CACHE, (b"both", &[], Joined(b"no", &[b"cache"]))],
        Some((2, Unknown(Authentication))),
    ),
    (
        &[FIRST, CACHE, (MORE, &[], Kept(b"cache", 1))],
        Some((2, Nested(Of))),
    ),
    (
        &[FIRST, (b"both", &[], Joined(b"both", &[MAIN]))],
        Some((1, Nested(Authentication))),
    ),
    (
        &[FIRST, (b"both", &[], Joined(MAIN, &[b"both"]))],
        Some((1, Nested(Authorization(0)))),
    ),
    (
        &[FIRST, (b"cache", &[], Kept(b"cache", 1))],
        Some((1, Nested(Of))),
    ),
    (
        &[
            FIRST,
            (b"both", &[], Joined(MORE, &[MORE, MAIN])),
            (MORE, &[], Texts(USERS, b"")),
        ],
        None,
    ),
    (
        &[FIRST, (b"cache", &[], Kept(MORE, 1)), (MORE, &[], Own)],
        None,
    ),
    (
        &[
            FIRST,
            (MORE, &[], Own),
            (b"both", &[], Joined(MAIN, &[MAIN, MORE])),
            (b"cache", &[], Kept(b"both", 1)),
        ],
        None,
    ),
    (
        &[
            FIRST,
            (b"cache", &[], Kept(b"no", 1)),
            (MORE, &[], Texts(b"x", b"")),
        ],
        Some((1, Unknown(Of))),
    ),
    (
        &[
            FIRST,
            (MORE, &[], Texts(b"x", b"")),
            (b"cache", &[], Kept(b"no", 1)),
        ],
        Some((1, RealmFault::Users(PropFault::BadLine(1)))),
    ),
    (
        &[FIRST, CACHE, (MAIN, &[], Kept(b"no", 0))],
        Some((2, RealmFault::Twice)),
    ),
];

#[test]
fn the_first_faulty_reference_is_told(rt: HostRuntime) -> Result<(), Fail> {
    for (realms, fault) in REFERENCES {
        assert!(rt; realms_taken(rt.alloc(), realms)? == outcome(realms, fault));
    }
    Ok(())
}

/// Realms with names of their own.
const ALL: &[Told] = &[
    FIRST,
    (b"b", &[], Own),
    (b"c", &[], Own),
    (b"d", &[], Own),
    (b"e", &[], Own),
    (b"f", &[], Own),
    (b"g", &[], Own),
    (b"h", &[], Own),
    (b"i", &[], Own),
    (b"j", &[], Own),
    (b"k", &[], Own),
    (b"l", &[], Own),
    (b"m", &[], Own),
    (b"n", &[], Own),
    (b"o", &[], Own),
    (b"p", &[], Own),
    (b"q", &[], Own),
];

/// Realms of Digest with numbers of realms.
const COUNTS: [(&[u8], usize, Result<usize, ConfigFault>); 5] = [
    (b"r", 0, Err(ConfigFault::Realms)),
    (b"r", 16, Ok(16)),
    (b"r", 17, Err(ConfigFault::Realms)),
    (b"", 0, Err(ConfigFault::DigestRealm)),
    (b"a\"b", 1, Err(ConfigFault::DigestRealm)),
];

#[test]
fn there_are_1_to_16_realms_and_one_for_digest(rt: HostRuntime) -> Result<(), Fail> {
    for (digest_realm, count, expected) in COUNTS {
        let realms = &ALL[..count];
        let parts = Parts {
            digest_realm,
            realms,
            known: realms,
            ..PLAIN
        };
        assert!(rt; taken(rt.alloc(), &parts)? == expected);
    }
    Ok(())
}

/// What a pipeline knows in place of two realms, and what comes of it.
const KNOWN: [(&[Told], Result<usize, ConfigFault>); 6] = [
    (&[FIRST, (MORE, &[], Own)], Ok(2)),
    (&[(MORE, &[], Own), FIRST], Err(ConfigFault::Pipeline)),
    (&[FIRST], Err(ConfigFault::Pipeline)),
    (
        &[FIRST, (MORE, &[], Own), (MORE, &[], Own)],
        Err(ConfigFault::Pipeline),
    ),
    (&[FIRST, (b"mor", &[], Own)], Err(ConfigFault::Pipeline)),
    (&[], Err(ConfigFault::Pipeline)),
];

#[test]
fn the_pipeline_knows_the_realms_in_their_order(rt: HostRuntime) -> Result<(), Fail> {
    for (known, expected) in KNOWN {
        let parts = Parts {
            realms: TWO,
            known,
            ..PLAIN
        };
        assert!(rt; taken(rt.alloc(), &parts)? == expected);
    }
    Ok(())
}

/// The names of a decoder, the realms of pairs, the roles of a mapper and a number of rows.
const SIZES: [(&[&[u8]], &[&[u8]], &[&[u8]], u8, Result<usize, ConfigFault>); 8] = [
    (&[MAIN; 64], &[MAIN; 64], &[MAIN; 64], 64, Ok(1)),
    (&[MAIN], &[MAIN], &[], 0, Ok(1)),
    (
        &[MAIN; 65],
        &[MAIN],
        &[MAIN; 65],
        65,
        Err(ConfigFault::Pipeline),
    ),
    (&[], &[MAIN], &[MAIN], 1, Err(ConfigFault::Pipeline)),
    (&[MAIN], &[MAIN; 65], &[MAIN], 1, Err(ConfigFault::Pipeline)),
    (&[MAIN], &[], &[MAIN], 1, Err(ConfigFault::Pipeline)),
    (
        &[MAIN],
        &[MAIN],
        &[MAIN; 65],
        65,
        Err(ConfigFault::RoleMapper),
    ),
    (
        &[MAIN],
        &[MAIN],
        &[MAIN; 64],
        65,
        Err(ConfigFault::Permissions),
    ),
];

#[test]
fn what_is_too_large_or_empty_is_told(rt: HostRuntime) -> Result<(), Fail> {
    for (names, to, roles, rows, expected) in SIZES {
        let parts = Parts {
            names,
            led: Led::Pairs(to),
            roles,
            rows,
            ..PLAIN
        };
        assert!(rt; taken(rt.alloc(), &parts)? == expected);
    }
    Ok(())
}

/// Default realms with realm mappers.
const LEADS: [(&[u8], Led, Result<usize, ConfigFault>); 8] = [
    (MAIN, Led::Nowhere, Ok(2)),
    (MORE, Led::Pairs(&[MAIN, MORE]), Ok(2)),
    (b"mor", Led::Nowhere, Err(ConfigFault::DefaultRealm)),
    (b"mor", Led::Always(b"mor"), Err(ConfigFault::DefaultRealm)),
    (MAIN, Led::Always(MORE), Ok(2)),
    (MAIN, Led::Always(b"mor"), Err(ConfigFault::MappedRealm(0))),
    (
        MAIN,
        Led::Pairs(&[b"mor"]),
        Err(ConfigFault::MappedRealm(0)),
    ),
    (
        MAIN,
        Led::Pairs(&[MORE, b"mor", b"no"]),
        Err(ConfigFault::MappedRealm(1)),
    ),
];

#[test]
fn names_are_led_to_realms_that_are_there(rt: HostRuntime) -> Result<(), Fail> {
    for (default_realm, led, expected) in LEADS {
        let parts = Parts {
            realms: TWO,
            known: TWO,
            default_realm,
            led,
            ..PLAIN
        };
        assert!(rt; taken(rt.alloc(), &parts)? == expected);
    }
    Ok(())
}

/// The configuration of members that are taken.
fn sound(alloc: Global, parts: &Parts) -> Result<Config, NoMemory> {
    Config::of(alloc, members(alloc, parts)?).map_err(|_| NoMemory)
}

/// Whether a realm is found by this name, and has it.
fn is_found(alloc: Global, config: &Config, text: &[u8]) -> Result<bool, NoMemory> {
    let text = name(alloc, text)?;
    Ok(
        config
            .realm_named(&text)
            .is_some_and(|realm| realm.name.is(&text)),
    )
}

/// Whether each realm is found by its name, and none by another.
fn are_found(alloc: Global, config: &Config) -> Result<bool, NoMemory> {
    let rows: [(&[u8], bool); 4] = [
        (MAIN, true),
        (MORE, true),
        (b"mor", false),
        (b"mores", false),
    ];
    for (text, there) in rows {
        if is_found(alloc, config, text)? != there {
            return Ok(false);
        }
    }
    Ok(true)
}

#[test]
fn a_realm_is_found_by_its_name(rt: HostRuntime) -> Result<(), Fail> {
    let config = sound(
        rt.alloc(),
        &Parts {
            realms: TWO,
            known: TWO,
            ..PLAIN
        },
    )?;
    let found = are_found(rt.alloc(), &config);
    discard(config);
    assert!(rt; found?);
    Ok(())
}

/// Whether a value and its copy are printed alike.
fn is_alike<T: Debug + Drop>(alloc: Global, value: &T, copy: T) -> Result<bool, NoMemory> {
    let text = format!(in alloc; "{copy:?}");
    discard(copy);
    Ok(text?.as_str() == format!(in alloc; "{value:?}")?.as_str())
}

/// Whether the copies of a configuration and of what it has are equal.
fn are_alike(alloc: Global, config: &Config) -> Result<bool, NoMemory> {
    for realm in config.realms() {
        if !is_alike(alloc, &realm.kind, realm.kind.copy(alloc)?)? {
            return Ok(false);
        }
        if !is_alike(alloc, realm, realm.copy(alloc)?)? {
            return Ok(false);
        }
    }
    is_alike(alloc, config, config.copy(alloc)?)
}

/// A realm of each kind.
const KINDS: &[Told] = &[
    FIRST,
    (MORE, &[MAIN, MORE], Texts(USERS, b"u=a, b\n")),
    (b"both", &[], Joined(MAIN, &[MORE, MAIN])),
    (b"cache", &[], Kept(b"both", 2)),
];

#[test]
fn a_copy_is_equal(rt: HostRuntime) -> Result<(), Fail> {
    let parts = Parts {
        realms: KINDS,
        known: KINDS,
        led: Led::Pairs(&[MORE]),
        roles: &[MAIN],
        ..PLAIN
    };
    let config = sound(rt.alloc(), &parts)?;
    let equal = are_alike(rt.alloc(), &config);
    discard(config);
    assert!(rt; equal?);
    Ok(())
}
