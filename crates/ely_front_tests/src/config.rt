//! What no script of the program shows yet: scripts under other configurations, and steps that come apart from their line.

ghost use Rattle.std.specs.Prelude.{◌≡◌, ◌<◌};

use crate::making::{behind, beside, put};
use ely_base::{Bytes, CtxId, Items, Name, NoMemory, Refused, Serial, discard};
use ely_config::{Config, Members, RealmConfig, RealmKind};
use ely_domain::{Domain, Event, JOURNAL_LIMIT};
use ely_front::run_line;
use ely_hash::Steps;
use ely_login::{Claim, Evidence, Outcome, StateWord};
use ely_pipeline::Rule;
use ely_script::{Command, Entry, LineError, push_step, read_line};
use std::alloc::Global;
use std::marker::Brand;
use std::sync::ledger::{Blank, Ledger};
use std::test::Fail;

/// The line that the bytes are.
fn line_of(alloc: Global, text: &[u8]) -> Result<Result<Command, LineError>, NoMemory> {
    match read_line(alloc, text) {
        Ok(command) => Ok(Ok(command)),
        Err(Refused::Fault(fault)) => Ok(Err(fault)),
        Err(Refused::NoMemory) => Err(NoMemory),
    }
}

/// Puts what the entries print behind what is there, and gives the number of the next step.
fn push_all(out: &mut Vec<u8>, number: u64, line: u64, entries: &[Entry]) -> Result<u64, NoMemory> {
    let mut next = number;
    for entry in entries {
        push_step(out, next, line, entry)?;
        next = next.saturating_add(1);
    }
    Ok(next)
}

/// Puts what the line prints behind what is there, and gives the number of the next step. What owns much is let go by
/// `discard`.
pub(crate) fn push_line<L: Ledger>(
    alloc: Global,
    domain: &mut Domain,
    text: &[u8],
    line: u64,
    number: u64,
    out: &mut Vec<u8>,
    steps: &mut Steps<L>,
) -> Result<u64, NoMemory> {
    if domain.opened() == u64::MAX {
        return Err(NoMemory);
    }
    let read = line_of(alloc, text)?;
    let made = run_line(alloc, domain, &read, steps);
    discard(read);
    let entries = made?;
    let pushed = push_all(out, number, line, entries.as_slice());
    discard(entries);
    pushed
}

/// Puts what the lines print behind what is there.
fn push_script<L: Ledger>(
    alloc: Global,
    domain: &mut Domain,
    script: &[u8],
    out: &mut Vec<u8>,
    steps: &mut Steps<L>,
) -> Result<(), NoMemory> {
    let mut number = 1;
    let mut line: u64 = 0;
    for text in script.split(|b| *b == b'\n') {
        line = line.saturating_add(1);
        number = push_line(alloc, domain, text, line, number, out, steps)?;
    }
    Ok(())
}

/// A domain of the configuration, with the journal that each mode gives it.
pub(crate) fn domain_of(alloc: Global, config: Config) -> Result<Domain, NoMemory> {
    let _realms = config.realms();
    Domain::new(alloc, config, JOURNAL_LIMIT)
}

/// What the lines print under the configuration.
pub(crate) fn counted<L: Ledger>(
    blank: Blank,
    alloc: Global,
    config: Config,
    script: &[u8],
) -> Result<Vec<u8>, NoMemory>
    requires name { blank.name ≡ L.name }
    requires parts { blank.parts ≡ L.parts }
    requires some { 0 < blank.parts }
{
    let mut steps = Steps::<L>::of(blank);
    let mut domain = domain_of(alloc, config)?;
    let mut out = Vec::new(alloc);
    let pushed = push_script(alloc, &mut domain, script, &mut out, &mut steps);
    discard(domain);
    pushed?;
    Ok(out)
}

/// A configuration of these parts.
pub(crate) fn config_of(alloc: Global, members: Members) -> Result<Config, NoMemory> {
    match Config::of(alloc, members) {
        Ok(config) => Ok(config),
        Err(_) => Err(NoMemory),
    }
}

/// The name `file`.
fn file_name(alloc: Global) -> Result<Name, NoMemory> {
    Ok(Name::of(Vec::from_slice(alloc, b"file")?))
}

/// A realm `file` of users and groups.
fn file_realm(alloc: Global, users: &[u8], groups: &[u8]) -> Result<RealmConfig, NoMemory> {
    let name = file_name(alloc)?;
    let role_attribute = Name::of(Vec::from_slice(alloc, b"groups")?);
    let users = Bytes::copy_of(alloc, users)?;
    let groups = Bytes::copy_of(alloc, groups)?;
    Ok(RealmConfig {
        name,
        kind: RealmKind::Properties {
            plain: false,
            users,
            groups,
        },
        role_attribute,
        role_mapper: None,
    })
}

/// The realms that the stages of a name know: one that is named `file`, without a rule.
fn known_file(alloc: Global) -> Result<Items<(Name, Option<Rule>)>, NoMemory> {
    let name = file_name(alloc)?;
    Ok(Items::of(behind(Vec::new(alloc), Ok((name, None)))?))
}

/// What a configuration has of a realm `file`.
#[derive(Drop)]
struct FileParts {
    name: Name,
    known: Items<(Name, Option<Rule>)>,
    realms: Vec<RealmConfig>,
}

/// What a configuration has whose one realm is `file`.
fn file_parts(alloc: Global, users: &[u8], groups: &[u8]) -> Result<FileParts, NoMemory> {
    let names = beside(file_name(alloc)?, known_file(alloc))?;
    let realms = behind(Vec::new(alloc), file_realm(alloc, users, groups));
    let ((name, known), realms) = beside(names, realms)?;
    Ok(FileParts {
        name,
        known,
        realms,
    })
}

/// A configuration with this realm of Digest and one realm, which is `main` or one of users and groups.
fn config(
    alloc: Global,
    digest_realm: &[u8],
    texts: Option<(&[u8], &[u8])>,
) -> Result<Config, NoMemory> {
    let realm = Bytes::copy_of(alloc, digest_realm)?;
    let (realm, mut members) = beside(realm, Members::plain(alloc))?;
    put(&mut members.digest_realm, realm);
    let Some((users, groups)) = texts else {
        return config_of(alloc, members);
    };
    let (mut members, parts) = beside(members, file_parts(alloc, users, groups))?;
    let FileParts {
        name,
        known,
        realms,
    } = parts;
    put(&mut members.pipeline.default_realm, name);
    put(&mut members.pipeline.realms, known);
    put(&mut members.realms, Items::of(realms));
    config_of(alloc, members)
}

/// What the script prints under the configuration.
fn printed(
    alloc: Global,
    digest_realm: &[u8],
    texts: Option<(&[u8], &[u8])>,
    script: &[u8],
) -> Result<Vec<u8>, NoMemory> {
    counted::<Brand>(
        Blank::new(1),
        alloc,
        config(alloc, digest_realm, texts)?,
        script,
    )
}

/// Logins by Digest under RFC 7616's realm: its own headers (section 3.9.1), a count that was used, a nonce that was never
/// issued, and one that is issued again.
const HEADERS: [(&[u8], &[u8]); 2] = [
    (
        b"0 add main Mufasa
0 set-cred main Mufasa 1 clear Circle%20of%20Life
0 open 1 DIGEST 7ypf/xlj9XXwfDPEoM4URrv/xwf94BcCAzFZH4GiTo0v
0 digest 1 GET /dir/index.html Digest username=\"Mufasa\", realm=\"http-auth@example.org\", uri=\"/dir/index.html\", algorithm=MD5, nonce=\"7ypf/xlj9XXwfDPEoM4URrv/xwf94BcCAzFZH4GiTo0v\", nc=00000001, cnonce=\"f2/wE4q74E6zIJEtWaHKaf5wv/H5QzzpXusqGemxURZJ\", qop=auth, response=\"8ca523f5e9506fed4657c9700eebdbec\"
0 open 2 DIGEST abc
0 digest 2 GET /dir/index.html Digest username=\"Mufasa\", realm=\"http-auth@example.org\", uri=\"/dir/index.html\", algorithm=MD5, nonce=\"7ypf/xlj9XXwfDPEoM4URrv/xwf94BcCAzFZH4GiTo0v\", nc=00000001, cnonce=\"f2/wE4q74E6zIJEtWaHKaf5wv/H5QzzpXusqGemxURZJ\", qop=auth, response=\"8ca523f5e9506fed4657c9700eebdbec\"
0 digest 2 GET /dir/index.html Digest username=\"Mufasa\", realm=\"http-auth@example.org\", uri=\"/dir/index.html\", algorithm=MD5, nonce=\"xyz\", nc=00000001, cnonce=\"f2/wE4q74E6zIJEtWaHKaf5wv/H5QzzpXusqGemxURZJ\", qop=auth, response=\"8ca523f5e9506fed4657c9700eebdbec\"
0 open 3 DIGEST abc",
        b"1 0 1 add ok 1
2 0 2 set-cred ok 2
3 0 3 open ok 1 Digest realm=\"http-auth@example.org\", qop=\"auth\", algorithm=MD5, nonce=\"7ypf/xlj9XXwfDPEoM4URrv/xwf94BcCAzFZH4GiTo0v\"
4 0 4 name1 pinned 2 -
5 0 4 name2 named -
6 0 4 check1 ok
7 0 4 check2 proved
8 0 5 open ok 2 Digest realm=\"http-auth@example.org\", qop=\"auth\", algorithm=MD5, nonce=\"abc\"
9 0 6 name1 pinned 2 -
10 0 6 name2 named -
11 0 6 check1 replayed 1
12 0 7 name1 state named
13 0 8 open nonce-used
",
    ),
    (
        b"0 add main Mufasa
0 set-cred main Mufasa 1 clear Circle%20of%20Life
0 open 1 DIGEST-SHA-256 7ypf/xlj9XXwfDPEoM4URrv/xwf94BcCAzFZH4GiTo0v
0 digest 1 GET /dir/index.html Digest username=\"Mufasa\", realm=\"http-auth@example.org\", uri=\"/dir/index.html\", algorithm=SHA-256, nonce=\"7ypf/xlj9XXwfDPEoM4URrv/xwf94BcCAzFZH4GiTo0v\", nc=00000001, cnonce=\"f2/wE4q74E6zIJEtWaHKaf5wv/H5QzzpXusqGemxURZJ\", qop=auth, response=\"753927fa0e85d155564e2e272a28d1802ca10daf4496794697cf8db5856cb6c1\"
0 open 2 DIGEST-SHA-256 abc
0 digest 2 GET /dir/index.html Digest username=\"Mufasa\", realm=\"http-auth@example.org\", uri=\"/dir/index.html\", algorithm=SHA-256, nonce=\"xyz\", nc=00000001, cnonce=\"f2/wE4q74E6zIJEtWaHKaf5wv/H5QzzpXusqGemxURZJ\", qop=auth, response=\"753927fa0e85d155564e2e272a28d1802ca10daf4496794697cf8db5856cb6c1\"",
        b"1 0 1 add ok 1
2 0 2 set-cred ok 2
3 0 3 open ok 1 Digest realm=\"http-auth@example.org\", qop=\"auth\", algorithm=SHA-256, nonce=\"7ypf/xlj9XXwfDPEoM4URrv/xwf94BcCAzFZH4GiTo0v\"
4 0 4 name1 pinned 2 -
5 0 4 name2 named -
6 0 4 check1 ok
7 0 4 check2 proved
8 0 5 open ok 2 Digest realm=\"http-auth@example.org\", qop=\"auth\", algorithm=SHA-256, nonce=\"abc\"
9 0 6 name1 pinned 2 -
10 0 6 name2 named -
11 0 6 check1 stale
",
    ),
];

#[test]
fn the_published_headers_log_in_once(rt: HostRuntime) -> Result<(), Fail> {
    for (script, text) in HEADERS {
        let said = printed(rt.alloc(), b"http-auth@example.org", None, script)?;
        assert!(rt; said.as_slice() == text);
    }
    Ok(())
}

const USERS: &[u8] = b"#$REALM_NAME=testrealm@host.com$\nMufasa=939e7578ed9e3c518a452acee763bce9\n";

const RELOADED: &[u8] = b"0 open 1 PLAIN
0 plain 1 AE11ZmFzYQBDaXJjbGUgT2YgTGlmZQ==
0 authorize 1
0 succeed 1
0 add file x
0 reload file eA== -
0 reload file - -
0 open 2 PLAIN
0 plain 2 AE11ZmFzYQBDaXJjbGUgT2YgTGlmZQ==";

const RELOADS: &[u8] = b"1 0 1 open ok 1
2 0 2 name1 pinned 1 -
3 0 2 name2 named -
4 0 2 check1 ok
5 0 2 check2 proved
6 0 3 authorize authorized
7 0 4 succeed established 1 file Mufasa roles=admin,ops
8 0 5 add read-only
9 0 6 reload users bad-line 1
10 0 7 reload ok 2
11 0 8 open ok 2
12 0 9 name1 unknown
";

#[test]
fn a_realm_of_texts_logs_in_until_it_is_reloaded(rt: HostRuntime) -> Result<(), Fail> {
    let texts: (&[u8], &[u8]) = (USERS, b"Mufasa=admin, ops\n");
    let said = printed(rt.alloc(), b"ManagementRealm", Some(texts), RELOADED)?;
    assert!(rt; said.as_slice() == RELOADS);
    Ok(())
}

/// What a step is answered: whether it is gone, and the serial that it gives.
#[derive(Clone, Copy, PartialEq, Eq)]
struct Told {
    gone: bool,
    serial: Option<Serial>,
}

/// What the step is answered.
fn take<L: Ledger>(
    alloc: Global,
    domain: &mut Domain,
    event: Event,
    steps: &mut Steps<L>,
) -> Result<Told, NoMemory> {
    if domain.opened() == u64::MAX {
        discard(event);
        return Err(NoMemory);
    }
    let answer = domain.step(alloc, event, steps)?;
    let gone = matches!(answer.outcome, Outcome::Gone);
    let serial = answer.serial;
    discard(answer);
    Ok(Told { gone, serial })
}

/// The first half of a naming of the user `user`.
fn naming(alloc: Global) -> Result<Event, NoMemory> {
    match Name::read(alloc, b"user") {
        Err(_) => Err(NoMemory),
        Ok(name) => Ok(Event::Name1 {
            ctx: CtxId(1),
            claim: Claim::Plain {
                authzid: None,
                name,
            },
        }),
    }
}

/// The first half of a check, of the first open.
fn showing(alloc: Global) -> Result<Event, NoMemory> {
    Ok(Event::Check1 {
        ctx: CtxId(1),
        serial: Some(Serial(1)),
        evidence: Evidence::Plain {
            password: Bytes::copy_of(alloc, b"pencil")?,
        },
    })
}

/// Makes the lines of the script.
fn go_on<L: Ledger>(
    alloc: Global,
    domain: &mut Domain,
    script: &[u8],
    steps: &mut Steps<L>,
) -> Result<(), NoMemory> {
    let mut out = Vec::new(alloc);
    push_script(alloc, domain, script, &mut out, steps)
}

/// What a check of the first open is answered, before the login is closed and opened again, or behind that.
fn last_told<L: Ledger>(
    alloc: Global,
    domain: &mut Domain,
    reopened: bool,
    steps: &mut Steps<L>,
) -> Result<Told, NoMemory> {
    let first = b"0 add main user\n0 set-cred main user 1 clear pencil\n0 open 1 PLAIN";
    go_on(alloc, domain, first, steps)?;
    let (ctx, serial) = (CtxId(1), Serial(1));
    take(alloc, domain, naming(alloc)?, steps)?;
    let done = None;
    take(alloc, domain, Event::Name2 { ctx, serial, done }, steps)?;
    take(alloc, domain, showing(alloc)?, steps)?;
    if reopened {
        go_on(alloc, domain, b"0 fail 1\n0 close 1\n0 open 1 PLAIN", steps)?;
    }
    let done = None;
    take(alloc, domain, Event::Check2 { ctx, serial, done }, steps)
}

/// The same, with the state of the login then.
fn checked<L: Ledger>(
    blank: Blank,
    alloc: Global,
    reopened: bool,
) -> Result<(Told, StateWord), NoMemory>
    requires name { blank.name ≡ L.name }
    requires parts { blank.parts ≡ L.parts }
    requires some { 0 < blank.parts }
{
    let mut steps = Steps::<L>::of(blank);
    let mut domain = domain_of(alloc, Config::plain(alloc)?)?;
    let last = last_told(alloc, &mut domain, reopened, &mut steps);
    let state = domain.state(CtxId(1));
    discard(domain);
    Ok((last?, state))
}

/// The same with a counter of its own.
fn check_of(alloc: Global, reopened: bool) -> Result<(Told, StateWord), NoMemory> {
    checked::<Brand>(Blank::new(1), alloc, reopened)
}

#[test]
fn a_check_of_an_earlier_open_is_gone(rt: HostRuntime) -> Result<(), Fail> {
    let rows = [
        (false, false, StateWord::Proved),
        (true, true, StateWord::Fresh),
    ];
    for (reopened, gone, state) in rows {
        let (told, left) = check_of(rt.alloc(), reopened)?;
        assert!(rt; told.gone == gone && told.serial.is_none() && left == state);
    }
    Ok(())
}
