//! Scripts under configurations whose realms keep keys, and namings between whose halves something comes.

ghost use Rattle.std.specs.Prelude.{◌≡◌, ◌<◌};

use crate::config::{config_of, counted, domain_of, push_line};
use crate::making::{behind, beside, put};
use ely_base::{Bytes, CtxId, Items, Name, NoMemory, Serial, discard};
use ely_config::{Config, Members, RealmConfig, RealmKind};
use ely_digest_msg::DigestAlg;
use ely_domain::{Domain, Event};
use ely_hash::Steps;
use ely_job::{Done, Job};
use ely_login::{Claim, Evidence};
use ely_pipeline::Rule;
use ely_row::Params;
use ely_script::{Entry, push_step};
use std::alloc::Global;
use std::marker::Brand;
use std::sync::ledger::{Blank, Ledger};
use std::test::Fail;

fn name(alloc: Global, text: &[u8]) -> Result<Name, NoMemory> {
    Name::read(alloc, text).map_err(|_| NoMemory)
}

/// A realm of this name and kind.
fn realm(alloc: Global, text: &[u8], kind: RealmKind) -> Result<RealmConfig, NoMemory> {
    let named = beside(kind, name(alloc, text))?;
    let ((kind, name), role_attribute) = beside(named, name(alloc, b"groups"))?;
    Ok(RealmConfig {
        name,
        kind,
        role_attribute,
        role_mapper: None,
    })
}

/// A realm `front` that keeps so many keys of identities of another.
fn front(alloc: Global, of: &[u8], limit: u32) -> Result<RealmConfig, NoMemory> {
    let of = name(alloc, of)?;
    realm(alloc, b"front", RealmKind::Caching { of, limit })
}

/// The realm `both`, whose credentials are those of `people` and whose attributes are those of `extra`.
fn both(alloc: Global) -> Result<RealmConfig, NoMemory> {
    let people = name(alloc, b"people")?;
    let (authentication, extra) = beside(people, behind(Vec::new(alloc), name(alloc, b"extra")))?;
    let kind = RealmKind::Aggregate {
        authentication,
        authorization: Items::of(extra),
    };
    realm(alloc, b"both", kind)
}

/// Which realms there are besides those whose identities are changed one by one. Names lead to `front`.
#[derive(Clone, Copy)]
enum Realms {
    /// `front` keeps so many keys of `main`.
    One(u32),
    /// `front` keeps keys of an aggregate of `people` and `extra`.
    Joined,
}

/// The realms, in order.
fn listed(alloc: Global, which: Realms) -> Result<Vec<RealmConfig>, NoMemory> {
    let realms = Vec::new(alloc);
    match which {
        Realms::One(limit) => {
            let realms = behind(realms, realm(alloc, b"main", RealmKind::Modifiable))?;
            behind(realms, front(alloc, b"main", limit))
        }
        Realms::Joined => {
            let realms = behind(realms, realm(alloc, b"people", RealmKind::Modifiable))?;
            let realms = behind(realms, realm(alloc, b"extra", RealmKind::Modifiable))?;
            let realms = behind(realms, both(alloc))?;
            behind(realms, front(alloc, b"both", 16))
        }
    }
}

/// The name of the realm, without a rule.
fn unruled(alloc: Global, realm: &RealmConfig) -> Result<(Name, Option<Rule>), NoMemory> {
    Ok((realm.name.copy(alloc)?, None))
}

/// The realms as the stages of a name know them.
fn known(alloc: Global, realms: &[RealmConfig]) -> Result<Items<(Name, Option<Rule>)>, NoMemory> {
    let mut known = Vec::new(alloc);
    for realm in realms {
        known = behind(known, unruled(alloc, realm))?;
    }
    Ok(Items::of(known))
}

/// A configuration of these realms.
fn config(alloc: Global, which: Realms) -> Result<Config, NoMemory> {
    let realms = listed(alloc, which)?;
    let known = known(alloc, &realms);
    let named = beside(beside(realms, known)?, name(alloc, b"front"))?;
    let whole = beside(beside(named, salted(alloc))?, Members::plain(alloc))?;
    let ((((realms, known), default_realm), params), mut members) = whole;
    put(&mut members.realms, Items::of(realms));
    put(&mut members.pipeline.realms, known);
    put(&mut members.pipeline.default_realm, default_realm);
    put(&mut members.params, params);
    config_of(alloc, members)
}

/// How keys are derived with the salt of RFC 5802's login.
fn salted(alloc: Global) -> Result<Params, NoMemory> {
    let salt = Bytes::copy_of(alloc, b"A%\xc2G\xe4:\xb1\xe9<m\xffv")?;
    Ok(Params::of(4096, Some(salt), Bytes::of(Vec::new(alloc))))
}

const TWICE: &[u8] = b"0 add main user
0 set-cred main user 1 clear pencil
0 open 1 SCRAM-SHA-1 3rfcNHYJY1ZVvWVs7j
0 first 1 n,,n=user,r=fyko+d2lbbFgONRv9qkxdawL
0 final 1 c=biws,r=fyko+d2lbbFgONRv9qkxdawL3rfcNHYJY1ZVvWVs7j,p=v0X8v3Bz2T0CJGbJQyF0X+HI4Ts=
0 open 2 SCRAM-SHA-1 3rfcNHYJY1ZVvWVs7j
0 first 2 n,,n=user,r=fyko+d2lbbFgONRv9qkxdawL
0 final 2 c=biws,r=fyko+d2lbbFgONRv9qkxdawL3rfcNHYJY1ZVvWVs7j,p=v0X8v3Bz2T0CJGbJQyF0X+HI4Ts=";

const ONCE: &[u8] = b"1 0 1 add ok 1
2 0 2 set-cred ok 2
3 0 3 open ok 1
4 0 4 name1 pinned 2 miss
5 0 4 name2 challenge r=fyko+d2lbbFgONRv9qkxdawL3rfcNHYJY1ZVvWVs7j,s=QSXCR+Q6sek8bf92,i=4096 kept
6 0 5 check1 ok
7 0 5 check2 proved v=rmF9pqV8S7suAoZWja4dJRkFsKQ=
8 0 6 open ok 2
9 0 7 name1 pinned 2 hit
10 0 7 name2 challenge r=fyko+d2lbbFgONRv9qkxdawL3rfcNHYJY1ZVvWVs7j,s=QSXCR+Q6sek8bf92,i=4096 -
11 0 8 check1 ok
12 0 8 check2 proved v=rmF9pqV8S7suAoZWja4dJRkFsKQ=
";

const LIMITED: &[u8] = b"0 add main a
0 set-cred main a 1 clear p
0 add main b
0 set-cred main b 1 clear p
0 open 1 PLAIN
0 plain 1 AGEAcA==
0 open 2 PLAIN
0 plain 2 AGEAcA==
0 open 3 PLAIN
0 plain 3 AGIAcA==
0 open 4 PLAIN
0 plain 4 AGEAcA==";

const TURNS: &[u8] = b"1 0 1 add ok 1
2 0 2 set-cred ok 2
3 0 3 add ok 3
4 0 4 set-cred ok 4
5 0 5 open ok 1
6 0 6 name1 pinned 4 miss
7 0 6 name2 named kept
8 0 6 check1 ok
9 0 6 check2 proved
10 0 7 open ok 2
11 0 8 name1 pinned 4 hit
12 0 8 name2 named -
13 0 8 check1 ok
14 0 8 check2 proved
15 0 9 open ok 3
16 0 10 name1 pinned 4 miss
17 0 10 name2 named kept
18 0 10 check1 ok
19 0 10 check2 proved
20 0 11 open ok 4
21 0 12 name1 pinned 4 miss
22 0 12 name2 named kept
23 0 12 check1 ok
24 0 12 check2 proved
";

const EDITED: &[u8] = b"0 add people user
0 set-cred people user 1 clear pencil
0 add extra user
0 set-attr extra user groups a
0 open 1 PLAIN
0 plain 1 AHVzZXIAcGVuY2ls
0 set-attr extra user groups b
0 open 2 PLAIN
0 plain 2 AHVzZXIAcGVuY2ls
0 authorize 2
0 succeed 2
0 add extra other
0 open 3 PLAIN
0 plain 3 AHVzZXIAcGVuY2ls
0 set-cred people user 1 clear password
0 open 4 PLAIN
0 plain 4 AHVzZXIAcGVuY2ls
0 add both user
0 remove people user
0 open 5 PLAIN
0 plain 5 AHVzZXIAcGVuY2ls";

const TOUCHED: &[u8] = b"1 0 1 add ok 1
2 0 2 set-cred ok 2
3 0 3 add ok 3
4 0 4 set-attr ok 4
5 0 5 open ok 1
6 0 6 name1 pinned 4 miss
7 0 6 name2 named kept
8 0 6 check1 ok
9 0 6 check2 proved
10 0 7 set-attr ok 5
11 0 8 open ok 2
12 0 9 name1 pinned 5 miss
13 0 9 name2 named kept
14 0 9 check1 ok
15 0 9 check2 proved
16 0 10 authorize authorized
17 0 11 succeed established 5 front user roles=b
18 0 12 add ok 6
19 0 13 open ok 3
20 0 14 name1 pinned 6 hit
21 0 14 name2 named -
22 0 14 check1 ok
23 0 14 check2 proved
24 0 15 set-cred ok 7
25 0 16 open ok 4
26 0 17 name1 pinned 7 miss
27 0 17 name2 named kept
28 0 17 check1 ok
29 0 17 check2 password
30 0 18 add read-only
31 0 19 remove ok 8
32 0 20 open ok 5
33 0 21 name1 unknown
";

/// What the script prints under a configuration of these realms.
fn printed(alloc: Global, which: Realms, script: &[u8]) -> Result<Vec<u8>, NoMemory> {
    counted::<Brand>(Blank::new(1), alloc, config(alloc, which)?, script)
}

#[test]
fn a_key_is_found_until_an_edit_touches_it_or_others_push_it_out(
    rt: HostRuntime,
) -> Result<(), Fail> {
    let rows = [
        (Realms::One(16), TWICE, ONCE),
        (Realms::One(1), LIMITED, TURNS),
        (Realms::Joined, EDITED, TOUCHED),
    ];
    for (which, script, text) in rows {
        let said = printed(rt.alloc(), which, script)?;
        assert!(rt; said.as_slice() == text);
    }
    Ok(())
}

/// What is brought with the second half of a naming.
#[derive(Clone, Copy)]
enum Brings {
    Nothing,
    /// What came of the job of the last first half.
    Last,
    /// What came of the job of the first one.
    First,
}

/// What is done next.
#[derive(Clone, Copy)]
enum Move<'a> {
    /// The line is run without pause.
    Line(&'a [u8]),
    /// The first half of the naming of `user` in the login by PLAIN with this id.
    Begin(u32),
    /// The same in a login by Digest.
    BeginDigest(u32),
    /// The second half, of the open with this serial.
    End(u32, u64, Brings),
    /// Both halves of a check by PLAIN, with this password.
    Check(u32, u64, &'a [u8]),
}

/// The jobs that namings handed out: that of the first one, and that of the last.
#[derive(Drop)]
struct Jobs {
    first: Option<Job>,
    last: Option<Job>,
}

/// What came of the job, done by a counter of its own.
fn done_by<L: Ledger>(
    alloc: Global,
    job: &Option<Job>,
    steps: &mut Steps<L>,
) -> Result<Option<Done>, NoMemory> {
    match job {
        None => Ok(None),
        Some(job) => {
            let job = job.copy(alloc)?;
            Ok(Some(job.run(alloc, steps)?))
        }
    }
}

/// The first half of the naming of `user`.
fn begin(alloc: Global, ctx: u32) -> Result<Event, NoMemory> {
    let name = name(alloc, b"user")?;
    let claim = Claim::Plain {
        authzid: None,
        name,
    };
    Ok(Event::Name1 {
        ctx: CtxId(ctx),
        claim,
    })
}

/// The same of a login by Digest.
fn begin_digest(alloc: Global, ctx: u32) -> Result<Event, NoMemory> {
    let name = name(alloc, b"user")?;
    let claim = Claim::Digest {
        alg: DigestAlg::Md5,
        name,
    };
    Ok(Event::Name1 {
        ctx: CtxId(ctx),
        claim,
    })
}

/// Makes one step, puts what it prints behind what is there, and gives the job that it hands out.
fn take<L: Ledger>(
    alloc: Global,
    domain: &mut Domain,
    event: Event,
    number: u64,
    out: &mut Vec<u8>,
    steps: &mut Steps<L>,
) -> Result<Option<Job>, NoMemory> {
    if domain.opened() == u64::MAX {
        discard(event);
        return Err(NoMemory);
    }
    let word = event.word();
    let answer = domain.step(alloc, event, steps)?;
    let entry = Entry {
        actor: 0,
        line: 0,
        word,
        outcome: answer.outcome,
        cache: answer.cache,
    };
    let pushed = push_step(out, number, 0, &entry);
    discard(entry);
    let job = answer.job;
    match pushed {
        Ok(()) => Ok(job),
        Err(NoMemory) => {
            discard(job);
            Err(NoMemory)
        }
    }
}

/// Makes the second half of a naming.
fn end<L: Ledger>(
    alloc: Global,
    domain: &mut Domain,
    (ctx, serial, brings): (u32, u64, Brings),
    jobs: &Jobs,
    number: u64,
    out: &mut Vec<u8>,
    steps: &mut Steps<L>,
) -> Result<(), NoMemory> {
    let done = match brings {
        Brings::Nothing => None,
        Brings::Last => done_by(alloc, &jobs.last, steps)?,
        Brings::First => done_by(alloc, &jobs.first, steps)?,
    };
    let event = Event::Name2 {
        ctx: CtxId(ctx),
        serial: Serial(serial),
        done,
    };
    let job = take(alloc, domain, event, number, out, steps)?;
    discard(job);
    Ok(())
}

/// A copy of the job, where there is one.
fn copied(alloc: Global, job: &Option<Job>) -> Result<Option<Job>, NoMemory> {
    match job {
        None => Ok(None),
        Some(job) => Ok(Some(job.copy(alloc)?)),
    }
}

/// Makes the first half of a naming, keeps the job that it hands out, and gives the number of the next step.
fn begun<L: Ledger>(
    alloc: Global,
    domain: &mut Domain,
    event: Event,
    jobs: &mut Jobs,
    number: u64,
    out: &mut Vec<u8>,
    steps: &mut Steps<L>,
) -> Result<u64, NoMemory> {
    let job = take(alloc, domain, event, number, out, steps)?;
    let copied = copied(alloc, &job);
    let (job, first) = beside(job, copied)?;
    if jobs.first.is_none() {
        put(&mut jobs.first, first);
    }
    put(&mut jobs.last, job);
    Ok(number.saturating_add(1))
}

/// Makes both halves of a check, and gives the number of the next step.
fn check<L: Ledger>(
    alloc: Global,
    domain: &mut Domain,
    (ctx, serial, password): (u32, u64, &[u8]),
    number: u64,
    out: &mut Vec<u8>,
    steps: &mut Steps<L>,
) -> Result<u64, NoMemory> {
    let ctx = CtxId(ctx);
    let serial = Serial(serial);
    let first = Event::Check1 {
        ctx,
        serial: Some(serial),
        evidence: Evidence::Plain {
            password: Bytes::copy_of(alloc, password)?,
        },
    };
    discard(take(alloc, domain, first, number, out, steps)?);
    let next = number.saturating_add(1);
    let done = None;
    let second = Event::Check2 { ctx, serial, done };
    discard(take(alloc, domain, second, next, out, steps)?);
    Ok(next.saturating_add(1))
}

/// Makes the move, and gives the number of the next step.
fn made<L: Ledger>(
    alloc: Global,
    domain: &mut Domain,
    next: Move<'_>,
    jobs: &mut Jobs,
    number: u64,
    out: &mut Vec<u8>,
    steps: &mut Steps<L>,
) -> Result<u64, NoMemory> {
    match next {
        Move::Line(text) => push_line(alloc, domain, text, 0, number, out, steps),
        Move::Begin(ctx) => {
            let event = begin(alloc, ctx)?;
            begun(alloc, domain, event, jobs, number, out, steps)
        }
        Move::BeginDigest(ctx) => {
            let event = begin_digest(alloc, ctx)?;
            begun(alloc, domain, event, jobs, number, out, steps)
        }
        Move::Check(ctx, serial, password) => {
            check(alloc, domain, (ctx, serial, password), number, out, steps)
        }
        Move::End(ctx, serial, brings) => {
            end(
                alloc,
                domain,
                (ctx, serial, brings),
                jobs,
                number,
                out,
                steps,
            )?;
            Ok(number.saturating_add(1))
        }
    }
}

/// Makes the moves, and puts what they print behind what is there.
fn play<L: Ledger>(
    alloc: Global,
    domain: &mut Domain,
    moves: &[Move<'_>],
    jobs: &mut Jobs,
    out: &mut Vec<u8>,
    steps: &mut Steps<L>,
) -> Result<(), NoMemory> {
    let mut number = 1;
    for next in moves {
        number = made(alloc, domain, *next, jobs, number, out, steps)?;
    }
    Ok(())
}

/// What the moves print where `front` keeps keys of `main`.
fn played<L: Ledger>(blank: Blank, alloc: Global, moves: &[Move<'_>]) -> Result<Vec<u8>, NoMemory>
    requires name { blank.name ≡ L.name }
    requires parts { blank.parts ≡ L.parts }
    requires some { 0 < blank.parts }
{
    let mut steps = Steps::<L>::of(blank);
    let mut domain = domain_of(alloc, config(alloc, Realms::One(16))?)?;
    let mut jobs = Jobs {
        first: None,
        last: None,
    };
    let mut out = Vec::new(alloc);
    let done = play(alloc, &mut domain, moves, &mut jobs, &mut out, &mut steps);
    discard(domain);
    discard(jobs);
    done?;
    Ok(out)
}

/// The same with a counter of its own.
fn moved(alloc: Global, moves: &[Move<'_>]) -> Result<Vec<u8>, NoMemory> {
    played::<Brand>(Blank::new(1), alloc, moves)
}

/// Two lines of edits and an open, which print three steps.
const ADD: Move<'_> = Move::Line(b"0 add main user");

const KEY: Move<'_> = Move::Line(b"0 set-cred main user 1 clear pencil");

const OPEN: Move<'_> = Move::Line(b"0 open 1 PLAIN");

const SECOND: Move<'_> = Move::Line(b"0 open 2 PLAIN");

/// An edit comes between the halves: the fill is late, whatever is brought, and the next naming isn't answered by it.
const LATE: [Move<'_>; 10] = [
    ADD,
    KEY,
    OPEN,
    Move::Begin(1),
    Move::Line(b"0 set-cred main user 1 clear password"),
    Move::End(1, 1, Brings::Last),
    SECOND,
    Move::Begin(2),
    Move::End(2, 2, Brings::First),
    Move::Line(b"0 open 3 PLAIN"),
];

const LATE_TEXT: &[u8] = b"1 0 0 add ok 1
2 0 0 set-cred ok 2
3 0 0 open ok 1
4 0 0 name1 pinned 2 miss
5 0 0 set-cred ok 3
6 0 0 name2 named late
7 0 0 open ok 2
8 0 0 name1 pinned 3 miss
9 0 0 name2 named kept
10 0 0 open ok 3
";

/// The identity is taken away and made anew, as it was, between the halves: that is an edit like any other.
const ANEW: [Move<'_>; 9] = [
    ADD,
    KEY,
    OPEN,
    Move::Begin(1),
    Move::Line(b"0 remove main user"),
    ADD,
    KEY,
    Move::End(1, 1, Brings::Nothing),
    Move::Line(b"0 add main other"),
];

const ANEW_TEXT: &[u8] = b"1 0 0 add ok 1
2 0 0 set-cred ok 2
3 0 0 open ok 1
4 0 0 name1 pinned 2 miss
5 0 0 remove ok 3
6 0 0 add ok 4
7 0 0 set-cred ok 5
8 0 0 name2 named late
9 0 0 add ok 6
";

/// An edit of another name lets the fill be kept. What came of a job of an earlier open, or for the second time, comes to a
/// login that is gone on.
const OTHERS: [Move<'_>; 12] = [
    ADD,
    KEY,
    OPEN,
    Move::Begin(1),
    Move::Line(b"0 close 1"),
    OPEN,
    Move::End(1, 1, Brings::Last),
    Move::Begin(1),
    Move::Line(b"0 add main other"),
    Move::End(1, 2, Brings::First),
    Move::End(1, 2, Brings::First),
    SECOND,
];

const OTHERS_TEXT: &[u8] = b"1 0 0 add ok 1
2 0 0 set-cred ok 2
3 0 0 open ok 1
4 0 0 name1 pinned 2 miss
5 0 0 close ok
6 0 0 open ok 2
7 0 0 name2 gone
8 0 0 name1 pinned 2 miss
9 0 0 add ok 3
10 0 0 name2 named kept
11 0 0 name2 gone
12 0 0 open ok 3
";

/// An edit comes between the halves: the login goes on with the credentials that were pinned, its key is kept nowhere, and
/// the next login has those of the edit.
const BOTH: [Move<'_>; 14] = [
    ADD,
    KEY,
    OPEN,
    Move::Begin(1),
    Move::Line(b"0 set-cred main user 1 clear password"),
    Move::End(1, 1, Brings::Nothing),
    Move::Check(1, 1, b"pencil"),
    Move::Line(b"0 authorize 1"),
    Move::Line(b"0 succeed 1"),
    SECOND,
    Move::Begin(2),
    Move::End(2, 2, Brings::Nothing),
    Move::Check(2, 2, b"password"),
    Move::Line(b"0 authorize 2"),
];

const BOTH_TEXT: &[u8] = b"1 0 0 add ok 1
2 0 0 set-cred ok 2
3 0 0 open ok 1
4 0 0 name1 pinned 2 miss
5 0 0 set-cred ok 3
6 0 0 name2 named late
7 0 0 check1 ok
8 0 0 check2 proved
9 0 0 authorize authorized
10 0 0 succeed established 2 front user roles=
11 0 0 open ok 2
12 0 0 name1 pinned 3 miss
13 0 0 name2 named kept
14 0 0 check1 ok
15 0 0 check2 proved
16 0 0 authorize authorized
";

/// What came of a job of another mechanism is no key of this one, and keys of both are kept.
const MECHANISMS: [Move<'_>; 12] = [
    ADD,
    KEY,
    OPEN,
    Move::Begin(1),
    Move::End(1, 1, Brings::Last),
    Move::Line(b"0 open 2 DIGEST xyz"),
    Move::BeginDigest(2),
    Move::End(2, 2, Brings::First),
    Move::Line(b"0 open 3 PLAIN"),
    Move::Begin(3),
    Move::End(3, 3, Brings::First),
    Move::Check(3, 3, b"pencil"),
];

const MECHANISMS_TEXT: &[u8] = b"1 0 0 add ok 1
2 0 0 set-cred ok 2
3 0 0 open ok 1
4 0 0 name1 pinned 2 miss
5 0 0 name2 named kept
6 0 0 open ok 2 Digest realm=\"ManagementRealm\", qop=\"auth\", algorithm=MD5, nonce=\"xyz\"
7 0 0 name1 pinned 2 miss
8 0 0 name2 named kept
9 0 0 open ok 3
10 0 0 name1 pinned 2 hit
11 0 0 name2 named -
12 0 0 check1 ok
13 0 0 check2 proved
";

#[test]
fn a_late_fill_is_kept_nowhere(rt: HostRuntime) -> Result<(), Fail> {
    let rows: [(&[Move<'_>], &[u8]); 5] = [
        (&LATE, LATE_TEXT),
        (&ANEW, ANEW_TEXT),
        (&OTHERS, OTHERS_TEXT),
        (&BOTH, BOTH_TEXT),
        (&MECHANISMS, MECHANISMS_TEXT),
    ];
    for (moves, text) in rows {
        let said = moved(rt.alloc(), moves)?;
        assert!(rt; said.as_slice() == text);
    }
    Ok(())
}
