use ely_base::{Bytes, Name, NoMemory, Refused, Serial, Version, cut_at, discard};
use ely_hash::Tag;
use ely_login::{CacheWord, Outcome, StateWord, StepWord};
use ely_pipeline::{PipeFault, Place};
use ely_row::{Edit, EditFault, Mech, PropFault, Roles};
use ely_script::{Entry, LineError, Verb, print_step, read_line};
use std::alloc::Global;
use std::test::Fail;

/// The first step of a verb.
fn step(verb: &Verb) -> StepWord {
    match verb {
        Verb::Change { edit } => match edit {
            Edit::Add { .. } => StepWord::Add,
            Edit::Remove { .. } => StepWord::Remove,
            Edit::SetCred { .. } => StepWord::SetCred,
            Edit::DropCred { .. } => StepWord::DropCred,
            Edit::SetAttr { .. } => StepWord::SetAttr,
            Edit::DropAttr { .. } => StepWord::DropAttr,
            Edit::Reload { .. } => StepWord::Reload,
        },
        Verb::Begin { .. } => StepWord::Begin,
        Verb::Plain { .. } => StepWord::Name1,
        Verb::First { .. } => StepWord::Name1,
        Verb::Last { .. } => StepWord::Check1,
        Verb::Digest { .. } => StepWord::Name1,
        Verb::Authorize { .. } => StepWord::Authorize,
        Verb::Succeed { .. } => StepWord::Succeed,
        Verb::Fail { .. } => StepWord::Fail,
        Verb::Close { .. } => StepWord::Close,
        Verb::Allows { .. } => StepWord::Allows,
    }
}

/// The printed line of a step with this outcome.
fn printed(alloc: Global, actor: u32, word: StepWord, outcome: Outcome) -> Result<Bytes, NoMemory> {
    let entry = Entry {
        actor,
        line: 1,
        word,
        outcome,
        cache: CacheWord::None,
    };
    let text = print_step(alloc, 1, &entry);
    discard(entry);
    text
}

/// What a line is read as: the first step of a copy of the command, or the fault.
fn told(alloc: Global, line: &[u8]) -> Result<Bytes, NoMemory> {
    match read_line(alloc, line) {
        Ok(command) => {
            let copied = command.copy(alloc);
            discard(command);
            let copy = copied?;
            let (actor, word) = (copy.actor, step(&copy.verb));
            discard(copy);
            printed(alloc, actor, word, Outcome::Fine)
        }
        Err(Refused::Fault(LineError::Bad { actor, bad })) => {
            printed(alloc, actor, StepWord::BadLine, Outcome::Bad(bad))
        }
        Err(Refused::NoMemory) => Err(NoMemory),
    }
}

/// Lines, and behind each what is printed for it.
const LINES: &[u8] = b"\
    7 add main u\n1 7 1 add ok\n\
    7 remove %6dain a%20b\n1 7 1 remove ok\n\
    7 set-cred main u 255 clear pen%20cil\n1 7 1 set-cred ok\n\
    7 drop-cred main u 0\n1 7 1 drop-cred ok\n\
    7 set-attr main u groups a b a\n1 7 1 set-attr ok\n\
    7 drop-attr main u groups\r\n1 7 1 drop-attr ok\n\
    7 reload main dT0w -\n1 7 1 reload ok\n\
    7 reload %6dain  \n1 7 1 reload ok\n\
    7 open 4294967295 PLAIN\n1 7 1 open ok\n\
    7 open 1 PLAIN abc\n1 7 1 open ok\n\
    7 open 1 SCRAM-SHA-1 xyz\n1 7 1 open ok\n\
    7 open 1 SCRAM-SHA-256\n1 7 1 open ok\n\
    7 open 1 DIGEST xyz\n1 7 1 open ok\n\
    7 open 1 DIGEST-SHA-256\n1 7 1 open ok\n\
    7 plain 1 Ym9iAHVzZXIAcGVuY2ls\n1 7 1 name1 ok\n\
    7 first 1 n,,n=user,r=fyko+d2lbbFgONRv9qkxdawL\n1 7 1 name1 ok\n\
    7 first 1 n,,n=a b,r=c\n1 7 1 name1 ok\n\
    7 final 1 c=biws,r=fyko+d2lbbFgONRv9qkxdawL3rfcNHYJY1ZVvWVs7j,p=v0X8v3Bz2T0CJGbJQyF0X+HI4Ts=\n1 7 1 check1 ok\n\
    7 digest 1 GET /dir/index.html Digest username=\"Mufasa\", realm=\"http-auth@example.org\", \
    uri=\"/dir/index.html\", algorithm=MD5, nonce=\"7ypf/xlj9XXwfDPEoM4URrv/xwf94BcCAzFZH4GiTo0v\", \
    nc=00000001, cnonce=\"f2/wE4q74E6zIJEtWaHKaf5wv/H5QzzpXusqGemxURZJ\", qop=auth, \
    response=\"8ca523f5e9506fed4657c9700eebdbec\", \
    opaque=\"FQhe/qaU925kfnzjCev0ciny7QMkPqMAFRtzCUYo5tdS\"\n1 7 1 name1 ok\n\
    7 digest 1 % * dIGEST  , \
    ,UserName = \"u\\\"\\\\\" ,realm=\"a  b\",nonce=n,uri=\"\",response=p,nc=\"ffffffff\",cnonce=\"\",\
    qop=\"\\auth\",algorithm=sha-256,userhash=False,x=\"\\\",\",\n1 7 1 name1 ok\n\
    7 authorize 1\n1 7 1 authorize ok\n\
    7 succeed 1\n1 7 1 succeed ok\n\
    7 fail 1\n1 7 1 fail ok\n\
    7 close 1\n1 7 1 close ok\n\
    7 allows 1 read:%2A\n1 7 1 allows ok\n\
    \n1 0 1 bad-line no-actor\n\
    \x20  \n1 0 1 bad-line no-actor\n\
    00 add main u\n1 0 1 bad-line no-actor\n\
    4294967296 add main u\n1 0 1 bad-line no-actor\n\
    \xFF add main u\n1 0 1 bad-line no-actor\n\
    4294967295\n1 4294967295 1 bad-line no-verb\n\
    7 \n1 7 1 bad-line verb\n\
    7 Add main u\n1 7 1 bad-line verb\n\
    7 %61dd main u\n1 7 1 bad-line verb\n\
    7 add\r main u\n1 7 1 bad-line verb\n\
    7 add main\n1 7 1 bad-line arity\n\
    7 add  main u\n1 7 1 bad-line arity\n\
    7 add main u \n1 7 1 bad-line arity\n\
    7 add % %\n1 7 1 bad-line word 3\n\
    7 add  u\n1 7 1 bad-line word 3\n\
    7 remove main \n1 7 1 bad-line word 4\n\
    7 remove main u%\n1 7 1 bad-line word 4\n\
    7 remove main u%4\n1 7 1 bad-line word 4\n\
    7 remove main \0\n1 7 1 bad-line word 4\n\
    7 remove main %0a\n1 7 1 bad-line word 4\n\
    7 remove main \xC3\x28\n1 7 1 bad-line word 4\n\
    7 remove\n1 7 1 bad-line arity\n\
    7 set-cred main u 1 clear\n1 7 1 bad-line arity\n\
    7 set-cred main u 256 clear p\n1 7 1 bad-line number 5\n\
    7 set-cred main u 01 none p\n1 7 1 bad-line number 5\n\
    7 set-cred main u 1 none %\n1 7 1 bad-line cred kind\n\
    7 set-cred main u 1 clear %\n1 7 1 bad-line word 7\n\
    7 set-cred main u 1 clear \n1 7 1 bad-line cred length\n\
    7 set-cred main u 1 clear %0A\n1 7 1 bad-line cred text\n\
    7 set-cred % % x scram-sha-1 %\n1 7 1 bad-line word 3\n\
    7 set-cred main u 1 digest-md5\n1 7 1 bad-line arity\n\
    7 set-cred main u 1 scram-sha-256 2:c2FsdA==:6mwBTcctb4zNHtkqzh1B8NjeiVc=\n1 7 1 bad-line cred length\n\
    7 set-cred main u 1 digest-md5 939e7578ed9e3c518a452acee763bce9:%22\n1 7 1 bad-line cred text\n\
    7 drop-cred main u\n1 7 1 bad-line arity\n\
    7 drop-cred main u -1\n1 7 1 bad-line number 5\n\
    7 drop-cred main % 256\n1 7 1 bad-line word 4\n\
    7 set-attr main u groups\n1 7 1 bad-line arity\n\
    7 set-attr main u % %\n1 7 1 bad-line word 5\n\
    7 set-attr main u groups a \n1 7 1 bad-line word 7\n\
    7 drop-attr main u\n1 7 1 bad-line arity\n\
    7 drop-attr main u \n1 7 1 bad-line word 5\n\
    7 reload main u\n1 7 1 bad-line arity\n\
    7 reload main - - -\n1 7 1 bad-line arity\n\
    7 reload % % %\n1 7 1 bad-line word 3\n\
    7 reload main dT0 %\n1 7 1 bad-line word 4\n\
    7 reload main - --\n1 7 1 bad-line word 5\n\
    7 reload main - dT0w\r\n1 7 1 bad-line word 5\n\
    7 open 1\n1 7 1 bad-line arity\n\
    7 open x plain\n1 7 1 bad-line number 3\n\
    7 open 1 plain\n1 7 1 bad-line word 4\n\
    7 open 1 PLAIN a,b\n1 7 1 bad-line word 5\n\
    7 open 1 PLAIN \n1 7 1 bad-line word 5\n\
    7 open x DIGEST-SHA-256 a,b\n1 7 1 bad-line number 3\n\
    7 open 1 digest a\n1 7 1 bad-line word 4\n\
    7 open 1 DIGEST a\"b\n1 7 1 bad-line word 5\n\
    7 open 1 DIGEST a\\b\n1 7 1 bad-line word 5\n\
    7 open 1 SCRAM-SHA-1 a b\n1 7 1 bad-line arity\n\
    7 plain 1 =\n1 7 1 bad-line word 4\n\
    7 plain 1 \n1 7 1 bad-line message nul 0\n\
    7 plain 1 AABw\n1 7 1 bad-line message empty-name\n\
    7 plain 1 CgB1AHA=\n1 7 1 bad-line message name\n\
    7 first\n1 7 1 bad-line arity\n\
    7 first 1\n1 7 1 bad-line arity\n\
    7 first x n,,n=a,r=b\n1 7 1 bad-line number 3\n\
    7 first 1 \n1 7 1 bad-line message flag 0\n\
    7 first 1 n\n1 7 1 bad-line message flag 0\n\
    7 first 1 n,,n=\xFF\n1 7 1 bad-line message text 5\n\
    7 first 1 p=x,,n=user,r=abc\n1 7 1 bad-line message bound 0\n\
    7 first 1 n,,m=x,n=user,r=abc\n1 7 1 bad-line message mandatory 3\n\
    7 first 1 n,,x=user,r=abc\n1 7 1 bad-line message attr 3\n\
    7 first 1 n,,n=a=2cb,r=abc\n1 7 1 bad-line message escape 6\n\
    7 first 1 n,,n=,r=abc\n1 7 1 bad-line message name 5\n\
    7 first 1 n,,n=a,r=\n1 7 1 bad-line message nonce 9\n\
    7 first 1 n,,n=a,r=b,\n1 7 1 bad-line message trailing 10\n\
    7 final 1\n1 7 1 bad-line arity\n\
    7 final x c=biws, r=\n1 7 1 bad-line number 3\n\
    7 final 1 c=*,r=a,p=eA==\n1 7 1 bad-line message base64 2\n\
    7 final 1 c=biws,r=a\n1 7 1 bad-line message trailing 10\n\
    7 final 1 c=biws,r=a,p=eA==,x=y\n1 7 1 bad-line message trailing 17\n\
    7 digest 1 GET /\n1 7 1 bad-line arity\n\
    7 digest x  / \n1 7 1 bad-line number 3\n\
    7 digest 1   \n1 7 1 bad-line word 4\n\
    7 digest 1 GET  \n1 7 1 bad-line word 5\n\
    7 digest 1 GET / \n1 7 1 bad-line message scheme 0\n\
    7 digest 1 GET / Basic x\n1 7 1 bad-line message scheme 0\n\
    7 digest 1 GET / Digest\n1 7 1 bad-line message scheme 0\n\
    7 digest 1 GET / Digest username\n1 7 1 bad-line message token 15\n\
    7 digest 1 GET / Digest username=\"a\n1 7 1 bad-line message quote 16\n\
    7 digest 1 GET / Digest nc=00000001, NC=00000002\n1 7 1 bad-line message repeat nc\n\
    7 digest 1 GET / Digest algorithm=x,,Algorithm\n1 7 1 bad-line message repeat algorithm\n\
    7 digest 1 GET / Digest \n1 7 1 bad-line message missing username\n\
    7 digest 1 GET / Digest username=u\n1 7 1 bad-line message missing realm\n\
    7 digest 1 GET / Digest realm=r, username=u\n1 7 1 bad-line message missing nonce\n\
    7 digest 1 GET / Digest realm=r, nonce=n, username=u\n1 7 1 bad-line message missing uri\n\
    7 digest 1 GET / Digest realm=r, nonce=n, uri=\"/\", username=u\n1 7 1 bad-line message missing response\n\
    7 digest 1 GET / Digest realm=r,nonce=n,uri=\"/\",response=p,username=u\n1 7 1 bad-line message missing nc\n\
    7 digest 1 GET / Digest realm=r,nonce=n,uri=\"/\",response=p,username=u,nc=1\n1 7 1 bad-line message missing cnonce\n\
    7 digest 1 GET / Digest realm=r,nonce=n,uri=\"/\",response=p,cnonce=c,username=u,nc=1\n1 7 1 bad-line message missing qop\n\
    7 digest 1 GET / Digest realm=r,nonce=n,uri=\"/\",response=p,cnonce=c,\
    username=\"\",nc=1,qop=x\n1 7 1 bad-line message name\n\
    7 digest 1 GET / Digest realm=r,nonce=n,uri=\"/\",response=p,cnonce=c,\
    username=u,nc=0000001,algorithm=x,qop=auth\n1 7 1 bad-line message nc\n\
    7 digest 1 GET / Digest realm=r,nonce=n,uri=\"/\",response=p,cnonce=c,\
    username=u,nc=000000001,qop=auth\n1 7 1 bad-line message nc\n\
    7 digest 1 GET / Digest realm=r,nonce=n,uri=\"/\",response=p,cnonce=c,\
    username=u,nc=0000000A,qop=auth\n1 7 1 bad-line message nc\n\
    7 digest 1 GET / Digest realm=r,nonce=n,uri=\"/\",response=p,cnonce=c,\
    username=u,nc=0000000a,algorithm=MD5-sess,qop=x\n1 7 1 bad-line message algorithm\n\
    7 digest 1 GET / Digest realm=r,nonce=n,uri=\"/\",response=p,cnonce=c,\
    username=u,nc=0000000a,qop=auth-int,userhash=true\n1 7 1 bad-line message qop\n\
    7 digest 1 GET / Digest realm=r,nonce=n,uri=\"/\",response=p,cnonce=c,\
    username=u,nc=0000000a,qop=AUTH\n1 7 1 bad-line message qop\n\
    7 digest 1 GET / Digest realm=r,nonce=n,uri=\"/\",response=p,cnonce=c,\
    username=u,nc=0000000a,qop=auth,userhash=true\n1 7 1 bad-line message userhash\n\
    7 authorize 4294967296\n1 7 1 bad-line number 3\n\
    7 close 1\r\n1 7 1 bad-line number 3\n\
    7 allows 1 \n1 7 1 bad-line word 4\n\
";

#[test]
fn lines_are_read_or_told_by_their_first_fault(rt: HostRuntime) -> Result<(), Fail> {
    let mut rest = LINES;
    for row in 0..134 {
        let (line, behind) = cut_at(rest, b'\n');
        let (wanted, behind) = cut_at(behind.unwrap_or(b""), b'\n');
        let told = told(rt.alloc(), line)?;
        assert!(rt;
            told.bytes().strip_suffix(b"\n") == Some(wanted),
            "at row {row}"
        );
        rest = behind.unwrap_or(b"");
    }
    assert!(rt; rest.is_empty());
    Ok(())
}

/// A text, and another some times behind it.
fn repeated(alloc: Global, text: &[u8], more: &[u8], count: u32) -> Result<Vec<u8>, Fail> {
    let mut line = Vec::from_slice(alloc, text)?;
    for _ in 0..count {
        line.extend_from_slice(more)?;
    }
    Ok(line)
}

#[test]
fn bounds_of_lines_names_and_values_are_exact(rt: HostRuntime) -> Result<(), Fail> {
    let rows: [(&[u8], &[u8], u32, &[u8]); 6] = [
        (b"7 remove main ", b"n", 255, b"1 7 1 remove ok\n"),
        (b"7 remove main ", b"n", 256, b"1 7 1 bad-line word 4\n"),
        (b"7 remove main ", b"n", 8178, b"1 7 1 bad-line word 4\n"),
        (b"7 remove main ", b"n", 8179, b"1 0 1 bad-line long\n"),
        (
            b"7 set-attr main u groups",
            b" v",
            64,
            b"1 7 1 set-attr ok\n",
        ),
        (
            b"7 set-attr main u groups",
            b" v",
            65,
            b"1 7 1 bad-line arity\n",
        ),
    ];
    for (text, more, count, wanted) in rows {
        let line = repeated(rt.alloc(), text, more, count)?;
        assert_eq!(rt; told(rt.alloc(), line.as_slice())?.bytes(), wanted);
    }
    Ok(())
}

/// An identity with two roles.
fn established(alloc: Global) -> Result<Outcome, Fail> {
    let place = Place {
        realm: Name::read(alloc, b"main")?,
        name: Name::read(alloc, b"a b")?,
    };
    let mut roles = Vec::new(alloc);
    roles.push(Name::read(alloc, b"r,1")?)?;
    roles.push(Name::read(alloc, b"r2")?)?;
    Ok(Outcome::Established {
        version: Version(3),
        place,
        roles: Roles::of(roles),
    })
}

/// Outcomes, each with its text.
fn outcome_row(alloc: Global, row: u8) -> Result<Option<(Outcome, &'static [u8])>, Fail> {
    Ok(match row {
        0 => Some((Outcome::Changed(Version(9)), b"ok 9")),
        1 => Some((
            Outcome::Refused(EditFault::JournalFull(131072)),
            b"journal-full 131072",
        )),
        2 => Some((Outcome::Refused(EditFault::AttrsFull), b"attrs-full")),
        3 => Some((
            Outcome::Refused(EditFault::Users(PropFault::TooMany(2))),
            b"users too-many 2",
        )),
        4 => Some((
            Outcome::Opened {
                serial: Serial(2),
                challenge: Some(Bytes::copy_of(alloc, b"Digest x")?),
            },
            b"ok 2 Digest x",
        )),
        5 => Some((Outcome::ContextsFull, b"contexts-full 4096")),
        6 => Some((Outcome::State(StateWord::Absent), b"state absent")),
        7 => Some((
            Outcome::Mechanism(Mech::DigestSha256),
            b"mechanism DIGEST-SHA-256",
        )),
        8 => Some((
            Outcome::Pipe(PipeFault::NoRealm(Bytes::copy_of(alloc, b"a,b")?)),
            b"pipe no-realm a%2Cb",
        )),
        9 => Some((Outcome::Replayed(1), b"replayed 1")),
        10 => Some((Outcome::Proved(None), b"proved")),
        11 => Some((Outcome::Proved(Tag::of(b"\0")), b"proved v=AA==")),
        12 => Some((Outcome::Binding, b"binding e=channel-bindings-dont-match")),
        13 => Some((Outcome::Denied(Version(0)), b"denied 0")),
        14 => Some((
            established(alloc)?,
            b"established 3 main a%20b roles=r%2C1,r2",
        )),
        _ => None,
    })
}

/// The fourth step with that outcome, as it is printed.
fn printed_late(alloc: Global, outcome: Outcome) -> Result<Bytes, NoMemory> {
    let entry = Entry {
        actor: 5,
        line: 6,
        word: StepWord::Check2,
        outcome,
        cache: CacheWord::Late,
    };
    let text = print_step(alloc, 4, &entry);
    discard(entry);
    text
}

#[test]
fn outcomes_are_printed_with_their_step_and_cache_word(rt: HostRuntime) -> Result<(), Fail> {
    for i in 0..15 {
        if let Some((outcome, text)) = outcome_row(rt.alloc(), i)? {
            let printed = printed_late(rt.alloc(), outcome)?;
            let mut wanted = Vec::from_slice(rt.alloc(), b"4 5 6 check2 ")?;
            wanted.extend_from_slice(text)?;
            wanted.extend_from_slice(b" late\n")?;
            assert_eq!(rt; printed.bytes(), wanted.as_slice());
        }
    }
    Ok(())
}
