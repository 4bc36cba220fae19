ghost use Rattle.std.specs.Prelude.{◌≡◌, ◌<◌};

use ely_hash::Steps;
use ely_io::{MemSink, MemSource};
use ely_run::run;
use std::alloc::Global;
use std::marker::Brand;
use std::sync::ledger::{Blank, Ledger};
use std::test::Fail;

fn counted<L: Ledger>(
    blank: Blank,
    alloc: Global,
    words: &[String],
    source: &mut MemSource,
    sink: &mut MemSink,
) -> u8
    requires name { blank.name ≡ L.name }
    requires parts { blank.parts ≡ L.parts }
    requires some { 0 < blank.parts }
{
    let mut steps = Steps::<L>::of(blank);
    run(alloc, words, source, sink, &mut steps)
}

/// The status of a run with a counter of its own.
fn status_of(alloc: Global, words: &[String], source: &mut MemSource, sink: &mut MemSink) -> u8 {
    counted::<Brand>(Blank::new(1), alloc, words, source, sink)
}

/// How the source is read and the sink takes: the sizes of the calls, and the calls of the source that fail.
#[derive(Clone, Copy)]
struct Plan<'a> {
    pieces: &'a [usize],
    failing: &'a [u64],
    takes: &'a [usize],
}

const WHOLE: Plan<'static> = Plan {
    pieces: &[],
    failing: &[],
    takes: &[],
};

/// What a run on these words and this input did: its status, what it wrote, and how often it read.
fn ran(
    rt: &HostRuntime,
    words: &[&str],
    input: &[u8],
    plan: &Plan,
) -> Result<(u8, Vec<u8>, u64), Fail> {
    let mut list = Vec::new(rt.alloc());
    for word in words {
        list.push(String::from_str(rt.alloc(), word)?)?;
    }
    let mut source = MemSource::new(
        input.to_vec(rt.alloc())?,
        plan.pieces.to_vec(rt.alloc())?,
        plan.failing.to_vec(rt.alloc())?,
    );
    let mut sink = MemSink::new(
        rt.alloc(),
        plan.takes.to_vec(rt.alloc())?,
        Vec::new(rt.alloc()),
    );
    let status = status_of(rt.alloc(), &list, &mut source, &mut sink);
    Ok((status, sink.bytes().to_vec(rt.alloc())?, source.calls()))
}

const REPLAY: [&str; 2] = ["elydom", "replay"];

/// An input, and the status and the text of its replay.
type Row<'a> = (&'a [u8], u8, &'a [u8]);

/// The index of the first input whose replay has another status or another text.
fn first_wrong(rt: &HostRuntime, rows: &[Row]) -> Result<Option<usize>, Fail> {
    for (index, (input, status, text)) in rows.iter().enumerate() {
        let (ended, said, _) = ran(rt, &REPLAY, input, &WHOLE)?;
        if ended != *status || said.as_slice() != *text {
            return Ok(Some(index));
        }
    }
    Ok(None)
}

#[test]
fn other_words_are_refused(rt: HostRuntime) -> Result<(), Fail> {
    let lists: [&[&str]; 3] = [
        &["elydom"],
        &["elydom", "race"],
        &["elydom", "replay", "--workers", "2"],
    ];
    for words in lists {
        let (status, text, reads) = ran(&rt, words, b"{}\n", &WHOLE)?;
        assert_eq!(rt; status, 2);
        assert_eq!(rt; text.as_slice(), b"words\n".as_slice());
        assert_eq!(rt; reads, 0);
    }
    Ok(())
}

#[test]
fn a_check_tells_the_lines_that_cannot_be_read(rt: HostRuntime) -> Result<(), Fail> {
    let rows: [Row; 4] = [
        (
            b"{}\n0 add main user\n0 zap\n",
            0,
            b"2 bad-line verb\nchecked 2 lines 1 bad\n",
        ),
        (b"{}", 0, b"checked 0 lines 0 bad\n"),
        (
            b"{}\n\n7 succeed 1",
            0,
            b"1 bad-line no-actor\nchecked 2 lines 1 bad\n",
        ),
        (b"{\"x\":1}\n0 zap\n", 3, b"config /x unknown\n"),
    ];
    for (input, status, text) in rows {
        let (ended, said, _) = ran(&rt, &["elydom", "check"], input, &WHOLE)?;
        assert!(rt; ended == status && said.as_slice() == text);
    }
    Ok(())
}

/// Each verb that is carried out.
const VERBS: &[u8] = b"{}
0 add main user
0 set-cred main user 1 clear pen%20cil
0 set-cred main user 2 clear other
0 drop-cred main user 2
0 set-attr main user mail user@example.org
0 drop-attr main user mail
0 set-attr main user groups staff night%20shift staff
0 open 7 PLAIN
0 plain 7 Ym9iAHVzZXIAcGVuY2ls
0 plain 7 dXNlcgB1c2VyAHBlbiBjaWw=
0 authorize 7
0 succeed 7
0 allows 7 login
0 allows 7 shut%20down
0 close 7
0 open 7 PLAIN xyz
0 fail 7
0 close 7
0 remove main user
";

const VERBS_TEXT: &[u8] = b"1 0 1 add ok 1
2 0 2 set-cred ok 2
3 0 3 set-cred ok 3
4 0 4 drop-cred ok 4
5 0 5 set-attr ok 5
6 0 6 drop-attr ok 6
7 0 7 set-attr ok 7
8 0 8 open ok 1
9 0 9 name1 authzid
10 0 10 name1 pinned 7 -
11 0 10 name2 named -
12 0 10 check1 ok
13 0 10 check2 proved
14 0 11 authorize authorized
15 0 12 succeed established 7 main user roles=night%20shift,staff
16 0 13 allows yes
17 0 14 allows no
18 0 15 close ok
19 0 16 open ok 2
20 0 17 fail ok
21 0 18 close ok
22 0 19 remove ok 8
";

const REFUSED: &[u8] = b"{}
0 add main user
0 set-cred main user 1 clear pencil
0 open 1 PLAIN
0 plain 1 AGJvYgB4
0 plain 1 AHVzZXIAcGVuY2l4
0 authorize 1
0 zap";

const REFUSED_TEXT: &[u8] = b"1 0 1 add ok 1
2 0 2 set-cred ok 2
3 0 3 open ok 1
4 0 4 name1 unknown
5 0 5 name1 pinned 2 -
6 0 5 name2 named -
7 0 5 check1 ok
8 0 5 check2 password
9 0 6 authorize state failed
10 0 7 bad-line verb
";

/// A password that was salted with two turns of SHA-1 (RFC 6070), and in a lower slot what a hash of another name says.
const SALTED: &[u8] = b"{}
0 add main user
0 set-cred main user 1 scram-sha-1 2:c2FsdA==:6mwBTcctb4zNHtkqzh1B8NjeiVc=
0 open 1 PLAIN
0 plain 1 AHVzZXIAcGFzc3dvcmQ=
0 set-cred main user 0 digest-md5 939e7578ed9e3c518a452acee763bce9:testrealm@host.com
0 open 2 PLAIN
0 plain 2 AHVzZXIAcGFzc3dvcmQ=
0 set-cred main user 1 scram-sha-1 0:c2FsdA==:6mwBTcctb4zNHtkqzh1B8NjeiVc=";

const SALTED_TEXT: &[u8] = b"1 0 1 add ok 1
2 0 2 set-cred ok 2
3 0 3 open ok 1
4 0 4 name1 pinned 2 -
5 0 4 name2 named -
6 0 4 check1 ok
7 0 4 check2 proved
8 0 5 set-cred ok 3
9 0 6 open ok 2
10 0 7 name1 pinned 3 -
11 0 7 name2 named -
12 0 7 check1 ok
13 0 7 check2 password
14 0 8 bad-line cred turns
";

/// Edits behind a login's naming: it goes on as it was pinned, and the next login is of the identity that they made.
const PINNED: &[u8] = b"{}
0 add main user
0 set-cred main user 1 clear pencil
0 set-attr main user groups staff
0 open 1 PLAIN
0 plain 1 AHVzZXIAcGVuY2ls
0 remove main user
0 add main user
0 set-cred main user 1 clear other
0 set-attr main user groups guests
0 authorize 1
0 succeed 1
0 allows 1 login
0 open 2 PLAIN
0 plain 2 AHVzZXIAcGVuY2ls
";

const PINNED_TEXT: &[u8] = b"1 0 1 add ok 1
2 0 2 set-cred ok 2
3 0 3 set-attr ok 3
4 0 4 open ok 1
5 0 5 name1 pinned 3 -
6 0 5 name2 named -
7 0 5 check1 ok
8 0 5 check2 proved
9 0 6 remove ok 4
10 0 7 add ok 5
11 0 8 set-cred ok 6
12 0 9 set-attr ok 7
13 0 10 authorize authorized
14 0 11 succeed established 3 main user roles=staff
15 0 12 allows yes
16 0 13 open ok 2
17 0 14 name1 pinned 7 -
18 0 14 name2 named -
19 0 14 check1 ok
20 0 14 check2 password
";

/// The login of RFC 5802 section 5, with what it is told at each wrong turn before, and edits between its two messages.
const SCRAM: &[u8] = b"{}
0 add main user
0 set-cred main user 1 scram-sha-1 4096:QSXCR+Q6sek8bf92:HZbuOlKbWl+eR8AfIposuKbhX30=
0 open 1 SCRAM-SHA-1 3rfcNHYJY1ZVvWVs7j
0 plain 1 AHVzZXIAcGVuY2ls
0 final 1 c=biws,r=fyko+d2lbbFgONRv9qkxdawL3rfcNHYJY1ZVvWVs7j,p=v0X8v3Bz2T0CJGbJQyF0X+HI4Ts=
0 first 1 n,a=other,n=user,r=abc
0 first 1 n,,n=bob,r=abc
0 first 1 n,,n=user,r=fyko+d2lbbFgONRv9qkxdawL
0 first 1 n,,n=user,r=fyko+d2lbbFgONRv9qkxdawL
0 plain 1 AHVzZXIAcGVuY2ls
0 remove main user
0 add main user
0 final 1 c=biws,r=fyko+d2lbbFgONRv9qkxdawL3rfcNHYJY1ZVvWVs7j,p=v0X8v3Bz2T0CJGbJQyF0X+HI4Ts=
0 authorize 1
0 succeed 1
0 open 2 SCRAM-SHA-1
0 first 2 n,,n=user,r=abc
";

const SCRAM_TEXT: &[u8] = b"1 0 1 add ok 1
2 0 2 set-cred ok 2
3 0 3 open ok 1
4 0 4 name1 mechanism SCRAM-SHA-1
5 0 5 check1 state fresh
6 0 6 name1 authzid
7 0 7 name1 unknown
8 0 8 name1 pinned 2 -
9 0 8 name2 challenge r=fyko+d2lbbFgONRv9qkxdawL3rfcNHYJY1ZVvWVs7j,s=QSXCR+Q6sek8bf92,i=4096 -
10 0 9 name1 state named
11 0 10 name1 state named
12 0 11 remove ok 3
13 0 12 add ok 4
14 0 13 check1 ok
15 0 13 check2 proved v=rmF9pqV8S7suAoZWja4dJRkFsKQ=
16 0 14 authorize authorized
17 0 15 succeed established 2 main user roles=
18 0 16 open ok 2
19 0 17 name1 no-credential
";

/// Last messages of other logins: another binding, another nonce, another proof by its last bit, one byte less and none.
const UNPROVED: &[u8] = b"{}
0 add main user
0 set-cred main user 1 scram-sha-1 4096:QSXCR+Q6sek8bf92:HZbuOlKbWl+eR8AfIposuKbhX30=
0 open 1 SCRAM-SHA-1 3rfcNHYJY1ZVvWVs7j
0 first 1 n,,n=user,r=fyko+d2lbbFgONRv9qkxdawL
0 final 1 c=eSws,r=fyko+d2lbbFgONRv9qkxdawL3rfcNHYJY1ZVvWVs7j,p=v0X8v3Bz2T0CJGbJQyF0X+HI4Ts=
0 final 1 c=biws,r=fyko+d2lbbFgONRv9qkxdawL3rfcNHYJY1ZVvWVs7j,p=v0X8v3Bz2T0CJGbJQyF0X+HI4Ts=
0 open 2 SCRAM-SHA-1 3rfcNHYJY1ZVvWVs7j
0 first 2 n,,n=user,r=fyko+d2lbbFgONRv9qkxdawL
0 final 2 c=biws,r=fyko+d2lbbFgONRv9qkxdawL,p=v0X8v3Bz2T0CJGbJQyF0X+HI4Ts=
0 open 3 SCRAM-SHA-1 3rfcNHYJY1ZVvWVs7j
0 first 3 n,,n=user,r=fyko+d2lbbFgONRv9qkxdawL
0 final 3 c=biws,r=fyko+d2lbbFgONRv9qkxdawL3rfcNHYJY1ZVvWVs7j,p=v0X8v3Bz2T0CJGbJQyF0X+HI4To=
0 open 4 SCRAM-SHA-1 3rfcNHYJY1ZVvWVs7j
0 first 4 n,,n=user,r=fyko+d2lbbFgONRv9qkxdawL
0 final 4 c=biws,r=fyko+d2lbbFgONRv9qkxdawL3rfcNHYJY1ZVvWVs7j,p=v0X8v3Bz2T0CJGbJQyF0X+HI4Q==
";

const UNPROVED_TEXT: &[u8] = b"1 0 1 add ok 1
2 0 2 set-cred ok 2
3 0 3 open ok 1
4 0 4 name1 pinned 2 -
5 0 4 name2 challenge r=fyko+d2lbbFgONRv9qkxdawL3rfcNHYJY1ZVvWVs7j,s=QSXCR+Q6sek8bf92,i=4096 -
6 0 5 check1 ok
7 0 5 check2 binding e=channel-bindings-dont-match
8 0 6 check1 state failed
9 0 7 open ok 2
10 0 8 name1 pinned 2 -
11 0 8 name2 challenge r=fyko+d2lbbFgONRv9qkxdawL3rfcNHYJY1ZVvWVs7j,s=QSXCR+Q6sek8bf92,i=4096 -
12 0 9 check1 ok
13 0 9 check2 nonce e=other-error
14 0 10 open ok 3
15 0 11 name1 pinned 2 -
16 0 11 name2 challenge r=fyko+d2lbbFgONRv9qkxdawL3rfcNHYJY1ZVvWVs7j,s=QSXCR+Q6sek8bf92,i=4096 -
17 0 12 check1 ok
18 0 12 check2 proof e=invalid-proof
19 0 13 open ok 4
20 0 14 name1 pinned 2 -
21 0 14 name2 challenge r=fyko+d2lbbFgONRv9qkxdawL3rfcNHYJY1ZVvWVs7j,s=QSXCR+Q6sek8bf92,i=4096 -
22 0 15 check1 ok
23 0 15 check2 proof e=invalid-proof
";

/// A login of SCRAM-SHA-256 by a password in the clear, under the salt and the nonce that the domain derives (Python's hashlib),
/// and that of RFC 7677 section 3.
const SCRAM256: &[u8] = b"{}
0 add main user
0 set-cred main user 1 clear pencil
0 open 1 SCRAM-SHA-256
0 first 1 n,,n=user,r=abc
0 final 1 c=biws,r=abcfa94f5bc34ba30ecb04f983abf7c5954,p=J9GWDFQbVLWF5s2R7i3E8ch2PdG1jCdR6SjPR6JGcNY=
0 set-cred main user 0 scram-sha-256 4096:W22ZaJ0SNY7soEsUEjb6gQ==:xKSVEDI6tPlSysH6mUQZOeeOp01r6B3fcJbodRPcYV0=
0 open 2 SCRAM-SHA-256 %hvYDpWUa2RaTCAfuxFIlj)hNlF$k0
0 first 2 n,,n=user,r=rOprNGfwEbeRWgbNEkqO
0 final 2 c=biws,r=rOprNGfwEbeRWgbNEkqO%hvYDpWUa2RaTCAfuxFIlj)hNlF$k0,p=dHzbZapWIk4jUhN+Ute9ytag9zjfMHgsqmmiz7AndVQ=
";

const SCRAM256_TEXT: &[u8] = b"1 0 1 add ok 1
2 0 2 set-cred ok 2
3 0 3 open ok 1
4 0 4 name1 pinned 2 -
5 0 4 name2 challenge r=abcfa94f5bc34ba30ecb04f983abf7c5954,s=MIxFifIE29fdUPBJ47MpYA==,i=4096 -
6 0 5 check1 ok
7 0 5 check2 proved v=SrhDZakgImr//rp2wWTp0a59xAGb5UXMzZn8l1Pnmwc=
8 0 6 set-cred ok 3
9 0 7 open ok 2
10 0 8 name1 pinned 3 -
11 0 8 name2 challenge r=rOprNGfwEbeRWgbNEkqO%hvYDpWUa2RaTCAfuxFIlj)hNlF$k0,s=W22ZaJ0SNY7soEsUEjb6gQ==,i=4096 -
12 0 9 check1 ok
13 0 9 check2 proved v=6rriTRBi23WpRR/wtup+mMhUZUn/dB5nLTJRsjl95G4=
";

#[test]
fn scram_logins_print_their_history(rt: HostRuntime) -> Result<(), Fail> {
    let rows: [Row; 3] = [
        (SCRAM, 0, SCRAM_TEXT),
        (UNPROVED, 0, UNPROVED_TEXT),
        (SCRAM256, 0, SCRAM256_TEXT),
    ];
    assert_eq!(rt; first_wrong(&rt, &rows)?, None);
    Ok(())
}

#[test]
fn scripts_print_their_history(rt: HostRuntime) -> Result<(), Fail> {
    let rows: [Row; 6] = [
        (b"{}", 0, b""),
        (b"{}\n", 0, b""),
        (VERBS, 0, VERBS_TEXT),
        (REFUSED, 0, REFUSED_TEXT),
        (SALTED, 0, SALTED_TEXT),
        (PINNED, 0, PINNED_TEXT),
    ];
    assert_eq!(rt; first_wrong(&rt, &rows)?, None);
    Ok(())
}

#[test]
fn another_first_line_is_refused(rt: HostRuntime) -> Result<(), Fail> {
    let most = vec![in rt.alloc(); b'x'; 1048576]?;
    let more = vec![in rt.alloc(); b'x'; 1048577]?;
    let rows: [Row; 5] = [
        (b"", 3, b"config / not-json\n"),
        (b"\n{}\n", 3, b"config / not-json\n"),
        (b"{\"x\":1}\n", 3, b"config /x unknown\n"),
        (&most, 3, b"config / not-json\n"),
        (&more, 6, b"limit config 1048576\n"),
    ];
    assert_eq!(rt; first_wrong(&rt, &rows)?, None);
    Ok(())
}

/// Lines of 8,192, of 8,193 and of this many bytes, the last without an LF.
fn long_lines(alloc: Global, last: usize) -> Result<Vec<u8>, Fail> {
    let mut input = b"{}".to_vec(alloc)?;
    for len in [8192, 8193, last] {
        input.extend_from_slice(b"\n3 ")?;
        input.extend_from_slice(&vec![in alloc; b'x'; len.max(2) - 2]?)?;
    }
    Ok(input)
}

const LONG_TEXT: &[u8] = b"1 3 1 bad-line verb
2 0 1 bad-line long
3 3 2 bad-line verb
";

const LONGER_TEXT: &[u8] = b"1 3 1 bad-line verb
2 0 1 bad-line long
3 0 2 bad-line long
";

#[test]
fn a_line_has_at_most_8192_bytes(rt: HostRuntime) -> Result<(), Fail> {
    let long = long_lines(rt.alloc(), 8192)?;
    let longer = long_lines(rt.alloc(), 8193)?;
    let rows: [Row; 2] = [(&long, 0, LONG_TEXT), (&longer, 0, LONGER_TEXT)];
    assert_eq!(rt; first_wrong(&rt, &rows)?, None);
    Ok(())
}

#[test]
fn much_text_of_one_read_is_written_in_order(rt: HostRuntime) -> Result<(), Fail> {
    let mut input = b"{}\n".to_vec(rt.alloc())?;
    let mut text = Vec::new(rt.alloc());
    for number in 1..701u32 {
        input.extend_from_slice(b"0 zap\n")?;
        let line = format!(in rt.alloc(); "{number} 0 {number} bad-line verb\n")?;
        text.extend_from_slice(line.as_bytes())?;
    }
    let rows: [Row; 1] = [(&input, 0, &text)];
    assert_eq!(rt; first_wrong(&rt, &rows)?, None);
    Ok(())
}

/// A plan, and the status of a replay by it, what it writes, and how often it reads.
type Failure<'a> = (Plan<'a>, u8, &'a [u8], u64);

#[test]
fn what_is_answered_is_written_before_the_next_read(rt: HostRuntime) -> Result<(), Fail> {
    let failures: [Failure; 4] = [
        // the configuration and the first line, and then a fault
        (
            Plan {
                pieces: &[19],
                failing: &[1],
                takes: &[],
            },
            4,
            b"1 0 1 add ok 1\n",
            2,
        ),
        // the sink fails before the source is read again
        (
            Plan {
                pieces: &[19],
                failing: &[1],
                takes: &[0],
            },
            5,
            b"",
            1,
        ),
        (
            Plan {
                pieces: &[19],
                failing: &[],
                takes: &[5, 0],
            },
            5,
            b"1 0 1",
            1,
        ),
        (
            Plan {
                pieces: &[3, 16, 8],
                failing: &[3],
                takes: &[],
            },
            4,
            b"1 0 1 add ok 1\n",
            4,
        ),
    ];
    for (plan, status, text, reads) in &failures {
        let (ended, said, calls) = ran(&rt, &REPLAY, VERBS, plan)?;
        assert_eq!(rt; ended, *status);
        assert_eq!(rt; said.as_slice(), *text);
        assert_eq!(rt; calls, *reads);
    }
    Ok(())
}
