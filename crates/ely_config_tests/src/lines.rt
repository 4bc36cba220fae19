//! Lines with what is written for each that is no configuration.

use ely_base::{NoMemory, Refused, discard};
use ely_config::Config;
use ely_config_text::{TextFault, push_fault, read_config};
use std::alloc::Global;
use std::test::Fail;

/// The line that tells the fault, without its LF.
fn told(alloc: Global, fault: &TextFault) -> Result<Vec<u8>, NoMemory> {
    let mut out = Vec::new(alloc);
    push_fault(&mut out, fault)?;
    let _ = out.pop();
    Ok(out)
}

/// How many realms the configuration has, as a digit.
fn counted(alloc: Global, config: &Config) -> Result<Vec<u8>, NoMemory> {
    let mut out = Vec::new(alloc);
    out.push(b'0'.wrapping_add(config.realms().len() as u8))?;
    Ok(out)
}

/// What comes of the line: how many realms its configuration has, or the line that tells its fault.
fn outcome(alloc: Global, line: &[u8]) -> Result<Vec<u8>, NoMemory> {
    match read_config(alloc, line) {
        Ok(config) => {
            let text = counted(alloc, &config);
            discard(config);
            text
        }
        Err(Refused::Fault(fault)) => {
            let text = told(alloc, &fault);
            discard(fault);
            text
        }
        Err(Refused::NoMemory) => Err(NoMemory),
    }
}

/// Lines, and what comes of each.
const LINES: [(&[u8], &[u8]); 40] = [
    (b"{}", b"1"),
    (b" {\r} ", b"1"),
    (b" { } \r", b"1"),
    (b"", b"config / not-json"),
    (b"{", b"config / not-json"),
    (b"{} {}", b"config / not-json"),
    (b"{}x", b"config / not-json"),
    (b"\xff", b"config / not-json"),
    (b"{\"seed\":\"\xff\"}", b"config / not-json"),
    (b"{\"seed\":\"\\ud800\"}", b"config / not-json"),
    (b"{\"seed\":\"\\u00e4\"}", b"1"),
    (b"{\"seed\":1e999}", b"config / not-json"),
    (b"null", b"config / kind"),
    (b"true", b"config / kind"),
    (b"1", b"config / kind"),
    (b"\"a\"", b"config / kind"),
    (b"[]", b"config / kind"),
    (b"{\"x\":1}", b"config /x unknown"),
    (b"{\"a b/%\":1}", b"config /a%20b/%25 unknown"),
    (b"{\"seed\":1,\"seed\":\"\"}", b"1"),
    (b"{\"seed\":\"\",\"seed\":1}", b"config /seed kind"),
    (b"{\"version\":1.0}", b"config /version kind"),
    (b"{\"version\":1e0}", b"config /version kind"),
    (
        b"{\"version\":18446744073709551616}",
        b"config /version kind",
    ),
    (b"{\"version\":-0}", b"config /version kind"),
    (b"{\"version\":-1}", b"config /version range"),
    (b"{\"version\":2}", b"config /version range"),
    (b"{\"default-realm\":\"\"}", b"config /default-realm range"),
    (
        b"{\"default-realm\":\"a\\u0000\"}",
        b"config /default-realm range",
    ),
    (
        b"{\"default-realm\":\"a\"}",
        b"config /default-realm unknown",
    ),
    (b"{\"realms\":[]}", b"config /realms range"),
    (
        b"{\"realms\":[{\"kind\":\"modifiable\",\"name\":\"a\"},{\"kind\":\"modifiable\",\"name\":\"a\"}]}",
        b"config /realms/1/name twice",
    ),
    (
        b"{\"realms\":[{\"kind\":\"caching\",\"name\":\"a\",\"of\":\"b\"}]}",
        b"config /realms/0/of unknown",
    ),
    (
        b"{\"realms\":[{\"authentication\":\"a\",\"authorization\":[\"b\"],\"kind\":\"aggregate\",\"name\":\"c\"},{\"kind\":\"modifiable\",\"name\":\"a\"}]}",
        b"config /realms/0/authorization/0 unknown",
    ),
    (
        b"{\"realms\":[{\"authentication\":\"c\",\"authorization\":[\"b\"],\"kind\":\"aggregate\",\"name\":\"c\"}]}",
        b"config /realms/0/authentication nested",
    ),
    (
        b"{\"realms\":[{\"kind\":\"properties\",\"name\":\"a\",\"users\":\"u=939e7578ed9e3c518a452acee763bce9\\nx\"}]}",
        b"config /realms/0/users bad-line 2",
    ),
    (
        b"{\"realms\":[{\"groups\":\"x\",\"kind\":\"properties\",\"name\":\"a\"}]}",
        b"config /realms/0/groups bad-line 1",
    ),
    (
        b"{\"realm-mapper\":{\"realm\":\"a\",\"rule\":\"constant\"}}",
        b"config /realm-mapper/realm unknown",
    ),
    (
        b"{\"realm-mapper\":{\"mark\":\"@\",\"pairs\":[[\"a\",\"main\"],[\"b\",\"c\"]],\"rule\":\"map-after\"}}",
        b"config /realm-mapper/pairs/1/1 unknown",
    ),
    (
        b"{\"realms\":[{\"kind\":\"modifiable\",\"name\":\"a\"},{\"kind\":\"caching\",\"name\":\"b\",\"of\":\"a\"}]}",
        b"2",
    ),
];

#[test]
fn lines_are_configurations_or_told_by_their_first_fault(rt: HostRuntime) -> Result<(), Fail> {
    for (row, (line, wanted)) in LINES.iter().enumerate() {
        let said = outcome(rt.alloc(), line)?;
        assert!(rt; said.as_slice() == *wanted, "at row {row}");
    }
    Ok(())
}

/// So many open brackets.
fn brackets(alloc: Global, count: u32) -> Result<Vec<u8>, NoMemory> {
    let mut line = Vec::new(alloc);
    for _ in 0..count {
        line.push(b'[')?;
    }
    Ok(line)
}

#[test]
fn many_open_brackets_are_no_json(rt: HostRuntime) -> Result<(), Fail> {
    let line = brackets(rt.alloc(), 10000)?;
    let said = outcome(rt.alloc(), &line)?;
    assert_eq!(rt; said.as_slice(), b"config / not-json".as_slice());
    Ok(())
}
