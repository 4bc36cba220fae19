use ely_config_tree::{FaultKind, TreeFault, push_path, tree_fault};
use serde_json::Value;
use std::alloc::Global;
use std::test::Fail;

/// The word of a kind.
fn word(kind: FaultKind) -> &'static [u8] {
    match kind {
        FaultKind::Missing => b" missing",
        FaultKind::Kind => b" kind",
        FaultKind::Range => b" range",
        FaultKind::Unknown => b" unknown",
    }
}

/// The path and the kind of a fault, and a dash where there is none.
fn written(alloc: Global, found: Option<TreeFault>) -> Result<Vec<u8>, Fail> {
    let mut out = Vec::new(alloc);
    match found {
        None => out.push(b'-')?,
        Some(fault) => {
            push_path(&mut out, &fault)?;
            out.extend_from_slice(word(fault.kind()))?;
        }
    }
    Ok(out)
}

/// Whether the text's first fault is written so.
fn tells(alloc: Global, text: &str, told: &str) -> Result<bool, Fail> {
    let value = Value::from_str(alloc, text)?;
    let out = written(alloc, tree_fault(alloc, &value)?)?;
    Ok(out.as_slice() == told.as_bytes())
}

/// The text before, an array of the item so many times, and the text behind.
fn listed(
    alloc: Global,
    before: &str,
    item: &str,
    count: u64,
    behind: &str,
) -> Result<String, Fail> {
    let mut text = String::from_str(alloc, before)?;
    text.push_str("[")?;
    for index in 0..count {
        if index > 0 {
            text.push_str(",")?;
        }
        text.push_str(item)?;
    }
    text.push_str("]")?;
    text.push_str(behind)?;
    Ok(text)
}

/// The opening text so many times, the text in the middle, and the closing text as often.
fn nested(
    alloc: Global,
    open: &str,
    middle: &str,
    close: &str,
    count: u64,
) -> Result<String, Fail> {
    let mut text = String::new(alloc);
    for _ in 0..count {
        text.push_str(open)?;
    }
    text.push_str(middle)?;
    for _ in 0..count {
        text.push_str(close)?;
    }
    Ok(text)
}

/// A text of so many bytes between the two others.
fn long(alloc: Global, before: &str, count: u64, behind: &str) -> Result<String, Fail> {
    let mut text = String::from_str(alloc, before)?;
    for _ in 0..count {
        text.push_str("x")?;
    }
    text.push_str(behind)?;
    Ok(text)
}

/// Configurations, and how their first faults are written.
const ROOT_ROWS: [(&str, &str); 44] = [
    ("{}", "-"),
    ("null", "/ kind"),
    ("[]", "/ kind"),
    (r#""text""#, "/ kind"),
    (r#"{"version":1}"#, "-"),
    (r#"{"version":"1"}"#, "/version kind"),
    (r#"{"version":2}"#, "/version range"),
    (r#"{"version":0}"#, "/version range"),
    (r#"{"version":-0}"#, "/version kind"),
    (r#"{"version":1.0}"#, "/version kind"),
    (r#"{"version":1.5}"#, "/version kind"),
    (r#"{"version":1e3}"#, "/version kind"),
    (r#"{"version":-5}"#, "/version range"),
    (r#"{"version":18446744073709551615}"#, "/version range"),
    (r#"{"version":18446744073709551616}"#, "/version kind"),
    (r#"{"version":-9223372036854775809}"#, "/version kind"),
    (r#"{"digest-realm":"a realm"}"#, "-"),
    (r#"{"digest-realm":1}"#, "/digest-realm kind"),
    (r#"{"digest-realm":""}"#, "/digest-realm range"),
    (r#"{"digest-realm":"a\"b"}"#, "/digest-realm range"),
    (r#"{"digest-realm":"a\\b"}"#, "/digest-realm range"),
    (r#"{"digest-realm":"a\tb"}"#, "/digest-realm range"),
    (r#"{"seed":""}"#, "-"),
    (r#"{"seed":[]}"#, "/seed kind"),
    (r#"{"scram":[]}"#, "/scram kind"),
    (r#"{"scram":{}}"#, "-"),
    (r#"{"scram":{"turns":0}}"#, "/scram/turns range"),
    (r#"{"scram":{"turns":1000000}}"#, "-"),
    (r#"{"scram":{"turns":1000001}}"#, "/scram/turns range"),
    (r#"{"scram":{"turns":true}}"#, "/scram/turns kind"),
    (r#"{"scram":{"salt":1}}"#, "/scram/salt kind"),
    (r#"{"scram":{"salt":""}}"#, "/scram/salt range"),
    (r#"{"scram":{"salt":"AA"}}"#, "/scram/salt range"),
    (r#"{"scram":{"salt":"AA=="}}"#, "-"),
    (r#"{"scram":{"cost":1}}"#, "/scram/cost unknown"),
    (r#"{"default-realm":"main"}"#, "-"),
    (r#"{"default-realm":1}"#, "/default-realm kind"),
    (r#"{"default-realm":""}"#, "/default-realm range"),
    (r#"{"default-realm":"a\nb"}"#, "/default-realm range"),
    (r#"{"default-realm":"a\u0000b"}"#, "/default-realm range"),
    (r#"{"a b/c":1}"#, "/a%20b/c unknown"),
    (r#"{"":1}"#, "/ unknown"),
    (r#"{"zap":1,"seed":1}"#, "/seed kind"),
    (r#"{"version":2,"version":1}"#, "-"),
];

#[test]
fn the_members_of_the_root_are_told(rt: HostRuntime) -> Result<(), Fail> {
    for (text, told) in ROOT_ROWS {
        assert!(rt; tells(rt.alloc(), text, told)?);
    }
    Ok(())
}

/// The text before a text of so many bytes, what stands behind it, and how the first fault is written.
const LENGTH_ROWS: [(&str, u64, &str, &str); 9] = [
    (r#"{"seed":""#, 255, r#""}"#, "-"),
    (r#"{"seed":""#, 256, r#""}"#, "/seed range"),
    (r#"{"digest-realm":""#, 255, r#""}"#, "-"),
    (r#"{"digest-realm":""#, 256, r#""}"#, "/digest-realm range"),
    (r#"{"default-realm":""#, 255, r#""}"#, "-"),
    (
        r#"{"default-realm":""#,
        256,
        r#""}"#,
        "/default-realm range",
    ),
    (r#"{"scram":{"salt":""#, 84, r#"xQ=="}}"#, "-"),
    (
        r#"{"scram":{"salt":""#,
        84,
        r#"xxx="}}"#,
        "/scram/salt range",
    ),
    (
        r#"{"realms":[{"kind":"properties","name":"a","users":""#,
        5000,
        r#""}]}"#,
        "-",
    ),
];

#[test]
fn lengths_in_bytes_are_told(rt: HostRuntime) -> Result<(), Fail> {
    for (before, count, behind, told) in LENGTH_ROWS {
        let text = long(rt.alloc(), before, count, behind)?;
        assert!(rt; tells(rt.alloc(), text.as_str(), told)?);
    }
    Ok(())
}

/// Whether the first fault of a configuration with that member alone is written so.
fn tells_member(alloc: Global, name: &str, value: &str, told: &str) -> Result<bool, Fail> {
    let text = format!(in alloc; "{{\"{}\":{}}}", name, value)?;
    tells(alloc, text.as_str(), told)
}

/// Arrays of realms, and how the first faults of configurations with them are written.
const REALM_ROWS: [(&str, &str); 40] = [
    ("1", "/realms kind"),
    ("[]", "/realms range"),
    ("[1]", "/realms/0 kind"),
    ("[{}]", "/realms/0/kind missing"),
    (r#"[{"a":1,"name":""}]"#, "/realms/0/kind missing"),
    (r#"[{"kind":1,"a":1}]"#, "/realms/0/kind kind"),
    (r#"[{"kind":"zap","a":1}]"#, "/realms/0/kind range"),
    (r#"[{"kind":"modifiable"}]"#, "/realms/0/name missing"),
    (r#"[{"kind":"modifiable","name":"a"}]"#, "-"),
    (r#"[{"kind":"modifiable","name":1}]"#, "/realms/0/name kind"),
    (
        r#"[{"kind":"modifiable","name":""}]"#,
        "/realms/0/name range",
    ),
    (
        r#"[{"kind":"modifiable","users":""}]"#,
        "/realms/0/users unknown",
    ),
    (
        r#"[{"kind":"modifiable","name":"a","role-attribute":""}]"#,
        "/realms/0/role-attribute range",
    ),
    (
        r#"[{"kind":"modifiable","name":"a","role-attribute":[]}]"#,
        "/realms/0/role-attribute kind",
    ),
    (
        r#"[{"kind":"modifiable","name":"a","role-mapper":1}]"#,
        "/realms/0/role-mapper kind",
    ),
    (
        r#"[{"kind":"modifiable","name":"a","transformer":{}}]"#,
        "/realms/0/transformer/rule missing",
    ),
    (r#"[{"kind":"modifiable","name":"a"},2]"#, "/realms/1 kind"),
    (r#"[{"kind":"properties","name":"a"}]"#, "-"),
    (
        r#"[{"kind":"properties","groups":1}]"#,
        "/realms/0/groups kind",
    ),
    (
        r#"[{"kind":"properties","name":"a","users":1}]"#,
        "/realms/0/users kind",
    ),
    (
        r#"[{"kind":"properties","name":"a","plain-text":1}]"#,
        "/realms/0/plain-text kind",
    ),
    (
        r#"[{"kind":"properties","name":"a","plain-text":true,"users":"","groups":""}]"#,
        "-",
    ),
    (
        r#"[{"kind":"properties","of":"a"}]"#,
        "/realms/0/of unknown",
    ),
    (
        r#"[{"kind":"aggregate"}]"#,
        "/realms/0/authentication missing",
    ),
    (
        r#"[{"kind":"aggregate","authentication":"a"}]"#,
        "/realms/0/authorization missing",
    ),
    (
        r#"[{"kind":"aggregate","authentication":"a","authorization":["a"]}]"#,
        "/realms/0/name missing",
    ),
    (
        r#"[{"kind":"aggregate","authentication":1}]"#,
        "/realms/0/authentication kind",
    ),
    (
        r#"[{"kind":"aggregate","authentication":""}]"#,
        "/realms/0/authentication range",
    ),
    (
        r#"[{"kind":"aggregate","authorization":1}]"#,
        "/realms/0/authorization kind",
    ),
    (
        r#"[{"kind":"aggregate","authorization":[]}]"#,
        "/realms/0/authorization range",
    ),
    (
        r#"[{"kind":"aggregate","authorization":["a",1]}]"#,
        "/realms/0/authorization/1 kind",
    ),
    (
        r#"[{"kind":"aggregate","authorization":["a",""]}]"#,
        "/realms/0/authorization/1 range",
    ),
    (r#"[{"kind":"caching","name":"a"}]"#, "/realms/0/of missing"),
    (r#"[{"kind":"caching"}]"#, "/realms/0/name missing"),
    (r#"[{"kind":"caching","of":1}]"#, "/realms/0/of kind"),
    (r#"[{"kind":"caching","of":""}]"#, "/realms/0/of range"),
    (
        r#"[{"kind":"caching","max-entries":0}]"#,
        "/realms/0/max-entries range",
    ),
    (
        r#"[{"kind":"caching","max-entries":65537}]"#,
        "/realms/0/max-entries range",
    ),
    (
        r#"[{"kind":"caching","max-entries":"1"}]"#,
        "/realms/0/max-entries kind",
    ),
    (
        r#"[{"kind":"caching","max-entries":65536,"name":"a","of":"b"}]"#,
        "-",
    ),
];

#[test]
fn realms_are_told(rt: HostRuntime) -> Result<(), Fail> {
    for (realms, told) in REALM_ROWS {
        assert!(rt; tells_member(rt.alloc(), "realms", realms, told)?);
    }
    Ok(())
}

/// A member of the root, its value, and how the first fault is written.
const RULE_ROWS: [(&str, &str, &str); 42] = [
    ("decoder", "1", "/decoder kind"),
    ("pre-realm", "[]", "/pre-realm kind"),
    ("post-realm", "{}", "/post-realm/rule missing"),
    ("decoder", r#"{"rule":1}"#, "/decoder/rule kind"),
    ("decoder", r#"{"rule":"zap","a":1}"#, "/decoder/rule range"),
    ("decoder", r#"{"rule":"constant"}"#, "/decoder/to missing"),
    (
        "decoder",
        r#"{"rule":"constant","to":1}"#,
        "/decoder/to kind",
    ),
    (
        "decoder",
        r#"{"rule":"constant","to":""}"#,
        "/decoder/to range",
    ),
    ("decoder", r#"{"rule":"constant","to":"a"}"#, "-"),
    (
        "decoder",
        r#"{"rule":"constant","text":"a"}"#,
        "/decoder/text unknown",
    ),
    (
        "decoder",
        r#"{"rule":"add-prefix"}"#,
        "/decoder/text missing",
    ),
    (
        "decoder",
        r#"{"rule":"add-suffix","text":1}"#,
        "/decoder/text kind",
    ),
    (
        "decoder",
        r#"{"rule":"strip-prefix","text":""}"#,
        "/decoder/text range",
    ),
    (
        "decoder",
        r#"{"rule":"strip-suffix","to":""}"#,
        "/decoder/to unknown",
    ),
    ("decoder", r#"{"rule":"before","text":"@"}"#, "-"),
    ("decoder", r#"{"rule":"after","text":"@"}"#, "-"),
    ("decoder", r#"{"rule":"map"}"#, "/decoder/pairs missing"),
    (
        "decoder",
        r#"{"rule":"map","pairs":{}}"#,
        "/decoder/pairs kind",
    ),
    (
        "decoder",
        r#"{"rule":"map","pairs":[]}"#,
        "/decoder/pairs range",
    ),
    (
        "decoder",
        r#"{"rule":"map","pairs":[1]}"#,
        "/decoder/pairs/0 kind",
    ),
    (
        "decoder",
        r#"{"rule":"map","pairs":[["a"]]}"#,
        "/decoder/pairs/0 range",
    ),
    (
        "decoder",
        r#"{"rule":"map","pairs":[["a","b","c"]]}"#,
        "/decoder/pairs/0 range",
    ),
    (
        "decoder",
        r#"{"rule":"map","pairs":[["a","b"],["a",1]]}"#,
        "/decoder/pairs/1/1 kind",
    ),
    (
        "decoder",
        r#"{"rule":"map","pairs":[["","b"]]}"#,
        "/decoder/pairs/0/0 range",
    ),
    ("decoder", r#"{"rule":"require"}"#, "/decoder/names missing"),
    (
        "decoder",
        r#"{"rule":"require","names":[]}"#,
        "/decoder/names range",
    ),
    (
        "decoder",
        r#"{"rule":"require","names":["a",""]}"#,
        "/decoder/names/1 range",
    ),
    ("decoder", r#"{"rule":"chain"}"#, "/decoder/of missing"),
    (
        "decoder",
        r#"{"rule":"chain","of":[]}"#,
        "/decoder/of range",
    ),
    (
        "decoder",
        r#"{"rule":"first","of":[1]}"#,
        "/decoder/of/0 kind",
    ),
    ("decoder", r#"{"rule":"first","of":1}"#, "/decoder/of kind"),
    ("realm-mapper", "1", "/realm-mapper kind"),
    (
        "realm-mapper",
        r#"{"rule":"chain"}"#,
        "/realm-mapper/rule range",
    ),
    (
        "realm-mapper",
        r#"{"rule":"constant"}"#,
        "/realm-mapper/realm missing",
    ),
    ("realm-mapper", r#"{"rule":"constant","realm":"a"}"#, "-"),
    (
        "realm-mapper",
        r#"{"rule":"map-after"}"#,
        "/realm-mapper/mark missing",
    ),
    (
        "realm-mapper",
        r#"{"rule":"map-after","mark":"@"}"#,
        "/realm-mapper/pairs missing",
    ),
    (
        "realm-mapper",
        r#"{"rule":"map-after","mark":""}"#,
        "/realm-mapper/mark range",
    ),
    (
        "realm-mapper",
        r#"{"rule":"map-after","mark":"@","pairs":[["a","b"]]}"#,
        "-",
    ),
    (
        "realm-mapper",
        r#"{"rule":"take-after","pairs":[]}"#,
        "/realm-mapper/pairs unknown",
    ),
    (
        "realm-mapper",
        r#"{"rule":"take-after"}"#,
        "/realm-mapper/mark missing",
    ),
    ("realm-mapper", r#"{"rule":"take-after","mark":"@"}"#, "-"),
];

#[test]
fn rules_are_told(rt: HostRuntime) -> Result<(), Fail> {
    for (name, value, told) in RULE_ROWS {
        assert!(rt; tells_member(rt.alloc(), name, value, told)?);
    }
    Ok(())
}

/// A member of the root, its value, and how the first fault is written.
const ROLE_AND_PERMISSION_ROWS: [(&str, &str, &str); 47] = [
    ("role-mapper", "1", "/role-mapper kind"),
    ("role-mapper", "{}", "/role-mapper/rule missing"),
    (
        "role-mapper",
        r#"{"rule":"chain"}"#,
        "/role-mapper/rule range",
    ),
    (
        "role-mapper",
        r#"{"rule":"constant"}"#,
        "/role-mapper/roles missing",
    ),
    ("role-mapper", r#"{"rule":"constant","roles":[]}"#, "-"),
    (
        "role-mapper",
        r#"{"rule":"constant","roles":[""]}"#,
        "/role-mapper/roles/0 range",
    ),
    (
        "role-mapper",
        r#"{"rule":"add-prefix"}"#,
        "/role-mapper/text missing",
    ),
    (
        "role-mapper",
        r#"{"rule":"add-suffix","text":""}"#,
        "/role-mapper/text range",
    ),
    (
        "role-mapper",
        r#"{"rule":"aggregate"}"#,
        "/role-mapper/of missing",
    ),
    ("role-mapper", r#"{"rule":"aggregate","of":[]}"#, "-"),
    (
        "role-mapper",
        r#"{"rule":"aggregate","of":[1]}"#,
        "/role-mapper/of/0 kind",
    ),
    (
        "role-mapper",
        r#"{"rule":"logical"}"#,
        "/role-mapper/op missing",
    ),
    (
        "role-mapper",
        r#"{"rule":"logical","op":1}"#,
        "/role-mapper/op kind",
    ),
    (
        "role-mapper",
        r#"{"rule":"logical","op":"first"}"#,
        "/role-mapper/op range",
    ),
    ("role-mapper", r#"{"rule":"logical","op":"minus"}"#, "-"),
    (
        "role-mapper",
        r#"{"rule":"logical","left":{}}"#,
        "/role-mapper/left/rule missing",
    ),
    (
        "role-mapper",
        r#"{"rule":"logical","right":1}"#,
        "/role-mapper/right kind",
    ),
    (
        "role-mapper",
        r#"{"rule":"mapped"}"#,
        "/role-mapper/map missing",
    ),
    (
        "role-mapper",
        r#"{"rule":"mapped","keep-mapped":1}"#,
        "/role-mapper/keep-mapped kind",
    ),
    (
        "role-mapper",
        r#"{"rule":"mapped","keep-non-mapped":1}"#,
        "/role-mapper/keep-non-mapped kind",
    ),
    ("role-mapper", r#"{"rule":"mapped","map":[]}"#, "-"),
    ("role-mapper", r#"{"rule":"mapped","map":[["a",[]]]}"#, "-"),
    (
        "role-mapper",
        r#"{"rule":"mapped","map":[["a"]]}"#,
        "/role-mapper/map/0 range",
    ),
    (
        "role-mapper",
        r#"{"rule":"mapped","map":[["a","b"]]}"#,
        "/role-mapper/map/0/1 kind",
    ),
    (
        "role-mapper",
        r#"{"rule":"mapped","map":[[[],[]]]}"#,
        "/role-mapper/map/0/0 kind",
    ),
    (
        "role-mapper",
        r#"{"rule":"mapped","map":[["a",["b",""]]]}"#,
        "/role-mapper/map/0/1/1 range",
    ),
    (
        "role-mapper",
        r#"{"rule":"mapped","zap":1,"map":[]}"#,
        "/role-mapper/zap unknown",
    ),
    ("permissions", "1", "/permissions kind"),
    ("permissions", "{}", "/permissions/mode missing"),
    (
        "permissions",
        r#"{"mode":"first"}"#,
        "/permissions/rows missing",
    ),
    ("permissions", r#"{"mode":1}"#, "/permissions/mode kind"),
    (
        "permissions",
        r#"{"mode":"minus"}"#,
        "/permissions/mode range",
    ),
    ("permissions", r#"{"mode":"unless","rows":[]}"#, "-"),
    ("permissions", r#"{"rows":{}}"#, "/permissions/rows kind"),
    ("permissions", r#"{"rows":[1]}"#, "/permissions/rows/0 kind"),
    (
        "permissions",
        r#"{"rows":[{}]}"#,
        "/permissions/rows/0/grant missing",
    ),
    (
        "permissions",
        r#"{"rows":[{"grant":1}]}"#,
        "/permissions/rows/0/grant kind",
    ),
    (
        "permissions",
        r#"{"rows":[{"grant":[1]}]}"#,
        "/permissions/rows/0/grant/0 kind",
    ),
    (
        "permissions",
        r#"{"rows":[{"grant":[""]}]}"#,
        "/permissions/rows/0/grant/0 range",
    ),
    (
        "permissions",
        r#"{"rows":[{"match-all":1}]}"#,
        "/permissions/rows/0/match-all kind",
    ),
    (
        "permissions",
        r#"{"rows":[{"principals":1}]}"#,
        "/permissions/rows/0/principals kind",
    ),
    (
        "permissions",
        r#"{"rows":[{"principals":[""]}]}"#,
        "/permissions/rows/0/principals/0 range",
    ),
    (
        "permissions",
        r#"{"rows":[{"roles":1}]}"#,
        "/permissions/rows/0/roles kind",
    ),
    (
        "permissions",
        r#"{"rows":[{"roles":[1]}]}"#,
        "/permissions/rows/0/roles/0 kind",
    ),
    (
        "permissions",
        r#"{"rows":[{"a":1,"grant":1}]}"#,
        "/permissions/rows/0/a unknown",
    ),
    (
        "permissions",
        r#"{"rows":[{"grant":["a\nb"],"match-all":true}],"mode":"or"}"#,
        "-",
    ),
    (
        "permissions",
        r#"{"a":1,"mode":1}"#,
        "/permissions/a unknown",
    ),
];

#[test]
fn role_mappers_and_permissions_are_told(rt: HostRuntime) -> Result<(), Fail> {
    for (name, value, told) in ROLE_AND_PERMISSION_ROWS {
        assert!(rt; tells_member(rt.alloc(), name, value, told)?);
    }
    Ok(())
}

const REALM: &str = r#"{"kind":"modifiable","name":"a"}"#;

const RULE: &str = r#"{"rule":"constant","to":"a"}"#;

const MAPPER: &str = r#"{"rule":"constant","roles":[]}"#;

/// The text before an array, its item, what stands behind it, how many items it has at most, and how one more is told.
const LIST_ROWS: [(&str, &str, &str, u64, &str); 16] = [
    (r#"{"realms":"#, REALM, "}", 16, "/realms range"),
    (
        r#"{"realms":[{"kind":"aggregate","authentication":"a","name":"b","authorization":"#,
        r#""a""#,
        "}]}",
        15,
        "/realms/0/authorization range",
    ),
    (
        r#"{"decoder":{"rule":"chain","of":"#,
        RULE,
        "}}",
        64,
        "/decoder/of range",
    ),
    (
        r#"{"decoder":{"rule":"first","of":"#,
        RULE,
        "}}",
        64,
        "/decoder/of range",
    ),
    (
        r#"{"decoder":{"rule":"require","names":"#,
        r#""a""#,
        "}}",
        64,
        "/decoder/names range",
    ),
    (
        r#"{"decoder":{"rule":"map","pairs":"#,
        r#"["a","a"]"#,
        "}}",
        64,
        "/decoder/pairs range",
    ),
    (
        r#"{"realm-mapper":{"rule":"map-after","mark":"@","pairs":"#,
        r#"["a","a"]"#,
        "}}",
        64,
        "/realm-mapper/pairs range",
    ),
    (
        r#"{"role-mapper":{"rule":"constant","roles":"#,
        r#""a""#,
        "}}",
        64,
        "/role-mapper/roles range",
    ),
    (
        r#"{"role-mapper":{"rule":"aggregate","of":"#,
        MAPPER,
        "}}",
        64,
        "/role-mapper/of range",
    ),
    (
        r#"{"role-mapper":{"rule":"mapped","map":"#,
        r#"["a",[]]"#,
        "}}",
        64,
        "/role-mapper/map range",
    ),
    (
        r#"{"role-mapper":{"rule":"mapped","map":[["a","#,
        r#""a""#,
        "]]}}",
        64,
        "/role-mapper/map/0/1 range",
    ),
    (
        r#"{"permissions":{"mode":"xor","rows":"#,
        r#"{"grant":[]}"#,
        "}}",
        64,
        "/permissions/rows range",
    ),
    (
        r#"{"permissions":{"mode":"xor","rows":[{"grant":"#,
        r#""a""#,
        "}]}}",
        64,
        "/permissions/rows/0/grant range",
    ),
    (
        r#"{"permissions":{"mode":"xor","rows":[{"grant":[],"principals":"#,
        r#""a""#,
        "}]}}",
        64,
        "/permissions/rows/0/principals range",
    ),
    (
        r#"{"permissions":{"mode":"xor","rows":[{"grant":[],"roles":"#,
        r#""a""#,
        "}]}}",
        64,
        "/permissions/rows/0/roles range",
    ),
    (
        r#"{"permissions":{"mode":"xor","rows":[{"grant":[],"match-all":false,"roles":"#,
        r#""a""#,
        "}]}}",
        64,
        "/permissions/rows/0/roles range",
    ),
];

/// Whether the first fault with so many items is written so.
fn tells_list(
    alloc: Global,
    before: &str,
    item: &str,
    count: u64,
    behind: &str,
    told: &str,
) -> Result<bool, Fail> {
    let text = listed(alloc, before, item, count, behind)?;
    tells(alloc, text.as_str(), told)
}

#[test]
fn lengths_of_lists_are_told(rt: HostRuntime) -> Result<(), Fail> {
    for (before, item, behind, most, told) in LIST_ROWS {
        assert!(rt; tells_list(rt.alloc(), before, item, most, behind, "-")?);
        let more = most.saturating_add(1);
        assert!(rt; tells_list(rt.alloc(), before, item, more, behind, told)?);
    }
    Ok(())
}

const CHAIN: &str = r#"{"rule":"chain","of":["#;

const LOGICAL: &str = r#"{"rule":"logical","op":"and","left":"#;

/// The member, what opens a level, what stands in the innermost, what closes a level, how many levels there are round that, and
/// how the first fault is written.
const DEPTH_ROWS: [(&str, &str, &str, &str, u64, &str); 10] = [
    ("decoder", CHAIN, RULE, "]}", 7, "-"),
    (
        "decoder",
        CHAIN,
        RULE,
        "]}",
        8,
        "/decoder/of/0/of/0/of/0/of/0/of/0/of/0/of/0/of/0 range",
    ),
    (
        "decoder",
        CHAIN,
        "1",
        "]}",
        8,
        "/decoder/of/0/of/0/of/0/of/0/of/0/of/0/of/0/of/0 kind",
    ),
    (
        "decoder",
        CHAIN,
        "{}",
        "]}",
        8,
        "/decoder/of/0/of/0/of/0/of/0/of/0/of/0/of/0/of/0 range",
    ),
    (
        "decoder",
        CHAIN,
        "{}",
        "]}",
        7,
        "/decoder/of/0/of/0/of/0/of/0/of/0/of/0/of/0/rule missing",
    ),
    (
        "decoder",
        CHAIN,
        RULE,
        "]}",
        9,
        "/decoder/of/0/of/0/of/0/of/0/of/0/of/0/of/0/of/0 range",
    ),
    ("role-mapper", LOGICAL, MAPPER, "}", 7, "-"),
    (
        "role-mapper",
        LOGICAL,
        MAPPER,
        "}",
        8,
        "/role-mapper/left/left/left/left/left/left/left/left range",
    ),
    (
        "role-mapper",
        LOGICAL,
        "[]",
        "}",
        8,
        "/role-mapper/left/left/left/left/left/left/left/left kind",
    ),
    (
        "role-mapper",
        LOGICAL,
        r#"{"rule":1}"#,
        "}",
        8,
        "/role-mapper/left/left/left/left/left/left/left/left range",
    ),
];

#[test]
fn depths_are_told(rt: HostRuntime) -> Result<(), Fail> {
    for (name, open, middle, close, count, told) in DEPTH_ROWS {
        let value = nested(rt.alloc(), open, middle, close, count)?;
        assert!(rt; tells_member(rt.alloc(), name, value.as_str(), told)?);
    }
    Ok(())
}
