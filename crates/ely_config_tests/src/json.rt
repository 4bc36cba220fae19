//! The typed parts that JSON texts stand for.

use ely_base::{NoMemory, Refused, discard};
use ely_config::{Config, Members};
use ely_config_json::read_members;
use serde_json::Value;
use std::alloc::{AllocError, Global};
use std::test::Fail;

/// Which part of the members is printed.
#[derive(Clone, Copy)]
enum Part {
    Decoder,
    RealmMapper,
    RoleMapper,
    Permissions,
    Realms,
    Known,
    DefaultRealm,
    Params,
    DigestRealm,
}

/// A part as it prints.
fn printed(alloc: Global, part: Part, members: &Members) -> Result<String, AllocError> {
    match part {
        Part::Decoder => format!(in alloc; "{:?}", members.pipeline.decoder),
        Part::RealmMapper => format!(in alloc; "{:?}", members.pipeline.mapper),
        Part::RoleMapper => format!(in alloc; "{:?}", members.role_mapper),
        Part::Permissions => format!(in alloc; "{:?}", members.permissions),
        Part::Realms => format!(in alloc; "{:?}", members.realms),
        Part::Known => format!(in alloc; "{:?}", members.pipeline.realms),
        Part::DefaultRealm => format!(in alloc; "{:?}", members.pipeline.default_realm),
        Part::Params => format!(in alloc; "{:?}", members.params),
        Part::DigestRealm => format!(in alloc; "{:?}", members.digest_realm),
    }
}

/// The members of a text, where it is JSON and has some.
fn members(alloc: Global, text: &str) -> Result<Option<Members>, NoMemory> {
    match Value::from_str(alloc, text) {
        Ok(value) => read_members(alloc, &value),
        Err(_) => Ok(None),
    }
}

/// The part of a text as it prints, and `none` where the text has no members.
fn told(alloc: Global, part: Part, text: &str) -> Result<String, NoMemory> {
    match members(alloc, text)? {
        None => Ok(String::from_str(alloc, "none")?),
        Some(members) => {
            let text = printed(alloc, part, &members);
            discard(members);
            Ok(text?)
        }
    }
}

/// A text, and one of its parts as it prints.
type Row = (&'static str, &'static str);

const RULES: [Row; 19] = [
    (r#"{}"#, "None"),
    (
        r#"{"decoder":{"rule":"constant","to":"a"}}"#,
        "Some(Constant { to: Name { list: [97] } })",
    ),
    (
        r#"{"decoder":{"rule":"add-prefix","text":"ab"}}"#,
        "Some(AddPrefix { text: Name { list: [97, 98] } })",
    ),
    (
        r#"{"decoder":{"rule":"add-suffix","text":"a"}}"#,
        "Some(AddSuffix { text: Name { list: [97] } })",
    ),
    (
        r#"{"decoder":{"rule":"strip-prefix","text":"a"}}"#,
        "Some(StripPrefix { text: Name { list: [97] } })",
    ),
    (
        r#"{"decoder":{"rule":"strip-suffix","text":"a"}}"#,
        "Some(StripSuffix { text: Name { list: [97] } })",
    ),
    (
        r#"{"decoder":{"rule":"before","text":"@"}}"#,
        "Some(Before { text: Name { list: [64] } })",
    ),
    (
        r#"{"decoder":{"rule":"after","text":"@"}}"#,
        "Some(After { text: Name { list: [64] } })",
    ),
    (
        r#"{"decoder":{"rule":"map","pairs":[["a","b"],["b","c"]]}}"#,
        "Some(Map { pairs: Items { list: [(Name { list: [97] }, Name { list: [98] }), (Name { list: [98] }, Name { list: [99] })] } })",
    ),
    (
        r#"{"decoder":{"rule":"require","names":["b","a"]}}"#,
        "Some(Require { names: Items { list: [Name { list: [98] }, Name { list: [97] }] } })",
    ),
    (
        r#"{"decoder":{"rule":"chain","of":[{"rule":"constant","to":"a"}]}}"#,
        "Some(Chain { of: Items { items: [Constant { to: Name { list: [97] } }] } })",
    ),
    (
        r#"{"decoder":{"rule":"first","of":[{"rule":"chain","of":[]},{"rule":"before","text":"a"}]}}"#,
        "Some(First { of: Items { items: [Chain { of: Items { items: [] } }, Before { text: Name { list: [97] } }] } })",
    ),
    (r#"{"decoder":{"rule":"constant","to":""}}"#, "none"),
    (r#"{"decoder":{"rule":"constant","to":"\n"}}"#, "none"),
    (r#"{"decoder":{"rule":"constant","text":"a"}}"#, "none"),
    (r#"{"decoder":{"rule":"affix","text":"a"}}"#, "none"),
    (r#"{"decoder":{"text":"a"}}"#, "none"),
    (r#"{"decoder":{"rule":"map","pairs":[["a"]]}}"#, "none"),
    (
        r#"{"decoder":{"rule":"map","pairs":[["a","b","c"]]}}"#,
        "none",
    ),
];

#[test]
fn rules_have_eleven_forms(rt: HostRuntime) -> Result<(), Fail> {
    for (text, shown) in RULES {
        assert!(rt; told(rt.alloc(), Part::Decoder, text)?.as_str() == shown);
    }
    Ok(())
}

/// A text with a decoder that nests that many levels deep.
fn nested(alloc: Global, levels: usize) -> Result<String, NoMemory> {
    let mut text = String::from_str(alloc, r#"{"decoder":"#)?;
    for _ in 1..levels {
        text.push_str(r#"{"rule":"first","of":["#)?;
    }
    text.push_str(r#"{"rule":"constant","to":"a"}"#)?;
    for _ in 1..levels {
        text.push_str("]}")?;
    }
    text.push_str("}")?;
    Ok(text)
}

/// Whether a text has members.
fn has_members(alloc: Global, text: &str) -> Result<bool, NoMemory> {
    let members = members(alloc, text)?;
    let has_members = members.is_some();
    discard(members);
    Ok(has_members)
}

#[test]
fn rules_nest_eight_deep(rt: HostRuntime) -> Result<(), Fail> {
    for (levels, has) in [(1, true), (8, true), (9, false)] {
        let text = nested(rt.alloc(), levels)?;
        assert!(rt; has_members(rt.alloc(), text.as_str())? == has);
    }
    Ok(())
}

const REALM_MAPPERS: [Row; 5] = [
    (r#"{}"#, "None"),
    (
        r#"{"realm-mapper":{"rule":"constant","realm":"a"}}"#,
        "Some(Constant { realm: Name { list: [97] } })",
    ),
    (
        r#"{"realm-mapper":{"rule":"map-after","mark":"@","pairs":[["a","b"]]}}"#,
        "Some(MapAfter { mark: Name { list: [64] }, pairs: Items { list: [(Name { list: [97] }, Name { list: [98] })] } })",
    ),
    (
        r#"{"realm-mapper":{"rule":"take-after","mark":"@"}}"#,
        "Some(TakeAfter { mark: Name { list: [64] } })",
    ),
    (
        r#"{"realm-mapper":{"rule":"map-after","mark":"@"}}"#,
        "none",
    ),
];

#[test]
fn realm_mappers_have_three_forms(rt: HostRuntime) -> Result<(), Fail> {
    for (text, shown) in REALM_MAPPERS {
        assert!(rt; told(rt.alloc(), Part::RealmMapper, text)?.as_str() == shown);
    }
    Ok(())
}

const ROLE_MAPPERS: [Row; 11] = [
    (r#"{}"#, "None"),
    (
        r#"{"role-mapper":{"rule":"constant","roles":["a","b"]}}"#,
        "Some(Constant { roles: Items { list: [Name { list: [97] }, Name { list: [98] }] } })",
    ),
    (
        r#"{"role-mapper":{"rule":"add-prefix","text":"a"}}"#,
        "Some(AddPrefix { text: Name { list: [97] } })",
    ),
    (
        r#"{"role-mapper":{"rule":"add-suffix","text":"a"}}"#,
        "Some(AddSuffix { text: Name { list: [97] } })",
    ),
    (
        r#"{"role-mapper":{"rule":"aggregate","of":[{"rule":"add-suffix","text":"a"}]}}"#,
        "Some(Aggregate { of: Items { items: [AddSuffix { text: Name { list: [97] } }] } })",
    ),
    (
        r#"{"role-mapper":{"rule":"logical","op":"minus","right":{"rule":"constant","roles":[]}}}"#,
        "Some(Logical { op: Minus, left: None, right: Some(Boxed { inner: Constant { roles: Items { list: [] } } }) })",
    ),
    (
        r#"{"role-mapper":{"rule":"logical","op":"xor"}}"#,
        "Some(Logical { op: Xor, left: None, right: None })",
    ),
    (
        r#"{"role-mapper":{"rule":"mapped","map":[["a",["b","c"]]],"keep-non-mapped":true}}"#,
        "Some(Mapped { map: Items { list: [(Name { list: [97] }, Items { list: [Name { list: [98] }, Name { list: [99] }] })] }, keep_mapped: false, keep_non_mapped: true })",
    ),
    (
        r#"{"role-mapper":{"rule":"mapped","map":[],"keep-mapped":true}}"#,
        "Some(Mapped { map: Items { list: [] }, keep_mapped: true, keep_non_mapped: false })",
    ),
    (
        r#"{"role-mapper":{"rule":"logical","op":"xor","left":null}}"#,
        "none",
    ),
    (
        r#"{"role-mapper":{"rule":"mapped","map":[],"keep-mapped":1}}"#,
        "none",
    ),
];

#[test]
fn role_mappers_have_six_forms(rt: HostRuntime) -> Result<(), Fail> {
    for (text, shown) in ROLE_MAPPERS {
        assert!(rt; told(rt.alloc(), Part::RoleMapper, text)?.as_str() == shown);
    }
    Ok(())
}

const PERMISSIONS: [Row; 6] = [
    (
        r#"{}"#,
        "Permissions { mode: First, rows: Items { list: [PermRow { principals: Items { list: [] }, roles: Items { list: [] }, match_all: true, grant: Items { list: [Bytes { list: [108, 111, 103, 105, 110] }] } }] } }",
    ),
    (
        r#"{"permissions":{"mode":"unless","rows":[{"grant":["a"]}]}}"#,
        "Permissions { mode: Unless, rows: Items { list: [PermRow { principals: Items { list: [] }, roles: Items { list: [] }, match_all: false, grant: Items { list: [Bytes { list: [97] }] } }] } }",
    ),
    (
        r#"{"permissions":{"mode":"or","rows":[{"principals":["a"],"roles":["b"],"match-all":true,"grant":[]}]}}"#,
        "Permissions { mode: Or, rows: Items { list: [PermRow { principals: Items { list: [Name { list: [97] }] }, roles: Items { list: [Name { list: [98] }] }, match_all: true, grant: Items { list: [] } }] } }",
    ),
    (r#"{"permissions":{"mode":"or"}}"#, "none"),
    (r#"{"permissions":{"rows":[]}}"#, "none"),
    (
        r#"{"permissions":{"mode":"or","rows":[{"roles":["a"]}]}}"#,
        "none",
    ),
];

#[test]
fn permissions_are_a_mode_and_rows(rt: HostRuntime) -> Result<(), Fail> {
    for (text, shown) in PERMISSIONS {
        assert!(rt; told(rt.alloc(), Part::Permissions, text)?.as_str() == shown);
    }
    Ok(())
}

const REALMS: [Row; 8] = [
    (
        r#"{"realms":[{"name":"a","kind":"modifiable","role-attribute":"b"}]}"#,
        "Items { list: [RealmConfig { name: Name { list: [97] }, kind: Modifiable, role_attribute: Name { list: [98] }, role_mapper: None }] }",
    ),
    (
        r#"{"realms":[{"name":"a","kind":"properties","users":"u"}]}"#,
        "Items { list: [RealmConfig { name: Name { list: [97] }, kind: Properties { plain: false, users: Bytes { list: [117] }, groups: Bytes { list: [] } }, role_attribute: Name { list: [103, 114, 111, 117, 112, 115] }, role_mapper: None }] }",
    ),
    (
        r#"{"realms":[{"name":"a","kind":"properties","groups":"g","plain-text":true,"role-attribute":"b","role-mapper":{"rule":"constant","roles":[]}}]}"#,
        "Items { list: [RealmConfig { name: Name { list: [97] }, kind: Properties { plain: true, users: Bytes { list: [] }, groups: Bytes { list: [103] } }, role_attribute: Name { list: [98] }, role_mapper: Some(Constant { roles: Items { list: [] } }) }] }",
    ),
    (
        r#"{"realms":[{"name":"a","kind":"aggregate","authentication":"b","authorization":["c"],"role-attribute":"b"}]}"#,
        "Items { list: [RealmConfig { name: Name { list: [97] }, kind: Aggregate { authentication: Name { list: [98] }, authorization: Items { list: [Name { list: [99] }] } }, role_attribute: Name { list: [98] }, role_mapper: None }] }",
    ),
    (
        r#"{"realms":[{"name":"a","kind":"caching","of":"b","role-attribute":"b"}]}"#,
        "Items { list: [RealmConfig { name: Name { list: [97] }, kind: Caching { of: Name { list: [98] }, limit: 16 }, role_attribute: Name { list: [98] }, role_mapper: None }] }",
    ),
    (
        r#"{"realms":[{"name":"a","kind":"caching","of":"b","max-entries":7,"role-attribute":"b"}]}"#,
        "Items { list: [RealmConfig { name: Name { list: [97] }, kind: Caching { of: Name { list: [98] }, limit: 7 }, role_attribute: Name { list: [98] }, role_mapper: None }] }",
    ),
    (
        r#"{"realms":[{"name":"a","kind":"caching","of":"b","max-entries":1.0}]}"#,
        "none",
    ),
    (r#"{"realms":[{"kind":"modifiable"}]}"#, "none"),
];

#[test]
fn realms_have_four_kinds(rt: HostRuntime) -> Result<(), Fail> {
    for (text, shown) in REALMS {
        assert!(rt; told(rt.alloc(), Part::Realms, text)?.as_str() == shown);
    }
    Ok(())
}

const KNOWN: [Row; 2] = [
    (
        r#"{}"#,
        "Items { list: [(Name { list: [109, 97, 105, 110] }, None)] }",
    ),
    (
        r#"{"realms":[{"name":"a","kind":"modifiable"},{"name":"b","kind":"modifiable","transformer":{"rule":"constant","to":"c"}}]}"#,
        "Items { list: [(Name { list: [97] }, None), (Name { list: [98] }, Some(Constant { to: Name { list: [99] } }))] }",
    ),
];

#[test]
fn transformers_stand_in_the_pipeline(rt: HostRuntime) -> Result<(), Fail> {
    for (text, shown) in KNOWN {
        assert!(rt; told(rt.alloc(), Part::Known, text)?.as_str() == shown);
    }
    Ok(())
}

const DEFAULT_REALMS: [Row; 4] = [
    (r#"{}"#, "Name { list: [109, 97, 105, 110] }"),
    (
        r#"{"realms":[{"name":"b","kind":"modifiable"},{"name":"a","kind":"modifiable"}]}"#,
        "Name { list: [98] }",
    ),
    (
        r#"{"default-realm":"a","realms":[{"name":"b","kind":"modifiable"},{"name":"a","kind":"modifiable"}]}"#,
        "Name { list: [97] }",
    ),
    (r#"{"realms":[]}"#, "none"),
];

#[test]
fn the_default_realm_is_the_first(rt: HostRuntime) -> Result<(), Fail> {
    for (text, shown) in DEFAULT_REALMS {
        assert!(rt; told(rt.alloc(), Part::DefaultRealm, text)?.as_str() == shown);
    }
    Ok(())
}

/// The texts `YWI=` and `YQ` are base64 of `ab`, and of `a` without its padding (RFC 4648 section 4).
const PARAMS: [Row; 9] = [
    (
        r#"{}"#,
        "Params { turns: 4096, salt: None, seed: Bytes { list: [] } }",
    ),
    (
        r#"{"scram":{"turns":1000000},"seed":"a"}"#,
        "Params { turns: 1000000, salt: None, seed: Bytes { list: [97] } }",
    ),
    (
        r#"{"scram":{"salt":"YWI="}}"#,
        "Params { turns: 4096, salt: Some(Bytes { list: [97, 98] }), seed: Bytes { list: [] } }",
    ),
    (r#"{"scram":{"turns":0}}"#, "none"),
    (r#"{"scram":{"turns":1000001}}"#, "none"),
    (r#"{"scram":{"turns":4294971392}}"#, "none"),
    (r#"{"scram":{"salt":""}}"#, "none"),
    (r#"{"scram":{"salt":"YQ"}}"#, "none"),
    (r#"{"scram":1}"#, "none"),
];

#[test]
fn what_derives_keys_is_in_its_bounds(rt: HostRuntime) -> Result<(), Fail> {
    for (text, shown) in PARAMS {
        assert!(rt; told(rt.alloc(), Part::Params, text)?.as_str() == shown);
    }
    Ok(())
}

const DIGEST_REALMS: [Row; 4] = [
    (
        r#"{}"#,
        "Bytes { list: [77, 97, 110, 97, 103, 101, 109, 101, 110, 116, 82, 101, 97, 108, 109] }",
    ),
    (r#"{"digest-realm":"a"}"#, "Bytes { list: [97] }"),
    (r#"{"digest-realm":null}"#, "none"),
    (r#"[]"#, "none"),
];

#[test]
fn the_realm_of_digest_is_a_text(rt: HostRuntime) -> Result<(), Fail> {
    for (text, shown) in DIGEST_REALMS {
        assert!(rt; told(rt.alloc(), Part::DigestRealm, text)?.as_str() == shown);
    }
    Ok(())
}

/// Members as they print.
fn shown(alloc: Global, members: Members) -> Result<String, AllocError> {
    let text = format!(in alloc; "{members:?}");
    discard(members);
    text
}

#[test]
fn nothing_said_is_plain(rt: HostRuntime) -> Result<(), Fail> {
    let alloc = rt.alloc();
    let plain = shown(alloc, Members::plain(alloc)?)?;
    match members(alloc, "{}")? {
        Some(members) => assert!(rt; shown(alloc, members)?.as_str() == plain.as_str()),
        None => assert!(rt; false),
    }
    Ok(())
}

/// Four realms, one of each kind, to which names are led by what stands behind their mark.
const ALL: &str = r#"{
    "version": 1,
    "decoder": {"rule": "first", "of": [{"rule": "strip-suffix", "text": ".org"}, {"rule": "after", "text": "x"}]},
    "realm-mapper": {"rule": "map-after", "mark": "@", "pairs": [["a", "cache"], ["b", "file"]]},
    "default-realm": "both",
    "realms": [
        {"name": "main", "kind": "modifiable", "role-mapper": {"rule": "add-prefix", "text": "r:"}},
        {"name": "file", "kind": "properties", "plain-text": true, "users": "u=p\n", "groups": "u=g\n"},
        {"name": "both", "kind": "aggregate", "authentication": "main", "authorization": ["file", "main"]},
        {"name": "cache", "kind": "caching", "of": "both", "max-entries": 2}
    ],
    "permissions": {"mode": "first", "rows": [{"match-all": true, "grant": ["login"]}]}
}"#;

#[test]
fn members_of_a_text_are_taken(rt: HostRuntime) -> Result<(), Fail> {
    let Some(members) = members(rt.alloc(), ALL)? else {
        assert!(rt; false);
        return Ok(());
    };
    match Config::of(rt.alloc(), members) {
        Ok(config) => {
            let count = config.realms().len();
            discard(config);
            assert!(rt; count == 4);
        }
        Err(Refused::Fault(fault)) => assert!(rt;
            format!(in rt.alloc(); "{fault:?}")?.as_str() == ""
        ),
        Err(Refused::NoMemory) => assert!(rt; false),
    }
    Ok(())
}
