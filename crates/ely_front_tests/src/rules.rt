//! Scripts under configurations with rules for names, mappers of roles and rows of permissions.

use crate::config::{config_of, counted};
use crate::making::{behind, beside, put};
use ely_base::{Bytes, Items, Name, NoMemory};
use ely_config::Members;
use ely_perm::{Mode, PermRow, Permissions};
use ely_pipeline::{Pipeline, RealmMapper, Rule};
use ely_roles::RoleMapper;
use std::alloc::Global;
use std::marker::Brand;
use std::sync::ledger::Blank;
use std::test::Fail;

/// The text as a name.
fn name(alloc: Global, text: &[u8]) -> Result<Name, NoMemory> {
    Name::read(alloc, text).map_err(|_| NoMemory)
}

/// What the script prints under a configuration of these parts.
fn printed(alloc: Global, members: Members, script: &[u8]) -> Result<Vec<u8>, NoMemory> {
    counted::<Brand>(Blank::new(1), alloc, config_of(alloc, members)?, script)
}

/// The realm `main`, in which a name is what stands before `@`.
fn known_main(alloc: Global) -> Result<Vec<(Name, Option<Rule>)>, NoMemory> {
    let main = name(alloc, b"main")?;
    let text = name(alloc, b"@")?;
    behind(Vec::new(alloc), Ok((main, Some(Rule::Before { text }))))
}

/// The stages of users who write `corp-USER@REALM`, with one realm `main`. What owns most is made last.
fn corporate(alloc: Global) -> Result<Pipeline, NoMemory> {
    let text = name(alloc, b"corp-")?;
    let mark = name(alloc, b"@")?;
    let default_realm = name(alloc, b"main")?;
    let realms = known_main(alloc)?;
    Ok(Pipeline {
        decoder: None,
        pre: Some(Rule::StripPrefix { text }),
        mapper: Some(RealmMapper::TakeAfter { mark }),
        default_realm,
        post: None,
        realms: Items::of(realms),
    })
}

const SPELLINGS: &[u8] = b"0 add main user
0 set-cred main user 1 clear pencil
0 open 1 PLAIN
0 plain 1 AGNvcnAtdXNlckBtYWluAHBlbmNpbA==
0 open 2 PLAIN
0 plain 2 AHVzZXIAcGVuY2ls
0 plain 2 AGNvcnAtdXNlckBub3doZXJlAHBlbmNpbA==";

const PLACES: &[u8] = b"1 0 1 add ok 1
2 0 2 set-cred ok 2
3 0 3 open ok 1
4 0 4 name1 pinned 2 -
5 0 4 name2 named -
6 0 4 check1 ok
7 0 4 check2 proved
8 0 5 open ok 2
9 0 6 name1 pipe pre-realm
10 0 7 name1 pipe no-realm nowhere
";

#[test]
fn a_name_passes_the_stages_or_is_told_the_first_that_leaves_nothing(
    rt: HostRuntime,
) -> Result<(), Fail> {
    let (pipeline, mut members) = beside(corporate(rt.alloc())?, Members::plain(rt.alloc()))?;
    put(&mut members.pipeline, pipeline);
    let said = printed(rt.alloc(), members, SPELLINGS)?;
    assert!(rt; said.as_slice() == PLACES);
    Ok(())
}

/// Developers may code and read, and other roles stay.
fn developers(alloc: Global) -> Result<RoleMapper, NoMemory> {
    let mut targets = Vec::new(alloc);
    targets.push(name(alloc, b"code")?)?;
    targets.push(name(alloc, b"read")?)?;
    let (targets, dev) = beside(Items::of(targets), name(alloc, b"dev"))?;
    let map = behind(Vec::new(alloc), Ok((dev, targets)))?;
    Ok(RoleMapper::Mapped {
        map: Items::of(map),
        keep_mapped: false,
        keep_non_mapped: true,
    })
}

const GROUPS: &[u8] = b"0 add main user
0 set-cred main user 1 clear pencil
0 set-attr main user groups dev ops
0 open 1 PLAIN
0 plain 1 AHVzZXIAcGVuY2ls
0 authorize 1
0 set-attr main user groups none
0 succeed 1";

const ROLES: &[u8] = b"1 0 1 add ok 1
2 0 2 set-cred ok 2
3 0 3 set-attr ok 3
4 0 4 open ok 1
5 0 5 name1 pinned 3 -
6 0 5 name2 named -
7 0 5 check1 ok
8 0 5 check2 proved
9 0 6 authorize authorized
10 0 7 set-attr ok 4
11 0 8 succeed established 3 main user roles=code,ops,read
";

#[test]
fn roles_are_mapped_as_of_the_pinned_version(rt: HostRuntime) -> Result<(), Fail> {
    let (mapper, mut members) = beside(developers(rt.alloc())?, Members::plain(rt.alloc()))?;
    put(&mut members.role_mapper, Some(mapper));
    let said = printed(rt.alloc(), members, GROUPS)?;
    assert!(rt; said.as_slice() == ROLES);
    Ok(())
}

/// Staff may log in, and act as anybody.
fn staff(alloc: Global) -> Result<Permissions, NoMemory> {
    let mut roles = Vec::new(alloc);
    roles.push(name(alloc, b"staff")?)?;
    let mut grant = Vec::new(alloc);
    grant.push(Bytes::copy_of(alloc, b"login")?)?;
    grant.push(Bytes::copy_of(alloc, b"run-as:*")?)?;
    let row = PermRow {
        principals: Items::of(Vec::new(alloc)),
        roles: Items::of(roles),
        match_all: false,
        grant: Items::of(grant),
    };
    Ok(Permissions {
        mode: Mode::First,
        rows: Items::of(behind(Vec::new(alloc), Ok(row))?),
    })
}

const HIRED: &[u8] = b"0 add main user
0 set-cred main user 1 clear pencil
0 open 1 PLAIN
0 plain 1 AHVzZXIAcGVuY2ls
0 authorize 1
0 set-attr main user groups staff
0 authorize 1
0 open 2 PLAIN
0 plain 2 AHVzZXIAcGVuY2ls
0 authorize 2
0 succeed 2
0 drop-attr main user groups
0 allows 2 run-as:bob
0 allows 2 admin";

const GRANTS: &[u8] = b"1 0 1 add ok 1
2 0 2 set-cred ok 2
3 0 3 open ok 1
4 0 4 name1 pinned 2 -
5 0 4 name2 named -
6 0 4 check1 ok
7 0 4 check2 proved
8 0 5 authorize denied 2
9 0 6 set-attr ok 3
10 0 7 authorize denied 2
11 0 8 open ok 2
12 0 9 name1 pinned 3 -
13 0 9 name2 named -
14 0 9 check1 ok
15 0 9 check2 proved
16 0 10 authorize authorized
17 0 11 succeed established 3 main user roles=staff
18 0 12 drop-attr ok 4
19 0 13 allows yes
20 0 14 allows no
";

#[test]
fn permissions_are_of_the_pinned_version(rt: HostRuntime) -> Result<(), Fail> {
    let (permissions, mut members) = beside(staff(rt.alloc())?, Members::plain(rt.alloc()))?;
    put(&mut members.permissions, permissions);
    let said = printed(rt.alloc(), members, HIRED)?;
    assert!(rt; said.as_slice() == GRANTS);
    Ok(())
}
