//! What role mappers make of sets of roles, and which mappers keep to the bounds.

use ely_base::{Items, Name, NoMemory};
use ely_roles::{RoleMapper, Roles, SetOp, mapped_by, roles_of};
use ely_row::{Row, Values};
use sqlite_items::{Boxed, Items as Tree};
use std::alloc::Global;
use std::test::Fail;

/// The name of a text.
fn name(alloc: Global, text: &str) -> Result<Name, NoMemory> {
    match Name::read(alloc, text.as_bytes()) {
        Ok(name) => Ok(name),
        Err(_) => Err(NoMemory),
    }
}

/// The names of a text with a comma between; none of the empty text.
fn names(alloc: Global, text: &str) -> Result<Vec<Name>, NoMemory> {
    let mut list = Vec::new(alloc);
    for part in text.split(',') {
        if !part.is_empty() {
            list.push(name(alloc, part)?)?;
        }
    }
    Ok(list)
}

/// The set of the names of a text with a comma between.
fn roles(alloc: Global, text: &str) -> Result<Roles, NoMemory> {
    Ok(Roles::of(names(alloc, text)?))
}

/// The roles with a comma between.
fn shown(alloc: Global, roles: &Roles) -> Result<Vec<u8>, NoMemory> {
    let mut text = Vec::new(alloc);
    for role in roles.all() {
        if !text.is_empty() {
            text.push(b',')?;
        }
        text.extend_from_slice(role.bytes())?;
    }
    Ok(text)
}

/// What the mapper makes of the roles of a text, with a comma between.
fn mapped(alloc: Global, mapper: &RoleMapper, text: &str) -> Result<Vec<u8>, NoMemory> {
    shown(alloc, &mapped_by(alloc, mapper, &roles(alloc, text)?)?)
}

/// A constant mapper with the roles of a text.
fn constant(alloc: Global, text: &str) -> Result<RoleMapper, NoMemory> {
    Ok(RoleMapper::Constant {
        roles: Items::of(names(alloc, text)?),
    })
}

/// The text before each role.
fn prefix(alloc: Global, text: &str) -> Result<RoleMapper, NoMemory> {
    Ok(RoleMapper::AddPrefix {
        text: name(alloc, text)?,
    })
}

/// The text behind each role.
fn suffix(alloc: Global, text: &str) -> Result<RoleMapper, NoMemory> {
    Ok(RoleMapper::AddSuffix {
        text: name(alloc, text)?,
    })
}

/// A form of mapper that has one text.
#[derive(Clone, Copy)]
enum Form {
    Roles,
    Before,
    Behind,
}

/// A mapper of the form with the text.
fn of_form(alloc: Global, form: Form, text: &str) -> Result<RoleMapper, NoMemory> {
    match form {
        Form::Roles => constant(alloc, text),
        Form::Before => prefix(alloc, text),
        Form::Behind => suffix(alloc, text),
    }
}

/// Mappers of these forms, one after the other.
fn in_turn(alloc: Global, forms: &[(Form, &str)]) -> Result<RoleMapper, NoMemory> {
    let mut of = Tree::new(alloc);
    for (form, text) in forms {
        of.push(of_form(alloc, *form, text)?)?;
    }
    Ok(RoleMapper::Aggregate { of })
}

/// A constant mapper with the roles of a text, where one is given.
fn side(alloc: Global, text: Option<&str>) -> Result<Option<Boxed<RoleMapper>>, NoMemory> {
    match text {
        None => Ok(None),
        Some(text) => Ok(Some(Boxed::new(alloc, constant(alloc, text)?)?)),
    }
}

/// Constant mappers joined, where texts are given.
fn logical(
    alloc: Global,
    op: SetOp,
    left: Option<&str>,
    right: Option<&str>,
) -> Result<RoleMapper, NoMemory> {
    Ok(RoleMapper::Logical {
        op,
        left: side(alloc, left)?,
        right: side(alloc, right)?,
    })
}

/// A role and its targets.
fn pair(alloc: Global, from: &str, to: &str) -> Result<(Name, Items<Name>), NoMemory> {
    Ok((name(alloc, from)?, Items::of(names(alloc, to)?)))
}

/// A mapper by pairs of a role and a text of targets.
fn by_pairs(
    alloc: Global,
    pairs: &[(&str, &str)],
    keep_mapped: bool,
    keep_non_mapped: bool,
) -> Result<RoleMapper, NoMemory> {
    let mut map = Vec::new(alloc);
    for (from, to) in pairs {
        map.push(pair(alloc, from, to)?)?;
    }
    Ok(RoleMapper::Mapped {
        map: Items::of(map),
        keep_mapped,
        keep_non_mapped,
    })
}

#[test]
fn roles_are_mapped_by_pairs(rt: HostRuntime) -> Result<(), Fail> {
    let dev: &[(&str, &str)] = &[("dev", "code,read")];
    let twice: &[(&str, &str)] = &[("dev", "read"), ("ops", "run,read"), ("dev", "code")];
    let nothing: &[(&str, &str)] = &[("dev", "")];
    let rows: [(&[(&str, &str)], bool, bool, &str); 8] = [
        (dev, false, true, "code,ops,read"),
        (dev, false, false, "code,read"),
        (dev, true, false, "code,dev,read"),
        (dev, true, true, "code,dev,ops,read"),
        (twice, false, false, "code,read,run"),
        (nothing, false, true, "ops"),
        (nothing, true, false, "dev"),
        (&[], true, false, ""),
    ];
    for (pairs, keep_mapped, keep_non_mapped, wanted) in rows {
        let mapper = by_pairs(rt.alloc(), pairs, keep_mapped, keep_non_mapped)?;
        let shown = mapped(rt.alloc(), &mapper, "ops,dev,ops")?;
        assert_eq!(rt; shown.as_slice(), wanted.as_bytes());
    }
    Ok(())
}

#[test]
fn sets_are_joined(rt: HostRuntime) -> Result<(), Fail> {
    let (left, right) = (Some("a,b"), Some("c,b"));
    let rows: [(SetOp, Option<&str>, Option<&str>, &str); 16] = [
        (SetOp::And, left, right, "b"),
        (SetOp::Or, left, right, "a,b,c"),
        (SetOp::Minus, left, right, "a"),
        (SetOp::Xor, left, right, "a,c"),
        (SetOp::And, None, right, "b"),
        (SetOp::Or, None, right, "b,c,d"),
        (SetOp::Minus, None, right, "d"),
        (SetOp::Xor, None, right, "c,d"),
        (SetOp::And, left, None, "b"),
        (SetOp::Or, left, None, "a,b,d"),
        (SetOp::Minus, left, None, "a"),
        (SetOp::Xor, left, None, "a,d"),
        (SetOp::And, None, None, "b,d"),
        (SetOp::Or, None, None, "b,d"),
        (SetOp::Minus, None, None, ""),
        (SetOp::Xor, None, None, ""),
    ];
    for (op, left, right, wanted) in rows {
        let mapper = logical(rt.alloc(), op, left, right)?;
        let shown = mapped(rt.alloc(), &mapper, "d,b")?;
        assert_eq!(rt; shown.as_slice(), wanted.as_bytes());
    }
    Ok(())
}

/// How many roles the mapper makes of two: of `a`, and of one with so many bytes.
fn count_made(alloc: Global, mapper: &RoleMapper, bytes: usize) -> Result<usize, NoMemory> {
    let mut list = names(alloc, "a")?;
    let long = vec![in alloc; b'b'; bytes]?;
    if let Ok(name) = Name::read(alloc, long.as_slice()) {
        list.push(name)?;
    }
    let roles = Roles::of(list);
    Ok(mapped_by(alloc, mapper, &roles)?.all().len())
}

#[test]
fn roles_above_255_bytes_are_left_out(rt: HostRuntime) -> Result<(), Fail> {
    for (form, text, bytes, count) in [
        (Form::Before, "r-", 253, 2),
        (Form::Before, "r-", 254, 1),
        (Form::Behind, "z", 254, 2),
        (Form::Behind, "z", 255, 1),
    ] {
        let mapper = of_form(rt.alloc(), form, text)?;
        assert!(rt; count_made(rt.alloc(), &mapper, bytes)? == count);
    }
    Ok(())
}

#[test]
fn mappers_act_one_after_the_other(rt: HostRuntime) -> Result<(), Fail> {
    let rows: [(&[(Form, &str)], &str, &str); 7] = [
        (&[], "b,a,b", "a,b"),
        (&[(Form::Roles, "d,c,d")], "a", "c,d"),
        (&[(Form::Before, "r-")], "b,a", "r-a,r-b"),
        (&[(Form::Behind, "z")], "a,ab,a", "abz,az"),
        (&[(Form::Behind, "z")], "", ""),
        (
            &[(Form::Before, "x"), (Form::Behind, "y")],
            "a,b",
            "xay,xby",
        ),
        (
            &[
                (Form::Before, "x"),
                (Form::Roles, "d,c"),
                (Form::Behind, "y"),
            ],
            "a",
            "cy,dy",
        ),
    ];
    for (forms, given, wanted) in rows {
        let mapper = in_turn(rt.alloc(), forms)?;
        let shown = mapped(rt.alloc(), &mapper, given)?;
        assert_eq!(rt; shown.as_slice(), wanted.as_bytes());
    }
    Ok(())
}

/// A mapper with one of each form in it.
fn of_each_form(alloc: Global) -> Result<RoleMapper, NoMemory> {
    let mut of = Tree::new(alloc);
    of.push(by_pairs(alloc, &[("dev", "code"), ("ops", "run,read")], true, false)?)?;
    of.push(in_turn(alloc, &[(Form::Before, "x"), (Form::Behind, "y")])?)?;
    let right = logical(alloc, SetOp::Xor, None, Some("xdevy"))?;
    Ok(RoleMapper::Logical {
        op: SetOp::Minus,
        left: Some(Boxed::new(alloc, RoleMapper::Aggregate { of })?),
        right: Some(Boxed::new(alloc, right)?),
    })
}

/// That values of the type may move between threads and be shared by them.
fn crosses<T: Send + Sync>() {}

#[test]
fn a_copied_mapper_is_equal(rt: HostRuntime) -> Result<(), Fail> {
    crosses::<RoleMapper>();
    crosses::<Roles>();
    let mapper = of_each_form(rt.alloc())?;
    let copy = mapper.copy(rt.alloc())?;
    assert_eq!(rt;
        format!(in rt.alloc(); "{copy:?}")?.as_str(),
        format!(in rt.alloc(); "{mapper:?}")?.as_str()
    );
    let shown = mapped(rt.alloc(), &copy, "dev,ops")?;
    assert_eq!(rt; shown.as_slice(), b"xcodey,xopsy,xready,xruny".as_slice());
    Ok(())
}

/// An identity whose groups are `ops`, `dev` and `ops`.
fn identity(alloc: Global) -> Result<Row, NoMemory> {
    match Values::read(names(alloc, "ops,dev,ops")?) {
        Ok(values) => Ok(Row::new(alloc).with_attr(name(alloc, "groups")?, values)?),
        Err(_) => Err(NoMemory),
    }
}

/// The text behind each role, where there is one.
fn behind(alloc: Global, text: Option<&str>) -> Result<Option<RoleMapper>, NoMemory> {
    match text {
        None => Ok(None),
        Some(text) => Ok(Some(suffix(alloc, text)?)),
    }
}

/// The roles of the identity by the values of the attribute, with a comma between.
fn told(
    alloc: Global,
    attr: &str,
    realm: Option<&str>,
    domain: Option<&str>,
) -> Result<Vec<u8>, NoMemory> {
    let attr = name(alloc, attr)?;
    let realm = behind(alloc, realm)?;
    let domain = behind(alloc, domain)?;
    let row = identity(alloc)?;
    shown(
        alloc,
        &roles_of(alloc, &attr, realm.as_ref(), domain.as_ref(), &row)?,
    )
}

#[test]
fn the_realms_mapper_comes_before_the_domains(rt: HostRuntime) -> Result<(), Fail> {
    let rows: [(&str, Option<&str>, Option<&str>, &str); 5] = [
        ("groups", None, None, "dev,ops"),
        ("groups", Some("-r"), None, "dev-r,ops-r"),
        ("groups", None, Some("-d"), "dev-d,ops-d"),
        ("groups", Some("-r"), Some("-d"), "dev-r-d,ops-r-d"),
        ("roles", Some("-r"), Some("-d"), ""),
    ];
    for (attr, realm, domain, wanted) in rows {
        let told = told(rt.alloc(), attr, realm, domain)?;
        assert_eq!(rt; told.as_slice(), wanted.as_bytes());
    }
    Ok(())
}

/// Where a mapper stands in another.
#[derive(Clone, Copy)]
enum Inside {
    Aggregate,
    Left,
    Right,
}

/// A mapper with this one inside.
fn around(alloc: Global, inside: Inside, mapper: RoleMapper) -> Result<RoleMapper, NoMemory> {
    let mut of = Tree::new(alloc);
    let (mut left, mut right) = (None, None);
    match inside {
        Inside::Aggregate => {
            of.push(mapper)?;
            return Ok(RoleMapper::Aggregate { of });
        }
        Inside::Left => left = Some(Boxed::new(alloc, mapper)?),
        Inside::Right => right = Some(Boxed::new(alloc, mapper)?),
    }
    Ok(RoleMapper::Logical {
        op: SetOp::Or,
        left,
        right,
    })
}

/// Mappers in one another, so many deep.
fn nested(alloc: Global, inside: Inside, depth: usize) -> Result<RoleMapper, NoMemory> {
    let mut mapper = constant(alloc, "a")?;
    for _ in 1..depth {
        mapper = around(alloc, inside, mapper)?;
    }
    Ok(mapper)
}

#[test]
fn mappers_nest_at_most_8_deep(rt: HostRuntime) -> Result<(), Fail> {
    for inside in [Inside::Aggregate, Inside::Left, Inside::Right] {
        for (depth, fits) in [(1, true), (8, true), (9, false)] {
            let mapper = nested(rt.alloc(), inside, depth)?;
            assert!(rt; mapper.fits() == fits);
        }
    }
    Ok(())
}

/// A list in a mapper.
#[derive(Clone, Copy)]
enum Listed {
    Roles,
    Mappers,
    Pairs,
    Targets,
}

/// So many equal names.
fn many_names(alloc: Global, count: usize) -> Result<Items<Name>, NoMemory> {
    let mut list = Vec::new(alloc);
    for _ in 0..count {
        list.push(name(alloc, "a")?)?;
    }
    Ok(Items::of(list))
}

/// So many mappers one after the other.
fn many_mappers(alloc: Global, count: usize) -> Result<RoleMapper, NoMemory> {
    let mut of = Tree::new(alloc);
    for _ in 0..count {
        of.push(suffix(alloc, "z")?)?;
    }
    Ok(RoleMapper::Aggregate { of })
}

/// A mapper by so many pairs, each with so many targets.
fn many_pairs(alloc: Global, count: usize, targets: usize) -> Result<RoleMapper, NoMemory> {
    let mut map = Vec::new(alloc);
    for _ in 0..count {
        map.push((name(alloc, "a")?, many_names(alloc, targets)?))?;
    }
    Ok(RoleMapper::Mapped {
        map: Items::of(map),
        keep_mapped: false,
        keep_non_mapped: false,
    })
}

/// A mapper with so many members in the list.
fn with_list(alloc: Global, list: Listed, count: usize) -> Result<RoleMapper, NoMemory> {
    match list {
        Listed::Roles => Ok(RoleMapper::Constant {
            roles: many_names(alloc, count)?,
        }),
        Listed::Mappers => Ok(many_mappers(alloc, count)?),
        Listed::Pairs => Ok(many_pairs(alloc, count, 1)?),
        Listed::Targets => Ok(many_pairs(alloc, 2, count)?),
    }
}

#[test]
fn lists_have_at_most_64_members(rt: HostRuntime) -> Result<(), Fail> {
    for list in [
        Listed::Roles,
        Listed::Mappers,
        Listed::Pairs,
        Listed::Targets,
    ] {
        for (count, fits) in [(0, true), (64, true), (65, false)] {
            let mapper = with_list(rt.alloc(), list, count)?;
            assert!(rt; mapper.fits() == fits);
        }
    }
    Ok(())
}
