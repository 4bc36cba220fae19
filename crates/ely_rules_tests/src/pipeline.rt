use ely_base::{Items, Name, NoMemory, Refused, cut_at};
use ely_pipeline::{PipeFault, Pipeline, Place, RealmMapper, Rule, resolve};
use sqlite_items::Items as Nested;
use std::alloc::Global;
use std::test::Fail;

fn name(alloc: Global, text: &[u8]) -> Result<Name, NoMemory> {
    Name::read(alloc, text).map_err(|_| NoMemory)
}

/// The names of a text with a comma between.
fn names(alloc: Global, text: &[u8]) -> Result<Items<Name>, NoMemory> {
    let mut list = Vec::new(alloc);
    for part in text.split(|b| *b == b',') {
        list.push(name(alloc, part)?)?;
    }
    Ok(Items::of(list))
}

/// What stands before the first mark, and what stands behind it.
fn cut(text: &[u8], mark: u8) -> (&[u8], &[u8]) {
    let (before, behind) = cut_at(text, mark);
    (before, behind.unwrap_or(b""))
}

/// The pairs of a text with a comma between, each with an equals sign.
fn pairs(alloc: Global, text: &[u8]) -> Result<Items<(Name, Name)>, NoMemory> {
    let mut list = Vec::new(alloc);
    for part in text.split(|b| *b == b',') {
        let (from, to) = cut(part, b'=');
        list.push((name(alloc, from)?, name(alloc, to)?))?;
    }
    Ok(Items::of(list))
}

/// The rule of that word with a text, or the constant one.
fn text_rule(alloc: Global, word: &[u8], text: &[u8]) -> Result<Rule, NoMemory> {
    let text = name(alloc, text)?;
    match word {
        b"add-prefix" => Ok(Rule::AddPrefix { text }),
        b"add-suffix" => Ok(Rule::AddSuffix { text }),
        b"strip-prefix" => Ok(Rule::StripPrefix { text }),
        b"strip-suffix" => Ok(Rule::StripSuffix { text }),
        b"before" => Ok(Rule::Before { text }),
        b"after" => Ok(Rule::After { text }),
        _ => Ok(Rule::Constant { to: text }),
    }
}

/// The rules of a text with a comma between, each a word and a text with an equals sign.
fn text_rules(alloc: Global, text: &[u8]) -> Result<Nested<Rule>, NoMemory> {
    let mut rules = Nested::new(alloc);
    for part in text.split(|b| *b == b',') {
        let (word, text) = cut(part, b'=');
        rules.push(text_rule(alloc, word, text)?)?;
    }
    Ok(rules)
}

/// The rule of that word with the list that is written in the text, or else with the text.
fn rule(alloc: Global, word: &[u8], text: &[u8]) -> Result<Rule, NoMemory> {
    match word {
        b"map" => Ok(Rule::Map {
            pairs: pairs(alloc, text)?,
        }),
        b"require" => Ok(Rule::Require {
            names: names(alloc, text)?,
        }),
        b"chain" => Ok(Rule::Chain {
            of: text_rules(alloc, text)?,
        }),
        b"first" => Ok(Rule::First {
            of: text_rules(alloc, text)?,
        }),
        _ => text_rule(alloc, word, text),
    }
}

/// What the rule makes of the name, or nothing: what a pipeline resolves whose decoder it is.
fn made(alloc: Global, rule: &Rule, from: &Name) -> Result<Option<Name>, NoMemory> {
    let default_realm = name(alloc, b"main")?;
    let mut realms = Vec::new(alloc);
    realms.push((name(alloc, b"main")?, None))?;
    let decoder = Some(rule.copy(alloc)?);
    let pipe = Pipeline {
        decoder,
        pre: None,
        mapper: None,
        default_realm,
        post: None,
        realms: Items::of(realms),
    };
    match resolve(alloc, &pipe, from) {
        Ok(place) => Ok(Some(place.name)),
        Err(Refused::Fault(_)) => Ok(None),
        Err(Refused::NoMemory) => Err(NoMemory),
    }
}

/// Whether the rule makes that of the name, where a dash is nothing.
fn is_made(alloc: Global, rule: &Rule, from: &[u8], to: &[u8]) -> Result<bool, NoMemory> {
    match made(alloc, rule, &name(alloc, from)?)? {
        Some(made) => Ok(made.bytes() == to),
        None => Ok(to == b"-".as_slice()),
    }
}

/// A rule and its text, a name, and what the rule makes of it, where a dash is nothing.
const RULES: &str = "constant guest anybody guest
add-prefix corp- user corp-user
add-suffix @main user user@main
strip-prefix corp- corp-user user
strip-prefix corp- corp-corp- corp-
strip-prefix corp- corp- -
strip-prefix corp- user -
strip-prefix corp- corp -
strip-suffix @main user@main user
strip-suffix @main @main -
strip-suffix @main @main. -
before @ a@b@c a
before @ @b -
before @ a -
before aab aaab a
after @ a@b@c b@c
after @ a@ -
after :: a:::b :b
after :: a:b:c -
after ä aäb b
map root=admin,a=b,root=c root admin
map root=admin,a=b,root=c a b
map root=admin,a=b,root=c admin -
require admin,x x x
require admin,x a -
chain strip-prefix=corp-,before=@ corp-a@b a
chain strip-prefix=corp-,before=@ a@b -
chain before=@,before=@ a@b@c -
first strip-prefix=corp-,before=@ corp-a@b a@b
first strip-prefix=corp-,before=@ a@b a
first strip-prefix=a@,before=@ a@ a
first strip-prefix=corp-,before=@ a -";

/// Whether a copy of the rule of a line makes what the line says.
fn is_right(alloc: Global, line: &[u8]) -> Result<bool, NoMemory> {
    let (word, rest) = cut(line, b' ');
    let (text, rest) = cut(rest, b' ');
    let (from, to) = cut(rest, b' ');
    let rule = rule(alloc, word, text)?.copy(alloc)?;
    is_made(alloc, &rule, from, to)
}

#[test]
fn rules_make_a_name_or_nothing(rt: HostRuntime) -> Result<(), Fail> {
    for line in RULES.as_bytes().split(|b| *b == b'\n') {
        assert!(rt; is_right(rt.alloc(), line)?);
    }
    Ok(())
}

/// A name of so many bytes.
fn long(alloc: Global, length: usize) -> Result<Name, NoMemory> {
    let mut list = Vec::new(alloc);
    for _ in 0..length {
        list.push(b'a')?;
    }
    Name::read_list(list).map_err(|_| NoMemory)
}

/// How many bytes a text of 200 before a name, or after it, makes of it.
fn joined_len(alloc: Global, is_before: bool, length: usize) -> Result<usize, NoMemory> {
    let text = long(alloc, 200)?;
    let rule = if is_before {
        Rule::AddPrefix { text }
    } else {
        Rule::AddSuffix { text }
    };
    match made(alloc, &rule, &long(alloc, length)?)? {
        Some(made) => Ok(made.bytes().len()),
        None => Ok(0),
    }
}

#[test]
fn a_name_has_at_most_255_bytes(rt: HostRuntime) -> Result<(), Fail> {
    for (length, made) in [(1, 201), (55, 255), (56, 0)] {
        assert_eq!(rt; joined_len(rt.alloc(), true, length)?, made);
        assert_eq!(rt; joined_len(rt.alloc(), false, length)?, made);
    }
    Ok(())
}

/// The mapper of that word, or none. Its mark is `@`.
fn mapper(alloc: Global, word: &[u8]) -> Result<Option<RealmMapper>, NoMemory> {
    let mark = name(alloc, b"@")?;
    match word {
        b"constant" => Ok(Some(RealmMapper::Constant {
            realm: name(alloc, b"lab")?,
        })),
        b"map-after" => Ok(Some(RealmMapper::MapAfter {
            mark,
            pairs: pairs(alloc, b"x=lab,x=main")?,
        })),
        b"no-pairs" => Ok(Some(RealmMapper::MapAfter {
            mark,
            pairs: Items::of(Vec::new(alloc)),
        })),
        b"take-after" => Ok(Some(RealmMapper::TakeAfter { mark })),
        _ => Ok(None),
    }
}

/// The realms `main`, which has that rule, and `lab`, which has none.
fn realms(alloc: Global, rule: Option<Rule>) -> Result<Items<(Name, Option<Rule>)>, NoMemory> {
    let mut list = Vec::new(alloc);
    list.push((name(alloc, b"lab")?, None))?;
    list.push((name(alloc, b"main")?, rule))?;
    Ok(Items::of(list))
}

/// A pipeline with the mapper of that word. The decoder, the rules before and after the mapper and the rule of `main` each take
/// one character off the front: `a`, `@`, `c` and `d`.
fn pipeline(alloc: Global, word: &[u8]) -> Result<Pipeline, NoMemory> {
    let mapper = mapper(alloc, word)?;
    let default_realm = name(alloc, b"main")?;
    let mut rules = Vec::new(alloc);
    for text in [b"c", b"@", b"a", b"d"] {
        rules.push(text_rule(alloc, b"strip-prefix", text)?)?;
    }
    let realms = realms(alloc, rules.pop())?;
    Ok(Pipeline {
        decoder: rules.pop(),
        pre: rules.pop(),
        mapper,
        default_realm,
        post: rules.pop(),
        realms,
    })
}

/// A pipeline for names as `corp-user@main`, without a decoder and without a rule after the mapper.
fn corporate(alloc: Global) -> Result<Pipeline, NoMemory> {
    let mapper = mapper(alloc, b"take-after")?;
    let default_realm = name(alloc, b"main")?;
    let pre = text_rule(alloc, b"strip-prefix", b"corp-")?;
    let last = text_rule(alloc, b"before", b"@")?;
    let realms = realms(alloc, Some(last))?;
    Ok(Pipeline {
        decoder: None,
        pre: Some(pre),
        mapper,
        default_realm,
        post: None,
        realms,
    })
}

/// The realm and the name, or the stage that gives nothing, with the part that names no realm.
fn shown(resolved: &Result<Place, Refused<PipeFault>>) -> (&[u8], &[u8]) {
    match resolved {
        Ok(place) => (place.realm.bytes(), place.name.bytes()),
        Err(Refused::Fault(PipeFault::Undecoded)) => (b"decoder", b""),
        Err(Refused::Fault(PipeFault::PreRealm)) => (b"pre-realm", b""),
        Err(Refused::Fault(PipeFault::NoRealm(part))) => (b"no-realm", part.bytes()),
        Err(Refused::Fault(PipeFault::PostRealm)) => (b"post-realm", b""),
        Err(Refused::Fault(PipeFault::RealmStep)) => (b"realm", b""),
        Err(Refused::NoMemory) => (b"no-memory", b""),
    }
}

/// The word of a pipeline, a name, and its realm and name, or the stage that gives nothing, with the part that names no realm.
const NAMES: &str = "none a@cde main e
none @cde decoder
none a decoder
none acde pre-realm
none a@ pre-realm
none a@de post-realm
none a@c post-realm
none a@ce realm
none a@cd realm
constant a@ce lab e
constant a@ce@main lab e@main
map-after a@ce@x lab e@x
map-after a@cde@lab main e@lab
map-after a@cde main e
take-after a@ce@lab lab e@lab
take-after a@cde@main main e@main
take-after a@cde main e
take-after a@ce realm
take-after a@ce@nowhere no-realm nowhere
take-after a@ce@lab@main no-realm lab@main
take-after a@ce@ no-realm
take-after a@@nowhere no-realm nowhere
take-after a@@lab post-realm
corporate corp-user@main main user
corporate user pre-realm
corporate corp-user@nowhere no-realm nowhere";

/// A copy of the pipeline of that word.
fn copied(alloc: Global, word: &[u8]) -> Result<Pipeline, NoMemory> {
    let pipe = if word == b"corporate".as_slice() {
        corporate(alloc)?
    } else {
        pipeline(alloc, word)?
    };
    pipe.copy(alloc)
}

/// Whether the pipeline resolves the name so.
fn is_resolved(
    alloc: Global,
    pipe: &Pipeline,
    from: &[u8],
    to: (&[u8], &[u8]),
) -> Result<bool, NoMemory> {
    let name = name(alloc, from)?;
    let resolved = resolve(alloc, pipe, &name);
    let (first, second) = shown(&resolved);
    Ok(first == to.0 && second == to.1)
}

/// Whether a copy of the pipeline of a line resolves the name as the line says.
fn is_place_right(alloc: Global, line: &[u8]) -> Result<bool, NoMemory> {
    let (word, rest) = cut(line, b' ');
    let (from, to) = cut(rest, b' ');
    let pipe = copied(alloc, word)?;
    is_resolved(alloc, &pipe, from, cut(to, b' '))
}

#[test]
fn names_are_resolved_stage_by_stage(rt: HostRuntime) -> Result<(), Fail> {
    for line in NAMES.as_bytes().split(|b| *b == b'\n') {
        assert!(rt; is_place_right(rt.alloc(), line)?);
    }
    Ok(())
}

fn place(alloc: Global, realm: &[u8], text: &[u8]) -> Result<Place, NoMemory> {
    Ok(Place {
        realm: name(alloc, realm)?,
        name: name(alloc, text)?,
    })
}

/// Whether a copy of the place of `user` in `main` is the same as that place.
fn is_same(alloc: Global, realm: &[u8], text: &[u8]) -> Result<bool, NoMemory> {
    let user = place(alloc, b"main", b"user")?;
    let copy = user.copy(alloc)?;
    let other = place(alloc, realm, text)?;
    Ok(copy.same(&other))
}

fn crosses<T: Send + Sync>() {}

#[test]
fn places_are_the_same_by_realm_and_name(rt: HostRuntime) -> Result<(), Fail> {
    crosses::<Pipeline>();
    crosses::<Place>();
    crosses::<PipeFault>();
    assert!(rt; is_same(rt.alloc(), b"main", b"user")?);
    assert!(rt; !is_same(rt.alloc(), b"main", b"users")?);
    assert!(rt; !is_same(rt.alloc(), b"lab", b"user")?);
    Ok(())
}

/// So many equal pairs.
fn many_pairs(alloc: Global, members: usize) -> Result<Items<(Name, Name)>, NoMemory> {
    let mut list = Vec::new(alloc);
    for _ in 0..members {
        list.push((name(alloc, b"a")?, name(alloc, b"b")?))?;
    }
    Ok(Items::of(list))
}

/// So many equal names.
fn many_names(alloc: Global, members: usize) -> Result<Items<Name>, NoMemory> {
    let mut list = Vec::new(alloc);
    for _ in 0..members {
        list.push(name(alloc, b"a")?)?;
    }
    Ok(Items::of(list))
}

/// So many equal rules.
fn many_rules(alloc: Global, members: usize) -> Result<Nested<Rule>, NoMemory> {
    let mut rules = Nested::new(alloc);
    for _ in 0..members {
        rules.push(text_rule(alloc, b"constant", b"a")?)?;
    }
    Ok(rules)
}

/// Whether the rule of that word fits with so many members, or else the mapper that has pairs.
fn is_fit(alloc: Global, word: &[u8], members: usize) -> Result<bool, NoMemory> {
    let rule = match word {
        b"map" => Rule::Map {
            pairs: many_pairs(alloc, members)?,
        },
        b"require" => Rule::Require {
            names: many_names(alloc, members)?,
        },
        b"chain" => Rule::Chain {
            of: many_rules(alloc, members)?,
        },
        b"first" => Rule::First {
            of: many_rules(alloc, members)?,
        },
        _ => {
            let mark = name(alloc, b"@")?;
            let pairs = many_pairs(alloc, members)?;
            return Ok(RealmMapper::MapAfter { mark, pairs }.fits());
        }
    };
    Ok(rule.fits())
}

#[test]
fn lists_have_1_to_64_members(rt: HostRuntime) -> Result<(), Fail> {
    for (members, fits) in [(0, false), (1, true), (64, true), (65, false)] {
        for word in [
            b"map".as_slice(),
            b"require",
            b"chain",
            b"first",
            b"map-after",
        ] {
            assert_eq!(rt; is_fit(rt.alloc(), word, members)?, fits);
        }
    }
    Ok(())
}

/// A rule with so many others around it, in each of which it is alone.
fn nested(alloc: Global, around: usize) -> Result<Rule, NoMemory> {
    let mut rule = text_rule(alloc, b"constant", b"a")?;
    for depth in 0..around {
        let mut of = Nested::new(alloc);
        of.push(rule)?;
        rule = if depth % 2 == 0 {
            Rule::Chain { of }
        } else {
            Rule::First { of }
        };
    }
    Ok(rule)
}

#[test]
fn rules_nest_at_most_8_deep(rt: HostRuntime) -> Result<(), Fail> {
    for (around, fits) in [(0, true), (7, true), (8, false)] {
        assert_eq!(rt; nested(rt.alloc(), around)?.fits(), fits);
    }
    Ok(())
}

/// Whether the pipeline with that mapper fits.
fn is_pipeline_fit(alloc: Global, word: &[u8]) -> Result<bool, NoMemory> {
    let pipe = pipeline(alloc, word)?;
    Ok(pipe.fits())
}

#[test]
fn a_pipeline_fits_where_its_mapper_does(rt: HostRuntime) -> Result<(), Fail> {
    assert!(rt; is_pipeline_fit(rt.alloc(), b"none")?);
    assert!(rt; is_pipeline_fit(rt.alloc(), b"map-after")?);
    assert!(rt; !is_pipeline_fit(rt.alloc(), b"no-pairs")?);
    Ok(())
}
