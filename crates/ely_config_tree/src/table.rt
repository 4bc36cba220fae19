//! The members that an object may have and must have, by its shape and its word.

ghost use Rattle.std.specs.Prelude.{◌≡◌, ◌<◌, ◌-◌, ℕ, IfSome, map, if◌then◌else◌, Some, None};
ghost use Rattle.std.specs.Str.{bytes_eq};
ghost use Rattle.std.specs.Option.{option_map};
ghost use Rattle.ely_config_tree.specs.Ranks.{rank};
ghost use Rattle.ely_config_tree.specs.Shapes.{form_of};
ghost use Rattle.ely_config_tree.specs.Table.{aggregate_members, caching_members, logical_members, mapped_members, members_in, members_of, modifiable_members, permissions_members, properties_members, realm_mapper_table, realm_table, required_in, role_mapper_table, root_members, perm_row_members, rule_table, scram_members, shape_in, discriminator_of};
ghost use Rattle.ely_config_tree.specs.Tree.{member_shape};

use crate::shape::{Form, Shape};

/// The shape, where both names are the same.
fn only(name: &str, of: &str, shape: Shape) -> Option<Shape>
    ensures { result ≡ if bytes_eq name.now of.now then Some shape else None }
{
    if name == of { Some(shape) } else { None }
}

/// The first shape or, under another name, the second.
fn either(name: &str, first: &str, shape: Shape, second: &str, other: Shape) -> Option<Shape>
    ensures { result ≡ if bytes_eq name.now first.now then Some shape
        else (if bytes_eq name.now second.now then Some other else None) }
{
    if name == first {
        Some(shape)
    } else {
        only(name, second, other)
    }
}

/// A member of the configuration.
fn root_member(name: &str) -> Option<Shape>
    ensures { result ≡ shape_in root_members name.now }
{
    if name == "decoder" {
        Some(Shape::Rule(8))
    } else if name == "default-realm" {
        Some(Shape::Name)
    } else if name == "digest-realm" {
        Some(Shape::DigestRealm)
    } else if name == "permissions" {
        Some(Shape::Permissions)
    } else if name == "post-realm" {
        Some(Shape::Rule(8))
    } else if name == "pre-realm" {
        Some(Shape::Rule(8))
    } else if name == "realm-mapper" {
        Some(Shape::RealmMapper)
    } else if name == "realms" {
        Some(Shape::Realms)
    } else if name == "role-mapper" {
        Some(Shape::RoleMapper(8))
    } else if name == "scram" {
        Some(Shape::Scram)
    } else if name == "seed" {
        Some(Shape::Text {
            least: 0,
            most: 255,
        })
    } else if name == "version" {
        Some(Shape::Number { least: 1, most: 1 })
    } else {
        None
    }
}

/// A list of up to 64 names.
fn names() -> Shape
    ensures { result ≡ Shape.Names 0 64 }
{
    Shape::Names { least: 0, most: 64 }
}

/// A member of the object of SCRAM.
fn scram_member(name: &str) -> Option<Shape>
    ensures { result ≡ shape_in scram_members name.now }
{
    let turns = Shape::Number {
        least: 1,
        most: 1_000_000,
    };
    either(name, "salt", Shape::Salt, "turns", turns)
}

/// A member of the permissions.
fn permissions_member(name: &str) -> Option<Shape>
    ensures { result ≡ shape_in permissions_members name.now }
{
    either(name, "mode", Shape::ModeWord, "rows", Shape::PermRows)
}

/// A member of a row of the permissions.
fn perm_row_member(name: &str) -> Option<Shape>
    ensures { result ≡ shape_in perm_row_members name.now }
{
    if name == "grant" {
        Some(Shape::Grants)
    } else if name == "match-all" {
        Some(Shape::Flag)
    } else {
        either(name, "principals", names(), "roles", names())
    }
}

/// A member of a modifiable realm.
fn modifiable_member(name: &str) -> Option<Shape>
    ensures { result ≡ shape_in modifiable_members name.now }
{
    if name == "name" {
        Some(Shape::Name)
    } else if name == "role-attribute" {
        Some(Shape::Name)
    } else if name == "role-mapper" {
        Some(Shape::RoleMapper(8))
    } else {
        only(name, "transformer", Shape::Rule(8))
    }
}

/// A member of a realm of properties texts.
fn properties_member(name: &str) -> Option<Shape>
    ensures { result ≡ shape_in properties_members name.now }
{
    if name == "groups" {
        Some(Shape::AnyText)
    } else if name == "name" {
        Some(Shape::Name)
    } else if name == "plain-text" {
        Some(Shape::Flag)
    } else if name == "role-attribute" {
        Some(Shape::Name)
    } else if name == "role-mapper" {
        Some(Shape::RoleMapper(8))
    } else if name == "transformer" {
        Some(Shape::Rule(8))
    } else {
        only(name, "users", Shape::AnyText)
    }
}

/// A member of an aggregate realm.
fn aggregate_member(name: &str) -> Option<Shape>
    ensures { result ≡ shape_in aggregate_members name.now }
{
    if name == "authentication" {
        Some(Shape::Name)
    } else if name == "authorization" {
        Some(Shape::Names { least: 1, most: 15 })
    } else {
        modifiable_member(name)
    }
}

/// A member of a caching realm.
fn caching_member(name: &str) -> Option<Shape>
    ensures { result ≡ shape_in caching_members name.now }
{
    if name == "max-entries" {
        Some(Shape::Number {
            least: 1,
            most: 65536,
        })
    } else if name == "name" {
        Some(Shape::Name)
    } else if name == "of" {
        Some(Shape::Name)
    } else if name == "role-attribute" {
        Some(Shape::Name)
    } else if name == "role-mapper" {
        Some(Shape::RoleMapper(8))
    } else {
        only(name, "transformer", Shape::Rule(8))
    }
}

/// A member of a realm beside its kind.
fn realm_member(kind: &str, name: &str) -> Option<Shape>
    ensures { result ≡ shape_in (members_in realm_table kind.now) name.now }
{
    if kind == "modifiable" {
        modifiable_member(name)
    } else if kind == "properties" {
        properties_member(name)
    } else if kind == "aggregate" {
        aggregate_member(name)
    } else if kind == "caching" {
        caching_member(name)
    } else {
        None
    }
}

/// A member of a rule beside its word, where the rules in it may nest so many levels deep.
fn rule_member(below: u32, word: &str, name: &str) -> Option<Shape>
    ensures { result ≡ shape_in (members_in (rule_table below) word.now) name.now }
{
    if word == "constant" {
        only(name, "to", Shape::Name)
    } else if word == "add-prefix" {
        only(name, "text", Shape::Name)
    } else if word == "add-suffix" {
        only(name, "text", Shape::Name)
    } else if word == "strip-prefix" {
        only(name, "text", Shape::Name)
    } else if word == "strip-suffix" {
        only(name, "text", Shape::Name)
    } else if word == "before" {
        only(name, "text", Shape::Name)
    } else if word == "after" {
        only(name, "text", Shape::Name)
    } else if word == "map" {
        only(name, "pairs", Shape::Pairs)
    } else if word == "require" {
        only(name, "names", Shape::Names { least: 1, most: 64 })
    } else if word == "chain" {
        only(name, "of", Shape::Rules(below))
    } else if word == "first" {
        only(name, "of", Shape::Rules(below))
    } else {
        None
    }
}

/// A member of a realm mapper beside its word.
fn realm_mapper_member(word: &str, name: &str) -> Option<Shape>
    ensures { result ≡ shape_in (members_in realm_mapper_table word.now) name.now }
{
    if word == "constant" {
        only(name, "realm", Shape::Name)
    } else if word == "map-after" {
        either(name, "mark", Shape::Name, "pairs", Shape::Pairs)
    } else if word == "take-after" {
        only(name, "mark", Shape::Name)
    } else {
        None
    }
}

/// A member of a logical role mapper, whose mappers may nest so many levels deep.
fn logical_member(below: u32, name: &str) -> Option<Shape>
    ensures { result ≡ shape_in (logical_members below) name.now }
{
    if name == "left" {
        Some(Shape::RoleMapper(below))
    } else {
        either(name, "op", Shape::OpWord, "right", Shape::RoleMapper(below))
    }
}

/// A member of a role mapper that maps roles.
fn mapped_member(name: &str) -> Option<Shape>
    ensures { result ≡ shape_in mapped_members name.now }
{
    if name == "keep-mapped" {
        Some(Shape::Flag)
    } else {
        either(
            name,
            "keep-non-mapped",
            Shape::Flag,
            "map",
            Shape::RolePairs,
        )
    }
}

/// A member of a role mapper beside its word, where the mappers in it may nest so many levels deep.
fn role_mapper_member(below: u32, word: &str, name: &str) -> Option<Shape>
    ensures { result ≡ shape_in (members_in (role_mapper_table below) word.now) name.now }
{
    if word == "constant" {
        only(name, "roles", names())
    } else if word == "add-prefix" {
        only(name, "text", Shape::Name)
    } else if word == "add-suffix" {
        only(name, "text", Shape::Name)
    } else if word == "aggregate" {
        only(name, "of", Shape::RoleMappers(below))
    } else if word == "logical" {
        logical_member(below, name)
    } else if word == "mapped" {
        mapped_member(name)
    } else {
        None
    }
}

/// The shape of a member beside the discriminator, which has that word, in an object of the shape.
fn listed_shape(shape: Shape, word: &str, name: &str) -> Option<Shape>
    ensures { result ≡ shape_in (members_of shape word.now) name.now }
{
    match shape {
        Shape::Root => root_member(name),
        Shape::Scram => scram_member(name),
        Shape::Permissions => permissions_member(name),
        Shape::PermRow => perm_row_member(name),
        Shape::Realm => realm_member(word, name),
        Shape::Rule(levels) => rule_member(levels.saturating_sub(1), word, name),
        Shape::RealmMapper => realm_mapper_member(word, name),
        Shape::RoleMapper(levels) => role_mapper_member(levels.saturating_sub(1), word, name),
        _ => None,
    }
}

/// The discriminator of an object, the member whose word says which others it has, and the shape of the word.
pub(crate) fn discriminator_of(shape: Shape) -> Option<(&'static str, Shape)>
    ensures { option_map (λ named. (named.0.now, named.1)) result ≡ discriminator_of shape }
{
    match shape {
        Shape::Realm => Some(("kind", Shape::KindWord)),
        Shape::Rule(_) => Some(("rule", Shape::RuleWord)),
        Shape::RealmMapper => Some(("rule", Shape::RealmMapperWord)),
        Shape::RoleMapper(_) => Some(("rule", Shape::RoleMapperWord)),
        _ => None,
    }
}

/// The members that a realm must have beside its kind.
fn required_of_realm(kind: &str) -> &'static [&'static str]
    ensures { map (λ name. name.now) result.now ≡ required_in (members_in realm_table kind.now) }
{
    if kind == "modifiable" {
        &["name"]
    } else if kind == "properties" {
        &["name"]
    } else if kind == "aggregate" {
        &["authentication", "authorization", "name"]
    } else if kind == "caching" {
        &["name", "of"]
    } else {
        &[]
    }
}

/// The members that a rule must have beside its word.
fn required_of_rule(word: &str) -> &'static [&'static str]
    ensures { (below : ℕ)
        → map (λ name. name.now) result.now ≡ required_in (members_in (rule_table below) word.now) }
{
    if word == "constant" {
        &["to"]
    } else if word == "add-prefix" {
        &["text"]
    } else if word == "add-suffix" {
        &["text"]
    } else if word == "strip-prefix" {
        &["text"]
    } else if word == "strip-suffix" {
        &["text"]
    } else if word == "before" {
        &["text"]
    } else if word == "after" {
        &["text"]
    } else if word == "map" {
        &["pairs"]
    } else if word == "require" {
        &["names"]
    } else if word == "chain" {
        &["of"]
    } else if word == "first" {
        &["of"]
    } else {
        &[]
    }
}

/// The members that a realm mapper must have beside its word.
fn required_of_realm_mapper(word: &str) -> &'static [&'static str]
    ensures { map (λ name. name.now) result.now
        ≡ required_in (members_in realm_mapper_table word.now) }
{
    if word == "constant" {
        &["realm"]
    } else if word == "map-after" {
        &["mark", "pairs"]
    } else if word == "take-after" {
        &["mark"]
    } else {
        &[]
    }
}

/// The members that a role mapper must have beside its word.
fn required_of_role_mapper(word: &str) -> &'static [&'static str]
    ensures { (below : ℕ)
        → map (λ name. name.now) result.now ≡ required_in (members_in (role_mapper_table below) word.now) }
{
    if word == "constant" {
        &["roles"]
    } else if word == "add-prefix" {
        &["text"]
    } else if word == "add-suffix" {
        &["text"]
    } else if word == "aggregate" {
        &["of"]
    } else if word == "logical" {
        &["op"]
    } else if word == "mapped" {
        &["map"]
    } else {
        &[]
    }
}

/// The members that an object of the shape must have beside the discriminator, which has that word.
pub(crate) fn required_of(shape: Shape, word: &str) -> &'static [&'static str]
    ensures { map (λ name. name.now) result.now ≡ required_in (members_of shape word.now) }
{
    match shape {
        Shape::Permissions => &["mode", "rows"],
        Shape::PermRow => &["grant"],
        Shape::Realm => required_of_realm(word),
        Shape::Rule(_) => required_of_rule(word),
        Shape::RealmMapper => required_of_realm_mapper(word),
        Shape::RoleMapper(_) => required_of_role_mapper(word),
        _ => &[],
    }
}

/// The shape of a member, the discriminator among them, in an object of the shape whose discriminator has that word.
pub(crate) fn member_shape(shape: Shape, word: &str, name: &str) -> Option<Shape>
    requires { form_of shape ≡ Form.Object }
    ensures value { result ≡ member_shape shape word.now name.now }
    ensures lower { IfSome result (λ found. rank found < rank shape) }
{
    if let Some((discriminator, word_shape)) = discriminator_of(shape) {
        if name == discriminator {
            return Some(word_shape);
        }
    }
    listed_shape(shape, word, name)
}
