//! The shapes of a configuration's values: which of them are arrays, which are objects, and what stands in an array. They are
//! public for contracts to name; no call takes one.

ghost use Rattle.std.specs.Prelude.{◌≡◌};
ghost use Rattle.ely_config_tree.specs.Ranks.{IsLower};
ghost use Rattle.ely_config_tree.specs.Shapes.{form_of, list_of, object_within};

/// What a value of a configuration should be. Lengths of texts are in bytes.
#[derive(Clone, Copy, Debug, PartialEq, Eq)]
pub enum Shape {
    /// The configuration itself.
    Root,
    Scram,
    Permissions,
    /// A row of the permissions.
    PermRow,
    PermRows,
    Realm,
    Realms,
    /// A rule that may nest so many levels deep, itself counted.
    Rule(u32),
    Rules(u32),
    RealmMapper,
    /// A role mapper that may nest so many levels deep, itself counted.
    RoleMapper(u32),
    RoleMappers(u32),
    /// A name, and what stands for it.
    Pair,
    Pairs,
    /// A role, and the roles that stand for it.
    RolePair,
    RolePairs,
    Names { least: usize, most: usize },
    /// The granted texts of a row.
    Grants,
    Name,
    AnyText,
    Text { least: usize, most: usize },
    DigestRealm,
    Salt,
    Number { least: u64, most: u64 },
    Flag,
    KindWord,
    RuleWord,
    RealmMapperWord,
    RoleMapperWord,
    ModeWord,
    OpWord,
}

/// How many items an array has, and what they are.
#[derive(Clone, Copy, Debug, PartialEq, Eq)]
pub struct ListForm {
    pub least: usize,
    pub most: usize,
    /// The shape of the first item.
    pub first: Shape,
    /// The shape of each later item.
    pub later: Shape,
}

/// What a shape asks of a value.
#[derive(Clone, Copy, Debug, PartialEq, Eq)]
pub enum Form {
    /// A value without parts that are looked at.
    Leaf,
    /// An array.
    List(ListForm),
    /// An object.
    Object,
}

/// An array of as many items as that, all of one shape.
fn list_of(least: usize, most: usize, item: Shape) -> Form
    ensures { result ≡ list_of least most item }
{
    Form::List(ListForm {
        least,
        most,
        first: item,
        later: item,
    })
}

/// An object, where a level is left for it.
fn object_within(levels: u32) -> Form
    ensures { result ≡ object_within levels }
{
    if levels == 0 {
        Form::Leaf
    } else {
        Form::Object
    }
}

/// What the shape asks for.
pub(crate) fn form_of(shape: Shape) -> Form
    ensures value { result ≡ form_of shape }
    ensures lower { IsLower shape result }
{
    match shape {
        Shape::Root
        | Shape::Scram
        | Shape::Permissions
        | Shape::PermRow
        | Shape::Realm
        | Shape::RealmMapper => Form::Object,
        Shape::Rule(levels) => object_within(levels),
        Shape::RoleMapper(levels) => object_within(levels),
        Shape::PermRows => list_of(0, 64, Shape::PermRow),
        Shape::Realms => list_of(1, 16, Shape::Realm),
        Shape::Rules(levels) => list_of(1, 64, Shape::Rule(levels)),
        Shape::RoleMappers(levels) => list_of(0, 64, Shape::RoleMapper(levels)),
        Shape::Pairs => list_of(1, 64, Shape::Pair),
        Shape::Pair => list_of(2, 2, Shape::Name),
        Shape::RolePairs => list_of(0, 64, Shape::RolePair),
        Shape::RolePair => Form::List(ListForm {
            least: 2,
            most: 2,
            first: Shape::Name,
            later: Shape::Names { least: 0, most: 64 },
        }),
        Shape::Names { least, most } => list_of(least, most, Shape::Name),
        Shape::Grants => list_of(
            0,
            64,
            Shape::Text {
                least: 1,
                most: 255,
            },
        ),
        Shape::Name
        | Shape::AnyText
        | Shape::Text { .. }
        | Shape::DigestRealm
        | Shape::Salt
        | Shape::Number { .. }
        | Shape::Flag
        | Shape::KindWord
        | Shape::RuleWord
        | Shape::RealmMapperWord
        | Shape::RoleMapperWord
        | Shape::ModeWord
        | Shape::OpWord => Form::Leaf,
    }
}
