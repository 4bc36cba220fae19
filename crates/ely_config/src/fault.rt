//! Why no configuration is made of its members, in the order in which the faults are looked for.

use ely_row::PropFault;

/// Which reference of a realm to another.
#[derive(Clone, Copy, Debug, PartialEq, Eq)]
pub enum Reference {
    /// To the realm that an aggregate has its credentials of.
    Authentication,
    /// To a realm that an aggregate has attributes of, by its number, counted from 0.
    Authorization(usize),
    /// To the realm that a caching one keeps keys for.
    Of,
}

/// Why a realm isn't taken.
#[derive(Clone, Copy, Debug, PartialEq, Eq)]
pub enum RealmFault {
    /// A realm before it has its name.
    Twice,
    /// Its role mapper nests too deep, or a list in it is too long.
    RoleMapper,
    /// An aggregate names no realm for attributes, or more than 15.
    Authorization,
    /// A cache is to keep no key, or more than 65,536.
    Limit,
    /// No realm has the name.
    Unknown(Reference),
    /// The realm that is named can't stand there: an aggregate is of realms that have identities of their own, and a caching realm
    /// isn't of a caching one.
    Nested(Reference),
    /// The text of its users is faulty.
    Users(PropFault),
    /// The text of its groups is faulty.
    Groups(PropFault),
}

/// Why no configuration is made of its members.
#[derive(Clone, Copy, Debug, PartialEq, Eq)]
pub enum ConfigFault {
    /// The realm of Digest isn't 1 to 255 bytes of printable ASCII without the double quote and the backslash.
    DigestRealm,
    /// There is no realm, or there are more than 16.
    Realms,
    /// A rule or the realm mapper isn't within its bounds, or the pipeline knows other realms, or in another order.
    Pipeline,
    /// The role mapper of the domain nests too deep, or a list in it is too long.
    RoleMapper,
    /// There are too many rows, or a row has too many members, or a granted text of a length that isn't allowed.
    Permissions,
    /// The realm of this number, counted from 0, isn't taken.
    Realm { at: usize, fault: RealmFault },
    /// No realm has the name of the default realm.
    DefaultRealm,
    /// No realm has the name in the pair of this number of the realm mapper, counted from 0. The one name of a mapper that always
    /// gives the same realm has the number 0.
    MappedRealm(usize),
}
