//! The tables and the caches with which a domain begins: its realms, one reload of each that has texts, and an empty cache for
//! each that is caching.

ghost use Rattle.std.specs.Prelude.{◌≡◌, ◌≤◌, ◌++◌, None, length, true, [], IfOk, OnOk};
ghost use Rattle.std.specs.List.{AllByRecursion, cons_option};
ghost use Rattle.ely_domain.specs.Caches.{AreCurrent, lists_of};
ghost use Rattle.ely_domain.specs.Given.{class_by, classed, loading, loadings};
ghost use Rattle.ely_domain.specs.Identities.{Known};
ghost use Rattle.ely_domain.specs.KeptKeys.{first_list, first_lists, is_cache_sized};
ghost use Rattle.ely_table.specs.Faults.{fault, recorded};

use ely_base::{Bytes, Name, NoMemory, Refused};
use ely_cache::Caches;
use ely_config::{Config, RealmConfig, RealmKind};
use ely_row::Edit;
use ely_table::{RealmClass, Tables};
use std::alloc::Global;

/// The class of a kind of realm.
fn class_by(alloc: Global, digest_realm: &Bytes, kind: &RealmKind) -> Result<RealmClass, NoMemory>
    ensures { IfOk result (λ class. class ≡ class_by digest_realm.now kind.now) }
{
    match kind {
        RealmKind::Modifiable => Ok(RealmClass::Modifiable),
        RealmKind::Properties { plain, .. } => Ok(RealmClass::Properties {
            plain: *plain,
            fallback: digest_realm.copy(alloc)?,
        }),
        RealmKind::Aggregate { .. } => Ok(RealmClass::Composite),
        RealmKind::Caching { .. } => Ok(RealmClass::Composite),
    }
}

/// These realms with their classes.
fn classed(
    alloc: Global,
    digest_realm: &Bytes,
    realms: &[RealmConfig],
) -> Result<Vec<(Name, RealmClass)>, NoMemory>
    ensures { IfOk result (λ with_class. with_class.items ≡ classed digest_realm.now realms.now) }
{
    let mut with_class = Vec::new(alloc);
    for realm in realms {
        let class = class_by(alloc, digest_realm, &realm.kind)?;
        with_class.push((realm.name.copy(alloc)?, class))?;
    }
    Ok(with_class)
}

/// The edit that fills a realm with the identities of its texts, where it has texts.
fn loading(alloc: Global, realm: &RealmConfig) -> Result<Option<Edit>, NoMemory>
    ensures { IfOk result (λ edit. edit ≡ loading realm.now.name realm.now.kind) }
{
    match &realm.kind {
        RealmKind::Properties { users, groups, .. } => Ok(Some(Edit::Reload {
            realm: realm.name.copy(alloc)?,
            users: users.copy(alloc)?,
            groups: groups.copy(alloc)?,
        })),
        RealmKind::Modifiable | RealmKind::Aggregate { .. } | RealmKind::Caching { .. } => Ok(None),
    }
}

/// Makes an edit against which nothing stands.
fn record(alloc: Global, tables: &mut Tables, edit: Edit) -> Result<(), NoMemory>
    requires { fault tables.old.realms tables.old.limit tables.old.journal edit ≡ None }
    ensures { OnOk result (tables.new ≡ recorded tables.old edit) }
{
    match tables.apply(alloc, edit) {
        Ok(_) => Ok(()),
        Err(Refused::NoMemory) => Err(NoMemory),
        Err(Refused::Fault(_)) => unreachable!(),
    }
}

/// Tables of the realms, with one reload of each that has texts, in order.
pub(crate) fn first_tables(
    alloc: Global,
    config: &Config,
    journal_limit: u32,
) -> Result<Tables, NoMemory>
    requires some { 1 ≤ journal_limit }
    requires most { journal_limit ≤ 131072 }
    requires room { length (loadings config.now.realms) ≤ journal_limit }
    ensures { IfOk result (λ tables. tables ≡ record {
      realms = classed config.now.digest_realm config.now.realms;
      limit = journal_limit;
      journal = loadings config.now.realms;
    }) }
{
    let realms = config.realms();
    let classes = classed(alloc, config.digest_realm(), realms)?;
    let mut tables = Tables::new(alloc, classes, journal_limit)?;
    for realm in realms {
        if let Some(edit) = loading(alloc, realm)? {
            record(alloc, &mut tables, edit)?;
        }
    }
    Ok(tables)
}

/// Adds an empty cache where the realm is caching.
fn add_cache(alloc: Global, caches: &mut Caches, realm: &RealmConfig) -> Result<(), NoMemory>
    requires { is_cache_sized realm.now.kind ≡ true }
    ensures lists { OnOk result (lists_of caches.new
        ≡ lists_of caches.old ++ cons_option (first_list realm.now.name realm.now.kind) []) }
    ensures current { (known : Known) → AreCurrent known caches.old → OnOk result (AreCurrent known caches.new) }
{
    match &realm.kind {
        RealmKind::Caching { limit, .. } => caches.add(alloc, realm.name.copy(alloc)?, *limit),
        _ => Ok(()),
    }
}

/// An empty cache for each realm that is caching, in order.
pub(crate) fn first_caches(alloc: Global, realms: &[RealmConfig]) -> Result<Caches, NoMemory>
    requires { AllByRecursion (λ realm. is_cache_sized realm.kind ≡ true) realms.now }
    ensures lists { IfOk result (λ caches. lists_of caches ≡ first_lists realms.now) }
    ensures current { (known : Known) → IfOk result (λ caches. AreCurrent known caches) }
{
    let mut caches = Caches::new(alloc);
    for realm in realms {
        add_cache(alloc, &mut caches, realm)?;
    }
    Ok(caches)
}
