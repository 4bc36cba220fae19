//! How deep rules nest, and how many members their lists have.

ghost use Rattle.std.specs.Prelude.{◌≡◌, map};
ghost use Rattle.std.specs.List.{list_all};
ghost use Rattle.std.specs.Option.{option_copied};
ghost use Rattle.ely_pipeline.specs.Bounds.{length_fits, each_fits, fits_within, fits, rule_fits, mapper_fits, pipeline_fits};

use crate::mapper::RealmMapper;
use crate::pipeline::Pipeline;
use crate::rule::Rule;
use ely_base::Name;

/// How deep rules nest at most. A rule that stands in no other has depth 1.
pub const MOST_LEVELS: usize = 8;

/// How many members a list in a rule or a mapper has at most.
pub const MOST_MEMBERS: usize = 64;

/// Whether a list has a member, and no more than are allowed.
fn length_fits<T>(members: &[T]) -> bool
    ensures { result ≡ length_fits members.now }
{
    1 <= members.len() && members.len() <= MOST_MEMBERS
}

/// Whether the rule nests no deeper than that many levels, and each list in it has a length that is allowed.
#[cycle(fits_within)]
fn fits_within(rule: &Rule, levels: usize) -> bool
    ensures { result ≡ fits_within rule.now levels }
{
    if levels == 0 {
        return false;
    }
    match rule {
        Rule::Map { pairs } => length_fits(pairs.all()),
        Rule::Require { names } => length_fits(names.all()),
        Rule::Chain { of } | Rule::First { of } => each_fits(of.as_slice(), levels - 1),
        Rule::Constant { .. }
        | Rule::AddPrefix { .. }
        | Rule::AddSuffix { .. }
        | Rule::StripPrefix { .. }
        | Rule::StripSuffix { .. }
        | Rule::Before { .. }
        | Rule::After { .. } => true,
    }
}

/// Whether the list has a length that is allowed, and each rule in it fits within that many levels.
#[cycle(fits_within)]
fn each_fits(rules: &[Rule], levels: usize) -> bool
    ensures { result ≡ each_fits (map fits_within rules.now) levels }
{
    if !length_fits(rules) {
        return false;
    }
    for rule in rules {
        if !fits_within(rule, levels) {
            return false;
        }
    }
    true
}

impl Rule {
    /// Whether it nests at most 8 deep, and each list in it has 1 to 64 members. It takes no memory.
    pub fn fits(&self) -> bool
        ensures { result ≡ fits self.now }
    {
        fits_within(self, MOST_LEVELS)
    }
}

impl RealmMapper {
    /// Whether its list of pairs, where it has one, has 1 to 64 members. It takes no memory.
    pub fn fits(&self) -> bool
        ensures { result ≡ mapper_fits self.now }
    {
        match self {
            RealmMapper::MapAfter { pairs, .. } => length_fits(pairs.all()),
            RealmMapper::Constant { .. } | RealmMapper::TakeAfter { .. } => true,
        }
    }
}

/// Whether the rule fits, where there is one.
fn rule_fits(rule: Option<&Rule>) -> bool
    ensures { result ≡ rule_fits (option_copied rule.entry) }
{
    match rule {
        Some(rule) => rule.fits(),
        None => true,
    }
}

/// Whether the rule of each realm that has one fits.
fn realms_fit(realms: &[(Name, Option<Rule>)]) -> bool
    ensures { result ≡ list_all (λ realm. rule_fits realm.1) realms.now }
{
    for realm in realms {
        if !rule_fits(realm.1.as_ref()) {
            return false;
        }
    }
    true
}

impl Pipeline {
    /// Whether its mapper and the rules of all its stages fit, where they are there. It takes no memory.
    pub fn fits(&self) -> bool
        ensures { result ≡ pipeline_fits self.now }
    {
        let mapper = match &self.mapper {
            Some(mapper) => mapper.fits(),
            None => true,
        };
        mapper
            && rule_fits(self.decoder.as_ref())
            && rule_fits(self.pre.as_ref())
            && rule_fits(self.post.as_ref())
            && realms_fit(self.realms.all())
    }
}
