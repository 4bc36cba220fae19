//! Rules of JSON values.

ghost use Rattle.std.specs.Prelude.{◌≡◌, IfOk, codes, option_and_then, option_map};
ghost use Rattle.serde_json.specs.View.{items_view, view};
ghost use Rattle.ely_pipeline.specs.declared.rule.Rule.TheVariants.{Constant, Map as Pairs, Require};
ghost use Rattle.ely_config_json.specs.Names.{name_of, names_of, pairs_of};
ghost use Rattle.ely_config_json.specs.Parts.{by_word, each_of, list_of, needed, object_of};
ghost use Rattle.ely_config_json.specs.Rules.{simple_rule, rule_in, rule_of, text_rule};

use crate::parts::{Part, member, needed, word};
use ely_base::{Name, NoMemory};
use ely_pipeline::{MOST_LEVELS, Rule};
use serde_json::{Map, Value};
use sqlite_items::Items as Nested;
use std::alloc::Global;

/// The rule of a word with a text.
fn text_rule(word: &str, text: Name) -> Option<Rule>
    ensures { result ≡ text_rule word.now text }
{
    if word == "add-prefix" {
        Some(Rule::AddPrefix { text })
    } else if word == "add-suffix" {
        Some(Rule::AddSuffix { text })
    } else if word == "strip-prefix" {
        Some(Rule::StripPrefix { text })
    } else if word == "strip-suffix" {
        Some(Rule::StripSuffix { text })
    } else if word == "before" {
        Some(Rule::Before { text })
    } else if word == "after" {
        Some(Rule::After { text })
    } else {
        None
    }
}

/// The rule that always gives one name.
fn constant(alloc: Global, object: &Map<String, Value>) -> Result<Option<Rule>, NoMemory>
    ensures { IfOk result (λ made. made
        ≡ option_map Constant (needed name_of (codes "to") (object_of object.now))) }
{
    match needed(alloc, object, "to")? {
        Some(to) => Ok(Some(Rule::Constant { to })),
        None => Ok(None),
    }
}

/// The rule by pairs.
fn map(alloc: Global, object: &Map<String, Value>) -> Result<Option<Rule>, NoMemory>
    ensures { IfOk result (λ made. made
        ≡ option_map Pairs (needed pairs_of (codes "pairs") (object_of object.now))) }
{
    match needed(alloc, object, "pairs")? {
        Some(pairs) => Ok(Some(Rule::Map { pairs })),
        None => Ok(None),
    }
}

/// The rule that lets the names of a list through.
fn require(alloc: Global, object: &Map<String, Value>) -> Result<Option<Rule>, NoMemory>
    ensures { IfOk result (λ made. made
        ≡ option_map Require (needed names_of (codes "names") (object_of object.now))) }
{
    match needed(alloc, object, "names")? {
        Some(names) => Ok(Some(Rule::Require { names })),
        None => Ok(None),
    }
}

/// The rule of a word that has no rule in it.
fn simple_rule(
    alloc: Global,
    object: &Map<String, Value>,
    word: &str,
) -> Result<Option<Rule>, NoMemory>
    ensures { IfOk result (λ made. made ≡ simple_rule (object_of object.now) word.now) }
{
    if word == "constant" {
        return constant(alloc, object);
    }
    if word == "map" {
        return map(alloc, object);
    }
    if word == "require" {
        return require(alloc, object);
    }
    match needed(alloc, object, "text")? {
        Some(text) => Ok(text_rule(word, text)),
        None => Ok(None),
    }
}

/// The rule of a value that nests at most so many levels deep.
#[cycle(rules)]
fn read_rule(alloc: Global, value: &Value, levels: usize) -> Result<Option<Rule>, NoMemory>
    ensures { IfOk result (λ made. made ≡ rule_of levels (view value.now)) }
{
    if levels == 0 {
        return Ok(None);
    }
    match value.as_object() {
        Some(object) => rule_in(alloc, object, levels - 1),
        None => Ok(None),
    }
}

/// The rule of an object, with rules in it that nest at most so many levels deep.
#[cycle(rules)]
fn rule_in(
    alloc: Global,
    object: &Map<String, Value>,
    below: usize,
) -> Result<Option<Rule>, NoMemory>
    ensures { IfOk result (λ made. made
        ≡ by_word (rule_in (rule_of below)) (codes "rule") (object_of object.now)) }
{
    let Some(word) = word(object, "rule") else {
        return Ok(None);
    };
    if word != "chain" && word != "first" {
        return simple_rule(alloc, object, word);
    }
    match inner_rules(alloc, object, below)? {
        None => Ok(None),
        Some(of) if word == "chain" => Ok(Some(Rule::Chain { of })),
        Some(of) => Ok(Some(Rule::First { of })),
    }
}

/// The rules in a rule.
#[cycle(rules)]
fn inner_rules(
    alloc: Global,
    object: &Map<String, Value>,
    below: usize,
) -> Result<Option<Nested<Rule>>, NoMemory>
    ensures { IfOk result (λ made. made
        ≡ needed (list_of (rule_of below)) (codes "of") (object_of object.now)) }
{
    let Some(value) = member(object, "of") else {
        return Ok(None);
    };
    match value.as_array() {
        Some(values) => each_rule(alloc, values.as_slice(), below),
        None => Ok(None),
    }
}

/// The rule of each of the values.
#[cycle(rules)]
fn each_rule(
    alloc: Global,
    values: &[Value],
    below: usize,
) -> Result<Option<Nested<Rule>>, NoMemory>
    ensures { IfOk result (λ made. made ≡ each_of (rule_of below) (items_view values.now)) }
{
    let mut rules = Nested::new(alloc);
    for value in values {
        let Some(rule) = read_rule(alloc, value, below)? else {
            return Ok(None);
        };
        rules.push(rule)?;
    }
    Ok(Some(rules))
}

impl Part for Rule {
    ghost of = { rule_of 8 };

    fn read_value(alloc: Global, value: &Value) -> Result<Option<Rule>, NoMemory> {
        read_rule(alloc, value, MOST_LEVELS)
    }
}
