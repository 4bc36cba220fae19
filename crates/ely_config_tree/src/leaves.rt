//! The faults of values whose parts aren't looked at.

ghost use Rattle.std.specs.Prelude.{◌≡◌, IfOk, length, Some, None};
ghost use Rattle.serde_json.specs.View.{view};
ghost use Rattle.ely_base.specs.Texts.{base64_of};
ghost use Rattle.ely_config_tree.specs.Leaves.{deep_fault, flag_fault, is_among, is_between, is_digest_realm, is_name, is_salt, leaf_fault, meets, number_fault, range_fault, text_fault};
ghost use Rattle.ely_config_tree.specs.Table.{words_of};

use crate::shape::Shape;
use crate::step::FaultKind;
use ely_base::{NoMemory, Refused, are_printable_but, name_fault, read_base64};
use serde_json::Value;
use std::alloc::Global;

/// A range that is met, or not.
fn range_fault(met: bool) -> Option<FaultKind>
    ensures { result ≡ range_fault met }
{
    if met { None } else { Some(FaultKind::Range) }
}

/// Whether the text is a name.
fn is_name(text: &str) -> bool
    ensures { result ≡ is_name text.now }
{
    name_fault(text.as_bytes()).is_none()
}

/// Whether the text is 1 to 255 printable bytes without the quote and the backslash.
fn is_digest_realm(text: &str) -> bool
    ensures { result ≡ is_digest_realm text.now }
{
    has_length(text, 1, 255) && are_printable_but(b"\"\\", text.as_bytes())
}

/// Whether the number is in the range.
pub(crate) fn is_between(least: usize, most: usize, number: usize) -> bool
    ensures { result ≡ is_between least most number }
{
    least <= number && number <= most
}

/// Whether the length of the text is in the range.
fn has_length(text: &str, least: usize, most: usize) -> bool
    ensures { result ≡ is_between least most (length text.now) }
{
    is_between(least, most, text.len())
}

/// Whether the text is base64 of 1 to 64 bytes.
fn is_salt(alloc: Global, text: &str) -> Result<bool, NoMemory>
    ensures { IfOk result (λ met. met ≡ is_salt (base64_of text.now)) }
{
    match read_base64(alloc, text.as_bytes()) {
        Ok(salt) => {
            let len = salt.bytes().len();
            Ok(1 <= len && len <= 64)
        }
        Err(Refused::Fault(_)) => Ok(false),
        Err(Refused::NoMemory) => Err(NoMemory),
    }
}

/// Whether the text is the kind of a realm.
fn is_kind_word(text: &str) -> bool
    ensures { result ≡ is_among (words_of Shape.KindWord) text.now }
{
    text == "modifiable" || text == "properties" || text == "aggregate" || text == "caching"
}

/// Whether the text is the word of a rule.
fn is_rule_word(text: &str) -> bool
    ensures { result ≡ is_among (words_of Shape.RuleWord) text.now }
{
    text == "constant"
        || text == "add-prefix"
        || text == "add-suffix"
        || text == "strip-prefix"
        || text == "strip-suffix"
        || text == "before"
        || text == "after"
        || text == "map"
        || text == "require"
        || text == "chain"
        || text == "first"
}

/// Whether the text is the word of a realm mapper.
fn is_realm_mapper_word(text: &str) -> bool
    ensures { result ≡ is_among (words_of Shape.RealmMapperWord) text.now }
{
    text == "constant" || text == "map-after" || text == "take-after"
}

/// Whether the text is the word of a role mapper.
fn is_role_mapper_word(text: &str) -> bool
    ensures { result ≡ is_among (words_of Shape.RoleMapperWord) text.now }
{
    text == "constant"
        || text == "add-prefix"
        || text == "add-suffix"
        || text == "aggregate"
        || text == "logical"
        || text == "mapped"
}

/// Whether the text is a mode of the permissions.
fn is_mode_word(text: &str) -> bool
    ensures { result ≡ is_among (words_of Shape.ModeWord) text.now }
{
    text == "first" || text == "and" || text == "or" || text == "xor" || text == "unless"
}

/// Whether the text is an operation of a logical role mapper.
fn is_op_word(text: &str) -> bool
    ensures { result ≡ is_among (words_of Shape.OpWord) text.now }
{
    text == "and" || text == "or" || text == "minus" || text == "xor"
}

/// The fault of a whole number in a range.
fn number_fault(value: &Value, least: u64, most: u64) -> Option<FaultKind>
    ensures { result ≡ number_fault least most (view value.now) }
{
    match value.as_u64() {
        Some(number) => range_fault(least <= number && number <= most),
        None => {
            if value.is_i64() {
                Some(FaultKind::Range)
            } else {
                Some(FaultKind::Kind)
            }
        }
    }
}

/// The fault of a truth value.
fn flag_fault(value: &Value) -> Option<FaultKind>
    ensures { result ≡ flag_fault (view value.now) }
{
    match value.as_bool() {
        Some(_) => None,
        None => Some(FaultKind::Kind),
    }
}

/// The fault of a value for which no level is left.
fn deep_fault(value: &Value) -> Option<FaultKind>
    ensures { result ≡ deep_fault (view value.now) }
{
    match value.as_object() {
        Some(_) => Some(FaultKind::Range),
        None => Some(FaultKind::Kind),
    }
}

/// Whether the text is what the shape asks for.
fn meets(alloc: Global, shape: Shape, text: &str) -> Result<bool, NoMemory>
    ensures { IfOk result (λ met. met ≡ meets shape text.now) }
{
    match shape {
        Shape::Name => Ok(is_name(text)),
        Shape::AnyText => Ok(true),
        Shape::Text { least, most } => Ok(has_length(text, least, most)),
        Shape::DigestRealm => Ok(is_digest_realm(text)),
        Shape::Salt => is_salt(alloc, text),
        Shape::KindWord => Ok(is_kind_word(text)),
        Shape::RuleWord => Ok(is_rule_word(text)),
        Shape::RealmMapperWord => Ok(is_realm_mapper_word(text)),
        Shape::RoleMapperWord => Ok(is_role_mapper_word(text)),
        Shape::ModeWord => Ok(is_mode_word(text)),
        Shape::OpWord => Ok(is_op_word(text)),
        _ => Ok(false),
    }
}

/// The fault of a text.
fn text_fault(alloc: Global, shape: Shape, value: &Value) -> Result<Option<FaultKind>, NoMemory>
    ensures { IfOk result (λ kind. kind ≡ text_fault shape (view value.now)) }
{
    let Some(text) = value.as_str() else {
        return Ok(Some(FaultKind::Kind));
    };
    Ok(range_fault(meets(alloc, shape, text)?))
}

/// The fault of a value whose parts aren't looked at. Want of memory comes at a salt alone.
pub(crate) fn leaf_fault(
    alloc: Global,
    shape: Shape,
    value: &Value,
) -> Result<Option<FaultKind>, NoMemory>
    ensures { IfOk result (λ kind. kind ≡ leaf_fault shape (view value.now)) }
{
    match shape {
        Shape::Rule(_) | Shape::RoleMapper(_) => Ok(deep_fault(value)),
        Shape::Number { least, most } => Ok(number_fault(value, least, most)),
        Shape::Flag => Ok(flag_fault(value)),
        Shape::Name
        | Shape::AnyText
        | Shape::Text { .. }
        | Shape::DigestRealm
        | Shape::Salt
        | Shape::KindWord
        | Shape::RuleWord
        | Shape::RealmMapperWord
        | Shape::RoleMapperWord
        | Shape::ModeWord
        | Shape::OpWord => text_fault(alloc, shape, value),
        _ => Ok(Some(FaultKind::Kind)),
    }
}
