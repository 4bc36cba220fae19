//! What is known of the text without a line, and of values without a fault: laws that compute nothing.

ghost use Rattle.std.specs.Prelude.{◌≡◌, [], Err, None, is_some, true};
ghost use Rattle.serde_json.specs.Data.{Data};
ghost use Rattle.ely_config_tree.specs.Tree.{tree_fault};
ghost use Rattle.ely_config_json.specs.Members.{members_of};
ghost use Rattle.ely_config_text.specs.declared.fault.TextFault.TheVariants.{NotJson};
ghost use Rattle.ely_config_text.specs.Texts.{config_in};

/// The empty line is no JSON. It is the first line of an input without a line.
#[tactic(auto, using(crate::proofs::Empty::empty_is_no_json))]
pub fn the_empty_line_is_no_json()
    ensures { config_in [] ≡ Err NotJson }
{}

/// Of a value without a fault in its tree members can be built.
#[tactic(auto, using(crate::proofs::Whole::members_has))]
pub fn faultless_trees_have_members()
    ensures { (value : Data) → tree_fault value ≡ None → is_some (members_of value) ≡ true }
{}
