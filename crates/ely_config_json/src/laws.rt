//! What the members of a JSON value are worth: laws that compute nothing.

ghost use Rattle.std.specs.Prelude.{◌≡◌, Some, true};
ghost use Rattle.serde_json.specs.Data.{Data, no_members, object};
ghost use Rattle.ely_config.specs.declared.members.Members.{Members};
ghost use Rattle.ely_config.specs.Configs.{knows, plain_config};
ghost use Rattle.ely_config_json.specs.Members.{members_of};

/// An object that says nothing stands for what holds where nothing is said.
pub fn an_empty_object_is_plain()
    ensures { members_of (object no_members) ≡ Some plain_config }
{}

/// The realms that the pipeline of a value knows are the realms of the value by their names, in the same order.
pub fn the_pipeline_knows_the_realms()
    ensures { (value : Data) (members : Members) → members_of value ≡ Some members
        → knows members.pipeline members.realms ≡ true }
{}
