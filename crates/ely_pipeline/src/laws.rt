//! What rules give, form by form, and where the first place of a text is: laws that compute nothing.

ghost use Rattle.std.specs.Prelude.{◌≡◌, ◌≢◌, ℕ, ◌+◌, ◌≤◌, ◌&&◌, false, List, ◌++◌, length, take, drop, map, Some, None, option_and_then};
ghost use Rattle.std.specs.List.{list_all};
ghost use Rattle.ely_pipeline.specs.declared.rule.Rule.{Rule};
ghost use Rattle.ely_pipeline.specs.declared.rule.Rule.TheVariants.{Constant, AddPrefix, AddSuffix, StripPrefix, StripSuffix, Before, After, Map, Require, Chain, First};
ghost use Rattle.ely_pipeline.specs.Cuts.{first_place, part_before, part_after, without_prefix, without_suffix};
ghost use Rattle.ely_pipeline.specs.Rules.{named, target_of, listed_in, in_turn, first_given, apply};
ghost use Rattle.ely_pipeline.specs.Bounds.{length_fits, fits_within};

/// What a rule gives of a name, form by form.
pub fn rules_by_their_forms()
    ensures constant { (to name : List ℕ) → apply (Constant to) name ≡ Some to }
    ensures prefix { (text name : List ℕ) → apply (AddPrefix text) name ≡ named (text ++ name) }
    ensures suffix { (text name : List ℕ) → apply (AddSuffix text) name ≡ named (name ++ text) }
    ensures strip_prefix { (text name : List ℕ)
        → apply (StripPrefix text) name ≡ option_and_then named (without_prefix text name) }
    ensures strip_suffix { (text name : List ℕ)
        → apply (StripSuffix text) name ≡ option_and_then named (without_suffix text name) }
    ensures before { (text name : List ℕ)
        → apply (Before text) name ≡ option_and_then named (part_before text name) }
    ensures after { (text name : List ℕ)
        → apply (After text) name ≡ option_and_then named (part_after text name) }
    ensures mapped { (pairs : List (List ℕ × List ℕ)) (name : List ℕ)
        → apply (Map pairs) name ≡ target_of name pairs }
    ensures required { (names : List (List ℕ)) (name : List ℕ)
        → apply (Require names) name ≡ listed_in names name }
    ensures chain { (rules : List Rule) (name : List ℕ)
        → apply (Chain rules) name ≡ in_turn (map apply rules) name }
    ensures first { (rules : List Rule) (name : List ℕ)
        → apply (First rules) name ≡ first_given (map apply rules) name }
{}

/// Rules in a chain or in a choice have one level less than it, and where no level is left nothing fits.
pub fn bounds_by_their_forms()
    ensures none { (rule : Rule) → fits_within rule 0 ≡ false }
    ensures chain { (rules : List Rule) (left : ℕ) → fits_within (Chain rules) (left + 1)
        ≡ (length_fits rules && list_all (λ rule. fits_within rule left) rules) }
    ensures first { (rules : List Rule) (left : ℕ) → fits_within (First rules) (left + 1)
        ≡ (length_fits rules && list_all (λ rule. fits_within rule left) rules) }
{}

/// The first place of a text in a name: the text stands there, it stands at no smaller place, and where there is none it stands
/// nowhere.
pub fn first_place_is_first()
    ensures there { (text name : List ℕ) (place : ℕ) → first_place text name ≡ Some place
        → name ≡ take place name ++ text ++ drop (place + length text) name }
    ensures first { (text name front back : List ℕ) (place : ℕ) → first_place text name ≡ Some place
        → name ≡ front ++ text ++ back → place ≤ length front }
    ensures nowhere { (text name front back : List ℕ) → first_place text name ≡ None
        → name ≢ front ++ text ++ back }
{}
