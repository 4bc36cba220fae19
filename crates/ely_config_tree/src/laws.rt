//! What the table and the order of the tests say, in the words of who reads a configuration: laws that compute nothing.

ghost use Rattle.std.specs.Prelude.{◌≡◌, ◌≤◌, ◌+◌, ℕ, List, true, map, None, Some, is_some};
ghost use Rattle.std.specs.Cmp.Lexicographic.{slice_cmp};
ghost use Rattle.std.specs.List.{AllByRecursion};
ghost use Rattle.std.specs.List.Sorted.{IsStrictlySortedBy};
ghost use Rattle.std.specs.Ordering.{nat_cmp};
ghost use Rattle.serde_json.specs.Data.{Data, Items, Members, array, item, object};
ghost use Rattle.serde_json.specs.Events.{items_len};
ghost use Rattle.serde_json.specs.Find.{get_member};
ghost use Rattle.ely_config_tree.specs.declared.shape.Form.TheVariants as form;
ghost use Rattle.ely_config_tree.specs.declared.shape.ListForm.{ListForm};
ghost use Rattle.ely_config_tree.specs.declared.shape.Shape.{Shape as shape};
ghost use Rattle.ely_config_tree.specs.Leaves.{leaf_fault};
ghost use Rattle.ely_config_tree.specs.Shapes.{form_of};
ghost use Rattle.ely_config_tree.specs.Table.{members_of, required_in, discriminator_of};
ghost use Rattle.ely_config_tree.specs.Tree.{fault, items_fault, list_fault, member_shape, object_fault, word_of};

/// In the table the members of an object stand in the order of their names' bytes, and no two have one name.
pub fn members_stand_in_order()
    ensures { (s : shape) (word : List ℕ)
        → IsStrictlySortedBy (slice_cmp nat_cmp) (map (λ m. m.name) (members_of s word)) }
{}

/// A value without a fault has the JSON type that its shape asks for.
pub fn faultless_values()
    ensures leaf { (s : shape) (d : Data) → form_of s ≡ form.Leaf → fault s d ≡ None
        → leaf_fault s d ≡ None }
    ensures array { (s : shape) (l : ListForm) (d : Data) → form_of s ≡ form.List l
        → fault s d ≡ None → (ds : Items) × (d ≡ array ds) × (list_fault l ds ≡ None) }
    ensures object { (s : shape) (d : Data) → form_of s ≡ form.Object → fault s d ≡ None
        → (ms : Members) × (d ≡ object ms) × (object_fault s ms ≡ None) }
{}

/// An array without a fault has a length that is allowed, and none of its items has a fault.
pub fn faultless_arrays()
    ensures least { (l : ListForm) (ds : Items) → list_fault l ds ≡ None → l.least ≤ items_len ds }
    ensures most { (l : ListForm) (ds : Items) → list_fault l ds ≡ None → items_len ds ≤ l.most }
    ensures items { (l : ListForm) (ds : Items) → list_fault l ds ≡ None
        → items_fault l.first l.later 0 ds ≡ None }
    ensures first { (first later : shape) (i : ℕ) (d : Data) (ds : Items)
        → items_fault first later i (item d ds) ≡ None → fault first d ≡ None }
    ensures later { (first later : shape) (i : ℕ) (d : Data) (ds : Items)
        → items_fault first later i (item d ds) ≡ None → items_fault later later (i + 1) ds ≡ None }
{}

/// An object without a fault has its discriminator, where its shape has one, and each other member that it must have; all its
/// members are known and have no fault.
pub fn faultless_objects()
    ensures discriminator { (s : shape) (ms : Members) (name : List ℕ) (word : shape)
        → object_fault s ms ≡ None → discriminator_of s ≡ Some (name, word)
        → (d : Data) × (get_member name ms ≡ Some d) × (leaf_fault word d ≡ None) }
    ensures present { (s : shape) (ms : Members) → object_fault s ms ≡ None
        → AllByRecursion (λ name. is_some (get_member name ms) ≡ true)
        (required_in (members_of s (word_of (discriminator_of s) ms))) }
    ensures known { (s : shape) (ms : Members) (name : List ℕ) (d : Data)
        → object_fault s ms ≡ None → get_member name ms ≡ Some d
        → (t : shape) × (member_shape s (word_of (discriminator_of s) ms) name ≡ Some t) × (fault t d ≡ None) }
{}
