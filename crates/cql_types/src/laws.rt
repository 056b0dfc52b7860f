//! What holds of kinds and faults, beyond what the call says.

ghost use Rattle.std.specs.Prelude.{◌≡◌, ℕ, List};
ghost use Rattle.cad_schema.specs.Attributes.{Named};
ghost use Rattle.cql_tree.specs.Syntax.{Syntax};
ghost use Rattle.cql_types.specs.Kinds.{Kind, Has, IsWrong};
ghost use Rattle.cql_tree.specs.Order.{InOrder};
ghost use Rattle.cql_types.specs.Laws.{HasConditionOrFault, HasFaultOrCondition, HasFiltersOfConditions, HasOneFilter, HasOneLeastFault};
ghost use Rattle.cql_types.specs.declared.fault.Fault.{Fault};

/// A tree has at most one kind; TRUE and FALSE have a kind of their own, which fits a flag and a condition.
pub fn tree_has_one_kind()
    ensures { (s : List Named) (t : Syntax) (k l : Kind) → Has s t k → Has s t l → k ≡ l }
{}

/// A tree with a kind has no fault.
pub fn kind_excludes_faults()
    ensures { (s : List Named) (t : Syntax) (k : Kind) (f : Fault) → Has s t k → ¬ IsWrong s t f }
{}

/// A tree without a fault cannot be without a kind.
pub fn faultless_tree_has_a_kind()
    ensures { (s : List Named) (t : Syntax) → ((f : Fault) → ¬ IsWrong s t f) → ¬ ¬ ((k : Kind) × Has s t k) }
{}

/// At one place at most one thing is wrong.
pub fn one_place_has_one_cause()
    ensures { (s : List Named) (t : Syntax) (f g : Fault) (from to : ℕ) → InOrder from t to → IsWrong s t f → IsWrong s t g → f.place ≡ g.place → f ≡ g }
{}

/// A condition has no fault.
pub fn fault_or_condition()
    ensures { HasFaultOrCondition }
{}

/// For a tree whose places ascend it is impossible that neither holds: it is a condition, or has a fault with the least place.
pub fn condition_or_fault()
    ensures { HasConditionOrFault }
{}

/// Only one fault has the least place.
pub fn one_least_fault()
    ensures { HasOneLeastFault }
{}

/// A tree means a filter only if the tree is a condition, and then it has no fault.
pub fn filters_are_of_conditions()
    ensures { HasFiltersOfConditions }
{}

/// A tree means at most one filter, apart from its place in memory.
pub fn tree_has_one_filter()
    ensures { HasOneFilter }
{}
