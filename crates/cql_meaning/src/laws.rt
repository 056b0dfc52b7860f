//! Laws of filters and of values, each proved for the definitions that the contracts cite. Nothing runs here.

ghost use Rattle.cql_meaning.specs.Laws.{YesExcludesNo, NotExchanges, NotTwiceIsNone, AndNeedsAll, OrNeedsSome};
ghost use Rattle.cql_meaning.specs.Laws.{BetweenIsTwoComparisons, InIsSomeEqual, NullDecidesNothing, IsNullDecides};
ghost use Rattle.cql_meaning.specs.Laws.{FiltersOfOneConditionAgree};

/// No filter is both true and false of a feature.
pub fn yes_excludes_no()
    ensures { YesExcludesNo }
{}

/// NOT exchanges true and false.
pub fn not_exchanges()
    ensures { NotExchanges }
{}

/// NOT of NOT says what the filter inside says: so `NOT (a NOT LIKE p)` is `a LIKE p`.
pub fn not_twice_is_none()
    ensures { NotTwiceIsNone }
{}

/// AND is true if every part is, and false if some part is.
pub fn and_needs_all()
    ensures { AndNeedsAll }
{}

/// OR is true if some part is, and false if every part is.
pub fn or_needs_some()
    ensures { OrNeedsSome }
{}

/// `a BETWEEN b AND c` is `a >= b AND a <= c`.
pub fn between_is_two_comparisons()
    ensures { BetweenIsTwoComparisons }
{}

/// `a IN (b, c)` is `a = b OR a = c`, for each kind of operands and any number of items.
pub fn in_is_some_equal()
    ensures { InIsSomeEqual }
{}

/// A comparison of any kind, LIKE, and an S_ or T_ function with an operand that has no value are neither true nor false.
pub fn null_decides_nothing()
    ensures { NullDecidesNothing }
{}

/// IS NULL is true or false of each feature.
pub fn is_null_decides()
    ensures { IsNullDecides }
{}

/// Filters of one condition are true of the same features and false of the same, no matter where they are in memory.
pub fn filters_of_one_condition_agree()
    ensures { FiltersOfOneConditionAgree }
{}
