//! Laws of tableaus on whole numbers.

ghost use Rattle.integer_tableau.specs.Laws.{SubstitutionsAreExact, SolutionsAreExact, RatiosAreExact, ValuesAreExact, PlacesAreNotCramped};

/// Within 63 bits a pivot's operations on coefficients are never cramped, and give what the numerators say.
pub fn pivots_are_exact()
    ensures substitutions { SubstitutionsAreExact }
    ensures solutions { SolutionsAreExact }
{}

/// So are ratios and values.
pub fn ratios_and_values_are_exact()
    ensures ratios { RatiosAreExact }
    ensures values { ValuesAreExact }
{}

/// No tableau of numbers below `SIZE_LIMIT` is at a place that is cramped.
pub fn places_are_not_cramped()
    ensures { PlacesAreNotCramped }
{}
