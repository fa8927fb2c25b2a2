// What a tableau asks for next.

ghost use Rattle.std.specs.Prelude.{◌≡◌, ◌≢◌, ℕ, ◌+◌, ◌-◌, ◌<◌, ◌≤◌, [], pos, nat_abs, ◌<ℤ◌, length, IfSome, None, slice_index_or};
ghost use Rattle.tableau.specs.Place.{PlaceIsWithin};
ghost use Rattle.integer_tableau.specs.Numbers.{IsWithin};
ghost use Rattle.integer_tableau.specs.Range.{size_limit};
ghost use Rattle.integer_tableau.specs.Combined.{expanded_rows};
ghost use Rattle.integer_tableau.specs.Positions.{AreNonbasic};
ghost use Rattle.integer_tableau.specs.Entering.{entering_by_numerators};
ghost use Rattle.integer_tableau.specs.Place.{place_of_candidate};

use crate::entering::entering;
use crate::integer_bounds::IntegerBounds;
use crate::integer_row::IntegerRow;
use crate::position::Position;
use crate::program_row::ProgramRow;
use tableau::{Direction, Place};

/// The place where a variable with this row leaves.
fn place_by_row(
    leaving: usize,
    direction: Direction,
    positions: &[Position],
    nonbasic: &[usize],
    at_upper: &[bool],
    bounds: &[IntegerBounds],
    reduced_costs: &IntegerRow,
    row: &IntegerRow,
) -> Place
    requires at_upper_there { length at_upper.now ≡ length positions.now }
    requires bounds_there { length bounds.now ≡ length positions.now }
    requires leaving_there { leaving < length positions.now }
    requires nonbasic_are { AreNonbasic positions.now nonbasic.now }
    requires reduced_costs_there { length reduced_costs.now ≡ length nonbasic.now }
    requires row_there { length row.now ≡ length nonbasic.now }
    ensures value { result ≡ place_of_candidate leaving (entering_by_numerators 0 direction None positions.now at_upper.now bounds.now reduced_costs.now row.now) }
    ensures within { PlaceIsWithin (length positions.now) result }
    ensures exact { result ≢ Place.Cramped }
{
    match entering(
        direction,
        nonbasic,
        at_upper,
        bounds,
        reduced_costs.numerators(),
        row.numerators(),
    ) {
        None => Place::NoColumn { row: leaving },
        Some(best) => Place::Pivot {
            row: leaving,
            column: best.variable,
        },
    }
}

/// The place where this variable leaves; none where it isn't basic, or its row isn't kept and no memory is left for it. A row that isn't kept is put into
/// `room`.
pub(crate) fn place_where_leaving(
    leaving: usize,
    direction: Direction,
    program_rows: &[ProgramRow],
    positions: &[Position],
    nonbasic: &[usize],
    at_upper: &[bool],
    bounds: &[IntegerBounds],
    rows: &[IntegerRow],
    room: &mut IntegerRow,
    reduced_costs: &IntegerRow,
    denominator: i64,
) -> Option<Place>
    requires at_upper_there { length at_upper.now ≡ length positions.now }
    requires bounds_there { length bounds.now ≡ length positions.now }
    requires positions_there { length positions.now ≡ length rows.now + length program_rows.now }
    requires leaving_there { leaving < length positions.now }
    requires full { (i : ℕ) → i < length program_rows.now → length (slice_index_or program_rows.now i []) ≡ length rows.now }
    requires positive { pos 0 <ℤ denominator }
    requires nonbasic_are { AreNonbasic positions.now nonbasic.now }
    requires reduced_costs_there { length reduced_costs.now ≡ length nonbasic.now }
    requires rows_there { length rows.now ≡ length nonbasic.now }
    requires width { slice_index_or positions.now leaving Position.InBasis ≡ Position.InBasis → length (slice_index_or (expanded_rows (nat_abs denominator) program_rows.now positions.now rows.now) leaving []) ≡ length nonbasic.now }
    requires small { IsWithin (size_limit - 1) (slice_index_or (expanded_rows (nat_abs denominator) program_rows.now positions.now rows.now) leaving []) }
    ensures value { IfSome result (λ p. p ≡ place_of_candidate leaving (entering_by_numerators 0 direction None positions.now at_upper.now bounds.now reduced_costs.now (slice_index_or (expanded_rows (nat_abs denominator) program_rows.now positions.now rows.now) leaving []))) }
    ensures within { IfSome result (λ p. PlaceIsWithin (length positions.now) p) }
    ensures exact { IfSome result (λ p. p ≢ Place.Cramped) }
    ensures row { IfSome result (λ p. length rows.now ≤ leaving → room.new ≡ slice_index_or (expanded_rows (nat_abs denominator) program_rows.now positions.now rows.now) leaving []) }
{
    let Position::InBasis = positions[leaving] else {
        return None;
    };
    let columns = rows.len();
    if leaving < columns {
        return Some(place_by_row(
            leaving,
            direction,
            positions,
            nonbasic,
            at_upper,
            bounds,
            reduced_costs,
            &rows[leaving],
        ));
    }
    if !room.combine_small(
        &program_rows[leaving - columns],
        positions,
        rows,
        denominator,
    ) {
        return None;
    }
    Some(place_by_row(
        leaving,
        direction,
        positions,
        nonbasic,
        at_upper,
        bounds,
        reduced_costs,
        room,
    ))
}
