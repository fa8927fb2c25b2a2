// Who enters where a variable leaves, whatever the bounds are.

ghost use Rattle.std.specs.Prelude.{◌≡◌, ◌<◌, ◌≤◌, ◌+◌, ◌-◌, ◌++◌, ◌⊎◌, ℕ, ℤ, List, false, length, map, slice_index_or, slice_range, take, true, All, IfNone, IfOk, IfSome, None, OnOk, Some};
ghost use Rattle.integer_tableau.specs.Entering.{entering_by_numerators};
ghost use Rattle.integer_tableau.specs.Exits.{AreEdgesTo, are_free, candidate_by, edge_at, edge_enters};
ghost use Rattle.integer_tableau.specs.Kept.{AreKept, HaveSameDictionaries, IsTaken, KeptDictionary, Leads, edges_of, exit_at, exits_of, kept_at, row_in};
ghost use Rattle.integer_tableau.specs.RankedColumns.{edge_of};
ghost use Rattle.integer_tableau.specs.declared.integer_bounds.IntegerBounds.{IntegerBounds};
ghost use Rattle.std.specs.List.{Any, position, position_or_len};

use crate::basic_solution::BasicSolution;
use crate::column_ranking::rank_to_best;
use crate::dictionary::{Dictionaries, Dictionary};
use crate::entering::{Candidate, enters};
use crate::position::Position;
use crate::ranked_column::RankedColumn;
use std::alloc::{AllocError, Global};
use tableau::Direction;

/// A variable that may enter where another one leaves. Whether it does is a matter of the bounds at which a solution's variables are.
#[derive(Clone, Copy)]
pub(crate) struct Edge {
    /// The place of the dictionary from which it leads.
    pub(crate) from: usize,
    pub(crate) leaving: usize,
    pub(crate) entering: usize,
    /// The entering variable's column.
    pub(crate) column: usize,
    /// The numerator of its coefficient in the leaving row, which isn't 0.
    pub(crate) coefficient: i64,
    /// The place of the dictionary behind, 0 where it isn't known. That at the start, which has this place, is never noted.
    pub(crate) target: usize,
}

/// What is noted of a variable that leaves: edges, by rising ratio, and by rising number where ratios are the same. They are as many as were asked for so
/// far: few are. Those of both directions stand together (docs/DECISIONS.md, entry 94).
#[derive(Clone, Copy)]
pub(crate) struct Exit {
    /// The place of its dictionary.
    pub(crate) from: usize,
    pub(crate) variable: usize,
    /// Where its edges begin.
    pub(crate) first: usize,
    /// How many they are.
    pub(crate) count: usize,
}

/// The candidate that the last edge's variable is, none where there is no edge.
fn last_candidate(reduced_costs: &[i64], edges: &[Edge]) -> Option<Candidate>
    requires { (p : ℕ) → p < length edges.now → (edge_at edges.now p).column < length reduced_costs.now }
    ensures none { IfNone result (length edges.now ≡ 0) }
    ensures some { IfSome result (λ c. (0 < length edges.now) × (c ≡ candidate_by reduced_costs.now (edge_at edges.now (length edges.now - 1)))) }
{
    if edges.is_empty() {
        return None;
    }
    let edge = &edges[edges.len() - 1];
    Some(Candidate {
        variable: edge.entering,
        reduced_cost: reduced_costs[edge.column].unsigned_abs(),
        coefficient: edge.coefficient.unsigned_abs(),
    })
}

/// Puts the edges of columns behind the others. The one error is want of memory.
fn push_edges(
    edges: &mut Vec<Edge>,
    columns: &[RankedColumn],
    from: usize,
    leaving: usize,
) -> Result<(), AllocError>
    ensures pushed { OnOk result (edges.new.items ≡ edges.old.items ++ map (edge_of from leaving) columns.now) }
    ensures more { (n : ℕ) × (edges.new.items ≡ edges.old.items ++ map (edge_of from leaving) (take n columns.now)) }
{
    for ranked in columns {
        edges.push(Edge {
            from,
            leaving,
            entering: ranked.variable,
            column: ranked.column,
            coefficient: ranked.coefficient,
            target: 0,
        })?;
    }
    Ok(())
}

/// The first of these edges whose variable may enter; how many they are, where none may. Few are looked at.
#[inline(always)]
fn first_that_enters(
    edges: &[Edge],
    direction: Direction,
    at_upper: &[bool],
    free: &[bool],
) -> usize
    requires at_upper_there { (p : ℕ) → p < length edges.now → (edge_at edges.now p).entering < length at_upper.now }
    requires free_there { length free.now ≡ length at_upper.now }
    ensures { (bounds : List IntegerBounds) → free.now ≡ are_free bounds → result ≡ position_or_len (edge_enters direction at_upper.now bounds) edges.now }
{
    for (index, edge) in edges.iter().enumerate() {
        let v = edge.entering;
        if enters(direction, at_upper[v], free[v], edge.coefficient) {
            return index;
        }
    }
    edges.len()
}

/// Puts some elements of a list, which stand one behind another, behind all others, where they don't stand there already. The answer is where they begin. The
/// one error is want of memory.
fn move_to_end<T: Copy>(list: &mut Vec<T>, first: usize, count: usize) -> Result<usize, AllocError>
    requires there { first + count ≤ length list.old.items }
    requires clones { (x y : T) → T.is_clone x y → y ≡ x }
    ensures begin { IfOk result (λ f. f + count ≡ length list.new.items) }
    ensures same { IfOk result (λ f. slice_range list.new.items f (f + count) ≡ slice_range list.old.items first (first + count)) }
    ensures pushed { (list.new.items ≡ list.old.items) ⊎ (list.new.items ≡ list.old.items ++ slice_range list.old.items first (first + count)) }
{
    let end = list.len();
    if first + count == end {
        return Ok(first);
    }
    list.extend_from_within(first..first + count)?;
    Ok(end)
}

/// Puts the edges of further columns behind those of an exit, which stand behind all others then. The answer is the exit with them. The one error is want of
/// memory.
fn lengthen(
    edges: &mut Vec<Edge>,
    noted: Exit,
    columns: &[RankedColumn],
) -> Result<Exit, AllocError>
    requires { noted.first + noted.count ≤ length edges.old.items }
    ensures stay { (more : List Edge) × (edges.new.items ≡ edges.old.items ++ more) × ((ds : List KeptDictionary) → All (Leads ds) edges.old.items → All (Leads ds) more) }
    ensures exit { IfOk result (λ x. (x.from ≡ noted.from) × (x.variable ≡ noted.variable) × (x.first + x.count ≡ length edges.new.items)) }
    ensures edges { IfOk result (λ x. edges_of edges.new.items x ≡ edges_of edges.old.items noted ++ map (edge_of noted.from noted.variable) columns.now) }
{
    let first = move_to_end(edges, noted.first, noted.count)?;
    push_edges(edges, columns, noted.from, noted.variable)?;
    Ok(Exit {
        from: noted.from,
        variable: noted.variable,
        first,
        count: noted.count + columns.len(),
    })
}

impl Dictionaries {
    /// The place of the exit of a variable of a dictionary, if there is one.
    #[inline(always)]
    fn exit_of(&self, place: usize, variable: usize) -> Option<usize>
        requires there { place < length self.now.all }
        requires exits { (kept_at self.now.all place).first_exit + (kept_at self.now.all place).exits ≤ length self.now.exits }
        ensures place { IfSome result (λ x. (x < length self.now.exits) × Any (λ (e : Exit). e ≡ exit_at self.now.exits x) (exits_of self.now.exits (kept_at self.now.all place))) }
        ensures variable { IfSome result (λ x. (exit_at self.now.exits x).variable ≡ variable) }
    {
        let own = &self.all[place];
        for exit in own.first_exit..own.first_exit + own.exits {
            if self.exits[exit].variable == variable {
                return Some(exit);
            }
        }
        None
    }

    /// The place of the exit of a basic variable of a dictionary, which is put in now where there is none yet. The one error is want of memory.
    #[inline(always)]
    pub(crate) fn exit(&mut self, place: usize, variable: usize) -> Result<usize, AllocError>
        requires kept { (ps : List (List ℤ)) × (weight : ℕ) × (costs : List ℤ) × AreKept ps weight costs self.old }
        requires there { place < length self.old.all }
        requires variable_there { variable < length (kept_at self.old.all place).positions }
        requires basic { slice_index_or (kept_at self.old.all place).positions variable Position.InBasis ≡ Position.InBasis }
        ensures same { HaveSameDictionaries self.new self.old }
        ensures kept { (ps : List (List ℤ)) (weight : ℕ) (costs : List ℤ) → AreKept ps weight costs self.old → AreKept ps weight costs self.new }
        ensures exit { IfOk result (λ x. (x < length self.new.exits) × ((exit_at self.new.exits x).from ≡ place) × ((exit_at self.new.exits x).variable ≡ variable)) }
    {
        match self.exit_of(place, variable) {
            Some(exit) => Ok(exit),
            None => self.push_exit(place, variable),
        }
    }

    /// Puts an exit of which no edge is noted yet in. The answer is its place. The one error is want of memory.
    fn push_exit(&mut self, place: usize, variable: usize) -> Result<usize, AllocError>
        requires kept { (ps : List (List ℤ)) × (weight : ℕ) × (costs : List ℤ) × AreKept ps weight costs self.old }
        requires there { place < length self.old.all }
        requires variable_there { variable < length (kept_at self.old.all place).positions }
        requires basic { slice_index_or (kept_at self.old.all place).positions variable Position.InBasis ≡ Position.InBasis }
        ensures same { HaveSameDictionaries self.new self.old }
        ensures kept { (ps : List (List ℤ)) (weight : ℕ) (costs : List ℤ) → AreKept ps weight costs self.old → AreKept ps weight costs self.new }
        ensures exit { IfOk result (λ x. (x < length self.new.exits) × ((exit_at self.new.exits x).from ≡ place) × ((exit_at self.new.exits x).variable ≡ variable)) }
    {
        let own = self.all[place];
        let first = move_to_end(&mut self.exits, own.first_exit, own.exits)?;
        let exit = self.exits.len();
        self.exits.push(Exit {
            from: place,
            variable,
            first: 0,
            count: 0,
        })?;
        self.all[place] = Dictionary {
            first_exit: first,
            exits: own.exits + 1,
            ..own
        };
        Ok(exit)
    }

    /// The place of the first edge of an exit whose variable may enter at a solution, none where none of those that are noted may.
    #[inline(always)]
    pub(crate) fn edge_of(
        &self,
        solution: &BasicSolution,
        direction: Direction,
        exit: usize,
    ) -> Option<usize>
        requires there { exit < length self.now.exits }
        requires within { (exit_at self.now.exits exit).first + (exit_at self.now.exits exit).count ≤ length self.now.edges }
        requires at_upper_there { All (λ (e : Edge). e.entering < length solution.now.at_upper.items) (edges_of self.now.edges (exit_at self.now.exits exit)) }
        requires bounds_there { length solution.now.bounds.items ≡ length solution.now.at_upper.items }
        requires free { solution.now.free.items ≡ are_free solution.now.bounds.items }
        ensures none { IfNone result (All (λ (e : Edge). edge_enters direction solution.now.at_upper.items solution.now.bounds.items e ≡ false) (edges_of self.now.edges (exit_at self.now.exits exit))) }
        ensures some { IfSome result (λ p. (i : ℕ) × (position (edge_enters direction solution.now.at_upper.items solution.now.bounds.items) (edges_of self.now.edges (exit_at self.now.exits exit)) ≡ Some i) × (p ≡ (exit_at self.now.exits exit).first + i) × (p < length self.now.edges)) }
    {
        let own = &self.exits[exit];
        let edges = &self.edges[own.first..own.first + own.count];
        let index = first_that_enters(edges, direction, &solution.at_upper, &solution.free);
        if index < own.count {
            Some(own.first + index)
        } else {
            None
        }
    }

    /// Makes the list that of the columns whose edges are wanting among those of an exit with this row, in their order, up to that of the variable that
    /// enters, where none of those that are noted may. Whether any may. The one error is want of memory.
    fn rank_further(
        &self,
        columns: &mut Vec<RankedColumn>,
        place: usize,
        solution: &BasicSolution,
        direction: Direction,
        exit: usize,
        row: &[i64],
    ) -> Result<bool, AllocError>
        requires kept { (ps : List (List ℤ)) × (weight : ℕ) × (costs : List ℤ) × AreKept ps weight costs self.now × (row.now ≡ row_in ps (kept_at self.now.all place) (exit_at self.now.exits exit).variable) }
        requires place_there { place < length self.now.all }
        requires there { exit < length self.now.exits }
        requires from { (exit_at self.now.exits exit).from ≡ place }
        requires at_upper_there { length solution.now.at_upper.items ≡ length (kept_at self.now.all place).positions }
        requires bounds_there { length solution.now.bounds.items ≡ length solution.now.at_upper.items }
        requires none { All (λ (e : Edge). edge_enters direction solution.now.at_upper.items solution.now.bounds.items e ≡ false) (edges_of self.now.edges (exit_at self.now.exits exit)) }
        ensures none { IfOk result (λ b. b ≡ false → entering_by_numerators 0 direction None (kept_at self.now.all place).positions solution.now.at_upper.items solution.now.bounds.items (kept_at self.now.all place).reduced_costs row.now ≡ None) }
        ensures some { IfOk result (λ b. b ≡ true → (best : Candidate) × (entering_by_numerators 0 direction None (kept_at self.now.all place).positions solution.now.at_upper.items solution.now.bounds.items (kept_at self.now.all place).reduced_costs row.now ≡ Some best) × AreEdgesTo (kept_at self.now.all place).nonbasic (kept_at self.now.all place).reduced_costs row.now best (edges_of self.now.edges (exit_at self.now.exits exit) ++ map (edge_of place (exit_at self.now.exits exit).variable) columns.new.items)) }
    {
        let costs = self.reduced_costs(place);
        let nonbasic = self.nonbasic(place);
        let noted = &self.exits[exit];
        let edges = &self.edges[noted.first..noted.first + noted.count];
        let last = last_candidate(costs, edges);
        if !rank_to_best(
            columns,
            direction,
            nonbasic,
            &solution.at_upper,
            &solution.bounds,
            costs,
            row,
            last,
        )? {
            return Ok(false);
        }
        columns.sort_unstable();
        Ok(true)
    }

    /// Notes further edges of an exit with this row, up to that of the variable that enters, where none of those that are noted may. The answer is the place of
    /// that edge, none where the variable can't leave. The one error is want of memory.
    pub(crate) fn further_edge(
        &mut self,
        columns: &mut Vec<RankedColumn>,
        place: usize,
        solution: &BasicSolution,
        direction: Direction,
        exit: usize,
        row: &[i64],
    ) -> Result<Option<usize>, AllocError>
        requires kept { (ps : List (List ℤ)) × (weight : ℕ) × (costs : List ℤ) × AreKept ps weight costs self.old × (row.now ≡ row_in ps (kept_at self.old.all place) (exit_at self.old.exits exit).variable) }
        requires place_there { place < length self.old.all }
        requires there { exit < length self.old.exits }
        requires from { (exit_at self.old.exits exit).from ≡ place }
        requires at_upper_there { length solution.now.at_upper.items ≡ length (kept_at self.old.all place).positions }
        requires bounds_there { length solution.now.bounds.items ≡ length solution.now.at_upper.items }
        requires none { All (λ (e : Edge). edge_enters direction solution.now.at_upper.items solution.now.bounds.items e ≡ false) (edges_of self.old.edges (exit_at self.old.exits exit)) }
        ensures same { HaveSameDictionaries self.new self.old }
        ensures kept { (ps : List (List ℤ)) (weight : ℕ) (costs : List ℤ) → row.now ≡ row_in ps (kept_at self.old.all place) (exit_at self.old.exits exit).variable → AreKept ps weight costs self.old → AreKept ps weight costs self.new }
        ensures taken { IfOk result (λ o. (ps : List (List ℤ)) → row.now ≡ row_in ps (kept_at self.old.all place) (exit_at self.old.exits exit).variable → IsTaken ps self.new.edges place (kept_at self.new.all place) solution.now (exit_at self.old.exits exit).variable direction o) }
    {
        if !self.rank_further(columns, place, solution, direction, exit, row)? {
            return Ok(None);
        }
        self.exits[exit] = lengthen(&mut self.edges, self.exits[exit], columns)?;
        Ok(Some(self.edges.len() - 1))
    }

    /// Notes the place of the dictionary behind an edge.
    pub(crate) fn note(&mut self, edge: usize, target: usize)
        requires there { edge < length self.old.edges }
        requires leads { Leads self.old.all (record (edge_at self.old.edges edge) { target = target }) }
        ensures all { self.new.all ≡ self.old.all }
        ensures kept { (ps : List (List ℤ)) (weight : ℕ) (costs : List ℤ) → AreKept ps weight costs self.old → AreKept ps weight costs self.new }
    {
        self.edges[edge].target = target;
    }
}
