// The instance of a seed.

ghost use Rattle.std.specs.Prelude.{◌≡◌, IfOk, OnOk, get_or};
ghost use Rattle.drill_instance.specs.Draws.{draw_each};
ghost use Rattle.drill_instance.specs.Knapsacks.{draw_cost, draw_weight, draw_row, knapsack_of, capacity};

use crate::generator::Generator;
use std::alloc::{AllocError, Global};
use std::marker::Model;

const COLUMNS: usize = 30;

const ROWS: usize = 10;

/// The weight of each column in a row, 0 where it has none, seen as a list.
#[derive(Drop)]
pub struct Row {
    weights: Vec<u8>,
}

impl Model for Row {
    ghost use Rattle.std.specs.Prelude.{List, ℕ};
    ghost use Rattle.std.specs.Coded.{coded_list, coded_ℕ};

    ghost Value = { List ℕ };

    ghost coded = { coded_list coded_ℕ };

    ghost view = { λ r. r.weights.items };
}

impl Row {
    /// The weight of a column, 0 also where the row has no such column.
    pub fn weight(&self, column: usize) -> u8
        ensures { result ≡ get_or self.now column 0 }
    {
        match self.weights.get(column) {
            Some(weight) => *weight,
            None => 0,
        }
    }

    /// Half the sum of the weights, rounded down.
    pub fn capacity(&self) -> u128
        ensures { result ≡ capacity self.now }
    {
        // 128 bits hold the sum of any row, however long.
        let mut sum: u128 = 0;
        for weight in &self.weights {
            sum += u128::from(*weight);
        }
        sum / 2
    }
}

/// A multidimensional knapsack: the cost of each column, and the rows.
#[derive(Drop)]
pub struct Instance {
    costs: Vec<u8>,
    rows: Vec<Row>,
}

impl Model for Instance {
    ghost use Rattle.drill_instance.specs.Knapsacks.{Knapsack};

    ghost Value = { Knapsack };

    ghost view = { λ i. record { costs = i.costs.items; weights = i.rows.items } };
}

impl Instance {
    /// The instance of a seed. The one error is want of memory.
    pub fn drawn(alloc: Global, seed: u64) -> Result<Instance, AllocError>
        ensures { IfOk result (λ i. i ≡ knapsack_of seed) }
    {
        let mut generator = Generator::seeded(seed);
        let costs = draw_costs(alloc, &mut generator, COLUMNS)?;
        let rows = draw_rows(alloc, &mut generator, ROWS)?;
        Ok(Instance { costs, rows })
    }

    /// The cost of each column.
    pub fn costs(&self) -> &[u8]
        ensures { result.now ≡ self.now.costs }
    {
        self.costs.as_slice()
    }

    /// The rows.
    pub fn rows(&self) -> &[Row]
        ensures { result.now ≡ self.now.weights }
    {
        self.rows.as_slice()
    }
}

#[tactic(auto, using(crate::proofs::Drawing::drawn))]
fn draw_costs(
    alloc: Global,
    generator: &mut Generator,
    columns: usize,
) -> Result<Vec<u8>, AllocError>
    ensures value { IfOk result (λ costs. costs.items ≡ (draw_each draw_cost columns generator.old).value) }
    ensures state { OnOk result (generator.new ≡ (draw_each draw_cost columns generator.old).state) }
{
    let mut costs = Vec::with_capacity(alloc, columns)?;
    for _column in 0..columns {
        costs.push(generator.draw_positive(20))?;
    }
    Ok(costs)
}

fn draw_weight(generator: &mut Generator) -> u8
    ensures value { result ≡ (draw_weight generator.old).value }
    ensures state { generator.new ≡ (draw_weight generator.old).state }
{
    if generator.draw(4) == 0 {
        generator.draw_positive(9)
    } else {
        0
    }
}

#[tactic(auto, using(crate::proofs::Drawing::drawn))]
fn draw_weights(
    alloc: Global,
    generator: &mut Generator,
    columns: usize,
) -> Result<Vec<u8>, AllocError>
    ensures value { IfOk result (λ weights. weights.items ≡ (draw_each draw_weight columns generator.old).value) }
    ensures state { OnOk result (generator.new ≡ (draw_each draw_weight columns generator.old).state) }
{
    let mut weights = Vec::with_capacity(alloc, columns)?;
    for _column in 0..columns {
        weights.push(draw_weight(generator))?;
    }
    Ok(weights)
}

fn draw_row(alloc: Global, generator: &mut Generator) -> Result<Row, AllocError>
    ensures value { IfOk result (λ row. row ≡ (draw_row generator.old).value) }
    ensures state { OnOk result (generator.new ≡ (draw_row generator.old).state) }
{
    let weights = draw_weights(alloc, generator, COLUMNS)?;
    Ok(Row { weights })
}

#[tactic(auto, using(crate::proofs::Drawing::drawn))]
fn draw_rows(alloc: Global, generator: &mut Generator, count: usize) -> Result<Vec<Row>, AllocError>
    ensures value { IfOk result (λ rows. rows.items ≡ (draw_each draw_row count generator.old).value) }
    ensures state { OnOk result (generator.new ≡ (draw_each draw_row count generator.old).state) }
{
    let mut rows = Vec::with_capacity(alloc, count)?;
    for _row in 0..count {
        rows.push(draw_row(alloc, generator)?)?;
    }
    Ok(rows)
}
