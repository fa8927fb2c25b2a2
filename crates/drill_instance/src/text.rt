// The text of an instance, in free MPS. Columns and rows are numbered from 0.

ghost use Rattle.std.specs.Prelude.{◌≡◌, ◌++◌, IfOk, OnOk, length};
ghost use Rattle.std.specs.Fmt.{decimal};
ghost use Rattle.drill_instance.specs.Texts.{row_line, row_lines, cost_line, weight_line, weight_lines, column_lines, capacity_line, capacity_lines, binary_line, binary_lines, head_text, columns_text, ending_text, generated};

use crate::instance::{Instance, Row};
use itoa::Buffer;
use std::alloc::{AllocError, Global};

// Pushes a word with a number.
fn push_numbered(text: &mut Vec<u8>, word: &[u8], number: u128) -> Result<(), AllocError>
    ensures { OnOk result (text.new.items ≡ text.old.items ++ word.now ++ decimal number) }
{
    let mut buffer = Buffer::new();
    text.extend_from_slice(word)?;
    text.extend_from_slice(buffer.format(number).as_bytes())?;
    Ok(())
}

fn push_row_line(text: &mut Vec<u8>, row: usize) -> Result<(), AllocError>
    ensures { OnOk result (text.new.items ≡ text.old.items ++ row_line row) }
{
    push_numbered(text, b" L r", row as u128)?;
    Ok(text.extend_from_slice(b"\n")?)
}

#[tactic(auto, using(crate::proofs::Numbered::more_rows))]
fn push_row_lines(text: &mut Vec<u8>, rows: usize) -> Result<(), AllocError>
    ensures { OnOk result (text.new.items ≡ text.old.items ++ row_lines rows) }
{
    for row in 0..rows {
        push_row_line(text, row)?;
    }
    Ok(())
}

fn push_cost(text: &mut Vec<u8>, column: usize, cost: u8) -> Result<(), AllocError>
    ensures { OnOk result (text.new.items ≡ text.old.items ++ cost_line column cost) }
{
    push_numbered(text, b" x", column as u128)?;
    push_numbered(text, b" obj -", u128::from(cost))?;
    Ok(text.extend_from_slice(b"\n")?)
}

fn push_weight(text: &mut Vec<u8>, column: usize, row: usize, weight: u8) -> Result<(), AllocError>
    ensures { OnOk result (text.new.items ≡ text.old.items ++ weight_line column row weight) }
{
    if weight == 0 {
        return Ok(());
    }
    push_numbered(text, b" x", column as u128)?;
    push_numbered(text, b" r", row as u128)?;
    push_numbered(text, b" ", u128::from(weight))?;
    Ok(text.extend_from_slice(b"\n")?)
}

fn push_weights(text: &mut Vec<u8>, column: usize, rows: &[Row]) -> Result<(), AllocError>
    ensures { OnOk result (text.new.items ≡ text.old.items ++ weight_lines column 0 rows.now) }
{
    for (number, row) in rows.iter().enumerate() {
        push_weight(text, column, number, row.weight(column))?;
    }
    Ok(())
}

fn push_column_lines(text: &mut Vec<u8>, costs: &[u8], rows: &[Row]) -> Result<(), AllocError>
    ensures { OnOk result (text.new.items ≡ text.old.items ++ column_lines rows.now 0 costs.now) }
{
    for (column, cost) in costs.iter().enumerate() {
        push_cost(text, column, *cost)?;
        push_weights(text, column, rows)?;
    }
    Ok(())
}

fn push_capacity(text: &mut Vec<u8>, number: usize, row: &Row) -> Result<(), AllocError>
    ensures { OnOk result (text.new.items ≡ text.old.items ++ capacity_line number row.now) }
{
    push_numbered(text, b" rhs r", number as u128)?;
    push_numbered(text, b" ", row.capacity())?;
    Ok(text.extend_from_slice(b"\n")?)
}

fn push_capacities(text: &mut Vec<u8>, rows: &[Row]) -> Result<(), AllocError>
    ensures { OnOk result (text.new.items ≡ text.old.items ++ capacity_lines 0 rows.now) }
{
    for (number, row) in rows.iter().enumerate() {
        push_capacity(text, number, row)?;
    }
    Ok(())
}

fn push_binary(text: &mut Vec<u8>, column: usize) -> Result<(), AllocError>
    ensures { OnOk result (text.new.items ≡ text.old.items ++ binary_line column) }
{
    push_numbered(text, b" BV b x", column as u128)?;
    Ok(text.extend_from_slice(b"\n")?)
}

#[tactic(auto, using(crate::proofs::Numbered::more_binaries))]
fn push_binaries(text: &mut Vec<u8>, columns: usize) -> Result<(), AllocError>
    ensures { OnOk result (text.new.items ≡ text.old.items ++ binary_lines columns) }
{
    for column in 0..columns {
        push_binary(text, column)?;
    }
    Ok(())
}

fn push_head(text: &mut Vec<u8>, seed: u64, rows: usize) -> Result<(), AllocError>
    ensures { OnOk result (text.new.items ≡ text.old.items ++ head_text seed rows) }
{
    push_numbered(text, b"NAME drill", u128::from(seed))?;
    text.extend_from_slice(b"\nROWS\n N obj\n")?;
    push_row_lines(text, rows)
}

fn push_columns(text: &mut Vec<u8>, instance: &Instance) -> Result<(), AllocError>
    ensures { OnOk result (text.new.items ≡ text.old.items ++ columns_text instance.now) }
{
    text.extend_from_slice(b"COLUMNS\n m 'MARKER' 'INTORG'\n")?;
    push_column_lines(text, instance.costs(), instance.rows())?;
    Ok(text.extend_from_slice(b" m 'MARKER' 'INTEND'\n")?)
}

fn push_ending(text: &mut Vec<u8>, instance: &Instance) -> Result<(), AllocError>
    ensures { OnOk result (text.new.items ≡ text.old.items ++ ending_text instance.now) }
{
    text.extend_from_slice(b"RHS\n")?;
    push_capacities(text, instance.rows())?;
    text.extend_from_slice(b"BOUNDS\n")?;
    push_binaries(text, instance.costs().len())?;
    Ok(text.extend_from_slice(b"ENDATA\n")?)
}

/// The text of the instance of a seed: 30 binary columns and 10 rows, in free MPS. The one error is want of memory.
pub fn generate(alloc: Global, seed: u64) -> Result<Vec<u8>, AllocError>
    ensures { IfOk result (λ v. v.items ≡ generated seed) }
{
    let instance = Instance::drawn(alloc, seed)?;
    let mut text = Vec::new(alloc);
    push_head(&mut text, seed, instance.rows().len())?;
    push_columns(&mut text, &instance)?;
    push_ending(&mut text, &instance)?;
    Ok(text)
}
