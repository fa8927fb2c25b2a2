// The lines on the second output.
ghost use Rattle.std.specs.Prelude.{◌≡◌, ◌++◌, OnOk, IfOk};
ghost use Rattle.std.specs.Fmt.{decimal};
ghost use Rattle.solve_top.specs.Output.{answer_line, best_line, count_lines, finished_lines, number_line, spent_lines, survey_lines};
ghost use Rattle.solve_top.specs.Statuses.{journal_line, refused_line};

use crate::model::kind_name;
use crate::request::Request;
use cert_rows::Goal;
use fraction::Frac;
use itoa::Buffer;
use mps_reader::Kind;
use resume::{ResumeFault, Survey};
use std::alloc::{AllocError, Global};
use vipr_print::push_number;

// Pushes a number in decimal.
fn push_decimal(text: &mut Vec<u8>, number: u64) -> Result<(), AllocError>
    ensures { OnOk result (text.new.items ≡ text.old.items ++ decimal number) }
{
    let mut buffer = Buffer::new();
    text.extend_from_slice(buffer.format(number).as_bytes())?;
    Ok(())
}

// Pushes a word with a number, as a line.
fn push_number_line(text: &mut Vec<u8>, word: &[u8], number: u64) -> Result<(), AllocError>
    ensures { OnOk result (text.new.items ≡ text.old.items ++ number_line word.now number) }
{
    text.extend_from_slice(word)?;
    push_decimal(text, number)?;
    text.extend_from_slice(b"\n")?;
    Ok(())
}

// Pushes the numbers of nodes and cuts.
fn push_counts(text: &mut Vec<u8>, nodes: usize, cuts: usize) -> Result<(), AllocError>
    ensures { OnOk result (text.new.items ≡ text.old.items ++ count_lines nodes cuts) }
{
    push_number_line(text, b"nodes ", nodes as u64)?;
    push_number_line(text, b"cuts ", cuts as u64)
}

// Pushes the answer of a certificate.
fn push_answer(text: &mut Vec<u8>, claim: &Goal) -> Result<(), AllocError>
    ensures { OnOk result (text.new.items ≡ text.old.items ++ answer_line claim.now) }
{
    match claim {
        Goal::Infeas => text.extend_from_slice(b"infeasible\n")?,
        Goal::Range { lb: _, ub } => {
            text.extend_from_slice(b"optimal ")?;
            push_number(text, *ub)?;
            text.extend_from_slice(b"\n")?;
        }
    }
    Ok(())
}

/// The lines of a search that is finished: its answer, and the numbers of nodes and cuts; for a drill the answer alone (docs/DECISIONS.md, entry 50).
pub fn finished_text(
    alloc: Global,
    request: &Request,
    claim: &Goal,
    nodes: usize,
    cuts: usize,
) -> Result<Vec<u8>, AllocError>
    ensures { IfOk result (λ text. text.items ≡ finished_lines request.now claim.now nodes cuts) }
{
    let mut text = Vec::new(alloc);
    push_answer(&mut text, claim)?;
    match request {
        Request::Drill { .. } => Ok(text),
        _ => {
            push_counts(&mut text, nodes, cuts)?;
            Ok(text)
        }
    }
}

/// The lines of a search that stopped with open nodes.
pub fn spent_text(
    alloc: Global,
    nodes: usize,
    cuts: usize,
    open_nodes: usize,
) -> Result<Vec<u8>, AllocError>
    ensures { IfOk result (λ text. text.items ≡ spent_lines nodes cuts open_nodes) }
{
    let mut text = Vec::new(alloc);
    text.extend_from_slice(b"spent\n")?;
    push_counts(&mut text, nodes, cuts)?;
    push_number_line(&mut text, b"open ", open_nodes as u64)?;
    Ok(text)
}

// Pushes the problem's own objective at the best point so far.
fn push_best(text: &mut Vec<u8>, best: Option<Frac>) -> Result<(), AllocError>
    ensures { OnOk result (text.new.items ≡ text.old.items ++ best_line best) }
{
    match best {
        None => text.extend_from_slice(b"best none\n")?,
        Some(objective) => {
            text.extend_from_slice(b"best ")?;
            push_number(text, objective)?;
            text.extend_from_slice(b"\n")?;
        }
    }
    Ok(())
}

/// The lines of a journal that is shown.
pub fn survey_text(alloc: Global, figures: &Survey) -> Result<Vec<u8>, AllocError>
    ensures { IfOk result (λ text. text.items ≡ survey_lines figures.now) }
{
    let mut text = Vec::new(alloc);
    push_number_line(&mut text, b"events ", figures.events as u64)?;
    push_counts(&mut text, figures.nodes, figures.cuts)?;
    push_number_line(&mut text, b"open ", figures.open as u64)?;
    push_best(&mut text, figures.best)?;
    Ok(text)
}

/// The line of a text that is refused.
pub fn refused_text(alloc: Global, line: u64, kind: Kind) -> Result<Vec<u8>, AllocError>
    ensures { IfOk result (λ text. text.items ≡ refused_line line kind) }
{
    let mut text = Vec::new(alloc);
    text.extend_from_slice(b"refused model ")?;
    push_decimal(&mut text, line)?;
    text.extend_from_slice(b" ")?;
    text.extend_from_slice(kind_name(kind))?;
    text.extend_from_slice(b"\n")?;
    Ok(text)
}

// A line of a word with a number.
fn placed_text(alloc: Global, word: &[u8], place: u64) -> Result<Vec<u8>, AllocError>
    ensures { IfOk result (λ text. text.items ≡ number_line word.now place) }
{
    let mut text = Vec::new(alloc);
    push_number_line(&mut text, word, place)?;
    Ok(text)
}

/// The line of a journal that is refused.
pub fn journal_text(alloc: Global, fault: ResumeFault) -> Result<Vec<u8>, AllocError>
    ensures { IfOk result (λ text. text.items ≡ journal_line fault) }
{
    match fault {
        ResumeFault::NotAJournal => b"refused journal NotAJournal\n".to_vec(alloc),
        ResumeFault::Damaged { at } => placed_text(alloc, b"refused journal Damaged ", at),
        ResumeFault::OtherModel { at } => placed_text(alloc, b"refused journal OtherModel ", at),
        ResumeFault::NoModel => b"refused journal NoModel\n".to_vec(alloc),
        ResumeFault::Disk => b"fault disk\n".to_vec(alloc),
        ResumeFault::Memory => b"no memory\n".to_vec(alloc),
    }
}
