// The pool of a drill: the search of the model of a seed, with its journal on a disk in memory.
ghost use Rattle.std.specs.Prelude.{◌≡◌, ◌≤◌, ℕ, [], None, IfErr, IfOk};
ghost use Rattle.mps_reader.specs.Reading.{Reads};
ghost use Rattle.resume.specs.Journals.{IsReadFrom};
ghost use Rattle.drill_instance.specs.Texts.{generated};
ghost use Rattle.solve_top.specs.Outcomes.{IsRefusedDrill};
ghost use Rattle.node_tree.specs.Limits.{most_nodes};

use crate::model::{Model, problem_of};
use crate::opening::open_of;
use crate::outcome::Refusal;
use drill_instance::generate;
use mps_reader::Lent;
use node_pool::Pool;
use outside::ScratchDisk;
use std::alloc::Global;
use std::hash::BuildHasher;

// The model of a seed.
fn drilled_model<B: BuildHasher + Drop>(alloc: Global, keys: B, seed: u32) -> Result<Model, Refusal>
    ensures read { IfOk result (λ m. (m.text.items ≡ generated seed) × Reads m.text.items None m.problem) }
    ensures refused { IfErr result (IsRefusedDrill seed) }
{
    let text = generate(alloc, u64::from(seed))?;
    match problem_of(alloc, keys, &text, None) {
        Ok(problem) => Ok(Model { text, problem }),
        Err(refusal) => Err(refusal),
    }
}

// Lets go a pool that holds a search already, which that of a drill doesn't.
fn given_up(pool: Pool<ScratchDisk>) -> Refusal
    ensures { (seed : ℕ) → IsRefusedDrill seed result }
{
    let (_, journal, _) = pool.into_parts();
    let _ = journal.into_disk();
    Refusal::Memory
}

/// The pool of the search of a seed's model, with its journal on a disk in memory. What that disk may fail for is want of memory.
pub fn drilled_pool<B: BuildHasher + Drop>(
    alloc: Global,
    keys: B,
    seed: u32,
    nodes: u32,
) -> Result<Pool<ScratchDisk>, Refusal>
    requires few { nodes ≤ most_nodes }
    ensures read { IfOk result (λ p. IsReadFrom p.state) }
    ensures problem { IfOk result (λ p. Reads (generated seed) None p.state.state.problem) }
    ensures fresh { IfOk result (λ p. p.state.history ≡ []) }
    ensures unheld { IfOk result (λ p. p.state.state.holds ≡ []) }
    ensures budget { IfOk result (λ p. p.budget ≡ nodes) }
    ensures halt { IfOk result (λ p. p.halt ≡ None) }
    ensures refused { IfErr result (IsRefusedDrill seed) }
{
    let model = drilled_model(alloc, Lent::of(&keys), seed)?;
    match open_of(alloc, keys, ScratchDisk::new(alloc), model, None, nodes) {
        Ok(pool) => {
            // The disk tells a proof nothing of what it has, so the pool is asked.
            if pool.state().history().is_empty() {
                Ok(pool)
            } else {
                Err(given_up(pool))
            }
        }
        Err((_, _)) => Err(Refusal::Memory),
    }
}
