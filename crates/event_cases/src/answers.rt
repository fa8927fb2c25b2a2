//! Events with the answers that they get: on `2x >= 3`, also where x is maximised, and in a search of `2x + 2y = 3` that was worked out by hand.

use crate::models::made;
use crate::plans::{By, Plan, Why, event_of};
use crate::printing::show_event;
use case_tools::NumberOrNone;
use event_core::{Admit, State};
use node_events::Event;
use std::alloc::Global;
use std::io;

/// 2x >= 3, x from 0 to 5, no objective.
const ONE_COLUMN: &[u8] =
    b"ROWS\n N o\n G r\nCOLUMNS\n m 'MARKER' 'INTORG'\n x r 2\nRHS\n r 3\nBOUNDS\n UP x 5\nENDATA\n";

/// 2x + 2y = 3, x and y from 0 to 1, no objective.
const TWO_COLUMNS: &[u8] =
    b"ROWS\n N o\n E r\nCOLUMNS\n m 'MARKER' 'INTORG'\n x r 2\n y r 2\nRHS\n r 3\nBOUNDS\n UP x 1\n UP y 1\nENDATA\n";

/// 2x >= 3, x from 0 to 5, where x is maximised.
const MAXIMISED: &[u8] =
    b"OBJSENSE MAX\nROWS\n N o\n G r\nCOLUMNS\n m 'MARKER' 'INTORG'\n x o 1 r 2\nRHS\n r 3\nBOUNDS\n UP x 5\nENDATA\n";

/// Events of the first model in its first state.
const FIRST: [Plan; 9] = [
    Plan::Cut(0, 1),
    Plan::Cut(0, -1),
    Plan::Cut(3, 1),
    Plan::Split(1, 0, 1, Why::Halves(0, &[3])),
    Plan::Split(0, 0, 5, Why::Halves(0, &[3])),
    Plan::Split(0, 1, 0, Why::Halves(0, &[3])),
    Plan::Split(0, 0, 2, Why::Halves(0, &[3])),
    Plan::Split(0, 0, 1, Why::Halves(0, &[3])),
    Plan::Close(0, By::Row(0, 2)),
];

/// Offers of points of the first model.
const OFFERS: [Plan; 3] = [Plan::Offer(&[1]), Plan::Offer(&[2]), Plan::Offer(&[2])];

/// Offers of points of the maximised model: the second has a smaller objective than the first, and the third a greater one.
const GREATER_OFFERS: [Plan; 3] = [Plan::Offer(&[3]), Plan::Offer(&[2]), Plan::Offer(&[4])];

/// Splits of node 0 of the second model, for each kind of reason.
const SPLITS: [Plan; 6] = [
    Plan::Split(0, 1, 0, Why::Halves(0, &[2, 1])),
    Plan::Split(0, 0, 0, Why::Halves(0, &[2, 1])),
    Plan::Split(0, 0, 0, Why::Halves(0, &[1, 2])),
    Plan::Split(0, 0, 0, Why::Halves(0, &[3, 0])),
    Plan::Split(0, 0, 0, Why::Cramped { cuts: 0, pivots: 0 }),
    Plan::Split(0, 0, 0, Why::Stalled { cuts: 0 }),
];

/// The events of worker 0 that search the second model; the first is not yet its own.
const SEARCH: [Plan; 13] = [
    Plan::Split(0, 0, 0, Why::Halves(0, &[1, 2])),
    Plan::Claim(0),
    Plan::Split(0, 0, 0, Why::Halves(0, &[1, 2])),
    Plan::Claim(2),
    Plan::Release(2),
    Plan::Claim(2),
    Plan::Split(2, 1, 0, Why::Halves(0, &[2, 1])),
    Plan::Claim(4),
    Plan::Close(4, By::Row(0, -2)),
    Plan::Claim(3),
    Plan::Close(3, By::Row(0, 2)),
    Plan::Claim(1),
    Plan::Close(1, By::Row(0, 2)),
];

/// The answer to an event of worker 0, which is applied where it is admitted.
fn answer(alloc: Global, state: &mut State, event: &Event) -> io::Result<Admit> {
    let answer = state.admits(alloc, Some(0), event)?;
    if answer == Admit::Yes && state.tree().len() <= 1000 {
        let made = state.reserve(alloc, event)?;
        let copy = event.copy(alloc)?;
        state.apply(Some(0), copy, made);
    }
    Ok(answer)
}

/// The answer to a plan of worker 0, which is applied where it is admitted.
fn answered(alloc: Global, state: &mut State, plan: Plan) -> io::Result<Admit> {
    let event = event_of(alloc, plan)?;
    answer(alloc, state, &event)
}

/// Prints the answer to an event without a worker.
fn show_asked<R: Print + Alloc<A = Global>>(
    rt: &R,
    state: &State,
    event: &Event,
) -> io::Result<()> {
    let answer = state.admits(rt.alloc(), None, event)?;
    print!(rt; "answer {answer:?} to ")?;
    show_event(rt, event)
}

/// Prints the answer to a plan without a worker.
fn show_plan_asked<R: Print + Alloc<A = Global>>(
    rt: &R,
    state: &State,
    plan: Plan,
) -> io::Result<()> {
    let event = event_of(rt.alloc(), plan)?;
    show_asked(rt, state, &event)
}

/// Prints the answers to plans without a worker.
fn show_all_asked<R: Print + Alloc<A = Global>>(
    rt: &R,
    state: &State,
    plans: &[Plan],
) -> io::Result<()> {
    for plan in plans {
        show_plan_asked(rt, state, *plan)?;
    }
    Ok(())
}

/// Prints the answer to an event of worker 0, which is applied where it is admitted.
fn show_applied<R: Print + Alloc<A = Global>>(
    rt: &R,
    state: &mut State,
    event: &Event,
) -> io::Result<()> {
    let answer = answer(rt.alloc(), state, event)?;
    print!(rt; "answer {answer:?} to worker 0's ")?;
    show_event(rt, event)
}

/// Prints the answer to a plan of worker 0, which is applied where it is admitted.
fn show_plan_applied<R: Print + Alloc<A = Global>>(
    rt: &R,
    state: &mut State,
    plan: Plan,
) -> io::Result<()> {
    let event = event_of(rt.alloc(), plan)?;
    show_applied(rt, state, &event)
}

/// Prints the answers to plans of worker 0.
fn show_all_applied<R: Print + Alloc<A = Global>>(
    rt: &R,
    state: &mut State,
    plans: &[Plan],
) -> io::Result<()> {
    for plan in plans {
        show_plan_applied(rt, state, *plan)?;
    }
    Ok(())
}

/// Makes the cut of row 0 so many times.
fn cut_often(alloc: Global, state: &mut State, times: u16) -> io::Result<()> {
    for _ in 0..times {
        answered(alloc, state, Plan::Cut(0, 1))?;
    }
    Ok(())
}

/// Makes as many cuts as there may be, and prints the answer to one more.
fn show_many_cuts<R: Print + Alloc<A = Global>>(rt: &R, state: &mut State) -> io::Result<()> {
    cut_often(rt.alloc(), state, 256)?;
    let answer = answered(rt.alloc(), state, Plan::Cut(0, 1))?;
    let count = state.book().len();
    println!(rt; "answer {answer:?} to one cut more than {count}")
}

/// Prints the answers to offers, and the incumbent's aim and objective.
fn show_offers<R: Print + Alloc<A = Global>>(
    rt: &R,
    state: &mut State,
    offers: &[Plan],
) -> io::Result<()> {
    show_all_applied(rt, state, offers)?;
    let cutoff = NumberOrNone(state.incumbent().cutoff());
    let best = NumberOrNone(state.best_value());
    println!(rt; "answer: the cutoff is {cutoff}, the best objective {best}")
}

/// Prints the answers on the first model, with its offers and cuts.
fn show_cuts_and_offers<R: Print + Alloc<A = Global>>(rt: &R, state: &mut State) -> io::Result<()> {
    show_all_asked(rt, state, &FIRST)?;
    show_offers(rt, state, &OFFERS)?;
    show_many_cuts(rt, state)
}

/// Prints the size of a state.
fn show_sizes<R: Print>(rt: &R, state: &State) -> io::Result<()> {
    let (nodes, open) = (state.tree().len(), state.open_count());
    let (entries, columns) = (state.history().len(), state.problem().columns());
    println!(rt; "answer: {nodes} nodes, {open} open, {entries} entries, {columns} columns")
}

/// Prints the answers on the second model, and how its search ends.
fn show_search<R: Print + Alloc<A = Global>>(rt: &R, state: &mut State) -> io::Result<()> {
    show_all_asked(rt, state, &SPLITS)?;
    show_all_applied(rt, state, &SEARCH)?;
    show_sizes(rt, state)
}

/// The first state of a model's search.
fn state_of(alloc: Global, text: &[u8]) -> io::Result<State> {
    let problem = made(alloc, text)?;
    Ok(State::new(alloc, problem)?)
}

/// Which model is searched.
#[derive(Clone, Copy)]
enum Model {
    OneColumn,
    TwoColumns,
    Maximised,
}

/// Prints the answers on a model in its first state.
fn show_answers<R: Print + Alloc<A = Global>>(
    rt: &R,
    model: Model,
    state: &mut State,
) -> io::Result<()> {
    match model {
        Model::OneColumn => show_cuts_and_offers(rt, state),
        Model::TwoColumns => show_search(rt, state),
        Model::Maximised => show_offers(rt, state, &GREATER_OFFERS),
    }
}

/// Prints the answers on a model of this text.
fn show_model<R: Print + Alloc<A = Global>>(rt: &R, model: Model, text: &[u8]) -> io::Result<()> {
    let mut state = state_of(rt.alloc(), text)?;
    show_answers(rt, model, &mut state)
}

/// Prints the answers on each model.
pub(crate) fn show<R: Print + Alloc<A = Global>>(rt: &R) -> io::Result<()> {
    show_model(rt, Model::OneColumn, ONE_COLUMN)?;
    show_model(rt, Model::TwoColumns, TWO_COLUMNS)?;
    show_model(rt, Model::Maximised, MAXIMISED)
}
