//! The turn lock under threads. With no word passes and threads push numbers in turn, and the gate compares what it prints of them with `stdout`. With
//! a word it times the lock: `alone` times turns that nobody waits for, `four` the turns of four threads, and `long` has four threads each keep a turn
//! for long.
#![tactic(auto)]

mod pushes;

ghost use Rattle.std.specs.Prelude.{◌≡◌, [], ◌∷◌, Some, Contains, IsSomeAnd};
ghost use Rattle.turn_lock.specs.Passes.{IsPassOf, names_of};

use pushes::{Pushed, Pushes};
use std::alloc::{AllocError, Global};
use std::rt::Runtime;
use std::sync::Wait;
use std::thread::{Threads, join_mut};
use std::time::Instant;
use std::{env, io, mem};
use turn_lock::{Kept, Pass, TurnLock};

/// The turns of one run.
const TURNS: u32 = 1_000_000;

/// Steps of a turn that is kept for long.
const LONG: u32 = 100_000_000;

/// What a thread does with its turns.
#[derive(Clone, Copy)]
enum Task {
    /// Pushes this many numbers, one a turn.
    Push(u64),
    /// Takes this many turns and does nothing with them.
    Turns(u32),
    /// Keeps one turn for this many steps.
    Long(u32),
}

// Where memory runs out nothing is pushed.
fn push<R: Wait>(
    rt: &R,
    lock: &TurnLock<Pushes>,
    pass: Pass<Pushes>,
    name: u64,
    value: u64,
) -> Pass<Pushes>
    requires own { IsPassOf lock.now pass }
    requires named { Contains (names_of pass) name }
    ensures own { IsPassOf lock.now result }
    ensures names { names_of result ≡ names_of pass }
{
    let mut turn = lock.enter(rt, pass);
    let pushed = turn.value_mut().items.push(Pushed { name, value });
    drop(pushed);
    lock.leave(turn)
}

fn push_all<R: Wait>(
    rt: &R,
    lock: &TurnLock<Pushes>,
    mut pass: Pass<Pushes>,
    name: u64,
    count: u64,
) -> Pass<Pushes>
    requires own { IsPassOf lock.now pass }
    requires named { Contains (names_of pass) name }
    ensures own { IsPassOf lock.now result }
    ensures names { names_of result ≡ names_of pass }
{
    for value in 0..count {
        pass = push(rt, lock, pass, name, value);
    }
    pass
}

fn take_turns<R: Wait>(
    rt: &R,
    lock: &TurnLock<Pushes>,
    mut pass: Pass<Pushes>,
    count: u32,
) -> Pass<Pushes>
    requires own { IsPassOf lock.now pass }
    ensures own { IsPassOf lock.now result }
    ensures names { names_of result ≡ names_of pass }
{
    for _ in 0..count {
        let turn = lock.enter(rt, pass);
        pass = lock.leave(turn);
    }
    pass
}

/// A number that takes as many steps to find.
fn found_by_steps(steps: u32) -> u64 {
    let mut state: u64 = 1;
    for _ in 0..steps {
        state = state
            .wrapping_mul(6_364_136_223_846_793_005)
            .wrapping_add(state >> 7);
    }
    state
}

fn keep_long<R: Wait>(
    rt: &R,
    lock: &TurnLock<Pushes>,
    pass: Pass<Pushes>,
    name: u64,
    steps: u32,
) -> Pass<Pushes>
    requires own { IsPassOf lock.now pass }
    requires named { Contains (names_of pass) name }
    ensures own { IsPassOf lock.now result }
    ensures names { names_of result ≡ names_of pass }
{
    let mut turn = lock.enter(rt, pass);
    let value = found_by_steps(steps);
    let pushed = turn.value_mut().items.push(Pushed { name, value });
    drop(pushed);
    lock.leave(turn)
}

// Works by a pass of weight 1 that a thread was lent.
fn work<R: Wait>(
    rt: &R,
    lock: &TurnLock<Pushes>,
    slot: &mut Option<Pass<Pushes>>,
    name: u64,
    task: Task,
)
    requires own { IsSomeAnd slot.old (λ pass. IsPassOf lock.now pass × (names_of pass ≡ name ∷ [])) }
    ensures own { IsSomeAnd slot.new (λ pass. IsPassOf lock.now pass × (names_of pass ≡ name ∷ [])) }
{
    let Some(pass) = mem::replace(slot, None) else {
        unreachable!()
    };
    let pass = match task {
        Task::Push(count) => push_all(rt, lock, pass, name, count),
        Task::Turns(count) => take_turns(rt, lock, pass, count),
        Task::Long(steps) => keep_long(rt, lock, pass, name, steps),
    };
    let old = mem::replace(slot, Some(pass));
    let None = old else { unreachable!() };
}

// Two threads, each with a pass of its own.
fn work_in_pairs<R: Threads + Wait + Sync>(
    rt: &R,
    lock: &TurnLock<Pushes>,
    one: &mut Option<Pass<Pushes>>,
    first: u64,
    other: &mut Option<Pass<Pushes>>,
    second: u64,
    task: Task,
)
    requires one { IsSomeAnd one.old (λ pass. IsPassOf lock.now pass × (names_of pass ≡ first ∷ [])) }
    requires other { IsSomeAnd other.old (λ pass. IsPassOf lock.now pass × (names_of pass ≡ second ∷ [])) }
    ensures one { IsSomeAnd one.new (λ pass. IsPassOf lock.now pass × (names_of pass ≡ first ∷ [])) }
    ensures other { IsSomeAnd other.new (λ pass. IsPassOf lock.now pass × (names_of pass ≡ second ∷ [])) }
{
    join_mut(
        rt,
        &mut || work(rt, lock, one, first, task),
        &mut || work(rt, lock, other, second, task),
    );
}

/// The entries after two threads' work.
fn by_two<R: Threads + Wait + Sync>(
    rt: &R,
    alloc: Global,
    task: Task,
) -> Result<Pushes, AllocError> {
    let none = Pushes {
        items: Vec::new(alloc),
    };
    let (lock, whole) = match TurnLock::make(alloc, none, 2) {
        Ok(made) => made,
        Err((error, _)) => return Err(error),
    };
    let (one, rest) = lock.split(whole);
    let mut one = Some(one);
    let mut rest = Some(rest);
    work_in_pairs(rt, &lock, &mut one, 1, &mut rest, 0, task);
    let Some(one) = one else { unreachable!() };
    let Some(rest) = rest else { unreachable!() };
    let whole = lock.join(one, rest);
    Ok(lock.close(whole))
}

/// The entries after four threads' work.
fn by_four<R: Threads + Wait + Sync>(
    rt: &R,
    alloc: Global,
    task: Task,
) -> Result<Pushes, AllocError> {
    let none = Pushes {
        items: Vec::new(alloc),
    };
    let (lock, whole) = match TurnLock::make(alloc, none, 4) {
        Ok(made) => made,
        Err((error, _)) => return Err(error),
    };
    let (third, rest) = lock.split(whole);
    let (second, rest) = lock.split(rest);
    let (first, zeroth) = lock.split(rest);
    let mut third = Some(third);
    let mut second = Some(second);
    let mut first = Some(first);
    let mut zeroth = Some(zeroth);
    join_mut(
        rt,
        &mut ||
            requires third { IsSomeAnd third (λ pass. IsPassOf lock pass × (names_of pass ≡ 3 ∷ [])) }
            requires second { IsSomeAnd second (λ pass. IsPassOf lock pass × (names_of pass ≡ 2 ∷ [])) }
        { work_in_pairs(rt, &lock, &mut third, 3, &mut second, 2, task) },
        &mut ||
            requires first { IsSomeAnd first (λ pass. IsPassOf lock pass × (names_of pass ≡ 1 ∷ [])) }
            requires zeroth { IsSomeAnd zeroth (λ pass. IsPassOf lock pass × (names_of pass ≡ 0 ∷ [])) }
        { work_in_pairs(rt, &lock, &mut first, 1, &mut zeroth, 0, task) },
    );
    let Some(third) = third else { unreachable!() };
    let Some(second) = second else { unreachable!() };
    let Some(first) = first else { unreachable!() };
    let Some(zeroth) = zeroth else { unreachable!() };
    let high = lock.join(third, second);
    let low = lock.join(first, zeroth);
    let whole = lock.join(high, low);
    Ok(lock.close(whole))
}

/// The entries after turns that nobody waits for.
fn alone<R: Wait>(rt: &R, alloc: Global) -> Result<Pushes, AllocError> {
    let none = Pushes {
        items: Vec::new(alloc),
    };
    let (lock, whole) = match TurnLock::make(alloc, none, 1) {
        Ok(made) => made,
        Err((error, _)) => return Err(error),
    };
    let whole = take_turns(rt, &lock, whole, TURNS);
    Ok(lock.close(whole))
}

/// The entries after two passes pushed in turn, and what the second one saw before.
fn by_passes<R: Wait>(rt: &R, alloc: Global) -> Result<(Option<u64>, Pushes), AllocError> {
    let none = Pushes {
        items: Vec::new(alloc),
    };
    let (lock, whole) = match TurnLock::make(alloc, none, 3) {
        Ok(made) => made,
        Err((error, _)) => return Err(error),
    };
    let (one, rest) = lock.split(whole);
    let one = push(rt, &lock, one, 2, 7);
    let turn = lock.enter(rt, rest);
    let seen = turn.value().value_at(0);
    let rest = push(rt, &lock, lock.leave(turn), 0, 8);
    let whole = lock.join(one, rest);
    Ok((seen, lock.close(whole)))
}

/// Prints what two passes pushed in turn.
fn show_passes<R: Wait + Print>(rt: &R, alloc: Global) -> io::Result<()> {
    let (seen, pushes) = by_passes(rt, alloc)?;
    let (first, second) = (pushes.value_at(0), pushes.value_at(1));
    println!(rt; "two passes: seen {seen:?}, pushed {first:?} {second:?}")
}

/// Prints whether each of so many threads pushed so many numbers in its own order.
fn show_order<R: Print>(rt: &R, pushes: &Pushes, threads: u64, count: u64) -> io::Result<()> {
    let (entries, in_order) = (pushes.len(), pushes.count_up(threads, count));
    println!(rt; "{threads} threads: entries {entries}, each in its own order {in_order}")
}

/// Prints what passes and threads push.
fn show<R: Threads + Wait + Sync + Print>(rt: &R, alloc: Global) -> io::Result<()> {
    show_passes(rt, alloc)?;
    show_order(rt, &by_two(rt, alloc, Task::Push(100))?, 2, 100)?;
    show_order(rt, &by_four(rt, alloc, Task::Push(1000))?, 4, 1000)
}

fn main(rt: HostRuntime) -> io::Result<()> {
    let alloc = rt.alloc();
    let Some(word) = env::args(&rt)?.nth(1) else {
        return show(&rt, alloc);
    };
    let start = Instant::now(&rt)?;
    let pushes = match word.as_str() {
        "alone" => alone(&rt, alloc)?,
        "four" => by_four(&rt, alloc, Task::Turns(TURNS / 4))?,
        _ => by_four(&rt, alloc, Task::Long(LONG))?,
    };
    let time = start.elapsed(&rt)?.as_nanos();
    println!(rt; "{word} {time} {}", pushes.len())
}
