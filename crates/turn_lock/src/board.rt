// The table of a lock. Word 0 counts the tickets that were drawn, word 1 those that were served, word 2 the entries.
// Slot 0 has the value, which lies apart: what a turn takes out and gives back is where it lies.
use crate::Kept;
use atomic_table::{Join, Play, Seat, Shared, Split, TableRule};
use std::collections::LinkedList;
use std::marker::PhantomData;
use std::snapshot::Snapshot;

/// What a pass knows. It is for contracts, and no value of it is made.
pub struct View<E> {
    /// Its names: as many as its weight, and none where it is spent.
    pub names: LinkedList<u64>,
    pub ticket: Option<u64>,
    /// It has the value out.
    pub out: bool,
    pub seen: LinkedList<E>,
    /// Of a joined view: what the part knew that had seen less, and that part's names.
    pub less: LinkedList<E>,
    pub less_names: LinkedList<u64>,
}

/// What the table is told once, when it is made: the weight of all passes, and the first value.
#[derive(Drop)]
pub struct Start<V> {
    pub weight: u64,
    pub value: Snapshot<V>,
}

pub struct Turns<V> {
    of: PhantomData<V>,
}

impl<V: Kept> TableRule<Option<Box<V>>, View<V::Entry>, Start<V>> for Turns<V> {
    ghost use Rattle.turn_lock.specs.Lists.{list_in};
    ghost use Rattle.turn_lock.specs.Turns.{TakesTurns, first_view};

    ghost holds = { λ key s. TakesTurns (list_in V.list) V.name key.weight s };

    ghost first = { λ key. first_view key.weight (V.list key.value.value) };
}

pub type Board<V> = Shared<Option<Box<V>>, View<<V as Kept>::Entry>, Start<V>, Turns<V>>;

pub type Place<V> = Seat<Option<Box<V>>, View<<V as Kept>::Entry>>;

pub struct Draw;

impl<V, E> Play<Option<V>, View<E>> for Draw {
    ghost use Rattle.turn_lock.specs.SeatSteps.{Drawn};

    ghost then = { Drawn };
}

pub struct Look<V> {
    of: PhantomData<V>,
}

impl<V: Kept> Play<Option<Box<V>>, View<V::Entry>> for Look<V> {
    ghost use Rattle.turn_lock.specs.Lists.{list_in};
    ghost use Rattle.turn_lock.specs.SeatSteps.{Looked};

    ghost then = { Looked (list_in V.list) V.name };
}

pub struct Note<V> {
    of: PhantomData<V>,
}

impl<V: Kept> Play<Option<Box<V>>, View<V::Entry>> for Note<V> {
    ghost use Rattle.turn_lock.specs.Lists.{list_in};
    ghost use Rattle.turn_lock.specs.SeatSteps.{Noted};

    ghost then = { Noted (list_in V.list) };
}

pub struct Tell<V> {
    of: PhantomData<V>,
}

impl<V: Kept> Play<Option<Box<V>>, View<V::Entry>> for Tell<V> {
    ghost use Rattle.turn_lock.specs.SeatSteps.{Told};

    ghost then = { Told V.name };
}

pub struct PassOn;

impl<V, E> Play<Option<V>, View<E>> for PassOn {
    ghost use Rattle.turn_lock.specs.SeatSteps.{PassedOn};

    ghost then = { PassedOn };
}

pub struct Cut;

impl<E> Split<View<E>> for Cut {
    ghost use Rattle.turn_lock.specs.SeatSteps.{others_of, greatest_of};

    ghost left = { others_of };

    ghost right = { greatest_of };
}

pub struct Glue;

impl<E> Join<View<E>> for Glue {
    ghost use Rattle.turn_lock.specs.SeatSteps.{joined, spent};

    ghost both = { joined };

    ghost spent = { spent };
}
