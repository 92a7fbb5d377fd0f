//! The order in which the children of a crew in memory end.

ghost use Rattle.std.specs.Prelude.{◌≡◌, ◌<◌, ◌-◌, ◌==◌, length, position, IfSome};
ghost use Rattle.crew.specs.Scripted as scripted;

use crate::flight::Flight;
use std::marker::Model;

/// Which child of a crew in memory ends next.
#[derive(Drop)]
pub enum Order {
    /// The child that was started first.
    Oldest,
    /// The child that was started last.
    Youngest,
    /// The child in the next slot of the list. If that slot has no child, or the list has ended,
    /// the oldest child.
    Slots(SlotList),
}

/// A list of slots.
#[derive(Drop)]
pub struct SlotList {
    reversed: Vec<usize>,
}

impl Model for SlotList {
    ghost use Rattle.std.specs.Prelude.{ℕ, List, reverse};

    ghost Value = { List ℕ };

    ghost view = { λ s. reverse s.reversed.items };
}

impl SlotList {
    /// Makes a list of a vector's slots, without copying them.
    pub fn from_vec(mut slots: Vec<usize>) -> SlotList
        ensures { result ≡ slots.items }
    {
        slots.reverse();
        SlotList { reversed: slots }
    }

    /// Removes and returns the first slot, or returns `None` if there is none.
    pub(crate) fn take_first(&mut self) -> Option<usize>
        ensures first { result ≡ scripted.first_of self.old }
        ensures others { self.new ≡ scripted.others_of self.old }
    {
        self.reversed.pop()
    }
}

/// Returns the index of the child that ends next. If the order is a list of slots, its first slot
/// is removed.
pub(crate) fn next_place(order: &mut Order, children: &[Flight]) -> usize
    requires { 0 < length children.now }
    ensures place { result ≡ scripted.place order.old children.now }
    ensures order { order.new ≡ scripted.order_after order.old }
    ensures within { result < length children.now }
{
    match order {
        Order::Oldest => 0,
        Order::Youngest => children.len() - 1,
        Order::Slots(slots) => {
            let slot = slots.take_first();
            place_in_flight(slot, children)
        }
    }
}

fn place_in_flight(slot: Option<usize>, children: &[Flight]) -> usize
    requires { 0 < length children.now }
    ensures place { result ≡ scripted.place_in_flight slot children.now }
    ensures within { result < length children.now }
{
    match slot {
        Some(slot) => position_of(children, slot).unwrap_or(0),
        None => 0,
    }
}

fn position_of(children: &[Flight], slot: usize) -> Option<usize>
    ensures place { result ≡ position (λ child. child.slot == slot) children.now }
    ensures within { IfSome result (λ i. i < length children.now) }
{
    children.iter().position(|child| child.slot() == slot)
}
