// The cell, its rule, and the kinds of step; and each step, as one call.

ghost use Rattle.std.specs.Prelude.{◌≡◌, true, []};
ghost use mathlib.Core.List.{IsPrefix};
ghost use Rattle.crossbeam_utils.specs.Seq.{IsSamePass, cell_view};
ghost use Rattle.r10_gauge.specs.Seats.{SawAll, having_met, reading_seat, writing_seat};

use crate::kind::GaugeKind;
use atomic_table::{Join, Split};
use crossbeam_utils::atomic::seq_cell::{Pass, RuledSeqCell};
use crossbeam_utils::rule::{Outcome, Protocol};
use r10_body::Glance;
use std::collections::LinkedList;
use std::marker::PhantomData;
use std::sync::Wait;

/// What a seat knows: what was published up to its last step, whether it is the one that publishes, and what a seat that it met had
/// seen. No value of it is made.
pub(crate) struct SeatKnows {
    pub(crate) writes: bool,
    pub(crate) seen: LinkedList<Glance>,
    pub(crate) met: LinkedList<Glance>,
}

/// The rule: what is published is one growing list of this kind, which begins with what each seat has seen, and the words are its
/// last triple.
pub(crate) struct OneList<K: GaugeKind> {
    of: PhantomData<K>,
}

impl<K: GaugeKind> Protocol<[u64; 3], SeatKnows> for OneList<K> {
    ghost use Rattle.r10_gauge.specs.Seats.{KeepsOneList, making_seat};

    ghost holds = { KeepsOneList K.keeps };

    ghost first = { making_seat };
}

/// A step that publishes.
pub(crate) struct Publishing;

impl Outcome<[u64; 3], SeatKnows> for Publishing {
    ghost use Rattle.r10_gauge.specs.Seats.{GrewByWords};

    ghost then = { GrewByWords };
}

/// A step that looks.
pub(crate) struct Glancing<K: GaugeKind> {
    of: PhantomData<K>,
}

impl<K: GaugeKind> Outcome<[u64; 3], SeatKnows> for Glancing<K> {
    ghost use Rattle.r10_gauge.specs.Seats.{SawAll};

    ghost then = { SawAll K.keeps };
}

/// A step at which a seat meets another, which is spent.
pub(crate) struct Meeting;

impl Join<SeatKnows> for Meeting {
    ghost use Rattle.r10_gauge.specs.Seats.{having_met, spent_seat};

    ghost both = { λ v w. having_met v w.seen };

    ghost spent = { spent_seat };
}

/// A step that cuts off a seat that has seen the same.
pub(crate) struct Splitting;

impl Split<SeatKnows> for Splitting {
    ghost use Rattle.r10_gauge.specs.Seats.{reading_seat};

    ghost left = { λ v. v };

    ghost right = { λ v. reading_seat v.seen };
}

pub(crate) type Cell<K> = RuledSeqCell<[u64; 3], SeatKnows, OneList<K>, 3>;

/// A seat at the cell.
pub(crate) type Seat = Pass<[u64; 3], SeatKnows>;

/// Cuts off a seat that has seen the same.
pub(crate) fn halve<K: GaugeKind>(cell: &Cell<K>, seat: &mut Seat) -> Seat
    requires { seat.old.table_id ≡ cell.now.table.shared.table_id }
    ensures stays { IsSamePass seat.old seat.new × (cell_view seat.new ≡ cell_view seat.old) }
    ensures other { (result.table_id ≡ seat.old.table_id)
        × (cell_view result ≡ reading_seat (cell_view seat.old).seen)
        × (result.me.1 ≡ []) }
{
    cell.split_pass::<Splitting>(seat)
}

/// A seat meets another, which is spent.
pub(crate) fn absorb<K: GaugeKind>(cell: &Cell<K>, seat: &mut Seat, other: Seat)
    requires { (seat.old.table_id ≡ cell.now.table.shared.table_id)
        × (other.table_id ≡ seat.old.table_id)
        × (other.me.1 ≡ []) }
    ensures { IsSamePass seat.old seat.new
        × (cell_view seat.new ≡ having_met (cell_view seat.old) (cell_view other).seen) }
{
    cell.join_pass::<Meeting>(seat, other);
}

/// Looks at what is published now.
pub(crate) fn look<K: GaugeKind, R: Wait>(cell: &Cell<K>, rt: &R, seat: &mut Seat) -> [u64; 3]
    requires { seat.old.table_id ≡ cell.now.table.shared.table_id }
    ensures same { IsSamePass seat.old seat.new }
    ensures saw { SawAll K.keeps (cell_view seat.old) result result (cell_view seat.new) }
{
    cell.load_as::<Glancing<K>, R>(rt, seat)
}

/// What a seat that the publishing one met had seen is a beginning of all that is published. After this it is again one that met
/// no other.
pub(crate) fn compare<K: GaugeKind, R: Wait>(cell: &Cell<K>, rt: &R, seat: &mut Seat)
    requires own { seat.old.table_id ≡ cell.now.table.shared.table_id }
    requires writes { (cell_view seat.old).writes ≡ true }
    ensures same { IsSamePass seat.old seat.new }
    ensures seen { (cell_view seat.new ≡ writing_seat (cell_view seat.old).seen)
        × IsPrefix (cell_view seat.old).met (cell_view seat.old).seen }
{
    let _words = look(cell, rt, seat);
}
