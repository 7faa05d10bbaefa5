//! The rights of harts to take turns.

ghost use Rattle.std.specs.Prelude.{◌≡◌, ◌<◌, ◌≤◌, ◌+◌, IfOk, OnOk, vec_len};
ghost use Rattle.proc_table.specs.declared.table.TheConstants.{HARTS};
ghost use Rattle.kernel_threads.specs.Seats.{SeatView, all_events, first_seats};

use crate::naming::Run;
use std::alloc::{AllocError, Global};
use std::marker::Model;
use std::sync::ledger::{Book, Share};

/// The right of one hart to take turns in a run. It counts the events that its turns make.
#[derive(Drop)]
pub struct Seat<N: Run> {
    hart: u8,
    share: Share<N>,
}

impl<N: Run> Model for Seat<N> {
    ghost use Rattle.std.specs.Prelude.{◌≡◌, ◌<◌};
    ghost use Rattle.proc_table.specs.declared.table.TheConstants.{HARTS};
    ghost use Rattle.kernel_threads.specs.Seats.{SeatView};

    ghost Value = { SeatView };

    ghost view = { λ s. record { hart = s.hart; events = s.share.amount } };

    ghost invariant = { λ s. (s.share.parts ≡ 1) × (s.hart < HARTS) × (s.hart < N.harts) };
}

impl<N: Run> Seat<N> {
    // The seat of a hart, with one part of those that are left.
    pub(crate) fn take(all: &mut Share<N>, hart: u8) -> Seat<N>
        requires part { 1 ≤ all.old.parts }
        requires amount { all.old.amount ≡ 0 }
        requires hart { (hart < HARTS) × (hart < N.harts) }
        ensures seat { result ≡ record { hart = hart; events = 0 } }
        ensures parts { all.new.parts + 1 ≡ all.old.parts }
        ensures left { all.new.amount ≡ 0 }
    {
        Seat {
            hart,
            share: all.split_off(1, 0),
        }
    }

    // A seat for each of so many harts, with one part of those that are left.
    pub(crate) fn take_all(
        alloc: Global,
        all: &mut Share<N>,
        harts: u8,
    ) -> Result<Vec<Seat<N>>, AllocError>
        requires parts { all.old.parts ≡ harts }
        requires amount { all.old.amount ≡ 0 }
        requires harts { (harts ≤ HARTS) × (harts ≤ N.harts) }
        ensures seats { IfOk result (λ seats. seats.items ≡ first_seats harts) }
        ensures count { IfOk result (λ seats. vec_len seats ≡ harts) }
        ensures events { IfOk result (λ seats. all_events seats.items ≡ 0) }
        ensures left { OnOk result ((all.new.parts ≡ 0) × (all.new.amount ≡ 0)) }
    {
        let mut seats = Vec::new(alloc);
        for hart in 0..harts {
            seats.push(Seat::take(all, hart))?;
        }
        Ok(seats)
    }

    /// Its hart.
    pub fn hart(&self) -> u8
        ensures hart { result ≡ self.now.hart }
        ensures within { (result < HARTS) × (result < N.harts) }
    {
        self.hart
    }

    // One more event of the hart.
    pub(crate) fn count(&mut self, events: &mut Book<N>)
        ensures seat { self.new ≡ record self.old { events = self.old.events + 1 } }
        ensures total { events.new.total ≡ events.old.total + 1 }
    {
        events.add(&mut self.share, 1);
    }

    // The part of the ledger that it has.
    pub(crate) fn into_share(self) -> Share<N>
        ensures parts { result.parts ≡ 1 }
        ensures amount { result.amount ≡ self.events }
    {
        let Seat { hart: _, share } = self;
        share
    }
}
