//! Seats that gates share, and how a gate reads the published version.

ghost use Rattle.std.specs.Prelude.{IfOk, IfSome};
ghost use mathlib.Core.List.{IsPrefix};
ghost use Rattle.rs_store.specs.History.{IsLegal};

use rs_version::{Seat, StoreName, Told, Version};
use std::alloc::{AllocError, Global};
use std::sync::{Arc, Mutex, Wait};

/// A few seats of a store. A gate has one of them for as long as it takes the published version out of it: the answer is made outside.
///
/// A lock forgets what its seat knew, so a seat learns what a gate knows before it reads for it.
#[derive(Drop)]
pub struct Seats<N: StoreName> {
    seats: Vec<Mutex<Seat<N>>>,
}

/// The version that is published, which has all entries of the token's list. The seat knows it from then on.
fn read_by<N: StoreName>(seat: &mut Seat<N>, told: Told<N>) -> Result<Version<N>, AllocError>
    ensures later { IfOk result (λ version. IsPrefix told version) }
    ensures legal { IfOk result (λ version. IsLegal N.limit version) }
{
    seat.learn(told);
    seat.read()
}

/// The same by the first of the seats that is free. None, if each is taken.
fn read_by_any<N: StoreName>(
    seats: &[Mutex<Seat<N>>],
    told: &Told<N>,
) -> Option<Result<Version<N>, AllocError>>
    ensures later { IfSome result (λ read. IfOk read (λ version. IsPrefix told.now version)) }
    ensures legal { IfSome result (λ read. IfOk read (λ version. IsLegal N.limit version)) }
{
    for seat in seats.iter() {
        if let Some(guard) = seat.try_lock() {
            let mut seat = guard;
            return Some(read_by(&mut *seat, told.again()));
        }
    }
    None
}

impl<N: StoreName> Seats<N> {
    /// These seats.
    ///
    /// # Errors
    ///
    /// [`AllocError`] if memory is refused.
    pub fn new(alloc: Global, seats: Vec<Seat<N>>) -> Result<Seats<N>, AllocError> {
        let mut all = Vec::with_capacity(alloc, seats.len())?;
        for seat in seats {
            all.push(Mutex::new(seat)).map_err(|_| AllocError)?;
        }
        Ok(Seats { seats: all })
    }

    /// The version that is published, which has all entries of the token's list. It is read by the first seat that is free, from the one of
    /// the number `from` on: behind the last comes the first again. If all are taken, it waits for the one that it looked at first.
    ///
    /// # Errors
    ///
    /// [`AllocError`] if memory is refused, the writer has ended, or there is no seat.
    pub fn read<R: Wait>(
        &self,
        rt: &R,
        from: usize,
        told: Told<N>,
    ) -> Result<Version<N>, AllocError>
        ensures later { IfOk result (λ version. IsPrefix told version) }
        ensures legal { IfOk result (λ version. IsLegal N.limit version) }
    {
        let Some(first) = from.checked_rem(self.seats.len()) else {
            // Never: a store has a seat at least.
            return Err(AllocError);
        };
        let (before, behind) = self.seats.split_at(first);
        if let Some(read) = read_by_any(behind, &told) {
            return read;
        }
        if let Some(read) = read_by_any(before, &told) {
            return read;
        }
        let mut seat = self.seats[first].lock(rt);
        read_by(&mut *seat, told)
    }
}

/// By which seat a gate reads.
#[derive(Drop)]
pub(crate) enum Reads<N: StoreName> {
    /// By its own.
    Alone(Seat<N>),
    /// By one of those that gates share. It looks first at the one of this number.
    Among { seats: Arc<Seats<N>>, from: usize },
}

impl<N: StoreName> Reads<N> {
    /// The version that is published, which has all entries of the token's list. It waits only if all seats that it may read by are taken.
    ///
    /// # Errors
    ///
    /// [`AllocError`] if memory is refused, the writer has ended, or there is no seat.
    pub(crate) fn read<R: Wait>(&mut self, rt: &R, told: Told<N>) -> Result<Version<N>, AllocError>
        ensures later { IfOk result (λ version. IsPrefix told version) }
        ensures legal { IfOk result (λ version. IsLegal N.limit version) }
    {
        match self {
            Reads::Alone(seat) => read_by(seat, told),
            Reads::Among { seats, from } => seats.read(rt, *from, told),
        }
    }
}
