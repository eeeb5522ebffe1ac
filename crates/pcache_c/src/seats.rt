//! Numbers of open requests: each is a place, with how often the place was free before.
ghost use Rattle.std.specs.Prelude.{◌≡◌, ◌/◌, ◌%◌, ◌^◌, ℕ, None, Some, IfSome, IsTrue, option_copied, option_map};
ghost use Rattle.std.specs.Borrow.{LendsIf, LendsSo, sem};
ghost use Rattle.pcache_c.specs.Seats.{AreSame, IsFree, IsGone, IsSet, IsSetIf, number_at, request_at, round_at};
ghost use Rattle.pcache_c.specs.contracts.seats.Seat as seat;
ghost use Rattle.pcache_c.specs.contracts.seats.Seats as seats;

use std::alloc::Global;
use std::mem;

/// A place for an open request. A number names it only with its round, which goes up when the place is free again.
pub(crate) struct Seat<T> {
    pub(crate) round: u32,
    // The next free place, counted from 1.
    pub(crate) next_free: u32,
    pub(crate) request: Option<T>,
}

impl<T> Seat<T> {
    fn request_mut(&mut self) -> Option<&mut T>
        ensures* writes_back { sem 𝓛 (LendsIf (seat.the_row T.row) T.row self.entry result
            (λ o. record self.old { request = Some o }) self.old) }
        ensures value { option_map (λ r. r.now) result ≡ self.old.request }
    {
        self.request.as_mut()
    }
}

// How many places a number can name.
const PLACES: u64 = 1 << 32;

// The number of a place in a round.
fn number_of(round: u32, place: u32) -> u64
    ensures place { result % 2 ^ 32 ≡ place }
    ensures round { result / 2 ^ 32 ≡ round }
{
    u64::from(round) * PLACES + u64::from(place)
}

/// The open requests. A request's number is its place and the round of this place, so a number is not given twice before a
/// place was free 2^32 times.
pub(crate) struct Seats<T> {
    pub(crate) seats: Vec<Seat<T>>,
    // The first free place, counted from 1.
    pub(crate) first_free: u32,
}

// Over any type: of what is written through a `&mut` to a value of a type that names `'static`, as a reason of the caller's own
// does, no clause tells, and of what is written through a type parameter one does.
impl<T> Seats<T> {
    /// No seat: every place is in round 0.
    pub(crate) fn new(alloc: Global) -> Seats<T>
        ensures none { (number : ℕ) → request_at result number ≡ None }
        ensures rounds { (place : ℕ) → round_at result place ≡ 0 }
    {
        Seats {
            seats: Vec::new(alloc),
            first_free: 0,
        }
    }

    /// The open request with a number.
    pub(crate) fn find(&mut self, number: u64) -> Option<&mut T>
        ensures* writes_back { sem 𝓛 (LendsSo (seats.the_row T.row) T.row self.entry result
            (IsSetIf result number self.old) (AreSame self.old)) }
        ensures value { option_map (λ r. r.now) result ≡ request_at self.old number }
    {
        let place = (number % PLACES) as usize;
        let Some(seat) = self.seats.get_mut(place) else {
            return None;
        };
        if u64::from(seat.round) != number / PLACES {
            return None;
        }
        seat.request_mut()
    }

    /// The open request with a number, to be looked at.
    pub(crate) fn get(&self, number: u64) -> Option<&T>
        ensures { option_copied result ≡ request_at self.now number }
    {
        let seat = self.seats.get((number % PLACES) as usize)?;
        if u64::from(seat.round) == number / PLACES {
            seat.request.as_ref()
        } else {
            None
        }
    }

    /// A place that is free; a new one if none is known.
    pub(crate) fn free_place(&mut self) -> Option<u32>
        ensures same { AreSame self.old self.new }
        ensures free { IfSome result (λ place. IsFree place self.new) }
    {
        if let Some(place) = self.first_free.checked_sub(1) {
            if self.is_free(place) {
                return Some(place);
            }
        }
        self.new_place()
    }

    fn is_free(&self, place: u32) -> bool
        ensures { IsTrue result → IsFree place self.now }
    {
        match self.seats.get(place as usize) {
            Some(seat) => seat.request.is_none(),
            None => false,
        }
    }

    fn new_place(&mut self) -> Option<u32>
        ensures same { AreSame self.old self.new }
        ensures free { IfSome result (λ place. IsFree place self.new) }
    {
        let Ok(place) = u32::try_from(self.seats.len()) else {
            return None;
        };
        if place == u32::MAX || self.seats.reserve(1).is_err() {
            return None;
        }
        self.seats.push_reserved(Seat {
            round: 0,
            next_free: 0,
            request: None,
        });
        Some(place)
    }

    /// Seats a request at a free place. Returns the number of this place in its round.
    pub(crate) fn put(&mut self, place: u32, request: T) -> u64
        requires { IsFree place self.old }
        ensures place { result % 2 ^ 32 ≡ place }
        ensures number { result ≡ number_at self.old place }
        ensures unused { request_at self.old result ≡ None }
        ensures set { IsSet result request self.old self.new }
    {
        let Some(seat) = self.seats.get_mut(place as usize) else {
            unreachable!()
        };
        let number = number_of(seat.round, place);
        self.first_free = seat.next_free;
        match mem::replace(&mut seat.request, Some(request)) {
            Some(_before) => unreachable!(),
            None => number,
        }
    }

    /// Takes a request out. Its place is free and one round further, so no number of before names it.
    pub(crate) fn take(&mut self, number: u64) -> Option<T>
        ensures taken { result ≡ request_at self.old number }
        ensures gone { IsGone number self.old self.new }
    {
        let place = (number % PLACES) as u32;
        let Some(seat) = self.seats.get_mut(place as usize) else {
            return None;
        };
        if u64::from(seat.round) != number / PLACES {
            return None;
        }
        let Some(request) = seat.request.take() else {
            return None;
        };
        seat.round = seat.round.wrapping_add(1);
        seat.next_free = self.first_free;
        self.first_free = place.saturating_add(1);
        Some(request)
    }
}
