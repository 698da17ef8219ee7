// The rows of one kind that are kept for a metering system: the type, and in `keeping` what is done with it.
mod keeping;

ghost use Rattle.std.specs.Prelude.{◌≡◌, ◌≤◌, length, ⊤};

use fields::letters::{Group, MeasurementClass, Status};
use fields::states::{Collector, LineLossClass, Profile, Supplier};
use rows::kept::{Kept, STATE_MAXIMUM};
use rows::row::{Advance, Appointment, Estimate, State};
use std::alloc::AllocError;

// The first `count` of the places have a row; fixed places with a count, since nothing here allocates.
pub struct Window<T, const MAX: usize> {
    count: usize,
    rows: [T; MAX],
    ghost places: { length rows ≡ MAX },
    ghost within: { count ≤ MAX },
}

// By hand: a generic struct with ghost fields derives neither.
impl<T: Copy, const MAX: usize> Clone for Window<T, MAX> {
    ghost is_clone = { λ x y. y ≡ x };

    ghost is_infallible = { λ _. ⊤ };

    fn clone(&self) -> Result<Window<T, MAX>, AllocError> {
        Ok(*self)
    }
}

impl<T: Copy, const MAX: usize> Copy for Window<T, MAX> {}

// A window of each kind has as many places as rows of the kind are kept at most.
pub type Registrations = Window<State<Supplier>, { STATE_MAXIMUM }>;

pub type Appointments = Window<Appointment, { Appointment::MAXIMUM }>;

pub type Collectors = Window<State<Collector>, { STATE_MAXIMUM }>;

pub type Profiles = Window<State<Profile>, { STATE_MAXIMUM }>;

pub type Measurements = Window<State<MeasurementClass>, { STATE_MAXIMUM }>;

pub type Energisations = Window<State<Status>, { STATE_MAXIMUM }>;

pub type LineLosses = Window<State<LineLossClass>, { STATE_MAXIMUM }>;

pub type Groups = Window<State<Group>, { STATE_MAXIMUM }>;

pub type Advances = Window<Advance, { Advance::MAXIMUM }>;

pub type Estimates = Window<Estimate, { Estimate::MAXIMUM }>;
