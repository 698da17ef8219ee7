// What a folder holds: a window for each kind of row. In `holding`, what is done with it.
mod holding;

use windows::window::{
    Advances, Appointments, Collectors, Energisations, Estimates, Groups, LineLosses, Measurements,
    Profiles, Registrations,
};

#[derive(Clone, Copy)]
pub(crate) struct Contents {
    registrations: Registrations,
    appointments: Appointments,
    collectors: Collectors,
    profiles: Profiles,
    measurements: Measurements,
    energisations: Energisations,
    line_losses: LineLosses,
    groups: Groups,
    advances: Advances,
    estimates: Estimates,
}
