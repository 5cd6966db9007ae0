use pot_bytes::Name;

/// A name that a job has reserved.
#[derive(Clone, Copy, PartialEq, Eq)]
pub struct Reservation {
    pub name: Name,
    pub job: u32,
}
