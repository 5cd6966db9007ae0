use pot_bytes::{Bytes, Geometry, Name};

/// A line of the script, with the bytes that follow it.
#[derive(Drop)]
pub enum Command {
    /// Store these bytes under the name.
    Store { name: Name, file: Bytes },
    /// Answer the file of the name.
    Fetch { name: Name },
    /// Answer the names that are stored.
    List,
    /// Answer how each group stands.
    Status,
    /// Look at each block of the group.
    Scrub { group: u8 },
    /// Rebuild the blocks that the group has lost.
    Repair { group: u8 },
    /// Let another archive stand in for one that is lost.
    Replace { from: u32, to: u32 },
    /// Copy an archive to another, stripe by stripe.
    Migrate { from: u32, to: u32 },
    /// The next lines are this many jobs, which are worked together, and then `end`.
    Together { count: u32 },
    /// The end of the jobs that are worked together.
    End,
    /// Split the file of the name anew.
    Renew { name: Name, geometry: Geometry },
    /// The end of the script.
    Quit,
}
