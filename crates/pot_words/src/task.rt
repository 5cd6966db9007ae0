use crate::audit::Audit;
use crate::drill::Drill;
use crate::recover::Recover;
use crate::run::Run;
use pot_bytes::Rack;

/// What the program is to do.
#[derive(PartialEq, Debug, Drop)]
pub enum Task {
    /// Make an empty archive of this shape.
    Init(Rack),
    /// Run a session.
    Run(Run),
    /// Run the generated script of this number, 1 to 1,000,000, over archives in memory.
    Generate(u32),
    /// Find the files that archives hold, without a desk.
    Recover(Recover),
    /// Show that seen shards do not tell a file from another.
    Drill(Drill),
    /// Tell what a coalition learns of the files.
    Audit(Audit),
}
