//! The top call: all that the program does, over any source, sink, room of archives and desk.
//!
//! It works the words `init`, `run`, `drill`, `recover`, `audit` and `generate`, and within a
//! session what the steps of the script ask for. It decides no reply and spells no image: these are
//! the matter of the crates below.
//!
//! 1. A session keeps two images: the one with which it begins, before any archive is taken, and
//!    that of its close. Each has the number one above that of the image that was read (`begun`).
//! 2. Each archive that is taken is given back, whatever fails between: those of the tables read,
//!    and those that commands ask for. None is out when the call returns (`IsHome`).
//! 3. What a session leaves is tried to its end: a failure of the sink or want of memory ends the
//!    commands, and the close follows.
//! 4. A status that names an object comes only where that object's count of faults rose in this
//!    call (`Faults`, `Caused`), and the first failure gives it. For the room it is the count of
//!    its own failures: an archive that fails while it is out is none of them (`RoomFails`).
//! 5. What the close says of an archive it says of each that came back, and as many at most are
//!    missing as the room failed (`FailsAt`).
#![tactic(auto)]

mod asking;
mod auditing;
mod desk;
mod drill;
mod ending;
mod generating;
mod host;
mod init;
mod intake;
mod laws;
mod recovery;
mod session;
mod telling;
mod top;

pub use ending::status::Status;
pub use ending::stop::Stop;
pub use laws::stripe_laws;
pub use top::run;
