//! The vault of the working folder, as a program for people has it in its hands: the desk and the
//! files of archives before and after a session, files that go in and come out, and what is told of
//! all that.
//!
//! It holds no session and starts no thread. What it reads, writes and prints nothing is claimed of
//! but safety.
#![tactic(auto)]

mod after;
mod ailing;
mod archives;
mod before;
mod coming;
mod desk;
mod goal;
mod incoming;
mod joined;
mod kept_images;
mod known;
mod loads;
mod lying;
mod new_file;
mod numbers;
mod progress;
mod sampling;
mod standing;
mod stop;
mod twins;
mod unread;
mod visit;

pub use after::tell_losses;
pub use ailing::{Gone, tell_ailing};
pub use archives::{Standing, archive_name, look_at, look_for_file, named, place_text};
pub use before::{are_all_there, image_for_session, was_stopped};
pub use coming::look_for_empty;
pub use desk::{image, image_bytes};
pub use goal::{Goal, make_folder};
pub use incoming::Incoming;
pub use kept_images::keep_image;
pub use known::{Known, is_stored};
pub use loads::{Load, MOST_TOGETHER, Task, cut};
pub use lying::{
    Lying, MOST_PLACES, are_shares_about, folders_about, lying_of, own_folder, share_path,
};
pub use new_file::{open_to_read, put_file, sync_folder_of};
pub use numbers::{MOST_ARCHIVES, ranges_text, read_number};
pub use progress::Progress;
pub use standing::{DeskStanding, desk_standing};
pub use stop::{Stop, UNREAD, refuse};
pub use visit::{Visit, listed_archives, number_in};
