//! Cheap hashes under a secret key, for maps whose keys are numbers or short texts that a log may choose.
//!
//! They carry no promise of the checker's own: a map finds what stands in it whatever hash it has. Std's secret hash reads each key
//! twice or thrice over; these take a multiplication a number, or for each eight bytes of a text, and one at the end. Texts of over 16
//! bytes keep std's, whose strength against chosen texts is known.
#![tactic(auto)]

pub mod hints;
pub mod key_hashes;
pub mod number_hashes;

pub use hints::Hints;
pub use key_hashes::{KeyHash, KeyHasher};
pub use number_hashes::{NumberHash, NumberHasher};
