//! The state of a key, call by call, beside the plain program.

mod beside;
mod bounds;
mod drawn;
mod refused_memory;
mod rows;
mod scripts;

use super::*;
use beside::Beside;
