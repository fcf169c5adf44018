// A strip of image data, and the orders that carry it to a disk, back, and onto film.
#![tactic(auto)]

mod image;
mod orders;

pub use image::{Adler, adler32, draw};
pub use orders::Order;
