//! Compiled code as the words of an image.
//!
//! A [`Shape`](sp_shape::Shape) tells the bundles of each function, but not where they stand, so its flows have no
//! targets yet. This crate puts the functions one after another, the one that is run first and the others after it in
//! their order, each with its size in words before it. A call gets the word at which its function starts, and the
//! branch of a loop gets how many words it lies after the first word of the loop's body. All else stands as it is.
//!
//! [`link`] gives exactly the image that `specs/Placed.antt` defines, over the bundles of `specs/Flat.antt`, of a shape
//! that is well formed and as small as `specs/Fits.antt` wants it; and it tells that each of these bundles has its
//! fields in their ranges. The laws say what such an image is, in the words of `specs/Stands.antt`:
//!
//! - [`images_are_kept`]: it keeps what every image keeps.
//! - [`bundles_stand_in_order`]: each function starts at one of its starts, has its size in the word before, and from
//!   there on its bundles, one after another.
//! - [`parts_stand`]: so each function has its parts there, with the targets of their flows.
//! - [`standing_bundles_are_decoded`]: a bundle that stands in words is what is decoded there.
//! - [`linked_constants_are_words`]: where bundles have their fields in range, the
//!   long constants of the shape are words.
//! - [`targets_change_nothing`]: what a bundle does to registers and words is the same whatever its target.
//! - [`code_follows_the_trail`]: a core that fetches the words of the image and obeys its flows does the bundles of the
//!   shape's trail, one after another. `specs/Walk.antt` says what such a core does, without time, and
//!   `specs/Backs.antt` to where its calls return.
//! - [`walks_go_as_cores`]: flows take effect there as they do in the model of a core.
//!
//! What its words mean stands in [the glossary](../../../docs/GLOSSARY.md).
#![tactic(auto)]

mod flows;
mod images;
mod laws;
mod places;
mod sizes;
mod words;
mod worked;

pub use images::link;
pub use laws::{
    bundles_stand_in_order, code_follows_the_trail, images_are_kept, linked_constants_are_words,
    parts_stand, standing_bundles_are_decoded, targets_change_nothing, walks_go_as_cores,
};
pub use worked::{worked_images, worked_targets, worked_walk, worked_walks};
