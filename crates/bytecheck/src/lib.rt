// The check call over the bytes of an image.
#![tactic(auto)]

pub mod byte_image;
