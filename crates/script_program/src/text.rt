// The text of a world, written line by line.
mod page;
mod print;
mod put;
mod world;

pub(crate) use world::write_world;
