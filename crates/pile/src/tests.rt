//! Tests of the pile, and of the memories and the layers below it. A crate is proved once more for its tests, so these
//! stand in one.

mod edges;
mod ranges;
mod stacks;
