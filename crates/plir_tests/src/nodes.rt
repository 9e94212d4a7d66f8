//! What no clause says: that the calls succeed, and what they do in worked trees: how nodes are numbered, linked, used
//! and erased, and what they hold.
mod bounds;
mod erasing;
