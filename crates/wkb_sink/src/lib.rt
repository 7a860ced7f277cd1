//! Sinks for bytes, and the parts of an encoding that go to one by blocks.
//!
//! There are three layers, each over the one before. To *store* is to write numbers into the bytes of a slice
//! (`store`). To *lay* is to store a part of an encoding in a block that has room for it (`block`); like storing, it
//! can't fail. To *put* is to make room, by giving the sink what waits in the block, and then to lay (`buffered`).
//! Only a failure of the sink can stop that.
#![tactic(auto)]

pub mod block;
pub mod buffered;
pub mod options;
mod sink;
mod store;

pub use buffered::{Buffered, Stopped};
pub use options::WriteOptions;
pub use sink::{LayWhole, MAX_IN_PLACE, Out, Sink, SliceSink, VecSink};
pub use store::{other, store_word, store_words, u32_bytes};
