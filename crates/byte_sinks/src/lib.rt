//! Bytes on their way out: sinks, the writer that gathers bytes for one, and members of JSON objects.
#![tactic(auto)]

mod json;
pub mod laws;
mod limit_sink;
mod memory_sink;
mod objects;
mod sink;
mod std_sink;
mod writer;

pub use json::{Format, add_json_text, add_number_member, add_text_member};
pub use limit_sink::LimitSink;
pub use memory_sink::MemorySink;
pub use objects::{Count, Member, Scalar, Value, add_object};
pub use sink::{Sink, SinkFailed};
pub use std_sink::StdSink;
pub use writer::{BLOCK_LEN, PIECE_LEN, WriteFault, Writer};
