//! The bytes of a stream: its header, frames with their checksums, and the attributes of a frame,
//! read and written.
#![tactic(auto)]

pub mod attribute_numbers;
mod attribute_table;
mod feed;
mod frame_head;
mod frame_writer;
mod in_front;
mod laws;
mod stream_head;

pub use attribute_table::{AttrTable, attr_head_len, attrs};
pub use feed::{Feed, Passed, Unit};
pub use frame_head::FrameHead;
pub use frame_writer::FrameWriter;
pub use in_front::{FRAME_HEAD_LEN, HEADER_LEN, frame_in};
pub use laws::cuts_are_one_reading;
pub use stream_head::StreamHead;
