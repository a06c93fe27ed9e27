// What the C face hands over: the number of a refusal and five values, for each answer.
#![tactic(auto)]

pub mod back;
mod back_replies;
pub mod code;
pub mod codec;
mod codec_replies;
mod input_replies;
mod into_reply;
pub mod listed;
mod log_replies;
mod log_words;
pub mod logs;
pub mod map_asking;
pub mod map_keeping;
pub mod modes;
mod place_words;
pub mod reply;
mod trace_replies;
pub mod tracing;
mod view_replies;
pub mod viewing;

pub use back::{read_back, read_line};
pub use code::code_line;
pub use codec::{decode, encode, resolve, targets};
pub use listed::{list_text, listing, parse, report_text, unlist_text};
pub use logs::{replay, replay_block, replay_close, replay_open};
pub use map_asking::{map_count, map_first_data, map_test};
pub use map_keeping::{map_build, map_update};
pub use modes::mode;
pub use reply::Reply;
pub use tracing::{run, start, step, sweep};
pub use viewing::{arrivals, data_run, mask, overlaps, target_marks};
