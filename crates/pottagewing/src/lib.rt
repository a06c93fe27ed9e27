// The C face: each call answers 0 or the number of a refusal, and puts the values into a room of five that the caller lends.
// include/pottagewing.h declares the calls for C, which pottagewing_c exports under these names; what each hands over is worked out in
// c_answers. Numbers and lent buffers are all that C passes, so no enum and no Result stands in their signatures.
#![tactic(auto)]

pub mod codec;
pub mod listed;
pub mod logs;
pub mod mapped;
pub mod tracing;
pub mod version;
pub mod viewing;

pub use codec::{pw_decode, pw_encode, pw_resolve, pw_targets};
pub use listed::{
    pw_code_line, pw_list_text, pw_listing, pw_parse, pw_read_back, pw_read_line, pw_report_text,
    pw_unlist_text,
};
pub use logs::{pw_replay, pw_replay_block, pw_replay_close, pw_replay_open};
pub use mapped::{pw_map_build, pw_map_count, pw_map_first_data, pw_map_test, pw_map_update};
pub use tracing::{pw_run, pw_start, pw_step, pw_sweep};
pub use version::pw_version;
pub use viewing::{pw_arrivals, pw_data_run, pw_mask, pw_overlaps, pw_target_marks};
