// Views over marks: what every view refuses, which positions are traced, the byte mask, the target marks, overlaps, and runs of data.
#![tactic(auto)]

mod damage;
pub mod data;
pub mod labels;
pub mod mask;
pub mod overlaps;
pub mod traced;
pub mod unmasked;
pub mod view;

pub use data::{DataRun, data_run};
pub use labels::target_marks;
pub use mask::{build_byte_mask, end_with};
pub use overlaps::{Overlaps, find_overlaps, overlaps_at};
pub use traced::is_traced_at;
pub use unmasked::unmasked_run;
pub use view::{ViewError, check, check_room};
