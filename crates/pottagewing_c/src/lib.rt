// The archive that C links: each call of the crate pottagewing under its C name, with the same clauses.
// include/pottagewing.h declares them. Each stands here once more, since an archive has the extern functions of its own crate alone and no
// program can call an archive.
#![tactic(auto)]

mod codec;
mod listed;
mod logs;
mod mapped;
mod tracing;
mod version;
mod viewing;
