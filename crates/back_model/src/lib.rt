//! Backends of blobs, snapshots and ingests, as models whose devices may fail.
#![tactic(auto)]

mod backends;
mod faults;
mod fuse;
mod fuse_backend;
mod fuse_blobs;
mod fuse_ingests;
mod lent;
mod lists;
mod mem_backend;
mod mem_blobs;
mod mem_ingests;
mod shards;
mod traits;
mod unfailing;

pub use backends::Backends;
pub use faults::{MakeFault, RemoveFault};
pub use fuse_backend::FuseBackend;
pub use fuse_blobs::FuseBlobs;
pub use fuse_ingests::FuseIngests;
pub use lent::LentBackends;
pub use lists::BackLists;
pub use mem_backend::MemBackend;
pub use mem_blobs::MemBlobs;
pub use mem_ingests::MemIngests;
pub use traits::{BlobBackend, IngestBackend, SnapBackend};
