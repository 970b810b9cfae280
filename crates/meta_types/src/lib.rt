//! Names, digests, labels, moments, faults and rows; and all definitions, with their laws.
#![tactic(auto)]

mod copies;
mod data;
mod digest;
mod digest_text;
mod digits;
mod explanation;
mod fault;
mod instant;
mod kept;
mod labels;
pub mod laws;
mod limits;
mod listed;
mod name;
mod object;
mod raw;
mod reply;
mod request;
mod resource;
mod rows;
mod same;
mod shared;
mod short_name;
mod shown_row;
mod text;

pub use data::Data;
pub use digest::Digest;
pub use digest_text::DigestText;
pub use explanation::{By, Explanation, PathStep};
pub use fault::Fault;
pub use instant::Instant;
pub use labels::Labels;
pub use limits::{LINE_LIMIT, MAX_NODES, MAX_NUMBER, MAX_WORKERS, Workers, is_worker_count};
pub use listed::Listed;
pub use name::Name;
pub use object::Object;
pub use raw::{RawLabel, RawLabels, RawText};
pub use reply::{Holdings, Listing, Reply, ReplyRow};
pub use request::{
    ContainerAdd, ContainerSet, ContentAdd, ImageAdd, ImageSet, ImageTarget, IngestBegin,
    IngestCommit, LeaseAdd, LeaseResource, RawContent, RawName, RawSnapshot, Removal, Request,
    RowUpdate, SnapAdd, SnapCommit,
};
pub use resource::{Kind, Mode, Resource};
pub use rows::{ContainerRow, ContentRow, ImageRow, IngestRow, SnapKey, SnapKind, SnapRow};
pub use shared::Shared;
pub use short_name::ShortName;
pub use shown_row::ShownRow;
