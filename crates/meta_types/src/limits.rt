//! The limits that several layers share. All of them are this project's own.
ghost use Rattle.std.specs.Prelude.{◌≡◌, IfSome, IfNone, true, false};
ghost use Rattle.meta_types.specs.Limits.{is_worker_count};

/// The largest number of workers that a collection may be asked to use.
pub const MAX_WORKERS: usize = 16;

/// The largest number of marking nodes of a collection: two for each content and snapshot row, one
/// for each ingest.
pub const MAX_NODES: usize = 16_777_216;

/// The largest number of a backend snapshot or ingest.
pub const MAX_NUMBER: u64 = 4_000_000_000;

/// The longest line that can be a request, in bytes without its line feed.
pub const LINE_LIMIT: usize = 65_536;

/// Whether a collection may be asked to use this number of workers.
pub fn is_worker_count(workers: usize) -> bool
    ensures { result ≡ is_worker_count workers }
{
    1 <= workers && workers <= MAX_WORKERS
}

/// A number of workers that a collection may be asked to use.
#[derive(Clone, Copy)]
pub struct Workers {
    pub count: usize,
    ghost allowed: { is_worker_count count ≡ true },
}

impl Workers {
    /// The calling thread alone.
    pub const ONE: Workers = Workers { count: 1 };

    /// This number, if it is allowed.
    pub fn new(count: usize) -> Option<Workers>
        ensures some { IfSome result (λ workers. workers.count ≡ count) }
        ensures none { IfNone result (is_worker_count count ≡ false) }
    {
        if !is_worker_count(count) {
            return None;
        }
        Some(Workers { count })
    }
}
