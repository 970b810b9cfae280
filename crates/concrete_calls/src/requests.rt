//! Stores over backends in memory, and over those with fuses.
ghost use Rattle.meta_types.specs.Sound.{IsSound};

use back_model::{
    BlobBackend, FuseBackend, FuseBlobs, FuseIngests, IngestBackend, MemBackend, MemBlobs,
    MemIngests, SnapBackend,
};
use meta_types::{Fault, RawText, Reply, Request};
use request_core::State;
use std::alloc::Global;

pub(crate) fn space(alloc: Global) -> Result<Request<'static>, Fault> {
    let ns = RawText::new(String::from_str(alloc, "x")?);
    Ok(Request::NsAdd { ns })
}

fn answer<S: SnapBackend, B: BlobBackend, I: IngestBackend>(
    store: &mut State<S, B, I>,
    alloc: Global,
    request: Result<Request<'static>, Fault>,
) -> Result<Reply, Fault>
    requires { IsSound store.old.state }
{
    match request {
        Ok(request) => {
            let reply = store.apply(alloc, &request);
            // For the prover: dropped by a call, not in place.
            drop(request);
            reply
        }
        Err(fault) => Err(fault),
    }
}

fn is_answered<S: SnapBackend, B: BlobBackend, I: IngestBackend>(
    store: &mut State<S, B, I>,
    alloc: Global,
) -> bool
    requires { IsSound store.old.state }
{
    let reply = answer(store, alloc, space(alloc));
    let is_done = matches!(&reply, Ok(Reply::Done));
    // For the prover: dropped by a call, not in place.
    drop(reply);
    is_done && store.records.tables.counts().namespaces == 1
}

fn calls_in_memory(alloc: Global) -> bool {
    let mut store = State::<MemBackend, MemBlobs, MemIngests>::empty(alloc);
    let is_answered = is_answered(&mut store, alloc);
    // For the prover: dropped by a call, not in place.
    drop(store);
    is_answered
}

fn calls_with_fuses(alloc: Global) -> bool {
    let mut store = State::<FuseBackend, FuseBlobs, FuseIngests>::empty(alloc);
    let is_answered = is_answered(&mut store, alloc);
    // For the prover: dropped by a call, not in place.
    drop(store);
    is_answered
}

/// Adds a namespace to a store in memory, and to one whose backends have fuses.
pub(crate) fn calls(alloc: Global) -> bool {
    calls_in_memory(alloc) && calls_with_fuses(alloc)
}
