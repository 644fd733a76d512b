//! What is asked of the queue: batches of requests on the first day, up to which job the workers were done then, and the
//! requests of the batch for which the power didn't last.

use base_types::{Bytes, NoMemory};
use std::alloc::Global;

/// A request: what is to be done, and how many bytes of data come with it.
pub struct Request {
    /// What is to be done, in words.
    pub what: &'static str,
    /// How many bytes of data come with it.
    pub data: usize,
}

/// The first batch.
pub const MORNING: [Request; 2] = [
    Request {
        what: "mail to ann",
        data: 0,
    },
    Request {
        what: "scan",
        data: 40_000,
    },
];

/// The second batch.
pub const NOON: [Request; 2] = [
    Request {
        what: "print",
        data: 40_000,
    },
    Request {
        what: "mail to bob",
        data: 0,
    },
];

/// The jobs below this number were done in the evening.
pub const DONE: u32 = 2;

/// The batch for which the power didn't last.
pub const EVENING: [Request; 1] = [Request {
    what: "mail to cy",
    data: 0,
}];

/// The jobs that these requests ask for: the words of each, and behind them its data, which are zeros.
///
/// # Errors
/// Out of memory.
pub fn jobs_of(alloc: Global, requests: &[Request]) -> Result<Vec<Bytes>, NoMemory> {
    let mut jobs = Vec::with_capacity(alloc, requests.len())?;
    for request in requests {
        let mut bytes = Vec::from_slice(alloc, request.what.as_bytes())?;
        let data = vec![in alloc; 0u8; request.data]?;
        bytes.extend_from_slice(data.as_slice())?;
        jobs.push(Bytes::from_vec(bytes))?;
    }
    Ok(jobs)
}
