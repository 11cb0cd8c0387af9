// Bytes as requests, one behind the other.
ghost use Rattle.std.specs.Prelude.{IfOk};
ghost use Rattle.console.specs.Requests.{Reads};

use crate::request::{Request, request_of};
use std::alloc::{AllocError, Global};

// How bytes end. Kept beside the requests, which stand either way.
#[derive(Clone, Copy, Debug, PartialEq, Eq)]
pub enum Ending {
    // With a request's last byte.
    Whole,
    // With an unknown or cut request.
    Stopped,
}

// The requests that bytes hold, and what stands behind them.
#[derive(Drop)]
pub struct Requests {
    pub items: Vec<Request>,
    pub ending: Ending,
}

pub fn read_requests(heap: Global, bytes: &[u8]) -> Result<Requests, AllocError>
    ensures { IfOk result (λ read. Reads bytes.now read.items.items read.ending) }
{
    let mut items = Vec::new(heap);
    let mut rest = bytes;
    while let [letter, body @ ..] = rest {
        let Some(request) = request_of(*letter, body) else {
            return Ok(Requests {
                items,
                ending: Ending::Stopped,
            });
        };
        items.push(request)?;
        rest = &body[request.body_length()..];
    }
    Ok(Requests {
        items,
        ending: Ending::Whole,
    })
}
