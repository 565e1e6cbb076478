//! What a request asks for.

ghost use Rattle.std.specs.Prelude.{◌≡◌};
ghost use Rattle.rs_metrics_server.specs.Asking.{asked_of, by_method};

use crate::limits::MAX_HEAD;
use http1::{Event, Limits, Server};
use httparse::spans::{EMPTY_HEADER_SPAN, Span};

/// How many fields the head of a request may have.
const MAX_FIELDS: usize = 64;

/// What a request asks for.
#[derive(Clone, Copy, PartialEq, Eq)]
pub enum Asked {
    /// Its head has not come as a whole, and more bytes may complete it.
    NeedMore,
    /// The numbers: GET or HEAD of `/metrics`.
    Metrics,
    /// The health: GET or HEAD of `/healthz`.
    Health,
    /// Another path.
    NotFound,
    /// Another method.
    NotAllowed,
    /// It is refused with this status: 400 if it is malformed, 414 or 431 if its head is too long.
    Refused(u16),
}

/// A reader of requests with a head of at most [`MAX_HEAD`] bytes.
pub(crate) fn new_reader() -> Server {
    Server::new(Limits {
        max_head_len: MAX_HEAD,
        max_extensions_len: 2,
        max_trailers_len: 2,
    })
}

/// What the request at the start of `input` asks for, as far as it has come. `server` waits for a request ([`new_reader`]), and then may write
/// the reply, unless more is needed.
pub(crate) fn read_request(server: &mut Server, input: &[u8]) -> Asked {
    let mut fields = [EMPTY_HEADER_SPAN; MAX_FIELDS];
    match server.read(input, &mut fields) {
        Ok(progress) => match progress.event {
            Event::Head(head) => {
                asked_for(part(input, head.method), path_of(part(input, head.path)))
            }
            _ => Asked::NeedMore,
        },
        Err(error) => Asked::Refused(error.status()),
    }
}

/// What the request at the start of `input` asks for, as far as it has come. What follows its head does not count.
pub fn parse_request(input: &[u8]) -> Asked {
    read_request(&mut new_reader(), input)
}

/// A part of a head, which lies within it.
fn part(input: &[u8], span: Span) -> &[u8] {
    match input.get(span.start..span.end) {
        Some(part) => part,
        None => &input[..0],
    }
}

/// What this method and this path ask for.
fn asked_for(method: &[u8], path: &[u8]) -> Asked
    ensures { result ≡ asked_of method.now path.now }
{
    if path == b"/metrics".as_slice() {
        by_method(method, Asked::Metrics)
    } else if path == b"/healthz".as_slice() {
        by_method(method, Asked::Health)
    } else {
        Asked::NotFound
    }
}

/// The page, if it is asked for by GET or HEAD.
fn by_method(method: &[u8], page: Asked) -> Asked
    ensures { result ≡ by_method method.now page }
{
    if method == b"GET".as_slice() {
        page
    } else if method == b"HEAD".as_slice() {
        page
    } else {
        Asked::NotAllowed
    }
}

/// The target up to its query.
fn path_of(target: &[u8]) -> &[u8] {
    match target.iter().position(|byte| *byte == b'?') {
        Some(len) => &target[..len],
        None => target,
    }
}
