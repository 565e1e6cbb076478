//! Replies.

use http1::{BodySize, Header, Server, WriteError};

/// A reply to a request.
#[derive(Clone, Copy)]
pub struct Reply<'a> {
    /// Its status.
    pub status: u16,
    /// The phrase behind its status.
    pub reason: &'a [u8],
    /// Its fields, without that of its length.
    pub headers: &'a [Header<'a>],
    /// Its body.
    pub body: &'a [u8],
}

const CLOSE: Header<'static> = Header {
    name: b"connection",
    value: b"close",
};

const PLAIN: Header<'static> = Header {
    name: b"content-type",
    value: b"text/plain; charset=utf-8",
};

/// The fields of the numbers. The connection has one reply.
const TEXT_FIELDS: &[Header<'static>] = &[
    Header {
        name: b"content-type",
        value: b"text/plain; version=0.0.4; charset=utf-8",
    },
    CLOSE,
];

const PLAIN_FIELDS: &[Header<'static>] = &[PLAIN, CLOSE];

const METHOD_FIELDS: &[Header<'static>] = &[
    Header {
        name: b"allow",
        value: b"GET, HEAD",
    },
    PLAIN,
    CLOSE,
];

impl<'a> Reply<'a> {
    /// The numbers, as this text.
    pub(crate) fn metrics(text: &'a [u8]) -> Reply<'a> {
        Reply {
            status: 200,
            reason: b"OK",
            headers: TEXT_FIELDS,
            body: text,
        }
    }

    /// Whether the writer takes changes.
    pub(crate) fn health(is_taking: bool) -> Reply<'a> {
        if is_taking {
            Reply::plain(200, b"OK", b"the writer takes changes\n")
        } else {
            Reply::plain(
                503,
                b"Service Unavailable",
                b"the writer takes no changes\n",
            )
        }
    }

    pub(crate) fn not_found() -> Reply<'a> {
        Reply::plain(
            404,
            b"Not Found",
            b"not found: ask for /metrics or /healthz\n",
        )
    }

    pub(crate) fn not_allowed() -> Reply<'a> {
        Reply {
            status: 405,
            reason: b"Method Not Allowed",
            headers: METHOD_FIELDS,
            body: b"only GET and HEAD are allowed\n",
        }
    }

    /// A request that cannot be read is refused with this status.
    pub(crate) fn refused(status: u16) -> Reply<'a> {
        match status {
            414 => Reply::plain(414, b"URI Too Long", b"the request line is too long\n"),
            431 => Reply::plain(
                431,
                b"Request Header Fields Too Large",
                b"the head of the request is too long\n",
            ),
            _ => Reply::plain(400, b"Bad Request", b"the request is malformed\n"),
        }
    }

    fn plain(status: u16, reason: &'a [u8], body: &'a [u8]) -> Reply<'a> {
        Reply {
            status,
            reason,
            headers: PLAIN_FIELDS,
            body,
        }
    }
}

/// Appends a reply to the request that `server` has read, or that it has refused. One to HEAD has no body, and the length that it would have.
///
/// # Errors
///
/// If memory is refused, or if `server` has read nothing, or the reply cannot be written in HTTP/1.1. Then a part of it may be appended.
pub fn write_reply(
    server: &mut Server,
    output: &mut Vec<u8>,
    reply: &Reply<'_>,
) -> Result<(), WriteError> {
    let size = BodySize::Known(reply.body.len() as u64);
    server.write_response(output, reply.status, reply.reason, reply.headers, size)?;
    match server.write_data(output, reply.body) {
        // That to HEAD takes no body.
        Ok(()) | Err(WriteError::BodyTooLong) => Ok(()),
        Err(error) => Err(error),
    }
}
