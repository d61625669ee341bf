//! Replies as they are read.
use http_text::{Reply, read_reply};
use lc_model::PlainData;
use rows_common::Draft;
use std::alloc::Global;

/// Bytes, and what is said of them as of a reply: the status, the location, the moment in seconds, or 0, and the body. Or it is
/// their first fault.
const REPLIES: [&str; 20] = [
    "HTTP/1.1 200 OK\r\nContent-Length: 0\r\n\r\n",
    "HTTP/1.1 404 Not Found\r\nContent-Length: 0\r\n\r\n",
    "HTTP/1.0 200\r\n\r\nall of it",
    "HTTP/1.1 200 OK\r\ncontent-LENGTH: 3\r\n\r\nabcdef",
    "HTTP/1.1 302 Found\r\nlocation: http://a/\r\nLocation: http://b/\r\n\r\n",
    "HTTP/1.1 200 OK\r\nMEMENTO-datetime: Wed, 01 May 2024 07:00:00 GMT\r\nMemento-Datetime: yesterday\r\n\r\n",
    "HTTP/1.1 200 OK\r\nMemento-Datetime: yesterday\r\n\r\n",
    // curl -s -i http://127.0.0.1:8083/r, of nginx with `location /r { return 302 http://lc.example/x; }`
    "HTTP/1.1 302 Moved Temporarily\r\nServer: nginx/1.22.1\r\nDate: Fri, 27 Nov 2026 05:30:21 GMT\r\nContent-Type: text/html\r\nContent-Length: 145\r\nConnection: keep-alive\r\nLocation: http://lc.example/x\r\n\r\n<html>\r\n<head><title>302 Found</title></head>\r\n<body>\r\n<center><h1>302 Found</h1></center>\r\n<hr><center>nginx/1.22.1</center>\r\n</body>\r\n</html>\r\n",
    "",
    "HTTP/1.1 200 OK\r\nContent-Length: 0\r\n",
    "HTTP/1.1 20 OK\r\n\r\n",
    "GET / HTTP/1.1\r\nHost: x\r\n\r\n",
    "HTTP/1.1 200 OK\r\nTransfer-Encoding: chunked\r\n\r\n0\r\n\r\n",
    "HTTP/1.1 200 OK\r\nContent-Length: x\r\nTransfer-Encoding: chunked\r\n\r\n",
    "HTTP/1.1 200 OK\r\nTransfer-Encoding: chunked\r\nContent-Length: x\r\n\r\n",
    "HTTP/1.1 200 OK\r\nContent-Length: 9\r\nTransfer-Encoding: chunked\r\n\r\n0\r\n\r\n",
    "HTTP/1.1 200 OK\r\nContent-Length: 9\r\nContent-Length: 1\r\n\r\na",
    "HTTP/1.1 200 OK\r\nContent-Length: 1\r\nContent-Length: 1\r\n\r\na",
    "HTTP/1.1 200 OK\r\nContent-Length: 12345678901\r\n\r\na",
    "HTTP/1.1 200 OK\r\nContent-Length: 10\r\n\r\nabcdefghi",
];

/// A line for each of the replies, and for one whose location is no UTF-8.
pub(super) fn put_replies_read(alloc: Global, draft: &mut Draft) {
    for bytes in &REPLIES {
        put_reply(alloc, draft, bytes.as_bytes());
    }
    put_reply(
        alloc,
        draft,
        b"HTTP/1.1 302 Found\r\nLocation: \xff\r\n\r\n",
    );
}

fn put_reply(alloc: Global, draft: &mut Draft, bytes: &[u8]) {
    draft.put_quoted(bytes);
    draft.put(": ");
    match read_reply(alloc, bytes) {
        Ok(reply) => match reply.copy(alloc) {
            Ok(copy) => put_said(draft, bytes, &copy),
            Err(_) => draft.lose(),
        },
        Err(fault) => draft.put_shown(&fault),
    }
    draft.put("\n");
}

/// The status, the location, the moment and the body.
fn put_said(draft: &mut Draft, bytes: &[u8], reply: &Reply) {
    draft.put_shown(&reply.status);
    draft.put(" <");
    if let Some(url) = &reply.location {
        draft.put(url.as_str());
    }
    draft.put("> ");
    match reply.memento {
        Some(moment) => draft.put_shown(&moment.seconds()),
        None => draft.put("0"),
    }
    draft.put(" [");
    draft.put_escaped(
        bytes
            .get(reply.body_from..reply.body_to)
            .unwrap_or(b"no body"),
    );
    draft.put("]");
}
