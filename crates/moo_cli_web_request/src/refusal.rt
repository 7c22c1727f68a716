//! The reasons for which a request is refused.
ghost use Rattle.std.specs.Io.{StartsWith};
ghost use Rattle.moo_cli_web_request.specs.Requests.{status_line};

/// The reason for which a request is refused.
#[derive(Clone, Copy, Debug, PartialEq, Eq)]
pub enum Refusal {
    /// The bytes are no request, whatever follows them.
    BadRequest,
    /// The host or the origin isn't allowed.
    Forbidden,
    /// There is no such path.
    NotFound,
    /// The method isn't GET.
    MethodNotAllowed,
    /// The request for `/ws` isn't a handshake of RFC 6455.
    UpgradeRequired,
    /// The head is too long, or has too many fields.
    TooLarge,
}

impl Refusal {
    /// Returns the whole response, after which the connection is closed.
    pub fn response(self) -> &'static [u8]
        ensures { StartsWith result.now (status_line self) }
    {
        match self {
            Refusal::BadRequest =>
                b"HTTP/1.1 400 Bad Request\r\nContent-Type: text/plain\r\nContent-Length: 12\r\nConnection: close\r\n\r\nBad request\n",
            Refusal::Forbidden =>
                b"HTTP/1.1 403 Forbidden\r\nContent-Type: text/plain\r\nContent-Length: 53\r\nConnection: close\r\n\r\nThis host or origin isn't allowed: see --web-origin.\n",
            Refusal::NotFound =>
                b"HTTP/1.1 404 Not Found\r\nContent-Type: text/plain\r\nContent-Length: 10\r\nConnection: close\r\n\r\nNot found\n",
            Refusal::MethodNotAllowed =>
                b"HTTP/1.1 405 Method Not Allowed\r\nAllow: GET\r\nContent-Length: 0\r\nConnection: close\r\n\r\n",
            Refusal::UpgradeRequired =>
                b"HTTP/1.1 426 Upgrade Required\r\nConnection: upgrade, close\r\nUpgrade: websocket\r\nSec-WebSocket-Version: 13\r\nContent-Length: 0\r\n\r\n",
            Refusal::TooLarge =>
                b"HTTP/1.1 431 Request Header Fields Too Large\r\nContent-Length: 0\r\nConnection: close\r\n\r\n",
        }
    }
}
