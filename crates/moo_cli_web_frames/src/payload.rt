//! The payload of a message.
ghost use Rattle.std.specs.Prelude.{◌≡◌, ◌++◌, OnErr, OnOk, IfSome, option_map};
ghost use Rattle.websocket.specs.Content.{IsReceivedInside, received_content};
ghost use Rattle.moo_cli_web_frames.specs.Frames.{payload_of};

use std::alloc::AllocError;
use websocket::protocol::Received;

/// Appends the payload of a text or binary message, if there is one. Pings, pongs and a close have none. Fails only if memory runs
/// out.
pub(crate) fn append_payload(
    message: &Option<Received>,
    input: &[u8],
    payload: &mut Vec<u8>,
) -> Result<(), AllocError>
    requires { IfSome message.now (IsReceivedInside input.now) }
    ensures ok { OnOk result (payload.new.items ≡ payload.old.items ++ payload_of (option_map (received_content input.now) message.now)) }
    ensures err { OnErr result (payload.new.items ≡ payload.old.items) }
{
    match message {
        Some(Received::Text(span)) | Some(Received::Binary(span)) => {
            payload.extend_from_slice(span.of(input))
        }
        _ => Ok(()),
    }
}
