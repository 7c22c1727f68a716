//! Laws of the frames of a WebSocket: how the network cuts its bytes changes nothing, and a browser reads what was sent.
ghost use Rattle.std.specs.Prelude.{◌≡◌, ◌≤◌, ◌++◌, ℕ, All, List, Ok, IfErr, OnOk, vec_len};
ghost use Rattle.websocket.specs.declared.protocol.config.Role.TheVariants.{Server};
ghost use Rattle.websocket.specs.Stream.{concat, read_all, read_chunks};
ghost use Rattle.moo_cli_web_frames.specs.Frames.{FailsFor, Receives, Shows, Waits, opened, payload_in, pieces_of};

use crate::endpoint::Endpoint;
use websocket::error::Error;

/// States that the payload in the frames of all bytes is what they have in pieces, each received after what the pieces before it
/// left.
pub fn pieces_have_one_payload()
    ensures { (pieces : List (List ℕ)) → payload_in (read_chunks opened pieces).effects ≡ payload_in (read_all opened (concat pieces)).effects }
{}

/// Receives these pieces, one after another, as far as none fails. The payload, the replies, the state and the error are those of
/// all their bytes.
pub fn receive_pieces(
    endpoint: &mut Endpoint,
    pieces: &[Vec<u8>],
    payload: &mut Vec<u8>,
    output: &mut Vec<u8>,
) -> Result<(), Error>
    requires { Waits endpoint.old.context endpoint.old.input.items }
    ensures ok { OnOk result (Receives (read_all endpoint.old.context (endpoint.old.input.items ++ concat (pieces_of pieces.now)))
        (Ok (endpoint.new.context, endpoint.new.input.items)) payload.old.items payload.new.items output.old.items output.new.items) }
    ensures err { IfErr result (FailsFor (read_all endpoint.old.context (endpoint.old.input.items ++ concat (pieces_of pieces.now)))
        payload.old.items payload.new.items output.old.items output.new.items) }
{
    for piece in pieces {
        endpoint.receive(piece, payload, output)?;
    }
    Ok(())
}

/// Sends these pieces, one after another, as far as none fails. A browser that reads what this appends to `output` gets the bytes of
/// all pieces.
pub fn send_pieces(
    endpoint: &mut Endpoint,
    pieces: &[Vec<u8>],
    output: &mut Vec<u8>,
) -> Result<(), Error>
    requires server { endpoint.old.context.role ≡ Server }
    requires short { All (λ piece. vec_len piece ≤ 16384) pieces.now }
    ensures { OnOk result ((frames : List ℕ) × (output.new.items ≡ output.old.items ++ frames) × Shows frames (concat (pieces_of pieces.now))) }
{
    for piece in pieces {
        endpoint.send(piece, output)?;
    }
    Ok(())
}
