//! The hosts and the origins that are allowed.
ghost use Rattle.std.specs.Prelude.{◌≡◌};
ghost use Rattle.std.specs.List.{list_any};
ghost use Rattle.websocket.specs.Headers.{eq_ignore_case};
ghost use Rattle.moo_cli_web_request.specs.Requests.{is_one_of};

/// Holds the hosts that a request may name, and the origins of pages that may open a WebSocket. A page of another site names its own
/// origin. A page under another name of this machine (DNS rebinding) has that name in both.
#[derive(Drop)]
pub struct Allowed {
    pub hosts: Vec<Vec<u8>>,
    pub origins: Vec<Vec<u8>>,
}

/// Returns whether a text is one of these. The case of letters doesn't matter.
pub(crate) fn is_one_of(names: &[Vec<u8>], text: &[u8]) -> bool
    ensures { result ≡ is_one_of names.now text.now }
{
    is_any(names, text)
}

fn is_any(names: &[Vec<u8>], text: &[u8]) -> bool
    ensures { result ≡ list_any (λ name. eq_ignore_case name.items text.now) names.now }
{
    names.iter().any(|name| is_same(name, text))
}

/// Returns whether two texts differ in the case of letters alone.
pub(crate) fn is_same(a: &[u8], b: &[u8]) -> bool
    ensures { result ≡ eq_ignore_case a.now b.now }
{
    a.eq_ignore_ascii_case(b)
}
