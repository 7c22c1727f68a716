//! The head of a request, read from the bytes that have come.
ghost use Rattle.std.specs.Prelude.{◌≡◌, ◌≤◌, ℕ, List, length, All, option_map};
ghost use Rattle.httparse.specs.Grammar.{ReadsRequest, RequestHead, print_request};
ghost use Rattle.httparse.specs.Spans.{IsHeaderWithin, IsRequestWithin, span_bytes};
ghost use Rattle.websocket.specs.Headers.{fields_of, header_value};
ghost use Rattle.moo_cli_web_request.specs.Requests.{AsksFor, IsOfHead, Requests, Upgrades, RequestsBy, count_named, fields_in, has_right_host, host_for, is_among, is_named};

use crate::allowed::{Allowed, is_one_of, is_same};
use crate::refusal::Refusal;
use crate::request::Request;
use crate::target::{authority_of, path_of};
use httparse::spans::{EMPTY_HEADER_SPAN, HeaderSpan, RequestSpans, parse_request};
use httparse::{Error, Status};
use websocket::handshake::server::check_request;

/// The greatest number of bytes of a head.
pub const HEAD_MOST: usize = 8192;

/// The greatest number of fields of a head.
const FIELDS_MOST: usize = 64;

/// Returns what the bytes that have come ask for. While that is `Incomplete`, call it again with more bytes after them.
#[tactic(auto, using(crate::proofs::Choices::head_asks))]
pub fn read_request(bytes: &[u8], allowed: &Allowed) -> Request
    ensures found { (h : RequestHead) (rest : List ℕ) → ReadsRequest bytes.now h rest → length h.fields ≤ 64 → length (print_request h) ≤ 8192
        → Requests allowed.now h result }
    ensures asks { AsksFor allowed.now bytes.now result }
{
    let mut spans = [EMPTY_HEADER_SPAN; FIELDS_MOST];
    match parse_request(bytes, &mut spans) {
        Ok(Status::Complete(head)) if head.len <= HEAD_MOST => request_by(
            bytes, &head, &spans, allowed,
        ),
        Ok(Status::Partial) if bytes.len() < HEAD_MOST => Request::Incomplete,
        Ok(_) | Err(Error::TooManyHeaders) => Request::Refused(Refusal::TooLarge),
        Err(_) => Request::Refused(Refusal::BadRequest),
    }
}

// Returns what a whole head asks for.
fn request_by(bytes: &[u8], head: &RequestSpans, spans: &[HeaderSpan], allowed: &Allowed) -> Request
    requires { IsRequestWithin bytes.now spans.now head.now }
    ensures asks { RequestsBy allowed.now (span_bytes bytes.now head.now.method) (span_bytes bytes.now head.now.path) head.now.version
        (fields_in bytes.now spans.now head.now) head.now.len result }
    ensures whole { IsOfHead result }
{
    let fields = &spans[..head.headers];
    if !has_right_host(bytes, fields, head.version) {
        return Request::Refused(Refusal::BadRequest);
    }
    let target = head.path.of(bytes);
    if !is_for(bytes, fields, target, &allowed.hosts) {
        return Request::Refused(Refusal::Forbidden);
    }
    if head.method.of(bytes) != b"GET".as_slice() {
        return Request::Refused(Refusal::MethodNotAllowed);
    }
    match path_of(target) {
        b"/" => Request::Page,
        b"/ws" => upgrade_by(bytes, head, spans, allowed),
        _ => Request::Refused(Refusal::NotFound),
    }
}

// Returns a WebSocket, if a page of an allowed origin asks for it by a handshake.
fn upgrade_by(bytes: &[u8], head: &RequestSpans, spans: &[HeaderSpan], allowed: &Allowed) -> Request
    requires { IsRequestWithin bytes.now spans.now head.now }
    ensures upgrades { Upgrades allowed.now (span_bytes bytes.now head.now.method) head.now.version (fields_in bytes.now spans.now head.now) head.now.len result }
    ensures whole { IsOfHead result }
{
    let fields = &spans[..head.headers];
    if !has_field(bytes, fields, b"Origin", &allowed.origins) {
        return Request::Refused(Refusal::Forbidden);
    }
    match check_request(bytes, head, spans) {
        Ok(accept) => Request::Upgrade(accept, head.len),
        Err(_) => Request::Refused(Refusal::UpgradeRequired),
    }
}

// Returns whether there is one `Host`, or none in a request of HTTP/1.0.
fn has_right_host(bytes: &[u8], fields: &[HeaderSpan], minor: u8) -> bool
    requires { All (IsHeaderWithin (length bytes.now)) fields.now }
    ensures { result ≡ has_right_host minor (fields_of bytes.now fields.now) }
{
    let count = count_named(bytes, fields, b"Host");
    count == 1 || (count == 0 && minor == 0)
}

// Returns the number of fields of this name.
fn count_named(bytes: &[u8], fields: &[HeaderSpan], name: &[u8]) -> usize
    requires { All (IsHeaderWithin (length bytes.now)) fields.now }
    ensures { result ≡ count_named (fields_of bytes.now fields.now) name.now }
{
    let mut count = 0;
    for field in fields {
        if is_same(field.name.of(bytes), name) {
            count += 1;
        }
    }
    count
}

// Returns whether a request is for one of these hosts: by its target, or else by its field `Host`. The case of letters doesn't matter.
fn is_for(bytes: &[u8], fields: &[HeaderSpan], target: &[u8], hosts: &[Vec<u8>]) -> bool
    requires { All (IsHeaderWithin (length bytes.now)) fields.now }
    ensures { result ≡ is_among hosts.now (host_for target.now (fields_of bytes.now fields.now)) }
{
    match authority_of(target) {
        Some(host) => is_one_of(hosts, host),
        None => has_field(bytes, fields, b"Host", hosts),
    }
}

// Returns whether the first field of this name has one of these values. The case of letters doesn't matter.
fn has_field(bytes: &[u8], fields: &[HeaderSpan], name: &[u8], values: &[Vec<u8>]) -> bool
    requires { All (IsHeaderWithin (length bytes.now)) fields.now }
    ensures { result ≡ is_named (fields_of bytes.now fields.now) name.now values.now }
{
    match value_of(bytes, fields, name) {
        Some(value) => is_one_of(values, value),
        None => false,
    }
}

// Returns the value of the first field of this name.
fn value_of<'b>(bytes: &'b [u8], fields: &[HeaderSpan], name: &[u8]) -> Option<&'b [u8]>
    requires { All (IsHeaderWithin (length bytes.now)) fields.now }
    ensures { option_map (λ v. v.now) result ≡ header_value (fields_of bytes.now fields.now) name.now }
{
    for field in fields {
        if is_same(field.name.of(bytes), name) {
            return Some(field.value.of(bytes));
        }
    }
    None
}
