//! The addresses on which a server listens.
ghost use Rattle.std.specs.Prelude.{◌≡◌, ℕ, map, IfOk, MatchOption, None};
ghost use Rattle.moo_cli_sockets.specs.Browsers.{ServesWeb};
ghost use Rattle.moo_cli_sockets.specs.Coming.{held};

use log::{Log, info};
use moo_cli_sockets::{Sockets, SocketsFault};
use moo_cli_telnet::Telnet;
use std::alloc::Global;
use std::net::{IpAddr, Ipv4Addr, Ipv6Addr, Net, SocketAddr};

/// The port for browsers, and who may connect there.
#[derive(Clone, Copy, Debug)]
pub struct Web<'a> {
    /// The port, or 0 for any that is free.
    pub port: u16,
    /// The origins of pages that may connect, besides those of this machine.
    pub origins: &'a [&'a str],
}

/// Listens on a port of an address, and for browsers on another if they are served. Logs the address of the page, which is this
/// machine's own if the server listens on all. No connection has a socket yet. Fails if an address is not available, or if memory runs out.
pub fn listen<R: Net + Log>(
    rt: &R,
    alloc: Global,
    host: IpAddr,
    port: u16,
    telnet: Option<Telnet>,
    web: Option<Web<'_>>,
) -> Result<Sockets, SocketsFault>
    ensures none { IfOk result (λ sockets. (c : ℕ) → held sockets.sockets c ≡ None) }
    ensures filter { IfOk result (λ sockets. sockets.telnet ≡ telnet) }
    ensures browsers { IfOk result (λ sockets. MatchOption web.entry (sockets.web ≡ None) (λ web. ServesWeb host (map (λ origin. origin.now) web.origins.now) sockets)) }
{
    let mut sockets = Sockets::open(rt, alloc, host, port, telnet)?;
    let Some(web) = web else {
        return Ok(sockets);
    };
    let address = page_address(sockets.open_web(rt, host, web.port, web.origins)?);
    info!(rt; target: "moo::serve", "the page for browsers is http://{address}/");
    Ok(sockets)
}

// Returns the address at which a browser of this machine finds the page of a listener at this address. `0.0.0.0` and `::`
// are names of no host.
fn page_address(address: SocketAddr) -> SocketAddr {
    let ip = match address.ip() {
        IpAddr::V4(ip) if ip.is_unspecified() => IpAddr::V4(Ipv4Addr::LOCALHOST),
        IpAddr::V6(ip) if ip.is_unspecified() => IpAddr::V6(Ipv6Addr::LOCALHOST),
        ip => ip,
    };
    SocketAddr::from((ip, address.port()))
}
