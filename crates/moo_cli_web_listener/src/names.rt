//! The hosts and the origins that a server of browsers allows.
ghost use Rattle.std.specs.Prelude.{◌≡◌, ◌⊎◌, ◌++◌, ℕ, List, Contains, codes, map, IfOk, OnOk};
ghost use Rattle.std.specs.declared.net.socket_addr.SocketAddr.{SocketAddr as SocketAddrModel};
ghost use Rattle.moo_cli_web_listener.specs.Names.{AllowsNames, IsGiven, IsHostOf, IsLocalHost, local_names};

use moo_cli_web_request::Allowed;
use std::alloc::{AllocError, Global};
use std::net::SocketAddr;

/// Returns the address on which a server listens, the names of this machine with its port, and these further origins with their hosts.
/// An address of all networks, as 0.0.0.0, is no host. An origin is a scheme with a host, as
/// `https://moo.example.org`. Fails only if memory runs out.
#[tactic(auto, using(crate::proofs::Naming::first_name, crate::proofs::Naming::second_name, crate::proofs::Naming::third_name))]
pub fn allowed_names(
    alloc: Global,
    address: SocketAddr,
    origins: &[&str],
) -> Result<Allowed, AllocError>
    ensures { IfOk result (AllowsNames address (map (λ origin. origin.now) origins.now)) }
{
    let mut allowed = Allowed {
        hosts: Vec::new(alloc),
        origins: Vec::new(alloc),
    };
    allow_name(alloc, &mut allowed, "127.0.0.1", address)?;
    allow_name(alloc, &mut allowed, "localhost", address)?;
    allow_name(alloc, &mut allowed, "[::1]", address)?;
    allow_own(alloc, &mut allowed, address)?;
    for origin in origins {
        allow_origin(alloc, &mut allowed, origin)?;
    }
    Ok(allowed)
}

// Allows a name of this machine with the port of the address.
fn allow_name(
    alloc: Global,
    allowed: &mut Allowed,
    name: &str,
    address: SocketAddr,
) -> Result<(), AllocError>
    requires { Contains local_names name.now }
    ensures { OnOk result ((given : List (List ℕ)) → AllowsNames address given allowed.old → AllowsNames address given allowed.new) }
{
    let port = address.port();
    let host = format!(in alloc; "{name}:{port}")?;
    allow_local(alloc, allowed, host, address)
}

// Allows the address itself, unless it is that of all networks.
fn allow_own(alloc: Global, allowed: &mut Allowed, address: SocketAddr) -> Result<(), AllocError>
    ensures { OnOk result ((given : List (List ℕ)) → AllowsNames address given allowed.old → AllowsNames address given allowed.new) }
{
    if address.ip().is_unspecified() {
        return Ok(());
    }
    let host = format!(in alloc; "{address}")?;
    allow_local(alloc, allowed, host, address)
}

// Allows a host of this machine, and the pages under it.
#[tactic(auto, using(crate::proofs::Naming::local_allowed))]
fn allow_local(
    alloc: Global,
    allowed: &mut Allowed,
    host: String,
    address: SocketAddr,
) -> Result<(), AllocError>
    requires { IsLocalHost address host.bytes.items }
    ensures { OnOk result ((given : List (List ℕ)) → AllowsNames address given allowed.old → AllowsNames address given allowed.new) }
{
    let origin = format!(in alloc; "http://{host}")?;
    allowed.hosts.push(host.into_bytes())?;
    allowed.origins.push(origin.into_bytes())?;
    Ok(())
}

// Allows an origin and its host.
#[tactic(auto, using(crate::proofs::Naming::origin_allowed))]
fn allow_origin(alloc: Global, allowed: &mut Allowed, origin: &str) -> Result<(), AllocError>
    ensures { OnOk result ((address : SocketAddrModel) (given : List (List ℕ)) → Contains given origin.now → AllowsNames address given allowed.old → AllowsNames address given allowed.new) }
{
    let origin = without_slash(origin);
    let host = Vec::from_slice(alloc, host_of(origin).as_bytes())?;
    allowed.hosts.push(host)?;
    let origin = Vec::from_slice(alloc, origin.as_bytes())?;
    allowed.origins.push(origin)?;
    Ok(())
}

// Returns an origin without the slash that an address in a browser has at its end.
fn without_slash(origin: &str) -> &str
    ensures { (origin.now ≡ result.now) ⊎ (origin.now ≡ result.now ++ codes "/") }
{
    match origin.strip_suffix("/") {
        Some(origin) => origin,
        None => origin,
    }
}

// Returns the host of an origin, or all of it if it has no scheme.
fn host_of(origin: &str) -> &str
    ensures { IsHostOf origin.now result.now }
{
    match origin.split_once("//") {
        Some((_, host)) => host,
        None => origin,
    }
}
