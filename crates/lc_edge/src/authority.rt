ghost use Rattle.std.specs.Prelude.{◌≡◌, [], Some};

use std::net::Ipv6Addr;

/// The port of HTTP (RFC 9110, section 4.2.1).
const HTTP_PORT: u16 = 80;

/// The host and the port that an authority says, or 80 where it says no port (RFC 3986, section 3.2). An IPv6 address is in brackets,
/// and is the host without them.
pub(crate) fn host_and_port(authority: &str) -> Option<(&str, u16)> {
    match authority.rsplit_once(':') {
        // A colon before the closing bracket is the address's own.
        Some((host, port)) if !port.ends_with(']') => Some((host_of(host)?, port_of(port)?)),
        _ => Some((host_of(authority)?, HTTP_PORT)),
    }
}

/// A name or an address, without the brackets of an IPv6 address.
fn host_of(host: &str) -> Option<&str>
    ensures { host.now ≡ [] → result ≡ None }
{
    let Some(inner) = host.strip_prefix('[') else {
        return if host.is_empty() { None } else { Some(host) };
    };
    let address = inner.strip_suffix(']')?;
    match address.parse::<Ipv6Addr>() {
        Ok(_) => Some(address),
        Err(_) => None,
    }
}

/// The number of a port in decimal digits.
fn port_of(port: &str) -> Option<u16>
    ensures { port.now ≡ [] → result ≡ Some HTTP_PORT }
{
    if port.is_empty() {
        return Some(HTTP_PORT);
    }
    if port.bytes().all(|byte| byte.is_ascii_digit()) {
        port.parse::<u16>().ok()
    } else {
        None
    }
}
