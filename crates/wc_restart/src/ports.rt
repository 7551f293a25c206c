//! The ports that a chain takes from its job, and what fits them.

ghost use Rattle.std.specs.Prelude.{◌≡◌, IfOk};
ghost use Rattle.wc_restart.specs.Ports.{port_of, required, asked_of, given_of, same_kind, has_port, all_among, ports_fit};

use crate::pieces::name_of;
use std::alloc::{AllocError, Global};
use wc_syntax::{Function, Library, Port, PortList, find_definition, head};
use wc_value::{Kind, Text};

/// A port, without its place in the file.
fn port_of(port: &Port) -> Result<Port, AllocError>
    ensures { IfOk result (λ p. p ≡ port_of port.now) }
{
    Ok(Port {
        at: 0,
        name: name_of(&port.name.text)?,
        optional: port.optional,
        kind: port.kind,
    })
}

/// The ports without `?`, without their places.
fn required(alloc: Global, ports: &PortList) -> Result<PortList, AllocError>
    ensures { IfOk result (λ found. found ≡ required ports.now) }
{
    let mut found = PortList::new(alloc);
    for port in ports.as_slice() {
        if !port.optional {
            found.push(port_of(port)?)?;
        }
    }
    Ok(found)
}

/// The required input ports of the definition of this name.
pub fn asked_of(alloc: Global, name: &Text, library: &Library) -> Result<PortList, AllocError>
    ensures { IfOk result (λ found. found ≡ asked_of name.now library.now) }
{
    match find_definition(library, name) {
        Some(definition) => required(alloc, &head(definition).inputs),
        None => Ok(PortList::new(alloc)),
    }
}

/// The required output ports of the definition of this name.
pub fn given_of(alloc: Global, name: &Text, library: &Library) -> Result<PortList, AllocError>
    ensures { IfOk result (λ found. found ≡ given_of name.now library.now) }
{
    match find_definition(library, name) {
        Some(definition) => required(alloc, &head(definition).outputs),
        None => Ok(PortList::new(alloc)),
    }
}

/// Whether two kinds are one.
fn same_kind(left: Kind, right: Kind) -> bool
    ensures { result ≡ same_kind left right }
{
    match (left, right) {
        (Kind::Int, Kind::Int)
        | (Kind::Bool, Kind::Bool)
        | (Kind::Text, Kind::Text)
        | (Kind::List, Kind::List)
        | (Kind::Dict, Kind::Dict)
        | (Kind::Folder, Kind::Folder) => true,
        _ => false,
    }
}

/// Whether a port with this one's name and kind is among these.
fn has_port(ports: &PortList, port: &Port) -> bool
    ensures { result ≡ has_port ports.now port.now }
{
    for other in ports.as_slice() {
        if other.name.text.bytes() == port.name.text.bytes() && same_kind(other.kind, port.kind) {
            return true;
        }
    }
    false
}

/// Whether each of some ports is among others.
fn all_among(ports: &PortList, others: &PortList) -> bool
    ensures { result ≡ all_among ports.now others.now }
{
    for port in ports.as_slice() {
        if !has_port(others, port) {
            return false;
        }
    }
    true
}

/// Whether a function takes and gives what a job with these required input ports asks for.
pub fn ports_fit(alloc: Global, ports: &PortList, function: &Function) -> Result<bool, AllocError>
    ensures { IfOk result (λ fits. fits ≡ ports_fit ports.now function.now) }
{
    let given = required(alloc, &function.head.outputs)?;
    Ok(
        all_among(&function.head.inputs, ports)
            && all_among(&given, ports)
            && all_among(ports, &given),
    )
}
