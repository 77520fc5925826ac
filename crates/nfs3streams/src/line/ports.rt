//! Words that name ports.

ghost use Rattle.std.specs.Prelude.{◌≡◌, ◌++◌, ◌∷◌, ℕ, [], List, IfErr, IfOk, MatchOption, OnOk, map};
ghost use Rattle.line3.specs.Asked.{IsUsage};
ghost use Rattle.nfs3streams.specs.Ports.{AreAllPorts, ArePorts, IsPort, parts_of};
ghost use Rattle.nfs3streams.specs.StreamsLine.{IsUsageUnless};

use line3::LineFault;
use std::alloc::{AllocError, Global};

/// Returns the ports that words name, such as `2049,20048`, one after another.
///
/// # Errors
///
/// - `Usage` if a word names none.
/// - `Memory` if memory ran out.
pub(crate) fn ports_named(alloc: Global, words: &[&str]) -> Result<Vec<u16>, LineFault>
    ensures ok { IfOk result (λ ports. AreAllPorts (map (λ s. s.now) words.now) ports.items) }
    ensures err { IfErr result (IsUsageUnless
        ((ports : List ℕ) × AreAllPorts (map (λ s. s.now) words.now) ports)) }
{
    let mut ports = Vec::new(alloc);
    for word in words {
        push_ports(alloc, &mut ports, word)?;
    }
    Ok(ports)
}

/// Appends the ports that a word names, with a comma between two.
fn push_ports(alloc: Global, ports: &mut Vec<u16>, word: &str) -> Result<(), LineFault>
    ensures ok { OnOk result ((named : List ℕ) × ArePorts (parts_of word.now) named
        × (ports.new.items ≡ ports.old.items ++ named)) }
    ensures err { IfErr result
        (IsUsageUnless ((named : List ℕ) × ArePorts (parts_of word.now) named)) }
{
    let mut rest = word;
    while let Some((first, behind)) = rest.split_once(',') {
        push_port(alloc, ports, first, word)?;
        rest = behind;
    }
    push_port(alloc, ports, rest, word)
}

/// Appends the port that a part of a word names.
fn push_port(alloc: Global, ports: &mut Vec<u16>, part: &str, word: &str) -> Result<(), LineFault>
    ensures ok { OnOk result ((port : ℕ) × IsPort part.now port
        × (ports.new.items ≡ ports.old.items ++ port ∷ [])) }
    ensures err { IfErr result (IsUsageUnless ((port : ℕ) × IsPort part.now port)) }
{
    let Some(port) = port_named(part) else {
        return Err(port_fault(alloc, word));
    };
    match ports.push(port) {
        Ok(()) => Ok(()),
        Err(_) => Err(LineFault::Memory),
    }
}

/// Returns the port that a text names.
fn port_named(text: &str) -> Option<u16>
    ensures { MatchOption result ((port : ℕ) → IsPort text.now port → ⊥) (IsPort text.now) }
{
    match text.parse::<u16>() {
        Ok(port) if port > 0 => Some(port),
        _ => None,
    }
}

/// Returns the fault of a word that names no ports.
fn port_fault(alloc: Global, word: &str) -> LineFault
    ensures { IsUsage result }
{
    let text: Result<String, AllocError> = format!(in alloc;
        "error: '{word}' names no ports, as 2049,20048

Usage: nfs3streams [OPTIONS] <RECORDING> <OUT>

For more information, try '--help'.
"
    );
    match text {
        Ok(text) => LineFault::Usage(text),
        Err(_) => LineFault::Memory,
    }
}
