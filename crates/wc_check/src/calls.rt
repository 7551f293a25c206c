//! The input ports of a library's definitions, as calls meet them.

ghost use Rattle.std.specs.Prelude.{◌≡◌, ◌∷◌, ◌++◌, List, OnOk, IfOk};
ghost use Rattle.std.specs.Option.{option_copied};
ghost use Rattle.wc_syntax.specs.declared.definition.Definition.{Definition};
ghost use Rattle.wc_syntax.specs.Findings.{required_name, required_names, called_ports};
ghost use Rattle.wc_check.specs.Flat.{behind};
ghost use Rattle.wc_check.specs.Least.{Agree};
ghost use Rattle.wc_check.specs.Signed.{IsSignature, FitsFound, AreSignatures};

use crate::names::Names;
use crate::repeats::{head_of, names_of};
use std::alloc::{AllocError, Global};
use std::collections::BTreeMap;
use std::marker::Model;
use wc_syntax::{CallStmt, Definition, Port};

/// The input ports of a definition, as its callers meet them.
#[derive(Drop)]
pub struct Signature<'a> {
    /// Their names.
    pub ports: Names,
    /// The names of those that may not be left out, each once.
    pub required: Vec<&'a str>,
}

/// Adds a port's name, where it may not be left out and isn't there.
fn put_required<'a>(
    alloc: Global,
    seen: &mut Names,
    required: &mut Vec<&'a str>,
    port: &'a Port,
) -> Result<(), AllocError>
    requires { Agree seen.old (behind required.old.items) }
    ensures same { OnOk result (Agree seen.new (behind required.new.items)) }
    ensures more { OnOk result (Agree (behind required.new.items) (behind required.old.items ++ required_name port.now)) }
{
    if port.optional {
        return Ok(());
    }
    let name = port.name.text.as_str();
    if seen.add(alloc, name)? {
        required.push(name)?;
    }
    Ok(())
}

/// The names of the ports that may not be left out, each once.
fn required_of<'a>(alloc: Global, ports: &'a [Port]) -> Result<Vec<&'a str>, AllocError>
    ensures { IfOk result (λ names. Agree (behind names.items) (required_names ports.now)) }
{
    let mut seen = Names::new(alloc);
    let mut required = Vec::new(alloc);
    for port in ports {
        put_required(alloc, &mut seen, &mut required, port)?;
    }
    Ok(required)
}

/// The names of all ports, and of those that a call has to give.
fn signature_of<'a>(alloc: Global, ports: &'a [Port]) -> Result<Signature<'a>, AllocError>
    ensures { IfOk result (λ s. IsSignature s ports.now) }
{
    let required = required_of(alloc, ports)?;
    let ports = names_of(alloc, ports)?;
    Ok(Signature { ports, required })
}

/// The signatures of a library's definitions by their names. Contracts see the library.
#[derive(Drop)]
pub struct Signatures<'a> {
    library: &'a [Definition],
    of: BTreeMap<Vec<u8>, Signature<'a>>,
}

impl<'a> Model for Signatures<'a> {
    ghost use Rattle.std.specs.Prelude.{List};
    ghost use Rattle.std.specs.Coded.{coded_list};
    ghost use Rattle.wc_syntax.specs.declared.definition.Definition.{Definition};
    ghost use Rattle.wc_syntax.specs.contracts.definition.Definition as row;
    ghost use Rattle.wc_check.specs.Signed.{AreSignatures};

    ghost Value = { List Definition };

    ghost coded = { coded_list row.the_row.coded };

    ghost view = { λ s. s.library.now };

    ghost invariant = { λ s. AreSignatures s.of s.library.now };
}

/// Puts the signature of a definition before those of the definitions behind it.
fn put_signature<'a>(
    alloc: Global,
    signatures: &mut BTreeMap<Vec<u8>, Signature<'a>>,
    definition: &'a Definition,
) -> Result<(), AllocError>
    ensures { OnOk result ((library : List Definition) → AreSignatures signatures.old library → AreSignatures signatures.new (definition.now ∷ library)) }
{
    let head = head_of(definition);
    let signature = signature_of(alloc, head.inputs.as_slice())?;
    let name = Vec::from_slice(alloc, head.name.text.bytes())?;
    signatures.insert(name, signature)?;
    Ok(())
}

/// The signature of each definition by its name; of two with one name that of the first.
fn all_signatures<'a>(
    alloc: Global,
    library: &'a [Definition],
) -> Result<BTreeMap<Vec<u8>, Signature<'a>>, AllocError>
    ensures { IfOk result (λ signatures. AreSignatures signatures library.now) }
{
    let mut signatures = BTreeMap::new(alloc);
    let mut at = library.len();
    while at > 0 {
        at -= 1;
        put_signature(alloc, &mut signatures, &library[at])?;
    }
    Ok(signatures)
}

impl<'a> Signatures<'a> {
    /// The signatures of a library's definitions.
    pub fn of(alloc: Global, library: &'a [Definition]) -> Result<Signatures<'a>, AllocError>
        ensures { IfOk result (λ s. s ≡ library.now) }
    {
        let of = all_signatures(alloc, library)?;
        Ok(Signatures { library, of })
    }

    /// The signature of what is called, or none where that isn't there.
    pub fn called(&self, call: &CallStmt) -> Option<&Signature<'a>>
        ensures { FitsFound (option_copied result) (called_ports self.now call.now) }
    {
        self.of.get(call.callee.text.bytes())
    }
}
