//! The canonical text of a bundle's parts.
ghost use Rattle.std.specs.Prelude.{◌≡◌, ◌++◌, OnOk, IfOk};
ghost use Rattle.bundle_format.specs.Canonical.{canonical_domains, canonical_text};

use crate::put::put;
use bundle_syntax::{write_clients, write_plan};
use domain_code::write_domain;
use idl_syntax::write_idl;
use rl_defs::bundle::Bundle;
use rl_defs::code::DomainText;
use std::alloc::{AllocError, Global};

// Puts the domains, one behind the other.
fn put_domains(alloc: Global, out: &mut Vec<u8>, domains: &[DomainText]) -> Result<(), AllocError>
    ensures { OnOk result (out.new.items ≡ out.old.items ++ canonical_domains domains.now) }
{
    'domains: for domain in domains {
        let text = write_domain(alloc, domain)?;
        put(out, &text)?;
    }
    Ok(())
}

/// The canonical text of the parts, one behind the other, without their headers.
pub(crate) fn canonical_text(alloc: Global, bundle: &Bundle) -> Result<Vec<u8>, AllocError>
    ensures { IfOk result (λ v. v.items ≡ canonical_text bundle.now) }
{
    let mut out = write_idl(alloc, &bundle.idl)?;
    put_domains(alloc, &mut out, bundle.domains.as_slice())?;
    let plan = write_plan(alloc, &bundle.plan)?;
    put(&mut out, &plan)?;
    let clients = write_clients(alloc, &bundle.clients)?;
    put(&mut out, &clients)?;
    Ok(out)
}
