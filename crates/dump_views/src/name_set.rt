//! Names, to be found without comparing each with all.
ghost use Rattle.std.specs.Prelude.{◌≡◌, ◌||◌, ℕ, List, bytes_eq, OnOk};
ghost use Rattle.dump_views.specs.Private.Names.{has};

use spiffe_doc::TrustDomain;
use std::alloc::AllocError;
use std::collections::BTreeSet;

/// Adds a name, unless it is there.
pub(crate) fn insert_name(
    names: &mut BTreeSet<TrustDomain>,
    name: TrustDomain,
) -> Result<(), AllocError>
    ensures { OnOk result ((other : List ℕ) → has names.new other ≡ (bytes_eq name other || has names.old other)) }
{
    names.insert(name)?;
    Ok(())
}
