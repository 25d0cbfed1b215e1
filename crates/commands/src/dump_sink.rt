//! What is made of a dump while it is read.
use frame_front::Migration;
use spiffe_doc::{Bundle, Memory, TrustDomain};
use std::alloc::AllocError;

/// Takes what comes of a dump: its bytes, and its domains in order of their names. Nothing is known of the dump before it has been
/// read to its end, so what is made of it is not to be shown before.
pub trait DumpSink {
    ghost use Rattle.std.specs.Prelude.{◌≡◌, ◌++◌, ◌∷◌, [], ℕ, List, OnOk};
    ghost use Rattle.frame_front.specs.Dump.{Domains};

    // What it is after these bytes and these domains.
    ghost holds: { Self → List ℕ → Domains → Type 0 };

    // What stays as it was.
    ghost Kept: { Type 0 } = { Unit {0} };

    ghost kept: { Self → Self.Kept };

    /// Takes the next bytes.
    fn take_bytes(&mut self, piece: &[u8])
        ensures came { (came : List ℕ) (items : Domains) → Self.holds self.old came items → Self.holds self.new (came ++ piece.now) items }
        ensures kept { Self.kept self.new ≡ Self.kept self.old };

    /// Takes the next domain.
    fn take_domain(&mut self, domain: TrustDomain, bundle: Bundle) -> Result<(), Memory>
        ensures came { OnOk result ((came : List ℕ) (items : Domains) → Self.holds self.old came items
            → Self.holds self.new came (items ++ (domain, bundle) ∷ [])) }
        ensures kept { Self.kept self.new ≡ Self.kept self.old };
}

/// All domains are kept, in their order.
impl DumpSink for Vec<(TrustDomain, Bundle)> {
    ghost use Rattle.std.specs.Prelude.{◌≡◌};

    ghost holds = { λ domains came items. domains.items ≡ items };

    ghost kept = { λ _. tt };

    fn take_bytes(&mut self, _piece: &[u8]) {}

    fn take_domain(&mut self, domain: TrustDomain, bundle: Bundle) -> Result<(), Memory> {
        match self.push((domain, bundle)) {
            Ok(()) => Ok(()),
            Err(_) => Err(AllocError),
        }
    }
}

/// The requests that store again what comes.
impl DumpSink for Migration {
    ghost use Rattle.std.specs.Prelude.{◌≡◌, []};
    ghost use Rattle.wire.specs.Frame.{stream_of};
    ghost use Rattle.frame_front.specs.Dump.{requests_for};

    ghost holds = { λ migration came items. migration ≡ stream_of (requests_for items) [] };

    ghost kept = { λ _. tt };

    fn take_bytes(&mut self, _piece: &[u8]) {}

    fn take_domain(&mut self, domain: TrustDomain, bundle: Bundle) -> Result<(), Memory> {
        self.add(&domain, &bundle)?;
        Ok(())
    }
}
