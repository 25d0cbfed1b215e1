//! The folder in which snapshots stand.
use crate::error::FolderError;

/// A folder of snapshots: that of the host, or what a test puts in its place. One snapshot of it is the current one, if
/// there is any. A call that fails may leave something behind that nobody is shown.
pub trait Folder {
    ghost use Rattle.std.specs.Prelude.{◌≡◌, List, [], ◌∷◌, Option, Bool, OnOk, OnErr, IfOk, IfErr};
    ghost use Rattle.snapshots.specs.Files.{File};
    ghost use Rattle.snapshots.specs.Deeds.{Deed, then_done};
    ghost use Rattle.snapshots.specs.Deeds.Deed.{Begin, Put, Show};
    ghost use Rattle.snapshots.specs.declared.error.FolderError.TheVariants.{Unusable};

    // What has been done in the folder, if that is known.
    ghost done: { Self → Option (List Deed) };

    // Whether the current snapshot has this file, with these bytes, may be answered so.
    ghost shows: { Self → File → Bool → Type 0 };

    // Whether a call may answer that the folder, as it is then, is unusable.
    ghost fails: { Self → Type 0 };

    /// Whether the current snapshot has a file of this name and these bytes. Without a current one it has not.
    fn holds(&self, name: &str, bytes: &[u8]) -> Result<bool, FolderError>
        ensures ok { IfOk result (λ yes. shows self.now (name.now, bytes.now) yes) }
        ensures fault { IfErr result (λ error. error ≡ Unusable → fails self.now) };

    /// Makes a folder for a new snapshot.
    fn begin(&mut self) -> Result<(), FolderError>
        ensures ok { OnOk result (done self.new ≡ then_done (done self.old) (Begin ∷ [])) }
        ensures err { OnErr result (done self.new ≡ done self.old) }
        ensures fault { IfErr result (λ error. error ≡ Unusable → fails self.old) };

    /// Writes a file into it.
    fn put(&mut self, name: &str, bytes: &[u8]) -> Result<(), FolderError>
        ensures ok { OnOk result (done self.new ≡ then_done (done self.old) (Put (name.now, bytes.now) ∷ [])) }
        ensures err { OnErr result (done self.new ≡ done self.old) }
        ensures fault { IfErr result (λ error. error ≡ Unusable → fails self.old) };

    /// Makes it the current one, in one step.
    fn show(&mut self) -> Result<(), FolderError>
        ensures ok { OnOk result (done self.new ≡ then_done (done self.old) (Show ∷ [])) }
        ensures err { OnErr result (done self.new ≡ done self.old) }
        ensures fault { IfErr result (λ error. error ≡ Unusable → fails self.old) };
}
