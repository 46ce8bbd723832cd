//! A user's blocks that are purged at its request.

ghost use Rattle.std.specs.Prelude.{◌≡◌, Some, None, IfOk, IfErr};
ghost use Rattle.omf_io.specs.Files.{FileMap};
ghost use Rattle.loader_machine.specs.Rule.{RoomRule};
ghost use Rattle.loader_machine.specs.State.{Machine};
ghost use Rattle.loader_machine.specs.Commands.{Purge};
ghost use Rattle.loader_machine.specs.Refusals.{purge_refusal};
ghost use Rattle.loader_agrees.specs.Agrees.{Agrees, Met, seen_by};
ghost use Rattle.sys_loader.specs.Lives.{purge_reply, DidPurge};

use crate::loader::Loader;
use loader_machine::LoaderFault;

/// The user that is the script.
const SCRIPT: u16 = 0;

impl Loader {
    // Whether the ID is the script's or a user's.
    fn purgeable(&self, user: u16) -> Result<(), LoaderFault>
        ensures ok { IfOk result (λ _. purge_refusal (seen_by self.now user) user ≡ None) }
        ensures err { IfErr result (λ fault. purge_refusal (seen_by self.now user) user ≡ Some fault) }
    {
        if user == SCRIPT {
            return Ok(());
        }
        match self.user(user) {
            Some(_) => Ok(()),
            None => Err(LoaderFault::NoUser),
        }
    }

    // Empties the purgeable blocks of a user, and counts them.
    fn purge_blocks(&mut self, user: u16) -> Result<u32, LoaderFault>
        ensures did { DidPurge self.old user result self.new }
    {
        self.purgeable(user)?;
        Ok(self.banks.purge_user(user))
    }

    /// Empties the purgeable blocks of a user, and counts them: those of its idle segments, or with user 0 the script's. Their
    /// handles stay.
    pub fn purge(&mut self, user: u16) -> Result<u32, LoaderFault>
        // Over files with which the loader agrees, it is the machine's step.
        ensures meets { (held : FileMap) (state : Machine) → Agrees held self.old state → Met RoomRule held state (Purge user) (purge_reply result) self.new }

        // Over any files this much of it holds.
        ensures did { DidPurge self.old user result self.new }
    {
        self.recall_invariant();
        self.purge_blocks(user)
    }
}
