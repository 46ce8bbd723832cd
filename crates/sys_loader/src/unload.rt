//! Dynamic segments that are let go.

ghost use Rattle.std.specs.Prelude.{◌≡◌, Some, IfOk, IfErr};
ghost use Rattle.omf_io.specs.Files.{FileMap};
ghost use Rattle.loader_machine.specs.Rule.{RoomRule};
ghost use Rattle.loader_machine.specs.State.{Machine};
ghost use Rattle.loader_machine.specs.Commands.{UnloadSegment};
ghost use Rattle.loader_machine.specs.Refusals.{unload_refusal};
ghost use Rattle.loader_agrees.specs.Agrees.{Agrees, Met, seen_by};
ghost use Rattle.sys_loader.specs.Replies.{done_reply};
ghost use Rattle.sys_loader.specs.Lives.{CanUnload, DidUnload};

use crate::loader::Loader;
use iigs_meaning::Handle;
use loader_machine::LoaderFault;
use loader_users::{active, idle, is_dynamic, relink_tables, user_in};

impl Loader {
    // The handle of an active segment that can be let go.
    fn unloadable(&self, id: u16, number: u16) -> Result<Handle, LoaderFault>
        ensures can { IfOk result (λ h. CanUnload self.now id number h) }
        ensures refused { IfErr result (λ fault. unload_refusal self.now.memory.slots (seen_by self.now id) number ≡ Some fault) }
    {
        let user = self.running(id)?;
        let segment = user.kept_segment(number)?;
        if !is_dynamic(&segment.head) {
            return Err(LoaderFault::Static);
        }
        active(&self.banks, segment.handle)
    }

    // Lets a segment go, and its entries call the loader.
    fn let_go(&mut self, user: u16, segment: u16) -> Result<(), LoaderFault>
        ensures did { DidUnload self.old user segment result self.new }
    {
        self.recall_invariant();
        let h = self.unloadable(user, segment)?;
        let (owner, file) = self.led_by(user);
        let lead = user_in(&self.users, owner);
        relink_tables(&mut self.banks, &lead.segments, Some((file, segment)), None);
        idle(&mut self.banks, h);
        Ok(())
    }

    /// Lets an active dynamic segment of a user that runs go: it is idle then, and can be purged. The entries for it, of the user's
    /// jump table or of that of the user to which it is attached, call the loader again. It takes no memory.
    pub fn unload_segment(&mut self, user: u16, segment: u16) -> Result<(), LoaderFault>
        // Over files with which the loader agrees, it is the machine's step.
        ensures meets { (held : FileMap) (state : Machine) → Agrees held self.old state
            → Met RoomRule held state (UnloadSegment user segment) (done_reply result) self.new }

        // Over any files this much of it holds.
        ensures did { DidUnload self.old user segment result self.new }
    {
        self.recall_invariant();
        self.let_go(user, segment)
    }
}
