// Presses on the panels.
ghost use Rattle.std.specs.Prelude.{◌≡◌};
ghost use Rattle.rl11.specs.Panel.{load_check, unload_check, protect_check, after_event_at, pressed, load_reply, after_load, unload_reply, after_unload, protect_reply, after_protect};
ghost use Rattle.rl11.specs.Machine.{machine_of};
ghost use Rattle.rl11.specs.State.{drive_at, is_loaded};
ghost use Rattle.rl11.specs.declared.drive.Event.TheVariants.{Load, Unload, Protect};

use crate::controller::Controller;
use crate::drive::{Drive, Event};
use crate::state::{State, UNITS};
use exchanges::refusals::PanelRefusal;
use media::kinds::Kind;
use media::memory::BusMemory;
use media::shelf::Shelf;

impl State {
    // The drive of a unit; a missing one where there is no such unit.
    fn drive(&self, unit: u8) -> Drive
        ensures { result ≡ drive_at self.now.drives unit }
    {
        self.drives
            .get(usize::from(unit))
            .copied()
            .unwrap_or(Drive::new(None))
    }

    // What happens to one drive.
    fn act(&mut self, unit: u8, event: Event)
        ensures { self.new ≡ after_event_at unit event self.old }
    {
        let unit = usize::from(unit);
        // By index, since the proof with `get_mut` does not close: after it nothing is known of a slice's elements.
        if unit < UNITS {
            self.drives[unit].act(event);
        }
    }

    // Whether a pack is in any of the drives.
    fn is_loaded(&self, pack: u8) -> bool
        ensures { result ≡ is_loaded pack self.now.drives }
    {
        self.drives.iter().any(|drive| drive.holds(pack))
    }

    // Whether a load press is accepted, with a pack of the offered kind, or with none.
    fn check_load(&self, unit: u8, pack: u8, offered: Option<Kind>) -> Result<(), PanelRefusal>
        ensures { result ≡ load_check unit pack offered self.now.drives }
    {
        let drive = self.drive(unit);
        let kind = drive.kind.ok_or(PanelRefusal::NoDrive)?;
        if !drive.is_empty() {
            return Err(PanelRefusal::NotEmpty);
        }
        let offered = offered.ok_or(PanelRefusal::NoPack)?;
        if offered != kind {
            return Err(PanelRefusal::OtherKind);
        }
        if self.is_loaded(pack) {
            return Err(PanelRefusal::InAnotherDrive);
        }
        Ok(())
    }

    // Whether an unload press is accepted.
    fn check_unload(&self, unit: u8) -> Result<(), PanelRefusal>
        ensures { result ≡ unload_check unit self.now.drives }
    {
        let drive = self.drive(unit);
        if !drive.exists() {
            Err(PanelRefusal::NoDrive)
        } else if drive.runs() {
            Ok(())
        } else {
            Err(PanelRefusal::NotRunning)
        }
    }

    /// A load press, with a pack of the offered kind, or with none.
    pub(crate) fn load(
        &mut self,
        unit: u8,
        pack: u8,
        offered: Option<Kind>,
    ) -> Result<(), PanelRefusal>
        ensures reply { result ≡ load_check unit pack offered self.old.drives }
        ensures after { self.new ≡ pressed (load_check unit pack offered self.old.drives) unit (Load pack) self.old }
    {
        self.check_load(unit, pack, offered)?;
        self.act(unit, Event::Load(pack));
        Ok(())
    }

    /// An unload press.
    pub(crate) fn unload(&mut self, unit: u8) -> Result<(), PanelRefusal>
        ensures reply { result ≡ unload_check unit self.old.drives }
        ensures after { self.new ≡ pressed (unload_check unit self.old.drives) unit Unload self.old }
    {
        self.check_unload(unit)?;
        self.act(unit, Event::Unload);
        Ok(())
    }

    /// A protect press.
    pub(crate) fn protect(&mut self, unit: u8) -> Result<(), PanelRefusal>
        ensures reply { result ≡ protect_check unit self.old.drives }
        ensures after { self.new ≡ pressed (protect_check unit self.old.drives) unit Protect self.old }
    {
        if !self.drive(unit).exists() {
            return Err(PanelRefusal::NoDrive);
        }
        self.act(unit, Event::Protect);
        Ok(())
    }
}

impl<S: Shelf, M: BusMemory> Controller<S, M> {
    /// A load press: puts a pack of the shelf into an empty drive, which spins up.
    pub fn load(&mut self, unit: u8, pack: u8) -> Result<(), PanelRefusal>
        ensures reply { result ≡ load_reply unit pack (machine_of S.Shelf.packs M.BusMemory.contents self.old) }
        ensures after { machine_of S.Shelf.packs M.BusMemory.contents self.new ≡ after_load unit pack (machine_of S.Shelf.packs M.BusMemory.contents self.old) }
    {
        let offered = self.shelf.kind(pack).ok();
        self.core.state.load(unit, pack, offered)
    }

    /// An unload press: a drive that runs unloads its heads and spins down.
    pub fn unload(&mut self, unit: u8) -> Result<(), PanelRefusal>
        ensures reply { result ≡ unload_reply unit (machine_of S.Shelf.packs M.BusMemory.contents self.old) }
        ensures after { machine_of S.Shelf.packs M.BusMemory.contents self.new ≡ after_unload unit (machine_of S.Shelf.packs M.BusMemory.contents self.old) }
    {
        self.core.state.unload(unit)
    }

    /// A protect press: turns the drive's protect switch over.
    pub fn protect(&mut self, unit: u8) -> Result<(), PanelRefusal>
        ensures reply { result ≡ protect_reply unit (machine_of S.Shelf.packs M.BusMemory.contents self.old) }
        ensures after { machine_of S.Shelf.packs M.BusMemory.contents self.new ≡ after_protect unit (machine_of S.Shelf.packs M.BusMemory.contents self.old) }
    {
        self.core.state.protect(unit)
    }
}
