// Panels inside a screen: a container of panels, its recorded steps, and the two calls on it.
#![tactic(auto)]

ghost use Rattle.std.specs.Prelude.{◌≤◌, ◌<◌, ◌≡◌, true, map, take};
ghost use Rattle.model.specs.Lists.{all};
ghost use Rattle.panels.specs.Operations.{most_panels};
ghost use Rattle.panels.specs.Stored.{view_panels, hold_panels};
ghost use Rattle.container.specs.Calls.{most_steps, state, Call};
ghost use Rattle.container.specs.Stored.{empty_container, hold, with_kept, fits, good_container, called, called_as, step_of};
ghost use Rattle.container.specs.Promised.{KeepsPromise, BackRestores};

use model::Refusal;
use panels::Panels;

// The panels now, how many steps are recorded, and the panels that each of them found, oldest first. An array and a count, as panels
// are.
#[repr(C)]
#[derive(Clone, Copy)]
pub struct Container {
    pub now: Panels,
    pub steps: u8,
    pub kept: [Panels; Container::STEPS],
}

impl Container {
    // The most steps that are recorded.
    pub const STEPS: usize = 8;

    pub const MOST: u8 = Container::STEPS as u8;

    // A container without panels and without steps.
    pub fn empty() -> Container
        ensures { result ≡ empty_container }
    {
        let none = Panels::none();
        Container {
            now: none,
            steps: 0,
            kept: [none; Container::STEPS],
        }
    }

    // At most 8 steps, and at most 8 panels now and in each recorded step.
    fn good(&self) -> bool
        ensures { result ≡ good_container self.entry.now }
    {
        let n = usize::from(self.steps);
        if (Container::STEPS < n) | (Panels::MOST < self.now.count) {
            return false;
        }
        self.kept[..n].iter().all(|q| q.count <= Panels::MOST)
    }

    // One step more, which found these panels.
    fn keep(self, found: Panels) -> Container
        requires steps { self.steps < most_steps }
        requires found { found.count ≤ most_panels }
        ensures { result ≡ with_kept self (hold_panels (view_panels found)) }
    {
        let h = usize::from(self.steps);
        let mut out = self;
        out.kept[h] = found.cleaned();
        out.steps = self.steps + 1;
        out
    }

    // These panels, and the first steps of this container, so many; 0 beyond.
    fn settled(self, shown: Panels, steps: u8) -> Container
        requires shown { shown.count ≤ most_panels }
        requires steps { steps ≤ most_steps }
        requires kept { all fits (take steps self.kept) ≡ true }
        ensures { result ≡ hold (state (view_panels shown) (map view_panels (take steps self.kept))) }
    {
        let mut out = Container::empty();
        out.now = shown.cleaned();
        let n = usize::from(steps);
        for q in &self.kept[..n] {
            out = out.keep(*q);
        }
        out
    }

    // Undoes the last recorded step: 36 for a container that is not good, 38 where no step is recorded.
    pub fn back(self) -> Result<Container, Refusal>
        ensures gives { called_as self result ≡ called Call.back self }
        ensures undoes { BackRestores }
        ensures promise { KeepsPromise }
    {
        if !self.good() {
            return Err(Refusal::StepUnsound);
        }
        let steps = self.steps;
        if steps == 0 {
            return Err(Refusal::StepsOrder);
        }
        let found = self.kept[usize::from(steps - 1)];
        Ok(self.settled(found, steps - 1))
    }

    // Carries out a step, recorded or (0) not: its operations are kind and panel in turn. 36 for operations or a container that are
    // not good, 37 where one makes a ninth panel, 38 for a step that has no place. `recorded` is the C interface's byte.
    pub fn step(self, recorded: u8, operations: &[u8]) -> Result<Container, Refusal>
        ensures gives { called_as self result ≡ called (step_of recorded operations.now) self }
        ensures promise { KeepsPromise }
    {
        if !panels::good_operations(operations) | !self.good() {
            return Err(Refusal::StepUnsound);
        }
        let shown = self.now.carry(operations)?;
        let steps = self.steps;
        if ((recorded == 0) & (steps != 0)) | ((recorded != 0) & (steps == Container::MOST)) {
            return Err(Refusal::StepsOrder);
        }
        let out = self.settled(shown, steps);
        if recorded == 0 {
            return Ok(out);
        }
        Ok(out.keep(self.now))
    }
}
