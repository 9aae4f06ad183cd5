// The panels of a container, and the operations of a step on them. Nothing is checked again: what is needed is required.
#![tactic(auto)]

ghost use Rattle.std.specs.Prelude.{◌≤◌, ◌<◌, ◌≡◌, [], ◌∷◌};
ghost use Rattle.panels.specs.Operations.{most_panels, remove_topmost, operations_in, good_operations};
ghost use Rattle.panels.specs.Stored.{no_panels, view_panels, hold_panels, pushed, IsClean, read_operation, written_operation, carried_or37};

use model::Refusal;

// Panels, bottom first: those below `count`. An array and a count: C reads it, and memory is fixed.
#[repr(C)]
#[derive(Clone, Copy)]
pub struct Panels {
    pub count: u8,
    pub panels: [u8; Panels::PANELS],
}

// An operation of a step: its panel is added on top; its topmost copy is removed; all panels are removed, and it is added.
#[derive(Clone, Copy)]
enum Operation {
    Add(u8),
    Remove(u8),
    Replace(u8),
}

impl Operation {
    // By its kind, 1 to 3: no other kind passes `good_operations`.
    fn of(kind: u8, p: u8) -> Operation
        ensures { result ≡ read_operation kind p }
    {
        match kind {
            1 => Operation::Add(p),
            2 => Operation::Remove(p),
            _ => Operation::Replace(p),
        }
    }
}

impl Panels {
    // The most panels that stand.
    pub const PANELS: usize = 8;

    pub const MOST: u8 = Panels::PANELS as u8;

    pub fn none() -> Panels
        ensures { result ≡ no_panels }
    {
        Panels {
            count: 0,
            panels: [0; Panels::PANELS],
        }
    }

    // One panel more on top.
    fn push(self, p: u8) -> Panels
        requires { self.count < most_panels }
        ensures { result ≡ pushed self p }
    {
        let h = usize::from(self.count);
        let mut out = self;
        out.panels[h] = p;
        out.count = self.count + 1;
        out
    }

    // What stands, and 0 beyond.
    pub fn cleaned(self) -> Panels
        requires { self.count ≤ most_panels }
        ensures { result ≡ hold_panels (view_panels self) }
    {
        let n = usize::from(self.count);
        let mut out = Panels::none();
        for x in &self.panels[..n] {
            out = out.push(*x);
        }
        out
    }

    // Without the topmost p: what stood below the last p seen, and all that came after it.
    fn without_topmost(self, p: u8) -> Panels
        requires { self.count ≤ most_panels }
        ensures { result ≡ hold_panels (remove_topmost p (view_panels self)) }
    {
        let n = usize::from(self.count);
        let mut all = Panels::none();
        let mut out = Panels::none();
        for x in &self.panels[..n] {
            out = if *x == p { all } else { out.push(*x) };
            all = all.push(*x);
        }
        out
    }

    // One operation: 37 where it would make a ninth panel.
    fn operate(self, operation: Operation) -> Result<Panels, Refusal>
        requires { IsClean self }
        ensures { result ≡ carried_or37 (written_operation operation ∷ []) (view_panels self) }
    {
        match operation {
            Operation::Add(_) if self.count == Panels::MOST => Err(Refusal::PanelsFull),
            Operation::Add(p) => Ok(self.push(p)),
            Operation::Remove(p) => Ok(self.without_topmost(p)),
            Operation::Replace(p) => Ok(Panels::none().push(p)),
        }
    }

    // The operations of a step, one after the other, two bytes each: a slice pattern takes them from what is left.
    pub fn carry(self, operations: &[u8]) -> Result<Panels, Refusal>
        requires { self.count ≤ most_panels }
        ensures { result ≡ carried_or37 (operations_in operations.now) (view_panels self) }
    {
        let mut out = self.cleaned();
        let mut left = operations;
        while let [kind, p, rest @ ..] = left {
            out = out.operate(Operation::of(*kind, *p))?;
            left = rest;
        }
        Ok(out)
    }
}

// 1 to 4 operations of kinds 1 to 3, kind and panel in turn, taken from what is left as they are carried out.
pub fn good_operations(operations: &[u8]) -> bool
    ensures { result ≡ good_operations operations.now }
{
    let length = operations.len();
    if (length != 2) & (length != 4) & (length != 6) & (length != 8) {
        return false;
    }
    let mut left = operations;
    while let [kind, _, rest @ ..] = left {
        if (*kind < 1) | (3 < *kind) {
            return false;
        }
        left = rest;
    }
    true
}
