// What a warning tells of things that were met: how many, and the place of the first.
// No `Option` for the place: `Tells` says that it is 0 where nothing was met.
#![tactic(auto)]

ghost use Rattle.std.specs.Prelude.{◌<◌, ◌≡◌, []};
ghost use Rattle.notes.specs.Places.{noted_at, Tells};

#[derive(Clone, Copy)]
pub struct Notes {
    pub count: usize,
    pub first: usize,
}

impl Notes {
    // Nothing was met.
    pub fn none() -> Notes
        ensures { Tells [] result }
    {
        Notes { count: 0, first: 0 }
    }

    // Another one was met at this place, where `met` says so.
    pub fn noted(self, met: bool, place: usize) -> Notes
        requires { self.count < 0xFFFFFFFFFFFFFFFF }
        ensures { result ≡ noted_at self met place }
    {
        if !met {
            return self;
        }
        if self.count == 0 {
            return Notes {
                count: 1,
                first: place,
            };
        }
        Notes {
            count: self.count + 1,
            first: self.first,
        }
    }
}
