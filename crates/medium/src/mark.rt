// The mark: what a medium keeps through every cut.

// An epoch, and where each file's live blocks start and end. Starts and ends are two lists, since the rules replace
// each as a whole and from another source: starts by the counts noted when a checkpoint began, ends by synced counts.
#[derive(Clone, Copy, PartialEq, Eq, Debug)]
pub struct Mark {
    pub epoch: u32,
    pub starts: [u32; 8],
    pub ends: [u32; 8],
}

ghost use Rattle.std.specs.Prelude.{◌≡◌};
ghost use Rattle.medium.specs.Sound.{zeros};

impl Mark {
    // The mark of a fresh medium.
    pub fn zeros() -> Mark
        ensures { result ≡ zeros }
    {
        Mark {
            epoch: 0,
            starts: [0; 8],
            ends: [0; 8],
        }
    }
}
