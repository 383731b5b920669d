//! The width of a module.

ghost use Rattle.std.specs.Prelude.{◌≡◌, ◌↔◌, ◌≤◌, IfSome, IsSome};

/// A width of 1 to 4,095 steps of 10 nm.
#[derive(Clone, Copy)]
pub struct Width {
    steps: u16,
    ghost least: { 1 ≤ steps },
    ghost most: { steps ≤ 4095 },
}

impl Width {
    /// The width of that many steps, or None where no module is that narrow or wide.
    pub fn new(steps: u16) -> Option<Width>
        ensures fits { IsSome result ↔ ((1 ≤ steps) × (steps ≤ 4095)) }
        ensures value { IfSome result (λ w. w.steps ≡ steps) }
    {
        if (1..=4095).contains(&steps) {
            Some(Width { steps })
        } else {
            None
        }
    }

    /// How many steps of 10 nm it has.
    pub fn steps(self) -> u16
        ensures { result ≡ self.steps }
    {
        self.steps
    }
}
