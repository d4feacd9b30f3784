ghost use Rattle.std.specs.Prelude.{◌≡◌, ◌≤◌, MatchOption};
ghost use Rattle.steps.specs.Ranges.{IsUnit, IsCode};

// A step as early cards write it: the unit of the card that took it, 0 to 63, and that unit's code for it, 0 to
// 16,777,215.
#[derive(Clone, Copy, PartialEq, Eq, Debug)]
pub struct Code {
    unit: u8,
    code: u32,
    ghost lawful: { IsUnit unit × IsCode code },
}

impl Code {
    // The code of a unit, or none where either is out of range.
    pub fn new(unit: u8, code: u32) -> Option<Code>
        ensures { MatchOption result (IsUnit unit → IsCode code → ⊥) (λ c. (c.unit ≡ unit) × (c.code ≡ code)) }
    {
        if unit > 63 || code > 16_777_215 {
            return None;
        }
        Some(Code { unit, code })
    }

    pub fn unit(&self) -> u8
        ensures { (result ≡ self.now.unit) × (IsUnit result) }
    {
        self.unit
    }

    pub fn code(&self) -> u32
        ensures { (result ≡ self.now.code) × (IsCode result) }
    {
        self.code
    }
}
