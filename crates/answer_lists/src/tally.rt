// How many cases of a list agree.
ghost use Rattle.std.specs.Prelude.{◌≡◌};
ghost use Rattle.answer_lists.specs.Tallies.{none, counted};

use std::fmt;

// first: the number of the first case that does not agree, counted from 1; none where all do.
#[derive(Clone, Copy)]
pub struct Tally {
    pub cases: u32,
    pub agreed: u32,
    pub first: Option<u32>,
}

impl Tally {
    pub fn new() -> Tally
        ensures { result ≡ none }
    {
        Tally {
            cases: 0,
            agreed: 0,
            first: None,
        }
    }

    // One case more. A counter stops at the largest number that it holds.
    pub fn counted(self, agrees: bool) -> Tally
        ensures { result ≡ counted self agrees }
    {
        let cases = self.cases.saturating_add(1);
        if agrees {
            return Tally {
                cases,
                agreed: self.agreed.saturating_add(1),
                ..self
            };
        }
        Tally {
            cases,
            first: self.first.or(Some(cases)),
            ..self
        }
    }
}

// The line of a list, but for its name.
impl fmt::Display for Tally {
    fn fmt<W: fmt::Write>(&self, f: &mut fmt::Formatter<W>) -> fmt::Result {
        let agreed = self.agreed;
        let cases = self.cases;
        write!(f, "{agreed} of {cases} agree")?;
        if let Some(first) = self.first {
            write!(f, ", the first that does not is {first}")?;
        }
        Ok(())
    }
}
