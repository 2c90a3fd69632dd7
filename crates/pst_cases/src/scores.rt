//! How many cases there were, and which of them were answered otherwise than they must be.
use std::io;

/// The cases so far.
#[derive(Drop)]
pub struct Score {
    cases: u32,
    wrong: u32,
}

impl Score {
    /// No cases.
    pub fn new() -> Score {
        Score { cases: 0, wrong: 0 }
    }

    /// Counts a case, and prints it where its answer isn't the one that must come.
    pub fn count<R: Print>(
        &mut self,
        rt: &R,
        case: &str,
        wanted: &str,
        found: &str,
    ) -> io::Result<()> {
        self.cases = self.cases.wrapping_add(1);
        if wanted == found {
            return Ok(());
        }
        self.wrong = self.wrong.wrapping_add(1);
        println!(rt; "wrong: {case}\n  must be {wanted}\n  but is {found}")
    }

    /// Prints how many cases there were, and how many were answered wrongly.
    pub fn print<R: Print>(&self, rt: &R) -> io::Result<()> {
        let cases = self.cases;
        let wrong = self.wrong;
        println!(rt; "{cases} cases, {wrong} wrong")
    }
}
