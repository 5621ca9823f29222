// What a session answers, as text: a line for each order, then the margin, what each family loses, and the collateral that is
// free.
use crate::session::Session;
use calls::answer::{Answer, FamilyWorst, Requirement};
use std::fmt;
use terms::refusal::Refusal;

// A refusal as a line.
#[derive(Clone, Copy, Drop)]
pub struct Refused {
    pub why: Refusal,
}

impl fmt::Display for Refused {
    fn fmt<W: fmt::Write>(&self, f: &mut fmt::Formatter<W>) -> fmt::Result {
        writeln!(f, "{}", self.why)
    }
}

impl fmt::Display for Session {
    fn fmt<W: fmt::Write>(&self, f: &mut fmt::Formatter<W>) -> fmt::Result {
        for told in &self.told {
            match told {
                Ok(Answer::Numbered(number)) => writeln!(f, "(order {number})")?,
                Ok(Answer::Required(required)) => requirement(f, required, self.collateral)?,
                Ok(_) => {}
                Err(why) => write!(f, "{}", Refused { why: *why })?,
            }
        }
        Ok(())
    }
}

fn requirement<W: fmt::Write>(
    f: &mut fmt::Formatter<W>,
    required: &Requirement,
    collateral: u64,
) -> fmt::Result {
    let amount = required.amount;
    writeln!(f, "(margin {amount})")?;
    for (number, worst) in required.families.iter().enumerate() {
        if let Some(lost) = worst {
            family(f, number, lost)?;
        }
    }
    let free = collateral.saturating_sub(amount);
    writeln!(f, "(free {free})")
}

fn family<W: fmt::Write>(
    f: &mut fmt::Formatter<W>,
    number: usize,
    lost: &FamilyWorst,
) -> fmt::Result {
    let loss = lost.loss;
    let point = lost.point;
    // A family that loses nothing has no worst point to tell.
    if loss == 0 {
        writeln!(f, "(family {number} (loss 0) (out))")
    } else {
        writeln!(f, "(family {number} (loss {loss}) (point {point}))")
    }
}
