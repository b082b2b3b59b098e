// What the program prints, part by part.
use constraint::Constraint;
use refusal::Refusal;
use score::Score;
use std::cmp::Ordering;
use std::fmt;

// Whether a call is accepted, or the number of its refusal.
#[derive(Clone, Copy)]
pub(crate) struct Outcome<'a, T>(pub(crate) &'a Result<T, Refusal>);

impl<'a, T> fmt::Display for Outcome<'a, T> {
    fn fmt<W: fmt::Write>(&self, f: &mut fmt::Formatter<W>) -> fmt::Result {
        match self.0 {
            Ok(_) => write!(f, "accepted"),
            Err(refusal) => write!(f, "refused by {}", u32::from(*refusal)),
        }
    }
}

// A verdict, or why it is refused.
#[derive(Clone, Copy)]
pub(crate) struct Verdict(pub(crate) Result<bool, Refusal>);

impl fmt::Display for Verdict {
    fn fmt<W: fmt::Write>(&self, f: &mut fmt::Formatter<W>) -> fmt::Result {
        match self.0 {
            Ok(true) => write!(f, "yes"),
            Ok(false) => write!(f, "no"),
            Err(refusal) => write!(f, "refused: {refusal}"),
        }
    }
}

// The numbers of a list, each with a blank before it.
#[derive(Clone, Copy)]
pub(crate) struct Listed<'a, T>(pub(crate) &'a [T]);

impl<'a, T: fmt::Display> fmt::Display for Listed<'a, T> {
    fn fmt<W: fmt::Write>(&self, f: &mut fmt::Formatter<W>) -> fmt::Result {
        for x in self.0 {
            write!(f, " {x}")?;
        }
        Ok(())
    }
}

// A float from 0 on to its hundredths, and one that is negative or too large by its bits.
#[derive(Clone, Copy)]
struct Hundredths(f32);

impl fmt::Display for Hundredths {
    fn fmt<W: fmt::Write>(&self, f: &mut fmt::Formatter<W>) -> fmt::Result {
        let x = self.0;
        if x != x {
            return write!(f, "NaN");
        }
        let hundredths = x * 100.0;
        // The cast asks for the last two tests.
        if !(x < 0.0) && -1.0 < hundredths && hundredths < 18446744073709551616.0 {
            let n = std::num::truncating_f32_to_u64(hundredths);
            let rest = n % 100;
            write!(f, "{}", n / 100)?;
            if rest != 0 {
                write!(f, ".{rest:02}")?;
            }
            return Ok(());
        }
        write!(f, "bits {:08x}", score::bits(x))
    }
}

#[derive(Clone, Copy)]
pub(crate) struct Printed(pub(crate) Score);

impl fmt::Display for Printed {
    fn fmt<W: fmt::Write>(&self, f: &mut fmt::Formatter<W>) -> fmt::Result {
        let major = Hundredths(self.0.major);
        let minor = Hundredths(self.0.minor);
        write!(f, "({major},{minor})")
    }
}

// An order by its word.
#[derive(Clone, Copy)]
pub(crate) struct Named(pub(crate) Ordering);

impl fmt::Display for Named {
    fn fmt<W: fmt::Write>(&self, f: &mut fmt::Formatter<W>) -> fmt::Result {
        match self.0 {
            Ordering::Less => write!(f, "less"),
            Ordering::Equal => write!(f, "equal"),
            Ordering::Greater => write!(f, "greater"),
        }
    }
}

#[derive(Clone, Copy)]
pub(crate) struct Parts(pub(crate) Constraint);

impl fmt::Display for Parts {
    fn fmt<W: fmt::Write>(&self, f: &mut fmt::Formatter<W>) -> fmt::Result {
        let c = self.0;
        write!(
            f,
            "kind {}, left {}, target case {}, target {}, extra case {}, extra {}",
            u32::from(c.kind),
            c.left,
            c.right.case(),
            c.right.operand(),
            c.extra.case(),
            c.extra.operand(),
        )
    }
}
