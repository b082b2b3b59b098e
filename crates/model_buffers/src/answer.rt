// The answer of a call that builds a model, from what it counted or why it refused.
ghost use Rattle.std.specs.Prelude.{◌≡◌};
ghost use Rattle.model_buffers.specs.Answered.{model_answered};

use crate::{Counts, ModelAnswer};
use refusal::Refusal;

impl From<Result<Counts, Refusal>> for ModelAnswer {
    ghost from_gives = { λ r a. a ≡ model_answered r };

    fn from(counted: Result<Counts, Refusal>) -> ModelAnswer {
        match counted {
            Ok(counts) => ModelAnswer {
                number: 0,
                edges: counts.edges,
                entries: counts.entries,
                groups: counts.groups,
                blocked: counts.blocked,
            },
            Err(refusal) => ModelAnswer {
                number: u32::from(refusal),
                edges: 0,
                entries: 0,
                groups: 0,
                blocked: 0,
            },
        }
    }
}
