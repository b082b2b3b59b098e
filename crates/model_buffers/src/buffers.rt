// The eight lent buffers of a model.
ghost use Rattle.std.specs.Prelude.{◌≡◌};
ghost use Rattle.model_buffers.specs.Lent.{held};
ghost use Rattle.model_buffers.specs.Buffers.{lengths_of};

use crate::Lengths;

// What each node supplies, the four buffers of edges, and the three of groups and blocked edges.
#[derive(Drop)]
pub struct LentBuffers<'a> {
    pub supplies: &'a mut [i32],
    pub from: &'a mut [u16],
    pub to: &'a mut [u16],
    pub max: &'a mut [u32],
    pub cost: &'a mut [i64],
    pub entries: &'a mut [u16],
    pub ends: &'a mut [u16],
    pub blocked: &'a mut [u16],
}

impl<'a> LentBuffers<'a> {
    // How long each buffer is.
    pub fn lengths(&self) -> Lengths
        ensures { result ≡ lengths_of (held self.now) }
    {
        Lengths {
            supplies: self.supplies.len(),
            from: self.from.len(),
            to: self.to.len(),
            max: self.max.len(),
            cost: self.cost.len(),
            entries: self.entries.len(),
            ends: self.ends.len(),
            blocked: self.blocked.len(),
        }
    }
}
